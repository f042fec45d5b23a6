//! The stabilizer tableau: the state of n qubits under gates, Pauli words and measurements. (Aaronson and Gottesman,
//! Phys. Rev. A 70, 052328; the tableau of the inverse circuit: Gidney, Quantum 5, 497 (2021).)
#![tactic(auto)]

mod codes;
mod collapse;
mod controlled;
mod decode;
mod gates;
mod measure;
mod pairs;
mod products;
mod tableau;
mod waiting_turns;

pub use products::Factors;
pub use tableau::{Tableau, WaitingTableau, laws};
