//! The gates, by what each does to Pauli letters: images, inverses and names.
#![tactic(auto)]

mod gate;
pub mod laws;
mod names;
mod table;

pub use gate::Gate;
