//! The program of a circuit's tree, or why it has none; and the program of a circuit's text.
#![tactic(auto)]

mod counts;
pub mod laws;
mod observables;
mod programs;
mod refusals;
mod targets;
mod totals;

pub use circuit_walk::{Program, Walk};
pub use programs::{read_program, unroll};
