//! Signed Pauli words (Stim's Pauli strings): letters I, X, Y and Z with a sign, their products, and which of them
//! commute.
#![tactic(auto)]

pub mod laws;
mod letter;
mod word;

pub use letter::Letter;
pub use word::Word;
