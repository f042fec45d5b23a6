//! The list of a program's faults, as text.
#![tactic(auto)]

mod blocks;
mod counter;
mod factors;
mod kept_word;
mod letters;
mod probability;
mod put;
mod qubit_names;
mod short_lines;
mod text;
mod word;

pub use text::write;
