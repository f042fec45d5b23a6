//! The command line: its words, what they ask for, and the help that says so.
#![tactic(auto)]

mod asked;
mod help;
mod orders;
mod subcommands;

pub use asked::{Asked, asked_by};
