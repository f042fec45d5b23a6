//! Unsigned Pauli words of targets, taken back over the steps of a program: what a tracker is asked (`Tracker`), and two
//! trackers, whose words are kept by qubit, as rows of bits (`DenseWords`) or as lists of targets while these are few
//! (`QubitSets`).
//! (Sensitivities taken back over a circuit: Gidney, Quantum 5, 497 (2021).)
#![tactic(auto)]

mod clashing;
mod column;
mod columns;
mod descending;
mod held;
mod images;
mod list_set;
mod pairs;
mod row_list;
mod row_set;
mod sparse_set;
mod target_set;
mod tracker;
mod words;

pub use sparse_set::SparseSet;
pub use target_set::{TargetSet, make_set};
pub use tracker::Tracker;
pub use words::{DenseWords, QubitSets, Words};
