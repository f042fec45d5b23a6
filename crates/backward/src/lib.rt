//! Going back over the steps of a program with the words of its targets: the error model of its hits, as a model or as
//! text, or the lowest random target. (Sensitivities taken back over a circuit: Gidney, Quantum 5, 497 (2021).)
#![tactic(auto)]

mod analysis;
mod collapse;
mod declarations;
mod faults;
mod found;
mod letters;
mod line_store;
mod moved;
mod pass;
mod places;
mod point;
mod points;
mod random;
mod repeated;
mod segments;
mod stretch;
mod text_store;
mod turn_lines;
mod turns;
mod whole;
mod writing;

pub use analysis::{Analysed, analyse};
pub use random::first_random;
pub use trackers::{DenseWords, QubitSets, Tracker};
pub use writing::{write_analysis, write_in_parts};
