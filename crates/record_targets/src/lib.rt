//! For each record of a program the targets that list it, and what feedback changes of them.
#![tactic(auto)]

mod ascending;
mod changing_lists;
mod counting;
mod listed_targets;
mod putting;
mod record_lists;
mod targets;

pub use changing_lists::ChangingLists;
pub use targets::target_count;
