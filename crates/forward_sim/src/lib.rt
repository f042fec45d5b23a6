//! Runs of a program, forward: its records under given faults and coins, and the detection events in them; and a
//! program's reference run, for batches of frames beside it. Also faults and coins themselves: shots that are drawn, and the
//! lists of coins and of fault numbers that a user gives.
#![tactic(auto)]

mod all_lanes;
mod coin_draws;
mod copies;
mod difference;
mod drawing;
mod fault_bounds;
mod fault_draws;
mod following;
mod forward;
mod jump;
mod keeping;
mod kept_words;
mod lane_draws;
mod last_word;
mod letters;
mod listed;
mod lists;
mod machine;
mod pcg_words;
mod products;
mod quiet;
mod records;
mod reference;
mod replaced_word;
mod runs;
mod shots;
mod side_draws;
mod sieve;
mod span;
mod steps;
mod values;
mod walking;
mod word_draw;
mod word_table;
mod words;

pub use difference::detections;
pub use drawing::draw;
pub use forward::run;
pub use listed::listed_numbers;
pub use lists::{read_coins, read_numbers};
pub use quiet::{Happening, quiet_count};
pub use records::Records;
pub use reference::Reference;
pub use replaced_word::ReplacedWord;
pub use shots::Shots;
pub use span::Span;
