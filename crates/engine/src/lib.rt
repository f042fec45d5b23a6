//! Orders on a circuit or an error model, served from the bytes of its text to the bytes of the answer.
#![tactic(auto)]

mod analysis;
mod answering;
mod asking;
mod drawing;
mod limited;
mod lines;
mod listing;
mod order;
mod predicting;
mod refusing;
mod running;
mod serving;

pub use order::{Status, exit_status};
pub use serving::serve;
pub use step_model::Order;
