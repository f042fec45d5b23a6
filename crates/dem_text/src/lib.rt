//! Error models as texts: the model that a text writes, or why the text is refused, the symptom of its lines, and what lines that
//! are named flip, of a text that comes by pieces. Models themselves and what writes them come from `error_models`.
#![tactic(auto)]

mod brief;
mod coordinates;
mod counting;
mod error_line;
mod flips;
mod fold;
mod front;
mod judge;
mod kept;
pub mod laws;
mod operation;
mod prediction;
mod reader;
mod standing;
mod target;

pub use error_models::{Model, write};
pub use flips::symptom;
pub use prediction::{Prediction, predict};
pub use reader::read;
