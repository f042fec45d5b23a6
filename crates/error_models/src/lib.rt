//! Error models, with a line for each fault that flips some detector or observable; and their text.
#![tactic(auto)]

mod detector_end;
mod detector_lines;
mod held_text;
mod line_runs;
mod line_text;
mod lines;
mod lines_text;
mod model;
mod names;
mod short_detectors;
mod short_lines;
mod text;
mod text_block;
mod text_blocks;
mod texts;

pub use detector_lines::{DetectorLines, MOST_LINES};
pub use held_text::HeldText;
pub use lines_text::LinesText;
pub use model::Model;
pub use text::{push_detector, push_observable, write};
