//! Pauli frames carried through a program: which collapses a frame flips, and two coin lists under which a random
//! target has different parities. A collapse is the projective measurement inside a measurement or a reset; its coin is
//! the outcome where that is random. `Batch` follows 64 runs (shots) side by side beside one reference run, by their
//! frames, as in Stim's frame simulator. `write_shots` draws shots, follows them so, and writes each as its records, or as
//! its detections, which say for each detector and observable whether it differs from that of the reference run.
//! `write_detections` needs no reference run for these, where no detector and no observable is random.
#![tactic(auto)]

mod alone;
mod batch;
mod batches;
mod carry;
mod detections;
mod follow;
mod follower;
mod frame;
mod frames;
mod letters;
mod lines;
mod lone_frame;
mod pair;
mod shots;
mod side_runs;
mod steps;
mod target_words;
mod words;

pub use batch::Batch;
pub use carry::flips;
pub use lines::digit;
pub use pair::coin_pair;
pub use shots::{write_detections, write_shots};
pub use side_runs::Shown;
