//! What tests let fail: a source and a sink in memory, which move one byte a call, count their calls, and fail at one of
//! them; a reader and writer whose calls go by a plan; and an allocator that refuses one of its calls and counts the blocks
//! that it has handed out. And how tables are read that are written as texts.
#![tactic(auto)]

mod counts;
mod device;
mod rows;
mod scarce;
mod slow_sink;
mod slow_source;

pub use device::{Device, Event, Plan};
pub use rows::text_of;
pub use scarce::Scarce;
pub use slow_sink::SlowSink;
pub use slow_source::SlowSource;
