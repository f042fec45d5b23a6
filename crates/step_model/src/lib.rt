//! What a circuit does, as definitions: programs of steps, their runs, and what a fault changes in them. Also the
//! causes for which a text is refused, the texts of probabilities by their numbers, and the sources and sinks that texts
//! are read from and written to: memory, and readers and writers of std, such as standard input and output, of which contracts
//! say no more than that bytes are passed on.
#![tactic(auto)]

mod chances;
mod ends;
mod fault;
pub mod laws;
mod memory;
mod order;
mod pieces;
mod reader_source;
mod step;
mod writer_sink;

pub use chances::{ChanceText, number_of};
pub use ends::{Sink, Source, read_all, write_all};
pub use fault::{Cause, Fault};
pub use memory::{MemorySink, MemorySource};
pub use order::Order;
pub use pieces::Pieces;
pub use reader_source::ReaderSource;
pub use step::{Place, Term};
pub use writer_sink::WriterSink;
