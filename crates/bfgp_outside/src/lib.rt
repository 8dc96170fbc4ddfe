//! The outside: shelves that hold files, sinks that take bytes, and the calls that read and write them whole.
//!
//! Of `specs/` read `Shelf` and `Sink` first (what a read and a put answer), then `Whole` (a file that is read whole) and
//! `Causes` (when a fault may be told). `MemoryShelf` and `MemorySink` say what stands in memory. `Inner` has what only
//! private functions say.
#![tactic(auto)]

mod memory_shelf;
mod memory_sink;
mod put;
mod real;
mod shelf;
mod sink;
mod whole;

pub use memory_shelf::MemoryShelf;
pub use memory_sink::MemorySink;
pub use put::put_all;
pub use real::{RealShelf, RealSink, WriterSink};
pub use shelf::{Shelf, ShelfFault};
pub use sink::{Sink, SinkFailed};
pub use whole::{ReadRefusal, read_whole};
