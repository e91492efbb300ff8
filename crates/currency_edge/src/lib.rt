//! The program's outside: a [`Shelf`] of documents to read and a [`Sink`] for bytes to write.
//!
//! Both are traits with a written meaning and a count of faults, so that a caller's contract can say
//! what it read, what it wrote, and that it blames the outside only where the outside failed.
//! [`FileShelf`] and [`StdSink`] are the real ones, and the others hold everything in memory.
#![tactic(auto)]

mod document;
mod file_shelf;
mod memory_shelf;
mod memory_sink;
mod shelf;
mod sink;
mod std_sink;
mod steady_shelf;
mod steady_sink;

pub use file_shelf::FileShelf;
pub use memory_shelf::MemoryShelf;
pub use memory_sink::MemorySink;
pub use shelf::{Shelf, ShelfFault};
pub use sink::{Sink, SinkFault, put_all};
pub use std_sink::StdSink;
pub use steady_shelf::SteadyShelf;
pub use steady_sink::SteadySink;
