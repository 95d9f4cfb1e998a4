//! Where a program's files come from and where its output goes, on the system or in memory.
#![tactic(auto)]

mod calls;
mod disk_shelf;
mod gathered;
mod mem_shelf;
mod mem_sink;
mod names;
mod pure_shelf;
mod pure_sink;
mod shelf;
mod sink;
mod std_sink;

pub use disk_shelf::DiskShelf;
pub use gathered::Gathered;
pub use mem_shelf::MemShelf;
pub use mem_sink::MemSink;
pub use pure_shelf::PureShelf;
pub use pure_sink::PureSink;
pub use shelf::{Shelf, ShelfFault, read_all};
pub use sink::{Sink, SinkFault};
pub use std_sink::StdSink;

#[cfg(test)]
mod tests;
