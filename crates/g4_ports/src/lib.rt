// The outside: sources of named files, outputs of bytes, and the gate that each file passes. What each call answers
// is stated here; of the real files and streams no content is known, of those in memory all of it.
#![tactic(auto)]

mod memory_shelf;
mod memory_sink;
mod outside;
mod ports;

pub use memory_shelf::{MemFile, MemShelf};
pub use memory_sink::MemSink;
pub use outside::{Failure, FileShelf, OutSink};
pub use ports::{Failed, Gate, Got, Open, Shelf, Sink, write_all};
