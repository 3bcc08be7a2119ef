//! Where bytes come from and go to: the traits of the outside, objects in memory that keep them, and
//! the adapters at the edge.
#![tactic(auto)]

mod gate;
mod memory_sink;
mod memory_source;
mod plain;
mod read;
mod rest;
mod root;
mod sink;
mod source;
mod standard;
mod write;

pub use gate::{Gate, OpenGate};
pub use memory_sink::MemorySink;
pub use memory_source::MemorySource;
pub use plain::{PlainSink, PlainSource};
pub use read::{ReadRefusal, read_all};
pub use root::{Fetched, SourceRoot};
pub use sink::{Sink, Took};
pub use source::{Got, Source};
pub use standard::{StdSink, StdSource};
pub use write::{WriteRefusal, write_all_of};

#[cfg(test)]
mod root_tests;
#[cfg(test)]
mod tests;
