//! Where bytes come from and where they go: sources and sinks, and the two calls that read and
//! write all.
//!
//! The layer above relies on this: all the bytes were moved, or a fault was counted by the very
//! source or sink that was handed in.
#![tactic(auto)]

mod memory_sink;
mod memory_source;
mod sink;
mod source;
mod streams;
mod transfer;

pub use memory_sink::MemorySink;
pub use memory_source::{MemorySource, PlainSource};
pub use sink::{Failed, Sink};
pub use source::{Source, Step};
pub use streams::{StdSink, StdSource};
pub use transfer::{ReadEnd, WriteFault, read_all, write_all};
