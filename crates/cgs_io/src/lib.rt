//! Where bytes come from and where they go: sources and sinks, each with a count of its faults.
//!
//! It promises that a failed read is never taken for the end of input, that a short write is never taken for a whole
//! one, and that a fault is answered only where the count of the source or the sink rose in that call. Below it stand
//! `cgs_list` and std's readers and writers. Read first `Rose` and `HasCause` (specs/Causes) and `IsReading`
//! (specs/Streams).
#![tactic(auto)]

mod all;
mod calls;
mod memory;
mod rest;
mod sink;
mod source;
mod streams;
#[cfg(test)]
mod tests;

pub use all::{ReadFault, Reading, read_all, write_all};
use cgs_list::ItemList;
pub use memory::{CalmSource, MemorySink, MemorySource, NullSink};
pub use sink::Sink;
pub use source::{Failed, Source};
pub use streams::{StdSink, StdSource};

/// A word of the command line, as its bytes.
pub type Word = ItemList<u8>;

/// The words of the command line, in order.
pub type WordList = ItemList<Word>;
