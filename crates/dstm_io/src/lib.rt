//! Sources and sinks of bytes: what a program reads and writes, with a count of the faults that it met.
//!
//! Code over a [`Source`] or a [`Sink`] learns from their contracts which bytes were read or written,
//! and that a fault was counted wherever a call failed. [`MemorySource`] and [`MemorySink`] tell their
//! bytes; [`StdSource`] and [`StdSink`] stand over readers and writers of the system and tell none.
#![tactic(auto)]

mod again;
mod schedule;
mod sink;
mod source;
mod transfer;

pub use sink::{MemorySink, Sink, StdSink};
pub use source::{Failed, MemorySource, Source, StdSource};
pub use transfer::{ReadError, WriteFault, read_all, write_all};
