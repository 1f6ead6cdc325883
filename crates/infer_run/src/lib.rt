//! The command: from words, a source of facts and a sink for the report to a status.
#![tactic(auto)]

mod ends;
mod running;
mod session;
mod table;
mod words;

pub use ends::{
    Failed, MemorySink, MemorySource, Sink, Source, StdSink, StdSource, SureSink, SureSource,
};
pub use running::{Ran, run};
