//! The outside as the desk sees it: a shelf of texts and a sink of bytes, in memory and for real.
#![tactic(auto)]

mod askers;
mod fault_plan;
mod shelves;
mod sinks;

pub use askers::Asked;
pub use shelves::{FileShelf, MemShelf, Shelf, ShelfError};
pub use sinks::{MemSink, OutSink, Sink, SinkError};
