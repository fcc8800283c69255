//! One round of the search: its candidates, without those that needn't be made, and which of them are unbeaten.
#![tactic(auto)]

mod candidate;
mod gathering;
mod goals;
mod making;
mod picks;
mod ranking;
#[cfg(test)]
mod tests;
mod useful;

pub use candidate::{Candidate, Origin};
pub use gathering::Gathering;
pub use goals::gather_goals;
pub use making::gather_batch;
pub use ranking::unbeaten;
pub use std::alloc::AllocError as NoMemory;

/// How many recorded entries a round takes.
pub const BATCH: usize = 64;
