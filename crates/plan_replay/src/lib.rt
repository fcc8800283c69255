//! Runs of acts, and goals.
#![tactic(auto)]

mod goals;
mod replaying;
#[cfg(test)]
mod tests;

pub use goals::goal_met;
pub use replaying::{Replayed, replay};
pub use std::alloc::AllocError as NoMemory;
