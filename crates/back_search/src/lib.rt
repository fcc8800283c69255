//! The search backwards from a goal: whether users who can be drawn ever come to meet it.
#![tactic(auto)]

mod beginning;
mod copies;
mod outcome;
mod plan;
mod rounds;
mod searching;
mod settle;
mod task;
#[cfg(test)]
mod tests;
mod walk;

pub use outcome::{Entry, Gate, NoGate, Outcome, Round};
pub use rounds::round;
pub use search_rounds::Origin;
pub use searching::search;
pub use std::alloc::AllocError as NoMemory;
