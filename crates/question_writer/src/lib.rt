//! Question documents: a policy, profiles of users and a goal, written as TOML.
#![tactic(auto)]

mod pieces;
#[cfg(test)]
mod tests;
mod writing;

pub use std::alloc::AllocError as NoMemory;
pub use writing::write_question;
