//! Questions of any size with a known answer, to try the search on.
#![tactic(auto)]

mod conditions;
mod names;
mod sampling;
#[cfg(test)]
mod tests;

pub use sampling::sample;
pub use std::alloc::AllocError as NoMemory;

/// The greatest size of a sample.
pub const MOST_SIZE: u32 = 58;
