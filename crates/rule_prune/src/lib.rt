//! What a search needn't try: roles that nobody comes to have, and rules that can't matter for a goal.
#![tactic(auto)]

mod answers;
mod closing;
mod gains;
mod growth;
mod links;
mod outside;
mod relevance;
mod slicing;
#[cfg(test)]
mod tests;

pub use answers::{Slice, SliceError};
pub use gains::ceiling;
pub use outside::barriers;
pub use slicing::slice;
pub use std::alloc::AllocError as NoMemory;
