//! The text of conditions and ranges, read and written.
#![tactic(auto)]

mod cond_error;
mod cuts;
mod level;
mod parsing;
mod printing;
mod ranges;
mod reader;
#[cfg(test)]
mod tests;
mod word;
mod words;

pub use cond_error::CondError;
pub use cuts::{cut, name_of};
pub use parsing::parse_cond;
pub use printing::print_cond;
pub use ranges::{NamedRange, range_of, read_range};
pub use std::alloc::AllocError as NoMemory;

/// The greatest number of terms of a condition that is read.
pub const MOST_TERMS: usize = 64;

/// The greatest number of parentheses that are open at once in a text that is read.
pub const MOST_OPEN: usize = 64;
