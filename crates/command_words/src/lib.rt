//! The words after a command: names of files, and options with numbers.
#![tactic(auto)]

mod clap_words;
mod files;
mod numbers;
#[cfg(test)]
mod tests;
mod words;

pub use numbers::number_in;
pub use std::alloc::AllocError as NoMemory;
pub use words::{Words, read_words};

/// The greatest number of digits of a number among words.
pub const MOST_DIGITS: usize = 7;
