//! Texts that grow piece by piece.
#![tactic(auto)]

mod pieces;
#[cfg(test)]
mod tests;

pub use pieces::{put, put_count, put_number, put_wide_number};
