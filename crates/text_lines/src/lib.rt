//! What the texts of this project have in common, line by line: lines, words, numbers and acts.
//!
//! Lines end in LF, and one space stands between the words of a line. The forms are this
//! project's own.
#![tactic(auto)]

mod acts;
mod numbers;
#[cfg(test)]
mod tests;
mod words;

pub use acts::{ActLine, act_of};
pub use numbers::number_of;
pub use words::is;
