//! Marks of requirements, by which an index finds those that may cover a given one.
#![tactic(auto)]

mod laws;
mod marks;
#[cfg(test)]
mod tests;

pub use laws::cover_marks;
pub use marks::{NeedMark, NeedQuery, UserMark};
