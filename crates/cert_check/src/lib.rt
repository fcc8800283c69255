//! The independent checker of certificates: plain lists of requirements, none of them put in normal form but to compare.
#![tactic(auto)]

mod checking;
mod closed;
mod cover_rows;
mod derived;
mod goals;
mod index;
mod judgement;
mod laws;
mod open;
mod picks;
mod plan;
mod recorded;
mod rulebook;
#[cfg(test)]
mod tests;
mod useful;

pub use checking::check;
pub use judgement::{Judgement, Why};
pub use laws::{closed_list_law, judgement_laws};
pub use std::alloc::AllocError as NoMemory;
