//! Matching with capacities: the least full matching, or items that break Hall's condition.
#![tactic(auto)]

mod deficiency;
mod edges;
mod firsts;
mod joined;
mod laws;
mod outcome;
mod partial_matching;
mod rows;
mod search;
mod settling;
mod users;

pub use edges::Edges;
pub use joined::{least_transversal, match_by, small};
pub use laws::{deficient_law, least_law};
pub use outcome::{Matching, match_all};
pub use std::alloc::AllocError as NoMemory;

#[cfg(test)]
mod tests;
