//! What must be met before a requirement: goal requirements, obligations and pre-images.
#![tactic(auto)]

mod answers;
mod backwards;
mod exclusions;
mod goal_list;
mod owed;
mod owing;
mod prepared;
mod raw;
mod targets;
#[cfg(test)]
mod tests;

pub use answers::PrepareError;
pub use arbac_rules::WideError;
pub use backwards::pre;
pub use goal_list::goals;
pub use owed::{Obligation, Pick};
pub use owing::obligations;
pub use prepared::Prepared;
pub use std::alloc::AllocError as NoMemory;
pub use targets::{before_given, before_taken};
