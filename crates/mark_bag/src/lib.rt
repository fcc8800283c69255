//! An index of marked items: of those whose mark a query may fit it finds one that a test accepts.
#![tactic(auto)]

mod adding;
mod bag;
mod features;
mod finding;
mod marks;
mod node;
mod parting;
mod proposals;

pub use bag::Bag;
pub use marks::{Accepts, Mark, Query};
pub use proposals::Proposals;
pub use std::alloc::AllocError as NoMemory;

#[cfg(test)]
mod tests;
