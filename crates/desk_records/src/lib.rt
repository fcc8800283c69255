//! What the desk keeps, as plain data: requests, decisions, tables, and changes of the tables.
#![tactic(auto)]

mod decisions;
mod names;
mod requests;
mod tables;
#[cfg(test)]
mod tests;

pub use arbac_policy::Side;
pub use decisions::{Decision, Told};
pub use names::copy_names;
pub use profile_set::{Name, NoMemory, On};
pub use requests::{Deed, Request};
pub use tables::{Change, Entity, JournalRow, LastRow, Tables};

/// The greatest number of a request.
pub const MOST_NUMBER: u64 = 9_223_372_036_854_775_807;

/// The greatest number of users, and of permissions, that are kept.
pub const MOST_ENTITIES: usize = 100_000;

/// The greatest number of rows of the journal.
pub const MOST_ROWS: u64 = 1_000_000;
