//! The texts of policies: runs.
#![tactic(auto)]

mod body;
mod line;
mod lines;
mod listing;
mod reading;
mod run;
mod run_error;

pub use reading::read_run;
pub use run::Run;
pub use run_error::RunError;

/// The greatest number of users of a run.
pub const MOST_USERS: usize = 10_000;

/// The greatest number of acts of a run.
pub const MOST_ACTS: usize = 100_000;

#[cfg(test)]
mod tests;
