//! Question documents: a policy, profiles of users and a goal, read from TOML.
#![tactic(auto)]

mod entries;
mod goals;
mod keys;
mod profiles;
mod question;
mod question_error;
mod reading;
mod roles;
mod rules;
#[cfg(test)]
mod tests;

pub use question::Question;
pub use question_error::QuestionError;
pub use reading::read_question;

/// The greatest number of exclusive pairs of a document.
pub const MOST_PAIRS: usize = 1_000;

/// The greatest number of profiles of a document.
pub const MOST_PROFILES: usize = 1_000;

/// The greatest number of users that a profile may name.
pub const MOST_OF_PROFILE: u32 = 1_000_000;
