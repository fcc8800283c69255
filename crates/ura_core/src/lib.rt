//! Verdicts on acts: URA97 for users, and the searches that PRA97 shares.
#![tactic(auto)]

mod criterion;
mod decision;
mod judging;
mod laws;
mod placed;
mod searching;
mod strong;
#[cfg(test)]
mod tests;

pub use arbac_policy::{Part, Side};
pub use decision::{Verdict, decide, decide_on};
pub use laws::strong_revocation_law;
