//! Verdicts on acts on permissions (PRA97), the dual of those on users.
#![tactic(auto)]

mod decision;
#[cfg(test)]
mod tests;

pub use decision::decide_perm;
