//! Policies of ARBAC97: conditions, rules, and the meaning of acts on users and permissions.
#![tactic(auto)]

mod act;
mod cond;
mod conjunct;
mod holder;
mod policy;
mod profile;
mod rule;
#[cfg(test)]
mod tests;
mod truth;
mod verdict;

pub use act::{Act, ActKind};
pub use cond::Cond;
pub use conjunct::Conjunct;
pub use holder::On;
pub use policy::Policy;
pub use profile::Profile;
pub use rule::{CanAssign, CanRevoke};
pub use truth::{holds, holds_perm, is_member, is_true};
pub use verdict::{Part, Side};

/// The greatest number of edges of a role order that is read.
pub const MOST_EDGES: usize = 10_000;

/// The greatest number of rules of each table that is read.
pub const MOST_RULES: usize = 1_000;

/// The greatest number of conditions of a goal that is read.
pub const MOST_GOALS: usize = 8;
