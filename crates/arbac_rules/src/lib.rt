//! The rules of ARBAC97: policies, the text of conditions, and the conjuncts of a condition.
#![tactic(auto)]

mod conjunct;
mod listing;
#[cfg(test)]
mod tests;
mod width;

pub use arbac_policy::Conjunct;
pub use listing::{WideError, conjuncts};
pub use width::{too_many, width_of};

/// The greatest number of conjuncts of a condition that are listed.
pub const MOST_CONJUNCTS: usize = 1_024;

pub use arbac_policy::{
    Act, ActKind, CanAssign, CanRevoke, Cond, On, Part, Policy, Profile, Side, holds, holds_perm,
    is_member, is_true,
};
pub use cond_text::{CondError, MOST_OPEN, MOST_TERMS, parse_cond, print_cond};
pub use std::alloc::AllocError as NoMemory;
