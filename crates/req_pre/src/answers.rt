//! What the calls answer.

use std::alloc::{AllocError, AllocFailed};

/// Why a policy can't be prepared.
#[derive(Clone, Copy, Debug, PartialEq, Eq)]
pub enum PrepareError {
    /// The condition of the rule at this place of `can_assign` has so many conjuncts, more than
    /// `MOST_CONJUNCTS`; the first such rule.
    TooWide { rule: u32, count: u128 },
    /// Memory ran out.
    Memory,
}

impl From<AllocError> for PrepareError {
    ghost use Rattle.std.specs.Prelude.{◌≡◌};
    ghost use Rattle.req_pre.specs.declared.answers.PrepareError.TheVariants as refusals;

    ghost from_gives = { λ _ e. e ≡ refusals.Memory };

    fn from(_e: AllocError) -> PrepareError {
        PrepareError::Memory
    }
}

impl<T: Drop> From<AllocFailed<T>> for PrepareError {
    ghost use Rattle.std.specs.Prelude.{◌≡◌};
    ghost use Rattle.req_pre.specs.declared.answers.PrepareError.TheVariants as refusals;

    ghost from_gives = { λ _ e. e ≡ refusals.Memory };

    fn from(_e: AllocFailed<T>) -> PrepareError {
        PrepareError::Memory
    }
}
