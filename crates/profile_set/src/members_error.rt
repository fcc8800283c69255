//! Why a text is no list of members.

use std::alloc::{AllocError, AllocFailed};

/// The first fault of a text that is no list of members. Records count from 1, the header being
/// the first.
///
/// Within a record `BadRow` is told before `UnknownRole`.
#[derive(Clone, Copy, Debug, PartialEq, Eq)]
pub enum MembersError {
    /// The record isn't of its form.
    BadRow { number: u32 },
    /// The record's role is a text that is no role's name.
    UnknownRole { number: u32 },
    /// Want of memory.
    Memory,
}

impl From<AllocError> for MembersError {
    ghost use Rattle.std.specs.Prelude.{◌≡◌};
    ghost use Rattle.profile_set.specs.declared.members_error.MembersError.TheVariants as refusals;

    ghost from_gives = { λ _ e. e ≡ refusals.Memory };

    fn from(_e: AllocError) -> MembersError {
        MembersError::Memory
    }
}

impl<T: Drop> From<AllocFailed<T>> for MembersError {
    ghost use Rattle.std.specs.Prelude.{◌≡◌};
    ghost use Rattle.profile_set.specs.declared.members_error.MembersError.TheVariants as refusals;

    ghost from_gives = { λ _ e. e ≡ refusals.Memory };

    fn from(_e: AllocFailed<T>) -> MembersError {
        MembersError::Memory
    }
}
