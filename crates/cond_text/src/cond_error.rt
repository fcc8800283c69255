//! Why a text is no condition.

use std::alloc::AllocError;

/// The first fault of a text that is no condition within the limits. Places are bytes from 0.
///
/// Where one byte has several, the form goes first, then the limits, then the names.
#[derive(Clone, Copy, Debug, PartialEq, Eq)]
pub enum CondError {
    /// No condition goes on with the word here; or the text ends before the condition does.
    Unexpected { place: u32 },
    /// A name that is no role's.
    UnknownRole { place: u32 },
    /// A term above `MOST_TERMS` begins, or one parenthesis above `MOST_OPEN` is open.
    TooDeep { place: u32 },
    /// Want of memory.
    Memory,
}

impl From<AllocError> for CondError {
    ghost use Rattle.std.specs.Prelude.{◌≡◌};
    ghost use Rattle.cond_text.specs.declared.cond_error.CondError.TheVariants as refusals;

    ghost from_gives = { λ _ e. e ≡ refusals.Memory };

    fn from(_e: AllocError) -> CondError {
        CondError::Memory
    }
}
