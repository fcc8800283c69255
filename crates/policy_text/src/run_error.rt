//! Why a text is no run text.

use cond_text::CondError;
use role_order::OrderError;
use std::alloc::{AllocError, AllocFailed};

/// The first fault of a text that is no run text. Lines count from 1.
///
/// A line is asked for its form and place, then for room, then for names, then for its condition.
/// `Order` is told once no more roles and edges can come: ahead of the first line of another kind,
/// or where the lines end.
#[derive(Clone, Copy, Debug, PartialEq, Eq)]
pub enum RunError {
    /// The line has no form of a run's line, or stands out of place.
    BadLine { line: u32 },
    /// A name of the line, outside its condition, is no role's.
    UnknownRole { line: u32 },
    /// The roles and edges are no role order.
    Order(OrderError),
    /// The line's condition can't be read.
    Cond { line: u32, error: CondError },
    /// The line's kind is used up.
    TooMany { line: u32 },
    /// No line is `end`.
    Unended,
    /// Want of memory.
    Memory,
}

impl From<AllocError> for RunError {
    ghost use Rattle.std.specs.Prelude.{◌≡◌};
    ghost use Rattle.policy_text.specs.declared.run_error.RunError.TheVariants as refusals;

    ghost from_gives = { λ _ e. e ≡ refusals.Memory };

    fn from(_e: AllocError) -> RunError {
        RunError::Memory
    }
}

impl<T: Drop> From<AllocFailed<T>> for RunError {
    ghost use Rattle.std.specs.Prelude.{◌≡◌};
    ghost use Rattle.policy_text.specs.declared.run_error.RunError.TheVariants as refusals;

    ghost from_gives = { λ _ e. e ≡ refusals.Memory };

    fn from(_e: AllocFailed<T>) -> RunError {
        RunError::Memory
    }
}
