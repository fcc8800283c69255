//! Why bytes are no question document.

use cond_text::CondError;
use role_order::OrderError;
use std::alloc::{AllocError, AllocFailed};

/// The first fault of a text that is no question document.
///
/// A key is a path: `edges.0`, `can_assign.3.range`, with places from 0.
#[derive(Debug, Drop, PartialEq, Eq)]
pub enum QuestionError {
    /// The bytes are no TOML.
    NotToml,
    /// A key that must be there isn't.
    Missing { key: String },
    /// The value isn't of the key's kind.
    WrongKind { key: String },
    /// A name is no role's.
    UnknownRole { key: String },
    /// The roles and edges are no role order.
    Order(OrderError),
    /// The condition can't be read.
    Cond { key: String, error: CondError },
    /// Administrative roles are kept apart, and here stand together with others.
    MixedRole { key: String },
    /// The list has so many entries, too many.
    TooMany { key: String, count: u32 },
    /// So many conjuncts, or combinations of them, are too many.
    TooWide { key: String, count: u128 },
    /// The document or the table doesn't have such a key.
    UnknownKey { key: String },
    /// Want of memory.
    Memory,
}

impl From<AllocError> for QuestionError {
    ghost use Rattle.std.specs.Prelude.{◌≡◌};
    ghost use Rattle.question_text.specs.declared.question_error.QuestionError.TheVariants as refusals;

    ghost from_gives = { λ _ e. e ≡ refusals.Memory };

    fn from(_e: AllocError) -> QuestionError {
        QuestionError::Memory
    }
}

impl<T: Drop> From<AllocFailed<T>> for QuestionError {
    ghost use Rattle.std.specs.Prelude.{◌≡◌};
    ghost use Rattle.question_text.specs.declared.question_error.QuestionError.TheVariants as refusals;

    ghost from_gives = { λ _ e. e ≡ refusals.Memory };

    fn from(_e: AllocFailed<T>) -> QuestionError {
        QuestionError::Memory
    }
}
