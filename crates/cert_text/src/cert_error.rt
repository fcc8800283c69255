//! Why a text is no certificate text.

use std::alloc::{AllocError, AllocFailed};

/// The first fault of a text that is no certificate text. Lines count from 1.
///
/// A line is asked for its form and place, and then for names.
#[derive(Clone, Copy, Debug, PartialEq, Eq)]
pub enum CertError {
    /// The line has no form of a certificate's line, or stands out of place.
    BadLine { line: u32 },
    /// A name of the line is no role's.
    UnknownRole { line: u32 },
    /// No line is `end`.
    Unended,
    /// Want of memory.
    Memory,
}

impl From<AllocError> for CertError {
    ghost use Rattle.std.specs.Prelude.{◌≡◌};
    ghost use Rattle.cert_text.specs.declared.cert_error.CertError.TheVariants as refusals;

    ghost from_gives = { λ _ e. e ≡ refusals.Memory };

    fn from(_e: AllocError) -> CertError {
        CertError::Memory
    }
}

impl<T: Drop> From<AllocFailed<T>> for CertError {
    ghost use Rattle.std.specs.Prelude.{◌≡◌};
    ghost use Rattle.cert_text.specs.declared.cert_error.CertError.TheVariants as refusals;

    ghost from_gives = { λ _ e. e ≡ refusals.Memory };

    fn from(_e: AllocFailed<T>) -> CertError {
        CertError::Memory
    }
}
