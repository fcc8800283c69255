//! The desk: one call does all that the program does.
#![tactic(auto)]

mod ask;
mod check;
mod command;
mod desk;
mod documents;
mod make;
mod replay;
mod reply;
mod status;
#[cfg(test)]
mod tests;

pub use ask::ask_document;
pub use desk::arbac_desk;
pub use status::Status;

/// The greatest length of a run text, in bytes.
pub const MOST_RUN_BYTES: usize = 1_048_576;

/// The greatest length of a question document, in bytes.
pub const MOST_QUESTION_BYTES: usize = 1_048_576;

/// The greatest length of a certificate text, in bytes.
pub const MOST_CERT_BYTES: usize = 268_435_456;

/// The greatest number of recorded requirements of a search.
pub const MOST_LIMIT: u32 = 65_536;

/// The number of recorded requirements of a search where none is told.
pub const USUAL_LIMIT: u32 = 4_096;

/// The greatest number of workers of a search.
pub const MOST_WORKERS: u32 = 16;

/// The number of workers of a search where none is told.
pub const USUAL_WORKERS: u32 = 4;
