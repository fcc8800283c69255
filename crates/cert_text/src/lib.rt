//! The text of certificates, read and written: what shows that a question is reachable, or isn't, or that a limit came first.
#![tactic(auto)]

mod cert;
mod cert_error;
mod line;
mod lists;
mod origins;
mod pieces;
mod reading;
mod sections;
#[cfg(test)]
mod tests;
mod writing;

pub use cert::{Cert, Need, NeedUser, Step, StepFrom, Who};
pub use cert_error::CertError;
pub use reading::read_cert;
pub use std::alloc::AllocError as NoMemory;
pub use writing::write_cert;

/// The greatest limit of recorded steps that a certificate may tell.
pub const MOST_LIMIT: u32 = 65_536;
