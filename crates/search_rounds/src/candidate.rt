//! Candidates.

use req_pre::Obligation;
use shared_reqs::SharedReq;
use std::sync::Arc;

/// Where a requirement comes from.
#[derive(Clone, Copy, Debug, PartialEq, Eq)]
pub enum Origin {
    /// It is the goal requirement of this number.
    Goal(u32),
    /// It is the pre-image of the recorded requirement of this number, by one of its obligations.
    Pre { parent: u32, ob: Obligation },
}

/// A requirement in normal form with its origin.
#[derive(Drop)]
pub struct Candidate {
    pub req: Arc<SharedReq>,
    pub origin: Origin,
}
