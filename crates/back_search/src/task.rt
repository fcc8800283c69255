//! What is searched for.

use arbac_policy::{Cond, Profile};
use req_core::Req;
use req_pre::Prepared;

/// Whether users drawn from the profiles ever come to meet the goal, with barriers that are known from the start, and at most
/// so many recorded requirements.
#[derive(Clone, Copy)]
pub struct Task<'a> {
    pub prepared: &'a Prepared,
    pub profiles: &'a [Profile],
    pub goal: &'a [Cond],
    pub barriers: &'a [Req],
    pub limit: u32,
}
