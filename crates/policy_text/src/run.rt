//! Runs.

use arbac_policy::{Act, Cond, Policy};
use role_order::RoleSet;

/// A policy, the explicit sets of the users at the start, acts, and the conditions of the goal.
#[derive(Drop)]
pub struct Run {
    pub policy: Policy,
    pub start: Vec<RoleSet>,
    pub acts: Vec<Act>,
    pub goal: Vec<Cond>,
}
