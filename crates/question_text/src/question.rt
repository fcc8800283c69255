//! Questions.

use arbac_policy::{Cond, Policy, Profile};
use role_order::RoleSet;

/// A policy, whether its administrative roles are kept apart from the others, these roles, the
/// profiles that users start with, and the conditions of the goal.
#[derive(Drop)]
pub struct Question {
    pub policy: Policy,
    pub separate: bool,
    pub admin_roles: RoleSet,
    pub profiles: Vec<Profile>,
    pub goal: Vec<Cond>,
}
