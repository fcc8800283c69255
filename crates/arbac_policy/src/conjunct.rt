//! Conjuncts.

use role_order::RoleSet;

/// What one user must be: a set meets it with a role of each hit and none of the lacks.
#[derive(Drop)]
pub struct Conjunct {
    pub hits: Vec<RoleSet>,
    pub lacks: RoleSet,
}
