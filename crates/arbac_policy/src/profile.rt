//! Profiles of users.

use role_order::RoleSet;

/// An explicit set, and the greatest number of users that start with it, if there is one.
#[derive(Clone, Copy)]
pub struct Profile {
    pub set: RoleSet,
    pub most: Option<u32>,
}
