//! The rows of a list of members.

use crate::name::Name;
use arbac_policy::On;

/// A user or a permission that is to be kept, and the role that it is to hold, if there is one.
#[derive(Drop)]
pub struct MemberRow {
    pub on: On,
    pub name: Name,
    pub role: Option<u16>,
}
