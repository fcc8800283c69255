//! Administrative rules.

use crate::cond::Cond;
use role_order::Range;

/// Members of the administrative role may give the roles of the range to whoever meets the condition.
#[derive(Drop)]
pub struct CanAssign {
    pub admin: u16,
    pub cond: Cond,
    pub range: Range,
}

/// Members of the administrative role may take the roles of the range away.
#[derive(Clone, Copy, Debug, PartialEq, Eq)]
pub struct CanRevoke {
    pub admin: u16,
    pub range: Range,
}
