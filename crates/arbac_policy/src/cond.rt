//! Conditions on sets of roles.

use sqlite_items::Boxed;

/// A condition on a set of explicit roles (URA97's preconditions, with `any` and `or` of this project).
#[derive(Drop)]
pub enum Cond {
    /// True of every set.
    Any,
    /// True of a member of the role.
    Has(u16),
    /// True of a set that is no member of the role.
    Lacks(u16),
    And(Boxed<Cond>, Boxed<Cond>),
    Or(Boxed<Cond>, Boxed<Cond>),
}
