//! Membership, and the truth of conditions.

ghost use Rattle.std.specs.Prelude.{◌<◌, ◌↔◌, IsTrue, length};
ghost use Rattle.arbac_policy.specs.Truth.{IsMember, IsPermMember, Satisfies, term_of, IsKnown, user, permission};

use crate::cond::Cond;
use crate::holder::On;
use role_order::{Order, RoleSet};

/// Whether a user with the set is a member of the role.
pub fn is_member(order: &Order, set: &RoleSet, role: u16) -> bool
    requires { role < length order.now.names }
    ensures { IsTrue result ↔ IsMember order.now.edges set.now role }
{
    set.meets(&order.seniors(role))
}

/// Whether a permission with the set satisfies the role.
fn is_perm_member(order: &Order, set: &RoleSet, role: u16) -> bool
    requires { role < length order.now.names }
    ensures { IsTrue result ↔ IsPermMember order.now.edges set.now role }
{
    set.meets(&order.juniors(role))
}

/// Whether the condition is true of a user with the set.
pub fn holds(order: &Order, cond: &Cond, set: &RoleSet) -> bool
    requires { IsKnown (length order.now.names) (term_of cond.now) }
    ensures { IsTrue result ↔ Satisfies user order.now.edges set.now (term_of cond.now) }
{
    match cond {
        Cond::Any => true,
        Cond::Has(role) => is_member(order, set, *role),
        Cond::Lacks(role) => !is_member(order, set, *role),
        Cond::And(left, right) => holds(order, left.get(), set) && holds(order, right.get(), set),
        Cond::Or(left, right) => holds(order, left.get(), set) || holds(order, right.get(), set),
    }
}

/// Whether the condition is true of a permission with the set.
pub fn holds_perm(order: &Order, cond: &Cond, set: &RoleSet) -> bool
    requires { IsKnown (length order.now.names) (term_of cond.now) }
    ensures { IsTrue result ↔ Satisfies permission order.now.edges set.now (term_of cond.now) }
{
    match cond {
        Cond::Any => true,
        Cond::Has(role) => is_perm_member(order, set, *role),
        Cond::Lacks(role) => !is_perm_member(order, set, *role),
        Cond::And(left, right) => {
            holds_perm(order, left.get(), set) && holds_perm(order, right.get(), set)
        }
        Cond::Or(left, right) => {
            holds_perm(order, left.get(), set) || holds_perm(order, right.get(), set)
        }
    }
}

/// Whether the condition is true of a user or a permission with the set.
pub fn is_true(on: On, order: &Order, cond: &Cond, set: &RoleSet) -> bool
    requires { IsKnown (length order.now.names) (term_of cond.now) }
    ensures { IsTrue result ↔ Satisfies on order.now.edges set.now (term_of cond.now) }
{
    match on {
        On::User => holds(order, cond, set),
        On::Permission => holds_perm(order, cond, set),
    }
}
