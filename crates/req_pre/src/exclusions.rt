//! What the exclusive pairs of a policy bar, role by role.

ghost use Rattle.std.specs.Prelude.{ℕ, ◌≡◌, ◌<◌, [], if◌then◌else◌, length, get_or, IfOk};
ghost use Rattle.list_words.specs.Lists.{Each};
ghost use Rattle.role_order.specs.Reach.{seniors_of};
ghost use Rattle.role_order.specs.Roles.{has_role};
ghost use Rattle.arbac_policy.specs.Rules.{IsKnownPair};
ghost use Rattle.arbac_laws.specs.PreImages as laws;

use crate::NoMemory;
use arbac_policy::Policy;
use role_order::{Order, RoleSet};
use std::alloc::Global;

/// Whether the role is above both roles of a pair.
fn is_barred(order: &Order, role: u16, pairs: &[(u16, u16)]) -> bool
    requires { Each (IsKnownPair (length order.now.names)) pairs.now }
    ensures { result ≡ laws.is_barred order.now role pairs.now }
{
    for &pair in pairs {
        if order.seniors(pair.0).has(role) && order.seniors(pair.1).has(role) {
            return true;
        }
    }
    false
}

/// What is above the second, where the role is above the first.
fn barred_by(order: &Order, role: u16, first: u16, second: u16) -> RoleSet
    requires first { first < length order.now.names }
    requires second { second < length order.now.names }
    ensures { result ≡ (if has_role (seniors_of order.now first) role then seniors_of order.now second else []) }
{
    if order.seniors(first).has(role) {
        order.seniors(second)
    } else {
        RoleSet::empty()
    }
}

/// What the pairs bar from whoever is given the role.
fn barred(order: &Order, role: u16, pairs: &[(u16, u16)]) -> RoleSet
    requires { Each (IsKnownPair (length order.now.names)) pairs.now }
    ensures { result ≡ laws.barred order.now role pairs.now }
{
    let mut all = RoleSet::empty();
    for at in (0..pairs.len()).rev() {
        let pair = pairs[at];
        let second = barred_by(order, role, pair.1, pair.0).join(&all);
        all = barred_by(order, role, pair.0, pair.1).join(&second);
    }
    all
}

/// By role, what the policy's pairs bar from whoever is given it.
pub fn all_bars(alloc: Global, policy: &Policy) -> Result<Vec<RoleSet>, NoMemory>
    ensures { IfOk result (λ bars. (role : ℕ) → get_or bars.items role [] ≡ laws.barred policy.now.order role policy.now.exclusive) }
{
    let order = policy.order();
    let count = order.count();
    let mut bars = Vec::with_capacity(alloc, count as usize)?;
    for role in 0..count {
        bars.push(barred(order, role, policy.exclusive()))?;
    }
    Ok(bars)
}

/// The roles that are above both roles of a pair of the policy.
pub fn closed_roles(policy: &Policy) -> RoleSet
    ensures { (role : ℕ) → has_role result role ≡ laws.is_barred policy.now.order role policy.now.exclusive }
{
    let order = policy.order();
    let count = order.count();
    let mut closed = RoleSet::empty();
    for role in 0..count {
        if is_barred(order, role, policy.exclusive()) {
            closed = closed.with(role);
        }
    }
    closed
}
