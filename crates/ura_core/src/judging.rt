//! The first part of one assignment or one weak revocation that fails, by the sets of those concerned.

ghost use Rattle.std.specs.Prelude.{ℕ, ◌≡◌, ◌<◌, ◌⊎◌, IfSome, IfNone, length};
ghost use Rattle.list_words.specs.Lists.{Some_of, IsFirst};
ghost use Rattle.role_order.specs.Roles.{IsIn};
ghost use Rattle.arbac_policy.specs.Holders.{assign_rules, revoke_rules, pairs_of};
ghost use Rattle.arbac_policy.specs.Steps.{Blocks, LetsAssign, LetsRevoke};
ghost use Rattle.arbac_policy.specs.Verdicts.{AssignFails, RevokeFails};
ghost use Rattle.ura_core.specs.Judged.{MayAssign};

use crate::placed::Placed;
use crate::searching::{
    assign_fitting, assign_in_range, first_blocking, revoke_in_range, some_assign, some_revoke,
};
use arbac_policy::{On, Part, Policy};
use role_order::{MOST_ROLES, RoleSet};

/// Why no rule lets the administrator give the role, and none exactly where one does. The first rule
/// that fits is sought from the first in range on, and one that lets him from there: one pass in all.
fn rule_against(on: On, policy: &Policy, by: &RoleSet, set: &RoleSet, role: u16) -> Option<Part>
    requires role { role < length policy.now.order.names }
    ensures none { IfNone result (Some_of (LetsAssign on policy.now by.now set.now role) (assign_rules on policy.now)) }
    ensures some { IfSome result (AssignFails on policy.now by.now set.now role) }
{
    let placed = Placed::new(policy.order(), role);
    let Some(ranged) = assign_in_range(on, policy, &placed) else {
        return Some(Part::NoRange { role });
    };
    let Some(rule) = assign_fitting(on, policy, by, &placed, ranged) else {
        return Some(Part::NoAdmin { role, rule: ranged });
    };
    if some_assign(on, policy, by, set, &placed, rule) {
        return None;
    }
    Some(Part::NoCondition { role, rule })
}

/// The first pair that keeps the role from whoever holds this set, the holder being of this kind.
fn pair_against(on: On, policy: &Policy, set: &RoleSet, role: u16) -> Option<u32>
    requires role { role < length policy.now.order.names }
    ensures found { IfSome result (λ pair. (¬ IsIn set.now role) × IsFirst (Blocks policy.now.order.edges set.now role) (pairs_of on policy.now) pair) }
    ensures none { IfNone result (IsIn set.now role ⊎ (¬ Some_of (Blocks policy.now.order.edges set.now role) (pairs_of on policy.now))) }
{
    if set.has(role) {
        return None;
    }
    match on {
        On::User => first_blocking(policy, set, role),
        On::Permission => None,
    }
}

/// Why the administrator may not give the role to the target, and none exactly where he may.
pub fn against_assign(
    on: On,
    policy: &Policy,
    by: &RoleSet,
    set: &RoleSet,
    role: u16,
) -> Option<Part>
    ensures none { IfNone result (MayAssign on policy.now by.now set.now role) }
    ensures some { IfSome result (AssignFails on policy.now by.now set.now role) }
    ensures few { IfNone result (role < MOST_ROLES) }
{
    if role >= policy.order().count() {
        return Some(Part::NoRole { role });
    }
    if let Some(part) = rule_against(on, policy, by, set, role) {
        return Some(part);
    }
    match pair_against(on, policy, set, role) {
        Some(pair) => Some(Part::Exclusive { role, pair }),
        None => None,
    }
}

/// Why the administrator may not take the role away, and none exactly where he may.
pub fn against_revoke(on: On, policy: &Policy, by: &RoleSet, role: u16) -> Option<Part>
    ensures none { IfNone result (Some_of (LetsRevoke policy.now by.now role) (revoke_rules on policy.now)) }
    ensures some { IfSome result (RevokeFails on policy.now by.now role) }
{
    if role >= policy.order().count() {
        return Some(Part::NoRole { role });
    }
    let placed = Placed::new(policy.order(), role);
    let Some(rule) = revoke_in_range(on, policy, &placed) else {
        return Some(Part::NoRange { role });
    };
    if some_revoke(on, policy, by, &placed, rule) {
        return None;
    }
    Some(Part::NoAdmin { role, rule })
}
