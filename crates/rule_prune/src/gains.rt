//! The ceiling: the roles that users start with, and those that rules may give.

ghost use Rattle.std.specs.Prelude.{◌≡◌, ◌<◌, ◌≤◌, ◌↔◌, [], length, Some, IsTrue, IfSome, IfNone};
ghost use Rattle.role_order.specs.Roles.{IsWithin};
ghost use Rattle.arbac_policy.specs.Truth.{term_of, IsKnown};
ghost use Rattle.arbac_policy.specs.Rules.{IsKnownAssign};
ghost use Rattle.arbac_laws.specs.Barriers as laws;
ghost use Rattle.arbac_laws.specs.Barriers.{IsCeiling};
ghost use Rattle.rule_prune.specs.Steps.{IsStep, ByEach, IsClosure};
ghost use Rattle.rule_prune.specs.Gains.{Brings, Gives, GiveAll};

use crate::growth::has_grown;
use arbac_policy::{CanAssign, Cond, Policy, Profile};
use req_pre::Prepared;
use role_order::{MOST_ROLES, Order, RoleSet};

/// Whether a user can start with the profile.
fn is_drawn(profile: &Profile) -> bool
    ensures { IsTrue result ↔ ¬ (profile.now.most ≡ Some 0) }
{
    !matches!(profile.most, Some(0))
}

/// The set with the roles of the profile, if a user can start with it.
fn with_drawn(set: &RoleSet, profile: &Profile) -> RoleSet
    ensures { IsStep IsWithin (Brings profile.now) set.now result }
{
    if is_drawn(profile) {
        set.join(&profile.set)
    } else {
        *set
    }
}

/// The roles that users can start with.
fn drawn_roles(profiles: &[Profile]) -> RoleSet
    ensures { IsStep IsWithin (ByEach Brings profiles.now) [] result }
{
    let mut set = RoleSet::empty();
    for profile in profiles {
        set = with_drawn(&set, profile);
    }
    set
}

/// Whether the set has what the condition wants: a senior of x where it says `x`. `not x` is taken as true.
fn may_hold(order: &Order, set: &RoleSet, cond: &Cond) -> bool
    requires { IsKnown (length order.now.names) (term_of cond.now) }
    ensures { result ≡ laws.may_hold order.now set.now (term_of cond.now) }
{
    match cond {
        Cond::Any => true,
        Cond::Has(role) => order.seniors(*role).meets(set),
        Cond::Lacks(_) => true,
        Cond::And(left, right) => {
            may_hold(order, set, left.get()) && may_hold(order, set, right.get())
        }
        Cond::Or(left, right) => {
            may_hold(order, set, left.get()) || may_hold(order, set, right.get())
        }
    }
}

/// Whether the set has a senior of the rule's administrative role and what its condition wants.
fn may_give(order: &Order, set: &RoleSet, rule: &CanAssign) -> bool
    requires { IsKnownAssign (length order.now.names) rule.now }
    ensures { result ≡ laws.may_give order.now set.now rule.now }
{
    order.seniors(rule.admin).meets(set) && may_hold(order, set, &rule.cond)
}

/// The set with the roles of the rule's range, if the rule may give over it.
fn with_given(order: &Order, set: &RoleSet, rule: &CanAssign) -> RoleSet
    requires { IsKnownAssign (length order.now.names) rule.now }
    ensures { IsStep IsWithin (Gives order.now rule.now) set.now result }
{
    if may_give(order, set, rule) {
        set.join(&order.roles_of(&rule.range))
    } else {
        *set
    }
}

/// The set with what the rules give, one after another.
fn with_all_given(policy: &Policy, set: &RoleSet) -> RoleSet
    ensures { IsStep IsWithin (GiveAll policy.now) set.now result }
{
    let order = policy.order();
    let mut wider = *set;
    for rule in policy.assign() {
        wider = with_given(order, &wider, rule);
    }
    wider
}

/// The set with what the rules give; none where they give nothing that it hasn't.
fn given_more(policy: &Policy, set: &RoleSet) -> Option<RoleSet>
    ensures step { IfSome result (IsStep IsWithin (GiveAll policy.now) set.now) }
    ensures grown { IfSome result (λ wider. length set.now < length wider) }
    ensures few { IfSome result (λ wider. length wider ≤ MOST_ROLES) }
    ensures none { IfNone result (GiveAll policy.now set.now set.now) }
{
    let wider = with_all_given(policy, set);
    if has_grown(set, &wider) {
        Some(wider)
    } else {
        None
    }
}

/// The least set that has these roles and all that the rules give over it.
fn with_gains(policy: &Policy, start: &RoleSet) -> RoleSet
    ensures { IsClosure IsWithin (GiveAll policy.now) start.now result }
{
    let mut set = *start;
    while let Some(wider) = given_more(policy, &set) {
        set = wider;
    }
    set
}

/// The ceiling (this project): the least set that has all roles of the profiles whose count isn't 0 and, for
/// each rule of `can_assign` whose administrative role and condition it may meet, all roles of the range.
/// Nobody comes to have a role outside it.
pub fn ceiling(prepared: &Prepared, profiles: &[Profile]) -> RoleSet
    ensures { IsCeiling prepared.now profiles.now result }
{
    let start = drawn_roles(profiles);
    with_gains(prepared.policy(), &start)
}
