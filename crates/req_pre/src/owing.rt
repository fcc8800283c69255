//! The obligations of a requirement.

ghost use Rattle.std.specs.Prelude.{◌≡◌, ◌<◌, ◌++◌, length, map, slice_get, Some, IfOk, OnOk};
ghost use Rattle.std.specs.List.{list_any};
ghost use Rattle.role_order.specs.Roles.{has_role};
ghost use Rattle.role_order.specs.Reach.{count_up};
ghost use Rattle.role_order.specs.Refusals.{IsOrder};
ghost use Rattle.arbac_policy.specs.Rules.{IsKnownRange};
ghost use Rattle.arbac_policy.specs.declared.rule.CanAssign.{CanAssign};
ghost use Rattle.arbac_policy.specs.declared.rule.CanRevoke.{CanRevoke};
ghost use Rattle.arbac_laws.specs.Obligations as laws;
ghost use Rattle.arbac_laws.specs.Obligations.{flat, flat_places, is_in_range};
ghost use Rattle.req_pre.specs.Preparing.{conjuncts_of};
ghost use Rattle.req_pre.specs.Views.{owed_of, pick_of};
ghost use Rattle.req_pre.specs.Owing.{act_by, is_of_use, by_other, by_picks, by_target, by_targets, by_role, by_roles, by_conjuncts, by_assign, by_revoke};

use crate::NoMemory;
use crate::owed::{Obligation, Pick};
use crate::prepared::Prepared;
use arbac_policy::Policy;
use hall_match::small;
use req_core::{Req, UserReq};
use role_order::{Order, Range, RoleSet};
use std::alloc::{AllocError, Global};

/// Where acts come from: a rule of `can_assign` with a conjunct of its condition, or one of `can_revoke`.
#[derive(Clone, Copy)]
enum Origin {
    Assign { rule: u32, conjunct: u32 },
    Weak { rule: u32 },
}

/// The act of the origin, with its other parts.
fn act_of(origin: Origin, role: u16, target: u32, admin: Pick) -> Obligation
    ensures { owed_of result ≡ act_by origin role target (pick_of admin) }
{
    match origin {
        Origin::Assign { rule, conjunct } => Obligation::Assign {
            rule,
            conjunct,
            role,
            target,
            admin,
        },
        Origin::Weak { rule } => Obligation::Weak {
            rule,
            role,
            target,
            admin,
        },
    }
}

/// Whether a hit has the role.
fn some_has(hits: &[RoleSet], role: u16) -> bool
    ensures { result ≡ list_any (λ hit. has_role hit role) hits.now }
{
    hits.iter().any(|hit| hit.has(role))
}

/// Whether an act of the origin with the role is of use to the user: gives what a hit wants, or takes a lack.
fn helps(origin: Origin, role: u16, user: &UserReq) -> bool
    ensures { result ≡ is_of_use origin role user.now }
{
    match origin {
        Origin::Assign { .. } => some_has(user.hits(), role),
        Origin::Weak { .. } => user.lacks().has(role),
    }
}

/// Adds the act that the user at the place administers, unless that is the target.
fn add_other(
    out: &mut Vec<Obligation>,
    origin: Origin,
    role: u16,
    target: u32,
    place: u32,
) -> Result<(), AllocError>
    ensures { OnOk result (map owed_of out.new.items ≡ map owed_of out.old.items ++ by_other origin role target place) }
{
    if place != target {
        out.push(act_of(origin, role, target, Pick::Other(place)))?;
    }
    Ok(())
}

/// Adds the acts that another of so many users administers.
fn add_others(
    out: &mut Vec<Obligation>,
    origin: Origin,
    role: u16,
    target: u32,
    count: u32,
) -> Result<(), AllocError>
    ensures { OnOk result (map owed_of out.new.items ≡ map owed_of out.old.items ++ flat (by_other origin role target) (count_up 0 count)) }
{
    for place in 0..count {
        add_other(out, origin, role, target, place)?;
    }
    Ok(())
}

/// Adds the acts on the target, by administrator.
fn add_picks(
    out: &mut Vec<Obligation>,
    origin: Origin,
    role: u16,
    target: u32,
    count: u32,
) -> Result<(), AllocError>
    ensures { OnOk result (map owed_of out.new.items ≡ map owed_of out.old.items ++ by_picks origin role target count) }
{
    out.push(act_of(origin, role, target, Pick::Itself))?;
    add_others(out, origin, role, target, count)?;
    out.push(act_of(origin, role, target, Pick::Fresh))?;
    Ok(())
}

/// Adds the acts on the user, if they are of use to it.
fn add_target(
    out: &mut Vec<Obligation>,
    origin: Origin,
    role: u16,
    count: u32,
    target: u32,
    user: &UserReq,
) -> Result<(), AllocError>
    ensures { OnOk result (map owed_of out.new.items ≡ map owed_of out.old.items ++ by_target origin role count target user.now) }
{
    if helps(origin, role, user) {
        add_picks(out, origin, role, target, count)?;
    }
    Ok(())
}

/// Adds the acts with the role, by target.
fn add_targets(
    out: &mut Vec<Obligation>,
    origin: Origin,
    role: u16,
    users: &[UserReq],
) -> Result<(), AllocError>
    ensures { OnOk result (map owed_of out.new.items ≡ map owed_of out.old.items ++ by_targets origin users.now role) }
{
    let count = small(users.len())?;
    for target in 0..count {
        add_target(out, origin, role, count, target, &users[target as usize])?;
    }
    Ok(())
}

/// Whether the role is of the range.
fn is_within(order: &Order, range: &Range, role: u16) -> bool
    requires order { IsOrder order.now.names order.now.edges }
    requires range { IsKnownRange (length order.now.names) range.now }
    requires role { role < length order.now.names }
    ensures { result ≡ is_in_range order.now range.now role }
{
    order.in_range(range, role)
}

/// Adds the acts with the role, if it is of the range.
fn add_role(
    out: &mut Vec<Obligation>,
    origin: Origin,
    order: &Order,
    range: &Range,
    users: &[UserReq],
    role: u16,
) -> Result<(), AllocError>
    requires order { IsOrder order.now.names order.now.edges }
    requires range { IsKnownRange (length order.now.names) range.now }
    requires role { role < length order.now.names }
    ensures { OnOk result (map owed_of out.new.items ≡ map owed_of out.old.items ++ by_role origin order.now range.now users.now role) }
{
    if is_within(order, range, role) {
        add_targets(out, origin, role, users)?;
    }
    Ok(())
}

/// Adds the acts of the origin, by role of the range.
fn add_roles(
    out: &mut Vec<Obligation>,
    origin: Origin,
    order: &Order,
    range: &Range,
    users: &[UserReq],
) -> Result<(), AllocError>
    requires { IsKnownRange (length order.now.names) range.now }
    ensures { OnOk result (map owed_of out.new.items ≡ map owed_of out.old.items ++ by_roles origin order.now range.now users.now) }
{
    let count = order.count();
    for role in 0..count {
        add_role(out, origin, order, range, users, role)?;
    }
    Ok(())
}

/// Adds the acts of the rule of `can_assign` with the first so many conjuncts of its condition.
fn add_conjuncts(
    out: &mut Vec<Obligation>,
    rule: u32,
    count: u32,
    order: &Order,
    range: &Range,
    users: &[UserReq],
) -> Result<(), AllocError>
    requires { IsKnownRange (length order.now.names) range.now }
    ensures { OnOk result (map owed_of out.new.items ≡ map owed_of out.old.items ++ by_conjuncts order.now range.now users.now rule count) }
{
    for conjunct in 0..count {
        add_roles(out, Origin::Assign { rule, conjunct }, order, range, users)?;
    }
    Ok(())
}

/// How many conjuncts the rule's condition has.
fn conjunct_count(prepared: &Prepared, place: u32) -> Result<u32, AllocError>
    ensures { IfOk result (λ count. (rule : CanAssign) → slice_get prepared.now.assign place ≡ Some rule
        → count ≡ length (conjuncts_of prepared.now rule)) }
{
    match prepared.conjuncts_at(place as usize) {
        Some(list) => small(list.len()),
        None => Ok(0),
    }
}

/// Adds the acts of the rule of `can_assign` at the place.
fn add_assign(
    out: &mut Vec<Obligation>,
    prepared: &Prepared,
    users: &[UserReq],
    place: u32,
) -> Result<(), AllocError>
    requires { place < length prepared.now.assign }
    ensures { OnOk result ((rule : CanAssign) → slice_get prepared.now.assign place ≡ Some rule
        → map owed_of out.new.items ≡ map owed_of out.old.items ++ by_assign prepared.now users.now place rule) }
{
    let policy = prepared.policy();
    let order = policy.order();
    let rule = &policy.assign()[place as usize];
    let count = conjunct_count(prepared, place)?;
    add_conjuncts(out, place, count, order, &rule.range, users)?;
    Ok(())
}

/// Adds the acts of the rule of `can_revoke` at the place.
fn add_revoke(
    out: &mut Vec<Obligation>,
    prepared: &Prepared,
    users: &[UserReq],
    place: u32,
) -> Result<(), AllocError>
    requires { place < length prepared.now.revoke }
    ensures { OnOk result ((rule : CanRevoke) → slice_get prepared.now.revoke place ≡ Some rule
        → map owed_of out.new.items ≡ map owed_of out.old.items ++ by_revoke prepared.now users.now place rule) }
{
    let policy = prepared.policy();
    let order = policy.order();
    let rule = &policy.revoke()[place as usize];
    add_roles(out, Origin::Weak { rule: place }, order, &rule.range, users)?;
    Ok(())
}

/// How many rules of `can_assign` there are.
fn assign_count(policy: &Policy) -> u32
    ensures { result ≡ length policy.now.assign }
{
    policy.law();
    policy.assign().len() as u32
}

/// How many rules of `can_revoke` there are.
fn revoke_count(policy: &Policy) -> u32
    ensures { result ≡ length policy.now.revoke }
{
    policy.law();
    policy.revoke().len() as u32
}

/// Adds the acts of all rules of `can_assign`.
fn add_assigns(
    out: &mut Vec<Obligation>,
    prepared: &Prepared,
    users: &[UserReq],
) -> Result<(), AllocError>
    ensures { OnOk result (map owed_of out.new.items ≡ map owed_of out.old.items
        ++ flat_places (by_assign prepared.now users.now) 0 prepared.now.assign) }
{
    let count = assign_count(prepared.policy());
    for place in 0..count {
        add_assign(out, prepared, users, place)?;
    }
    Ok(())
}

/// Adds the acts of all rules of `can_revoke`.
fn add_revokes(
    out: &mut Vec<Obligation>,
    prepared: &Prepared,
    users: &[UserReq],
) -> Result<(), AllocError>
    ensures { OnOk result (map owed_of out.new.items ≡ map owed_of out.old.items
        ++ flat_places (by_revoke prepared.now users.now) 0 prepared.now.revoke) }
{
    let count = revoke_count(prepared.policy());
    for place in 0..count {
        add_revoke(out, prepared, users, place)?;
    }
    Ok(())
}

/// The obligations of the requirement, in their order.
pub fn obligations(
    alloc: Global,
    prepared: &Prepared,
    req: &Req,
) -> Result<Vec<Obligation>, NoMemory>
    ensures { IfOk result (λ list. map owed_of list.items ≡ laws.obligations prepared.now req.now) }
{
    let mut list = Vec::new(alloc);
    add_assigns(&mut list, prepared, req.users())?;
    add_revokes(&mut list, prepared, req.users())?;
    Ok(list)
}
