//! Obligations whose pre-images no member of a list covers.

ghost use Rattle.std.specs.Prelude.{◌≡◌, ◌<◌, length, slice_get, Some, IfOk, IfSome, IfNone};
ghost use Rattle.list_words.specs.Lists.{Each, IsFirst};
ghost use Rattle.arbac_policy.specs.Rules.{IsKnownRange};
ghost use Rattle.arbac_policy.specs.declared.rule.CanAssign as assigns;
ghost use Rattle.arbac_policy.specs.declared.rule.CanRevoke as revokes;
ghost use Rattle.arbac_laws.specs.Obligations.{flat, obligations};
ghost use Rattle.arbac_laws.specs.Views.{needs_of};
ghost use Rattle.cert_check.specs.Asked.{IsOpen};
ghost use Rattle.cert_check.specs.Passing.{Counts, IsMissed, given_by, by_role, by_range, by_assign, by_revoke, IsMarked};

use crate::NoMemory;
use crate::index::{Index, marks_of};
use crate::picks::{Change, Member, pass_target};
use crate::rulebook::Rulebook;
use crate::useful::useful_in_range;
use arbac_policy::Conjunct;
use cert_needs::NeedUser;
use role_order::{Range, RoleSet};
use std::alloc::Global;

/// Passes the acts with the role, by target. Whether one is open.
fn pass_role(
    alloc: Global,
    member: &Member,
    change: &Change,
    hit: &RoleSet,
    role: u16,
    place: &mut u128,
) -> Result<bool, NoMemory>
    requires role { role < length member.now.book.now.order.names }
    requires member { IsMarked member.now }
    ensures { IfOk result (λ found. Counts (IsMissed member.now.index.now.members)
        (by_role member.now.book.now (given_by change.now) hit.now (needs_of member.now.users.now) role) place.old found place.new) }
{
    for target in 0..member.users.len() {
        if pass_target(alloc, member, change, hit, role, target, place)? {
            return Ok(true);
        }
    }
    Ok(false)
}

/// Passes the acts with a role of the range, by role. Whether one is open.
fn pass_range(
    alloc: Global,
    member: &Member,
    change: &Change,
    hit: &RoleSet,
    range: &Range,
    place: &mut u128,
) -> Result<bool, NoMemory>
    requires range { IsKnownRange (length member.now.book.now.order.names) range.now }
    requires member { IsMarked member.now }
    ensures { IfOk result (λ found. Counts (IsMissed member.now.index.now.members)
        (by_range member.now.book.now (given_by change.now) hit.now range.now (needs_of member.now.users.now)) place.old found place.new) }
{
    let roles = useful_in_range(member.book, range, change, member.users);
    for role in roles.roles() {
        if pass_role(alloc, member, change, hit, role, place)? {
            return Ok(true);
        }
    }
    Ok(false)
}

/// Passes the acts of the rule with each of the conjuncts. Whether one is open.
fn pass_conjuncts(
    alloc: Global,
    member: &Member,
    conjuncts: &[Conjunct],
    hit: &RoleSet,
    range: &Range,
    place: &mut u128,
) -> Result<bool, NoMemory>
    requires range { IsKnownRange (length member.now.book.now.order.names) range.now }
    requires member { IsMarked member.now }
    ensures { IfOk result (λ found. Counts (IsMissed member.now.index.now.members)
        (flat (λ conjunct. by_range member.now.book.now (Some conjunct) hit.now range.now (needs_of member.now.users.now)) (needs_of conjuncts.now))
        place.old found place.new) }
{
    for conjunct in conjuncts {
        let change = Change::Give(conjunct);
        if pass_range(alloc, member, &change, hit, range, place)? {
            return Ok(true);
        }
    }
    Ok(false)
}

/// Passes the acts of the rule at the place of `can_assign`. Whether one is open.
fn pass_assign(
    alloc: Global,
    member: &Member,
    at: usize,
    place: &mut u128,
) -> Result<bool, NoMemory>
    requires at { at < length member.now.book.now.assign }
    requires member { IsMarked member.now }
    ensures { IfOk result (λ found. (rule : assigns.CanAssign) → slice_get member.now.book.now.assign at ≡ Some rule
        → Counts (IsMissed member.now.index.now.members) (by_assign member.now.book.now (needs_of member.now.users.now) rule) place.old found place.new) }
{
    let policy = member.book.policy();
    let order = policy.order();
    let rule = &policy.assign()[at];
    let Some(conjuncts) = member.book.conjuncts_at(at) else {
        return Ok(false);
    };
    let hit = order.seniors(rule.admin);
    let found = pass_conjuncts(alloc, member, conjuncts, &hit, &rule.range, place)?;
    Ok(found)
}

/// Passes the acts of the rules of `can_assign`. Whether one is open.
fn pass_assigns(alloc: Global, member: &Member, place: &mut u128) -> Result<bool, NoMemory>
    requires member { IsMarked member.now }
    ensures { IfOk result (λ found. Counts (IsMissed member.now.index.now.members)
        (flat (by_assign member.now.book.now (needs_of member.now.users.now)) member.now.book.now.assign) place.old found place.new) }
{
    for at in 0..member.book.policy().assign().len() {
        if pass_assign(alloc, member, at, place)? {
            return Ok(true);
        }
    }
    Ok(false)
}

/// Passes the acts of the rule at the place of `can_revoke`. Whether one is open.
fn pass_revoke(
    alloc: Global,
    member: &Member,
    at: usize,
    place: &mut u128,
) -> Result<bool, NoMemory>
    requires at { at < length member.now.book.now.revoke }
    requires member { IsMarked member.now }
    ensures { IfOk result (λ found. (rule : revokes.CanRevoke) → slice_get member.now.book.now.revoke at ≡ Some rule
        → Counts (IsMissed member.now.index.now.members) (by_revoke member.now.book.now (needs_of member.now.users.now) rule) place.old found place.new) }
{
    let policy = member.book.policy();
    let order = policy.order();
    let rule = &policy.revoke()[at];
    let hit = order.seniors(rule.admin);
    let found = pass_range(alloc, member, &Change::Take, &hit, &rule.range, place)?;
    Ok(found)
}

/// Passes the acts of the rules of `can_revoke`. Whether one is open.
fn pass_revokes(alloc: Global, member: &Member, place: &mut u128) -> Result<bool, NoMemory>
    requires member { IsMarked member.now }
    ensures { IfOk result (λ found. Counts (IsMissed member.now.index.now.members)
        (flat (by_revoke member.now.book.now (needs_of member.now.users.now)) member.now.book.now.revoke) place.old found place.new) }
{
    for at in 0..member.book.policy().revoke().len() {
        if pass_revoke(alloc, member, at, place)? {
            return Ok(true);
        }
    }
    Ok(false)
}

/// The place, in the requirement's list of obligations, of the first one whose pre-image is possible and covered by no member
/// of the index; none where there is no such obligation. The error is want of memory, or more obligations than 128 bits count.
pub fn first_open(
    alloc: Global,
    book: &Rulebook,
    users: &[NeedUser],
    index: &Index,
) -> Result<Option<u128>, NoMemory>
    requires { index.now.order ≡ book.now.order }
    ensures first { IfOk result (λ found. IfSome found (IsFirst (IsOpen book.now index.now.members (needs_of users.now))
        (obligations book.now (needs_of users.now)))) }
    ensures none { IfOk result (λ found. IfNone found (Each (λ ob. ¬ IsOpen book.now index.now.members (needs_of users.now) ob)
        (obligations book.now (needs_of users.now)))) }
{
    let marks = marks_of(alloc, book.policy().order(), users)?;
    let mut place = 0;
    let member = Member {
        book,
        index,
        users,
        marks: &marks,
    };
    if pass_assigns(alloc, &member, &mut place)? {
        return Ok(Some(place));
    }
    if pass_revokes(alloc, &member, &mut place)? {
        return Ok(Some(place));
    }
    Ok(None)
}
