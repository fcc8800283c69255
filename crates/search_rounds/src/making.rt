//! The candidates of parents.

ghost use Rattle.std.specs.Prelude.{◌≡◌, ◌<◌, length, slice_get, Some, OnOk, IfOk};
ghost use Rattle.std.specs.List.{list_any};
ghost use Rattle.role_order.specs.Roles.{has_role};
ghost use Rattle.role_order.specs.Reach.{seniors_of};
ghost use Rattle.arbac_policy.specs.declared.rule.CanAssign.{CanAssign};
ghost use Rattle.arbac_policy.specs.declared.rule.CanRevoke.{CanRevoke};
ghost use Rattle.arbac_laws.specs.Needs.{Need};
ghost use Rattle.arbac_laws.specs.Obligations.{and_then, flat, flat_places};
ghost use Rattle.arbac_laws.specs.Views.{needs_of};
ghost use Rattle.req_core.specs.Forms.{user_form};
ghost use Rattle.search_laws.specs.Candidates.{parent_candidates, next_candidates};
ghost use Rattle.shared_reqs.specs.Shared.{AreOwnMarks};
ghost use Rattle.search_rounds.specs.Keeping.{Gathers};
ghost use Rattle.search_rounds.specs.Views.{entry_of, entries_of, HaveOwnMarks};
ghost use Rattle.search_rounds.specs.Making.{way_of, gives, is_of_use, before_by, by_role, by_assign, by_revoke};
ghost use Rattle.search_rounds.specs.Listing.{parent_needs, IsWork, AreBy, of_deed, of_acts};

use crate::candidate::Candidate;
use crate::gathering::Gathering;
use crate::picks::{Change, Deed, Parent, gather_picks};
use crate::useful::{Useful, useful_in, useful_roles};
use crate::{BATCH, NoMemory};
use arbac_rules::Conjunct;
use hall_match::small;
use req_core::UserReq;
use req_pre::{Prepared, before_given, before_taken};
use role_order::RoleSet;
use std::alloc::{AllocError, Global};

/// A parent whose users are gone through, and the roles with which acts may be of use to them.
#[derive(Clone, Copy)]
struct Work<'a> {
    prepared: &'a Prepared,
    parent: Parent<'a>,
    useful: Useful,
}

/// The acts by a rule, and by one conjunct where it assigns.
#[derive(Clone, Copy)]
struct Acts<'a> {
    change: Change<'a>,
    /// The rule's administrative role.
    admin: u16,
    /// Its seniors.
    hit: RoleSet,
}

/// Whether a hit has the role.
fn some_has(hits: &[RoleSet], role: u16) -> bool
    ensures { result ≡ list_any (λ hit. has_role hit role) hits.now }
{
    hits.iter().any(|hit| hit.has(role))
}

/// Whether the act is of use to the user: gives what a hit wants, or takes a lack.
fn helps(change: &Change, role: u16, user: &UserReq) -> bool
    ensures { result ≡ is_of_use (way_of change.now) role user.now }
{
    match change {
        Change::Give { .. } => some_has(user.hits(), role),
        Change::Take { .. } => user.lacks().has(role),
    }
}

/// What the target must meet before the act, in normal form; none where nothing will do.
fn before_act(
    alloc: Global,
    prepared: &Prepared,
    change: &Change,
    role: u16,
    user: &UserReq,
) -> Result<Option<UserReq>, NoMemory>
    ensures { IfOk result (λ before. before ≡ and_then (before_by prepared.now (way_of change.now) role user.now) user_form) }
{
    match change {
        Change::Give { conjunct, .. } => before_given(alloc, prepared, conjunct, role, user),
        Change::Take { .. } => before_taken(alloc, role, user),
    }
}

/// The candidates of the act, if it is of use to its target.
fn gather_target(
    alloc: Global,
    gathering: &mut Gathering,
    work: &Work,
    deed: &Deed,
) -> Result<(), NoMemory>
    requires order { gathering.old.order ≡ work.now.prepared.now.order }
    requires marks { AreOwnMarks work.now.prepared.now.order work.now.parent.req.now }
    requires target { deed.now.target < length work.now.parent.req.now }
    requires admin { deed.now.admin < length work.now.prepared.now.order.names }
    requires hit { deed.now.hit ≡ seniors_of work.now.prepared.now.order deed.now.admin }
    ensures { OnOk result ((need : Need) → slice_get (parent_needs work.now) deed.now.target ≡ Some need
        → Gathers gathering.old gathering.new (of_deed work.now deed.now need)) }
{
    let user = work.parent.req.users()[deed.target as usize].user();
    if !helps(&deed.change, deed.role, user) {
        return Ok(());
    }
    if let Some(before) = before_act(alloc, work.prepared, &deed.change, deed.role, user)? {
        let before = gathering.share(alloc, before)?;
        gather_picks(alloc, gathering, &work.parent, deed, &before)?;
    }
    Ok(())
}

/// The candidates of the acts with the role, by target.
fn gather_role(
    alloc: Global,
    gathering: &mut Gathering,
    work: &Work,
    acts: &Acts,
    role: u16,
) -> Result<(), NoMemory>
    requires order { gathering.old.order ≡ work.now.prepared.now.order }
    requires work { IsWork work.now }
    requires acts { AreBy work.now.prepared.now.order acts.now }
    ensures { OnOk result (Gathers gathering.old gathering.new (of_acts work.now acts.now role)) }
{
    let count = small(work.parent.req.users().len())?;
    for target in 0..count {
        let deed = Deed {
            change: acts.change,
            role,
            target,
            admin: acts.admin,
            hit: acts.hit,
        };
        gather_target(alloc, gathering, work, &deed)?;
    }
    Ok(())
}

/// The candidates of the acts with each of the roles.
fn gather_roles(
    alloc: Global,
    gathering: &mut Gathering,
    work: &Work,
    acts: &Acts,
    roles: &RoleSet,
) -> Result<(), NoMemory>
    requires order { gathering.old.order ≡ work.now.prepared.now.order }
    requires work { IsWork work.now }
    requires acts { AreBy work.now.prepared.now.order acts.now }
    ensures { OnOk result (Gathers gathering.old gathering.new (flat (of_acts work.now acts.now) roles.now)) }
{
    for role in roles.roles() {
        gather_role(alloc, gathering, work, acts, role)?;
    }
    Ok(())
}

/// The candidates of the acts by the rule with each of its conjuncts and each of the roles.
fn gather_conjuncts(
    alloc: Global,
    gathering: &mut Gathering,
    work: &Work,
    rule: u32,
    conjuncts: &[Conjunct],
    admin: u16,
    roles: &RoleSet,
) -> Result<(), NoMemory>
    requires order { gathering.old.order ≡ work.now.prepared.now.order }
    requires work { IsWork work.now }
    requires admin { admin < length work.now.prepared.now.order.names }
    ensures { OnOk result (Gathers gathering.old gathering.new (flat_places (λ place conjunct. flat
        (by_role work.now.prepared.now work.now.parent.number (gives rule place conjunct) (seniors_of work.now.prepared.now.order admin)
        (parent_needs work.now)) roles.now) 0 (needs_of conjuncts.now))) }
{
    let hit = work.prepared.policy().order().seniors(admin);
    let count = small(conjuncts.len())?;
    for place in 0..count {
        let change = Change::Give {
            rule,
            place,
            conjunct: &conjuncts[place as usize],
        };
        gather_roles(alloc, gathering, work, &Acts { change, admin, hit }, roles)?;
    }
    Ok(())
}

/// The candidates of the acts by the rule at the place of `can_assign`.
fn gather_assign(
    alloc: Global,
    gathering: &mut Gathering,
    work: &Work,
    place: u32,
) -> Result<(), NoMemory>
    requires order { gathering.old.order ≡ work.now.prepared.now.order }
    requires work { IsWork work.now }
    requires place { place < length work.now.prepared.now.assign }
    ensures { OnOk result ((rule : CanAssign) → slice_get work.now.prepared.now.assign place ≡ Some rule
        → Gathers gathering.old gathering.new (by_assign work.now.prepared.now work.now.parent.number (parent_needs work.now) place rule)) }
{
    let policy = work.prepared.policy();
    let rule = &policy.assign()[place as usize];
    let roles = useful_in(policy.order(), &rule.range, &work.useful.given);
    if roles.is_empty() {
        return Ok(());
    }
    if let Some(conjuncts) = work.prepared.conjuncts_at(place as usize) {
        gather_conjuncts(alloc, gathering, work, place, conjuncts, rule.admin, &roles)?;
    }
    Ok(())
}

/// The candidates of the acts by the rule at the place of `can_revoke`.
fn gather_revoke(
    alloc: Global,
    gathering: &mut Gathering,
    work: &Work,
    place: u32,
) -> Result<(), NoMemory>
    requires order { gathering.old.order ≡ work.now.prepared.now.order }
    requires work { IsWork work.now }
    requires place { place < length work.now.prepared.now.revoke }
    ensures { OnOk result ((rule : CanRevoke) → slice_get work.now.prepared.now.revoke place ≡ Some rule
        → Gathers gathering.old gathering.new (by_revoke work.now.prepared.now work.now.parent.number (parent_needs work.now) place rule)) }
{
    let policy = work.prepared.policy();
    let order = policy.order();
    let rule = &policy.revoke()[place as usize];
    let roles = useful_in(order, &rule.range, &work.useful.taken);
    if roles.is_empty() {
        return Ok(());
    }
    let acts = Acts {
        change: Change::Take { rule: place },
        admin: rule.admin,
        hit: order.seniors(rule.admin),
    };
    gather_roles(alloc, gathering, work, &acts, &roles)?;
    Ok(())
}

/// The candidates of the acts by all rules of `can_assign`.
fn gather_assigns(alloc: Global, gathering: &mut Gathering, work: &Work) -> Result<(), NoMemory>
    requires order { gathering.old.order ≡ work.now.prepared.now.order }
    requires work { IsWork work.now }
    ensures { OnOk result (Gathers gathering.old gathering.new
        (flat_places (by_assign work.now.prepared.now work.now.parent.number (parent_needs work.now)) 0 work.now.prepared.now.assign)) }
{
    let count = small(work.prepared.policy().assign().len())?;
    for place in 0..count {
        gather_assign(alloc, gathering, work, place)?;
    }
    Ok(())
}

/// The candidates of the acts by all rules of `can_revoke`.
fn gather_revokes(alloc: Global, gathering: &mut Gathering, work: &Work) -> Result<(), NoMemory>
    requires order { gathering.old.order ≡ work.now.prepared.now.order }
    requires work { IsWork work.now }
    ensures { OnOk result (Gathers gathering.old gathering.new
        (flat_places (by_revoke work.now.prepared.now work.now.parent.number (parent_needs work.now)) 0 work.now.prepared.now.revoke)) }
{
    let count = small(work.prepared.policy().revoke().len())?;
    for place in 0..count {
        gather_revoke(alloc, gathering, work, place)?;
    }
    Ok(())
}

/// The candidates of the parent, which has the number.
fn gather_parent(
    alloc: Global,
    prepared: &Prepared,
    gathering: &mut Gathering,
    parent: &Candidate,
    number: u32,
) -> Result<(), NoMemory>
    requires order { gathering.old.order ≡ prepared.now.order }
    requires marks { AreOwnMarks prepared.now.order parent.now.req.value }
    ensures { OnOk result (Gathers gathering.old gathering.new (parent_candidates prepared.now number (entry_of parent.now))) }
{
    let req = &parent.req;
    let work = Work {
        prepared,
        parent: Parent { number, req },
        useful: useful_roles(req.users()),
    };
    gather_assigns(alloc, gathering, &work)?;
    gather_revokes(alloc, gathering, &work)?;
    Ok(())
}

/// The candidates of the next recorded entries behind those that were taken. The error is want of memory, or a number or place
/// that needs more than 32 bits.
pub fn gather_batch(
    alloc: Global,
    prepared: &Prepared,
    gathering: &mut Gathering,
    recorded: &[Candidate],
    taken: usize,
) -> Result<(), NoMemory>
    requires order { gathering.old.order ≡ prepared.now.order }
    requires marks { HaveOwnMarks prepared.now.order recorded.now }
    ensures { OnOk result (Gathers gathering.old gathering.new (next_candidates prepared.now (entries_of recorded.now) taken)) }
{
    let end = recorded.len().min(taken.saturating_add(BATCH));
    for place in taken..end {
        gather_parent(alloc, prepared, gathering, &recorded[place], small(place)?)?;
    }
    Ok(())
}
