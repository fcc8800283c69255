//! Where a step of a recorded list comes from.

ghost use Rattle.std.specs.Prelude.{ℕ, ◌≡◌, ◌<◌, ◌↔◌, List, length, map, slice_get, Some, IsTrue, IfOk, IfSome, IfNone, OnOk};
ghost use Rattle.std.specs.List.{list_any};
ghost use Rattle.role_order.specs.Roles.{has_role};
ghost use Rattle.role_order.specs.Ranges.{IsInRange};
ghost use Rattle.arbac_policy.specs.Rules.{IsKnownRange};
ghost use Rattle.arbac_laws.specs.Goals as laws;
ghost use Rattle.arbac_laws.specs.Needs.{Need};
ghost use Rattle.arbac_laws.specs.NormalForms.{normal_form};
ghost use Rattle.arbac_laws.specs.PreImages.{IsPick, with_admin};
ghost use Rattle.arbac_laws.specs.Views.{need_of, needs_of};
ghost use Rattle.cert_needs.specs.Wanted.{needs_wanted, AreFree};
ghost use Rattle.cert_text.specs.Certificates.{pick_of, entry_of};
ghost use Rattle.cert_check.specs.Asked.{Asked, IsDerivedEntry};
ghost use Rattle.cert_check.specs.Origins.{IsGiven, IsTaken, IsExchanged};
ghost use Rattle.cert_check.specs.Rulebooks.{lists_of};

use crate::NoMemory;
use crate::rulebook::Rulebook;
use cert_needs::{
    NeedUser, Wanted, add_fresh, as_wanted, before_assign, before_weak, exchange, has_form,
    put_admin,
};
use cert_text::{Step, StepFrom, Who};
use role_order::{Order, Range, RoleSet};
use std::alloc::Global;

/// What an act exchanges: what its target must meet before it, and the roles one of which the administrator must have.
#[derive(Drop)]
struct Exchange {
    before: NeedUser,
    hit: RoleSet,
}

/// Whether a hit has the role.
fn has_hit(hits: &[RoleSet], role: u16) -> bool
    ensures { result ≡ list_any (λ hit. has_role hit role) hits.now }
{
    hits.iter().any(|hit| hit.has(role))
}

/// Whether it is a role of the order, within the range.
fn is_in_range(order: &Order, range: &Range, role: u16) -> bool
    requires { IsKnownRange (length order.now.names) range.now }
    ensures { IsTrue result ↔ IsInRange order.now range.now role }
{
    role < order.count() && order.in_range(range, role)
}

/// What is exchanged before the rule, its condition met by the conjunct, gives the role to the target, one of whose hits has
/// it; none where it can't be given so.
fn before_given(
    alloc: Global,
    book: &Rulebook,
    users: &[NeedUser],
    rule: u32,
    conjunct: u32,
    role: u16,
    target: u32,
) -> Result<Option<Exchange>, NoMemory>
    ensures some { IfOk result (λ found. IfSome found (λ one.
        IsGiven book.now (needs_of users.now) rule conjunct role target one.hit (need_of one.before))) }
    ensures none { IfOk result (λ found. IfNone found ((hit : List ℕ) (before : Need) →
        ¬ IsGiven book.now (needs_of users.now) rule conjunct role target hit before)) }
{
    let policy = book.policy();
    let order = policy.order();
    let Some(by) = policy.assign().get(rule as usize) else {
        return Ok(None);
    };
    let Some(conjuncts) = book.conjuncts_at(rule as usize) else {
        return Ok(None);
    };
    let Some(when) = conjuncts.get(conjunct as usize) else {
        return Ok(None);
    };
    let Some(user) = users.get(target as usize) else {
        return Ok(None);
    };
    if !is_in_range(order, &by.range, role) || !has_hit(&user.hits, role) {
        return Ok(None);
    }
    let Some(before) = before_assign(alloc, book.exclusions(), when, role, user)? else {
        return Ok(None);
    };
    let hit = order.seniors(by.admin);
    Ok(Some(Exchange { before, hit }))
}

/// What is exchanged before the rule takes the role from the target, whose lacks have it; none where it can't be taken so.
fn before_taken(
    alloc: Global,
    book: &Rulebook,
    users: &[NeedUser],
    rule: u32,
    role: u16,
    target: u32,
) -> Result<Option<Exchange>, NoMemory>
    ensures some { IfOk result (λ found. IfSome found (λ one.
        IsTaken book.now (needs_of users.now) rule role target one.hit (need_of one.before))) }
    ensures none { IfOk result (λ found. IfNone found ((hit : List ℕ) (before : Need) →
        ¬ IsTaken book.now (needs_of users.now) rule role target hit before)) }
{
    let policy = book.policy();
    let order = policy.order();
    let Some(by) = policy.revoke().get(rule as usize) else {
        return Ok(None);
    };
    let Some(user) = users.get(target as usize) else {
        return Ok(None);
    };
    if !is_in_range(order, &by.range, role) || !user.lacks.has(role) {
        return Ok(None);
    }
    let Some(before) = before_weak(alloc, role, user)? else {
        return Ok(None);
    };
    let hit = order.seniors(by.admin);
    Ok(Some(Exchange { before, hit }))
}

/// Whether the administrator is the target, another one of so many users, or new.
fn is_pick(admin: Who, target: u32, count: usize) -> bool
    ensures { IsTrue result ↔ IsPick (pick_of admin) target count }
{
    match admin {
        Who::Itself | Who::Fresh => true,
        Who::Other(place) => (place as usize) < count && place != target,
    }
}

/// The administrator is to have a role of the hit too.
fn admit(wanted: &mut Vec<Wanted>, admin: Who, target: u32, hit: RoleSet) -> Result<(), NoMemory>
    requires target { target < length wanted.old.items }
    requires pick { IsPick (pick_of admin) target (length wanted.old.items) }
    requires free { AreFree wanted.old.items }
    ensures { OnOk result (needs_wanted wanted.new.items ≡ with_admin (pick_of admin) target hit (needs_wanted wanted.old.items)) }
{
    match admin {
        Who::Itself => put_admin(wanted, target as usize, hit),
        Who::Other(place) => put_admin(wanted, place as usize, hit),
        Who::Fresh => add_fresh(wanted, hit)?,
    }
    Ok(())
}

/// Whether the administrator is a pick, and the form is the normal form of what the users must meet before the act.
fn is_exchanged(
    alloc: Global,
    users: &[NeedUser],
    target: u32,
    admin: Who,
    by: &Exchange,
    form: &[NeedUser],
) -> Result<bool, NoMemory>
    requires { target < length users.now }
    ensures { IfOk result (λ answer. IsTrue answer ↔
        IsExchanged (needs_of users.now) target (pick_of admin) by.now.hit (need_of by.now.before) (needs_of form.now)) }
{
    if !is_pick(admin, target, users.len()) {
        return Ok(false);
    }
    let mut wanted = as_wanted(alloc, users)?;
    exchange(&mut wanted, target as usize, &by.before);
    admit(&mut wanted, admin, target, by.hit)?;
    has_form(alloc, &wanted, form)
}

/// Whether the form is the normal form of the goal requirement at the place.
fn is_goal(
    alloc: Global,
    goals: &[Vec<NeedUser>],
    place: u32,
    form: &[NeedUser],
) -> Result<bool, NoMemory>
    ensures { IfOk result (λ answer. IsTrue answer ↔ ((needs : List Need) × (slice_get (lists_of (λ users. users.items) goals.now) place ≡ Some needs)
        × (normal_form needs ≡ Some (needs_of form.now)))) }
{
    match goals.get(place as usize) {
        Some(goal) => {
            let wanted = as_wanted(alloc, goal)?;
            has_form(alloc, &wanted, form)
        }
        None => Ok(false),
    }
}

/// Whether the step is the normal form of the goal requirement that its origin names, or of the pre-image of the parent among
/// the earlier steps by an obligation that this has.
pub fn is_derived(
    alloc: Global,
    book: &Rulebook,
    goals: &[Vec<NeedUser>],
    earlier: &[Step],
    step: &Step,
) -> Result<bool, NoMemory>
    ensures { (asked : Asked) → asked.rules ≡ book.now → lists_of (λ users. users.items) goals.now ≡ laws.goal_requirements book.now.order asked.goal →
        IfOk result (λ answer. IsTrue answer ↔ IsDerivedEntry asked (map entry_of earlier.now) (entry_of step.now)) }
{
    book.policy().order().is_order();
    let form = step.need.users.as_slice();
    match step.origin {
        StepFrom::Goal { place } => is_goal(alloc, goals, place, form),
        StepFrom::Assign {
            parent,
            rule,
            conjunct,
            role,
            target,
            admin,
        } => {
            let Some(parent) = earlier.get(parent as usize) else {
                return Ok(false);
            };
            let users = parent.need.users.as_slice();
            let Some(by) = before_given(alloc, book, users, rule, conjunct, role, target)? else {
                return Ok(false);
            };
            is_exchanged(alloc, users, target, admin, &by, form)
        }
        StepFrom::Weak {
            parent,
            rule,
            role,
            target,
            admin,
        } => {
            let Some(parent) = earlier.get(parent as usize) else {
                return Ok(false);
            };
            let users = parent.need.users.as_slice();
            let Some(by) = before_taken(alloc, book, users, rule, role, target)? else {
                return Ok(false);
            };
            is_exchanged(alloc, users, target, admin, &by, form)
        }
    }
}
