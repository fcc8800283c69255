//! Acts on one target, by administrator.

ghost use Rattle.std.specs.Prelude.{◌≡◌, ◌<◌, ◌+◌, ◌++◌, ◌∷◌, [], ◌↔◌, true, false, List, length, IsTrue, Some, IfOk, OnOk};
ghost use Rattle.std.specs.Prelude.{option_map, slice_get, slice_set};
ghost use Rattle.std.specs.List.{list_any};
ghost use Rattle.role_order.specs.Roles.{has_role};
ghost use Rattle.role_order.specs.Reach.{count_up};
ghost use Rattle.arbac_policy.specs.declared.conjunct.Conjunct as conjuncts;
ghost use Rattle.arbac_laws.specs.Needs.{Need};
ghost use Rattle.arbac_laws.specs.Obligations.{flat};
ghost use Rattle.arbac_laws.specs.PreImages.{add_hit, change_at};
ghost use Rattle.arbac_laws.specs.Views.{need_of, needs_of};
ghost use Rattle.cert_needs.specs.Wanted.{needs_wanted, AreFree};
ghost use Rattle.need_marks.specs.Marks.{AreUserMarks};
ghost use Rattle.cert_check.specs.Asked.{IsUncovered};
ghost use Rattle.cert_check.specs.Passing as passing;
ghost use Rattle.cert_check.specs.Passing.{Counts, IsMissed, by_other, by_users, by_picks, by_before, by_target, given_by, IsMarked};

use crate::NoMemory;
use crate::index::Index;
use crate::rulebook::Rulebook;
use arbac_policy::Conjunct;
use cert_needs::{
    NeedUser, Wanted, add_fresh, as_wanted, before_assign, before_weak, drop_admin, exchange,
    is_possible, put_admin,
};
use need_marks::UserMark;
use role_order::{Order, RoleSet};
use std::alloc::{AllocError, Global};

/// What an act does: it gives a role by a rule whose condition the target meets by the conjunct, or takes one away.
#[derive(Clone, Copy)]
pub enum Change<'a> {
    Give(&'a Conjunct),
    Take,
}

/// A requirement whose obligations are gone through, and what they are judged by.
#[derive(Clone, Copy)]
pub struct Member<'a> {
    pub book: &'a Rulebook<'a>,
    pub index: &'a Index<'a>,
    pub users: &'a [NeedUser],
    /// The marks of the users.
    pub marks: &'a [UserMark],
}

/// Counts the place on. The error is that 128 bits don't count so far.
fn pass(place: &mut u128, count: u128) -> Result<(), NoMemory>
    ensures { OnOk result (place.new ≡ place.old + count) }
{
    match place.checked_add(count) {
        Some(next) => {
            *place = next;
            Ok(())
        }
        None => Err(AllocError),
    }
}

/// Passes one obligation that isn't open, and says whether it is open.
fn pass_closed(place: &mut u128, is_open: bool) -> Result<bool, NoMemory>
    ensures same { IfOk result (λ found. found ≡ is_open) }
    ensures open { IfOk result (λ found. found ≡ true → place.new ≡ place.old) }
    ensures passed { IfOk result (λ found. found ≡ false → place.new ≡ place.old + 1) }
{
    if !is_open {
        pass(place, 1)?;
    }
    Ok(is_open)
}

/// Whether what is wanted of the users is possible and no member covers it.
fn is_missed(
    alloc: Global,
    index: &Index,
    users: &[Wanted],
    marks: &[UserMark],
) -> Result<bool, NoMemory>
    requires { AreUserMarks index.now.order (needs_wanted users.now) marks.now }
    ensures { IfOk result (λ answer. IsTrue answer ↔ IsUncovered index.now.members (needs_wanted users.now)) }
{
    if !is_possible(users) {
        return Ok(false);
    }
    let is_covered = index.is_covered(alloc, users, marks)?;
    Ok(!is_covered)
}

/// The same, where the user at the place is the administrator too. Users and marks are left as they were.
fn is_missed_by(
    alloc: Global,
    order: &Order,
    index: &Index,
    users: &mut [Wanted],
    marks: &mut [UserMark],
    admin: usize,
    hit: &RoleSet,
) -> Result<bool, NoMemory>
    requires order { index.now.order ≡ order.now }
    requires admin { admin < length users.old }
    requires free { AreFree users.old }
    requires marks { AreUserMarks order.now (needs_wanted users.old) marks.old }
    ensures missed { IfOk result (λ answer. IsTrue answer
        ↔ IsUncovered index.now.members (change_at admin (add_hit hit.now) (needs_wanted users.old))) }
    ensures users { users.new ≡ users.old }
    ensures marks { marks.new ≡ marks.old }
{
    let mark = marks[admin];
    marks[admin] = mark.and_hit(order, hit);
    put_admin(users, admin, *hit);
    let answer = is_missed(alloc, index, users, marks);
    drop_admin(users, admin);
    marks[admin] = mark;
    answer
}

/// The same, where a new user is the administrator, who is left behind the others.
fn is_missed_by_fresh(
    alloc: Global,
    order: &Order,
    index: &Index,
    users: &mut Vec<Wanted>,
    marks: &mut Vec<UserMark>,
    hit: &RoleSet,
) -> Result<bool, NoMemory>
    requires order { index.now.order ≡ order.now }
    requires marks { AreUserMarks order.now (needs_wanted users.old.items) marks.old.items }
    ensures { IfOk result (λ answer. IsTrue answer ↔ IsUncovered index.now.members
        (needs_wanted users.old.items ++ record { hits = hit.now ∷ []; lacks = [] } ∷ [])) }
{
    add_fresh(users, *hit)?;
    marks.push(UserMark::of(order, &[*hit], &RoleSet::empty()))?;
    let answer = is_missed(alloc, index, users, marks)?;
    Ok(answer)
}

/// Passes the act on the target that the user at the place administers, if that is another one. Whether it is open.
fn pass_other(
    alloc: Global,
    order: &Order,
    index: &Index,
    users: &mut [Wanted],
    marks: &mut [UserMark],
    target: usize,
    admin: usize,
    hit: &RoleSet,
    place: &mut u128,
) -> Result<bool, NoMemory>
    requires order { index.now.order ≡ order.now }
    requires admin { admin < length users.old }
    requires free { AreFree users.old }
    requires marks { AreUserMarks order.now (needs_wanted users.old) marks.old }
    ensures counts { IfOk result (λ found. Counts (IsMissed index.now.members) (by_other hit.now (needs_wanted users.old) target admin)
        place.old found place.new) }
    ensures users { users.new ≡ users.old }
    ensures marks { marks.new ≡ marks.old }
{
    if admin == target {
        return Ok(false);
    }
    let is_open = is_missed_by(alloc, order, index, users, marks, admin, hit)?;
    let found = pass_closed(place, is_open)?;
    Ok(found)
}

/// Passes the acts on the target that another of the users administers. Whether one is open.
fn pass_others(
    alloc: Global,
    order: &Order,
    index: &Index,
    users: &mut [Wanted],
    marks: &mut [UserMark],
    target: usize,
    hit: &RoleSet,
    place: &mut u128,
) -> Result<bool, NoMemory>
    requires order { index.now.order ≡ order.now }
    requires free { AreFree users.old }
    requires marks { AreUserMarks order.now (needs_wanted users.old) marks.old }
    ensures counts { IfOk result (λ found. Counts (IsMissed index.now.members)
        (flat (by_other hit.now (needs_wanted users.old) target) (count_up 0 (length users.old))) place.old found place.new) }
    ensures users { IfOk result (λ _. users.new ≡ users.old) }
    ensures marks { IfOk result (λ _. marks.new ≡ marks.old) }
{
    for admin in 0..users.len() {
        if pass_other(alloc, order, index, users, marks, target, admin, hit, place)? {
            return Ok(true);
        }
    }
    Ok(false)
}

/// Passes the acts on the target that it administers itself, or another of the users. Whether one is open.
fn pass_users(
    alloc: Global,
    order: &Order,
    index: &Index,
    users: &mut [Wanted],
    marks: &mut [UserMark],
    target: usize,
    hit: &RoleSet,
    place: &mut u128,
) -> Result<bool, NoMemory>
    requires order { index.now.order ≡ order.now }
    requires target { target < length users.old }
    requires free { AreFree users.old }
    requires marks { AreUserMarks order.now (needs_wanted users.old) marks.old }
    ensures counts { IfOk result (λ found. Counts (IsMissed index.now.members) (by_users hit.now (needs_wanted users.old) target)
        place.old found place.new) }
    ensures users { IfOk result (λ _. users.new ≡ users.old) }
    ensures marks { IfOk result (λ _. marks.new ≡ marks.old) }
{
    let is_open = is_missed_by(alloc, order, index, users, marks, target, hit)?;
    if pass_closed(place, is_open)? {
        return Ok(true);
    }
    let found = pass_others(alloc, order, index, users, marks, target, hit, place)?;
    Ok(found)
}

/// Passes the acts on the target by each administrator. Whether one is open.
fn pass_picks(
    alloc: Global,
    order: &Order,
    index: &Index,
    users: &mut Vec<Wanted>,
    marks: &mut Vec<UserMark>,
    target: usize,
    hit: &RoleSet,
    place: &mut u128,
) -> Result<bool, NoMemory>
    requires order { index.now.order ≡ order.now }
    requires target { target < length users.old.items }
    requires free { AreFree users.old.items }
    requires marks { AreUserMarks order.now (needs_wanted users.old.items) marks.old.items }
    ensures { IfOk result (λ found. Counts (IsMissed index.now.members) (by_picks hit.now (needs_wanted users.old.items) target)
        place.old found place.new) }
{
    if pass_users(alloc, order, index, users, marks, target, hit, place)? {
        return Ok(true);
    }
    let is_open = is_missed_by_fresh(alloc, order, index, users, marks, hit)?;
    let found = pass_closed(place, is_open)?;
    Ok(found)
}

/// The same. Where what is wanted is impossible, it stays so with an administrator.
fn pass_possible(
    alloc: Global,
    order: &Order,
    index: &Index,
    users: &mut Vec<Wanted>,
    marks: &mut Vec<UserMark>,
    target: usize,
    hit: &RoleSet,
    place: &mut u128,
) -> Result<bool, NoMemory>
    requires order { index.now.order ≡ order.now }
    requires target { target < length users.old.items }
    requires free { AreFree users.old.items }
    requires marks { AreUserMarks order.now (needs_wanted users.old.items) marks.old.items }
    ensures { IfOk result (λ found. Counts (IsMissed index.now.members) (by_picks hit.now (needs_wanted users.old.items) target)
        place.old found place.new) }
{
    if !is_possible(users) {
        pass(place, users.len() as u128 + 1)?;
        return Ok(false);
    }
    let found = pass_picks(alloc, order, index, users, marks, target, hit, place)?;
    Ok(found)
}

/// The marks, with that of the target before the act.
fn marks_before(
    alloc: Global,
    order: &Order,
    marks: &[UserMark],
    target: usize,
    before: &NeedUser,
) -> Result<Vec<UserMark>, NoMemory>
    requires { target < length marks.now }
    ensures { IfOk result (λ list. (needs : List Need) → AreUserMarks order.now needs marks.now
        → AreUserMarks order.now (slice_set needs target (need_of before.now)) list.items) }
{
    let mut list = Vec::with_capacity(alloc, marks.len())?;
    list.extend_from_slice(marks)?;
    list[target] = UserMark::of(order, &before.hits, &before.lacks);
    Ok(list)
}

/// What is wanted of the users before the act, by whomever it is administered.
fn wanted_before<'a>(
    alloc: Global,
    users: &'a [NeedUser],
    target: usize,
    before: &'a NeedUser,
) -> Result<Vec<Wanted<'a>>, NoMemory>
    requires { target < length users.now }
    ensures needs { IfOk result (λ list. needs_wanted list.items ≡ slice_set (needs_of users.now) target (need_of before.now)) }
    ensures free { IfOk result (λ list. AreFree list.items) }
{
    let mut list = as_wanted(alloc, users)?;
    exchange(&mut list, target, before);
    Ok(list)
}

/// Passes the acts on the target, which must meet so much before. Whether one is open.
fn pass_before(
    alloc: Global,
    member: &Member,
    target: usize,
    before: &NeedUser,
    hit: &RoleSet,
    place: &mut u128,
) -> Result<bool, NoMemory>
    requires target { target < length member.now.users.now }
    requires member { IsMarked member.now }
    ensures { IfOk result (λ found. Counts (IsMissed member.now.index.now.members)
        (by_before hit.now (needs_of member.now.users.now) target (Some (need_of before.now))) place.old found place.new) }
{
    let order = member.book.policy().order();
    let mut users = wanted_before(alloc, member.users, target, before)?;
    let mut marks = marks_before(alloc, order, member.marks, target, before)?;
    let found = pass_possible(
        alloc,
        order,
        member.index,
        &mut users,
        &mut marks,
        target,
        hit,
        place,
    )?;
    Ok(found)
}

/// Whether a hit has the role.
fn some_has(hits: &[RoleSet], role: u16) -> bool
    ensures { result ≡ list_any (λ hit. has_role hit role) hits.now }
{
    hits.iter().any(|hit| hit.has(role))
}

/// Whether the act is of use to the user: gives what a hit wants, or takes a lack.
fn is_of_use(change: &Change, role: u16, user: &NeedUser) -> bool
    ensures { result ≡ passing.is_of_use (given_by change.now) role (need_of user.now) }
{
    match change {
        Change::Give(_) => some_has(&user.hits, role),
        Change::Take => user.lacks.has(role),
    }
}

/// What the target must meet before the act, if it can.
fn before_by(
    alloc: Global,
    book: &Rulebook,
    change: &Change,
    role: u16,
    user: &NeedUser,
) -> Result<Option<NeedUser>, NoMemory>
    requires { role < length book.now.order.names }
    ensures { IfOk result (λ before. option_map need_of before
        ≡ passing.before_by book.now (given_by change.now) role (need_of user.now)) }
{
    match change {
        Change::Give(conjunct) => before_assign(alloc, book.exclusions(), conjunct, role, user),
        Change::Take => before_weak(alloc, role, user),
    }
}

/// Passes the acts on the target, if they are of use to it. Whether one is open.
pub fn pass_target(
    alloc: Global,
    member: &Member,
    change: &Change,
    hit: &RoleSet,
    role: u16,
    target: usize,
    place: &mut u128,
) -> Result<bool, NoMemory>
    requires target { target < length member.now.users.now }
    requires role { role < length member.now.book.now.order.names }
    requires member { IsMarked member.now }
    ensures { IfOk result (λ found. (user : conjuncts.Conjunct) → slice_get member.now.users.now target ≡ Some user
        → Counts (IsMissed member.now.index.now.members)
        (by_target member.now.book.now (given_by change.now) hit.now (needs_of member.now.users.now) role target (need_of user))
        place.old found place.new) }
{
    let user = &member.users[target];
    if !is_of_use(change, role, user) {
        return Ok(false);
    }
    let before = before_by(alloc, member.book, change, role, user)?;
    let found = match &before {
        Some(before) => pass_before(alloc, member, target, before, hit, place)?,
        None => {
            pass(place, member.users.len() as u128 + 1)?;
            false
        }
    };
    Ok(found)
}
