//! The search for an augmenting path: an alternating path to a place with room, whose moves are of
//! later items.

ghost use Rattle.std.specs.Prelude.{◌≡◌, ◌+◌, ◌<◌, true, false, MatchBool, length, slice_set, slice_index_or, ◌∷◌, ◌++◌, []};
ghost use Rattle.std.specs.Prelude.{Contains, IfOk, OnOk};
ghost use Rattle.hall_match.specs.Rows.{lists, row_at, AreInside, RowsRise};
ghost use Rattle.hall_match.specs.Search.{instance, IsRowSeen, IsClosed, IsSearch, IsFound, GoesOn, IsUserAt, IsReady, IsFoundFrom, IsClosedWith, IsOutcome};

use crate::NoMemory;
use crate::partial_matching::PartialMatching;
use crate::rows::row_of;
use crate::users::Users;
use std::alloc::{AllocError, Global};

/// A step of an alternating path: the item can move on from the place that was reached at `from`.
#[derive(Clone, Copy)]
pub struct Move {
    pub item: u32,
    pub from: usize,
}

/// A place that the search has reached, and the move by which; none where it began.
#[derive(Clone, Copy)]
pub struct Reached {
    pub place: u32,
    pub by: Option<Move>,
}

/// The search of an item for a place: the places seen so far, and those that were reached from
/// the place that is tried now, in order.
#[derive(Drop)]
pub struct Search {
    pub item: u32,
    pub seen: Vec<bool>,
    pub reached: Vec<Reached>,
}

/// What a search has found: what was reached up to the end of an augmenting path, or the places from
/// which none leads.
#[derive(Drop)]
pub enum Found {
    Path(Vec<Reached>),
    Closed(Vec<bool>),
}

// Marks the place as seen, and puts it last among those that were reached.
fn visit(search: &mut Search, place: u32, by: Option<Move>) -> Result<(), AllocError>
    requires { place < length search.old.seen.items }
    ensures item { search.new.item ≡ search.old.item }
    ensures seen { search.new.seen.items ≡ slice_set search.old.seen.items place true }
    ensures reached { OnOk result
        (search.new.reached.items ≡ search.old.reached.items ++ record { place = place; by = by } ∷ []) }
{
    search.seen[place as usize] = true;
    search.reached.push(Reached { place, by })?;
    Ok(())
}

// Reaches the places of the item's row; true where one has room, which is then the last.
fn reach_row(
    capacities: &[Option<u32>],
    rows: &[Vec<u32>],
    held: &PartialMatching,
    search: &mut Search,
    by: Move,
) -> Result<bool, AllocError>
    requires item { by.item < length rows.now }
    requires later { search.old.item < by.item }
    requires inside { AreInside (lists rows.now) (length capacities.now) }
    requires places { length search.old.seen.items ≡ length capacities.now }
    requires used { length held.now.used.items ≡ length capacities.now }
    requires from { IsUserAt held.now.given.items search.old.reached.items by.item by.from }
    requires search { let s = instance capacities.now rows.now held.now.given.items search.old.item in
        IsSearch s search.old.seen.items search.old.reached.items by.from }
    ensures item { search.new.item ≡ search.old.item }
    ensures goes_on { OnOk result (GoesOn search.old.seen.items search.new.seen.items
        search.old.reached.items search.new.reached.items) }
    ensures outcome { let s = instance capacities.now rows.now held.now.given.items search.old.item in
        IfOk result (λ found. MatchBool found
        (IsFound s search.new.reached.items)
        (IsSearch s search.new.seen.items search.new.reached.items by.from)) }
    ensures seen { IfOk result (λ found. MatchBool found (Unit {0})
        (IsRowSeen search.new.seen.items (row_at (lists rows.now) by.item))) }
{
    for place in row_of(rows, by.item) {
        if search.seen[*place as usize] {
            continue;
        }
        visit(search, *place, Some(by))?;
        if held.has_room(capacities, *place) {
            return Ok(true);
        }
    }
    Ok(false)
}

// Reaches the places to which a later user of the place at `at` can go.
fn reach_by_users(
    capacities: &[Option<u32>],
    rows: &[Vec<u32>],
    held: &PartialMatching,
    users: &Users,
    search: &mut Search,
    at: usize,
) -> Result<bool, AllocError>
    requires ready { let s = instance capacities.now rows.now held.now.given.items search.old.item in
        IsReady s held.now.used.items users.now.last.items users.now.before.items }
    requires places { length search.old.seen.items ≡ length capacities.now }
    requires at { at < length search.old.reached.items }
    requires search { let s = instance capacities.now rows.now held.now.given.items search.old.item in
        IsSearch s search.old.seen.items search.old.reached.items at }
    ensures item { search.new.item ≡ search.old.item }
    ensures goes_on { OnOk result (GoesOn search.old.seen.items search.new.seen.items
        search.old.reached.items search.new.reached.items) }
    ensures outcome { let s = instance capacities.now rows.now held.now.given.items search.old.item in
        IfOk result (λ found. MatchBool found
        (IsFound s search.new.reached.items)
        (IsSearch s search.new.seen.items search.new.reached.items (at + 1))) }
{
    let place = search.reached[at].place;
    let mut user = users.last[place as usize];
    while let Some(item) = user {
        if reach_row(capacities, rows, held, search, Move { item, from: at })? {
            return Ok(true);
        }
        user = users.before[item as usize];
    }
    Ok(false)
}

// Tries a place that isn't seen yet: goes on from it until a place with room is reached or all
// that can be reached is gone through.
fn reach_from(
    capacities: &[Option<u32>],
    rows: &[Vec<u32>],
    held: &PartialMatching,
    users: &Users,
    search: &mut Search,
    place: u32,
) -> Result<bool, AllocError>
    requires ready { let s = instance capacities.now rows.now held.now.given.items search.old.item in
        IsReady s held.now.used.items users.now.last.items users.now.before.items }
    requires places { length search.old.seen.items ≡ length capacities.now }
    requires neighbour { Contains (row_at (lists rows.now) search.old.item) place }
    requires unseen { slice_index_or search.old.seen.items place false ≡ false }
    requires closed { let s = instance capacities.now rows.now held.now.given.items search.old.item in
        IsClosed s search.old.seen.items }
    ensures item { search.new.item ≡ search.old.item }
    ensures places { OnOk result (length search.new.seen.items ≡ length search.old.seen.items) }
    ensures outcome { let s = instance capacities.now rows.now held.now.given.items search.old.item in
        IfOk result (λ found. MatchBool found
        (IsFoundFrom s search.new.reached.items place)
        (IsClosedWith s search.old.seen.items search.new.seen.items place)) }
{
    search.reached.clear();
    visit(search, place, None)?;
    if held.has_room(capacities, place) {
        return Ok(true);
    }
    let mut at = 0;
    while at < search.reached.len() {
        if reach_by_users(capacities, rows, held, users, search, at)? {
            return Ok(true);
        }
        at += 1;
    }
    Ok(false)
}

/// Tries the places of the item's row, the least first, for one where an augmenting path begins.
/// Places from which none was found stay closed, so each edge is gone over at most once.
pub fn find_path(
    alloc: Global,
    capacities: &[Option<u32>],
    rows: &[Vec<u32>],
    held: &PartialMatching,
    users: &Users,
    item: u32,
) -> Result<Found, NoMemory>
    requires item { item < length rows.now }
    requires rising { RowsRise (lists rows.now) }
    requires ready { let s = instance capacities.now rows.now held.now.given.items item in
        IsReady s held.now.used.items users.now.last.items users.now.before.items }
    ensures { let s = instance capacities.now rows.now held.now.given.items item in
        IfOk result (IsOutcome s) }
{
    let mut search = Search {
        item,
        seen: vec![in alloc; false; capacities.len()]?,
        reached: Vec::new(alloc),
    };
    for place in row_of(rows, item) {
        if search.seen[*place as usize] {
            continue;
        }
        if reach_from(capacities, rows, held, users, &mut search, *place)? {
            let Search {
                item: _,
                seen: _,
                reached,
            } = search;
            return Ok(Found::Path(reached));
        }
    }
    let Search {
        item: _,
        seen,
        reached: _,
    } = search;
    Ok(Found::Closed(seen))
}
