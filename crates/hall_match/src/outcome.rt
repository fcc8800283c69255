//! The least full matching, or items that break Hall's condition.

ghost use Rattle.std.specs.Prelude.{ℕ, ◌≡◌, ◌<◌, length, List, Some, None, slice_index, MatchOption, IfOk, OnOk};
ghost use Rattle.hall_match.specs.Matchings.{ArePairsWithin, IsMatching, IsLeast, IsDeficient};
ghost use Rattle.hall_match.specs.Holding.{given_at, IsPartialMatching};
ghost use Rattle.hall_match.specs.Rows.{lists, HaveEdges, AreInside, RowsRise};
ghost use Rattle.hall_match.specs.Settling.{IsGiven, IsUpTo};
ghost use Rattle.hall_match.specs.Outcome.{IfMatched, IfDeficient};

use crate::NoMemory;
use crate::deficiency::blocked_items;
use crate::partial_matching::PartialMatching;
use crate::rows::rows_of;
use crate::settling::settle;
use std::alloc::{AllocError, Global};

/// The answer of `match_all`.
#[derive(Debug, Drop)]
pub enum Matching {
    /// The place of each item: the least such list.
    Matched(Vec<u32>),
    /// A deficient set, as a rising list: items that are more than all their neighbours have room for.
    Deficient(Vec<u32>),
}

// Gives each item some place, the last item first.
fn settle_all(
    alloc: Global,
    capacities: &[Option<u32>],
    rows: &[Vec<u32>],
    held: &mut PartialMatching,
    left: u32,
) -> Result<Option<Vec<u32>>, AllocError>
    requires left { length rows.now ≡ left }
    requires whole { length held.old.given.items ≡ left }
    requires places { length held.old.used.items ≡ length capacities.now }
    requires inside { AreInside (lists rows.now) (length capacities.now) }
    requires rising { RowsRise (lists rows.now) }
    requires none { (item : ℕ) → given_at held.old.given.items item ≡ None }
    requires held { IsPartialMatching capacities.now (lists rows.now) held.old.given.items }
    ensures whole { OnOk result (length held.new.given.items ≡ left) }
    ensures places { OnOk result (length held.new.used.items ≡ length capacities.now) }
    ensures held { OnOk result (IsPartialMatching capacities.now (lists rows.now) held.new.given.items) }
    ensures given { IfOk result (λ blocked. MatchOption blocked
        ((item : ℕ) → item < left → IsGiven held.new.given.items item) (λ _. Unit {0})) }
    ensures deficient { IfOk result (λ blocked. MatchOption blocked (Unit {0})
        (λ items. (edges : List (ℕ × ℕ)) → HaveEdges (lists rows.now) edges →
        IsDeficient left capacities.now edges items.items)) }
{
    for item in (0..left).rev() {
        if let Some(seen) = settle(alloc, capacities, rows, held, item)? {
            return Ok(Some(blocked_items(alloc, &held.given, &seen, item)?));
        }
    }
    Ok(None)
}

// Gives each item, the first one first, the least place that leaves the later ones theirs.
fn settle_least(
    alloc: Global,
    capacities: &[Option<u32>],
    rows: &[Vec<u32>],
    held: &mut PartialMatching,
    left: u32,
) -> Result<(), AllocError>
    requires left { length rows.now ≡ left }
    requires whole { length held.old.given.items ≡ left }
    requires places { length held.old.used.items ≡ length capacities.now }
    requires inside { AreInside (lists rows.now) (length capacities.now) }
    requires rising { RowsRise (lists rows.now) }
    requires held { IsPartialMatching capacities.now (lists rows.now) held.old.given.items }
    requires given { (item : ℕ) → item < left → IsGiven held.old.given.items item }
    ensures whole { OnOk result (length held.new.given.items ≡ left) }
    ensures held { OnOk result (IsPartialMatching capacities.now (lists rows.now) held.new.given.items) }
    ensures given { OnOk result ((item : ℕ) → item < left → IsGiven held.new.given.items item) }
    ensures least { OnOk result ((edges : List (ℕ × ℕ)) (other : List ℕ) →
        HaveEdges (lists rows.now) edges → IsMatching left capacities.now edges other →
        IsUpTo held.new.given.items left other) }
{
    for item in 0..left {
        held.release(item);
        let closed = settle(alloc, capacities, rows, held, item)?;
        prove!(closed.is_none());
    }
    Ok(())
}

fn places_of(alloc: Global, given: &[Option<u32>]) -> Result<Vec<u32>, AllocError>
    requires { (item : ℕ) → item < length given.now → IsGiven given.now item }
    ensures whole { IfOk result (λ list. length list.items ≡ length given.now) }
    ensures places { IfOk result (λ list. (item : ℕ) → item < length given.now →
        given_at given.now item ≡ Some (slice_index list.items item)) }
{
    let mut list = Vec::with_capacity(alloc, given.len())?;
    for item in 0..given.len() {
        list.push(given[item].unwrap())?;
    }
    Ok(list)
}

/// Gives each of the `left` items a neighbour, so that no place is given to more items than its
/// capacity; `None` is no limit. Where that can't be, the answer is items that break Hall's
/// condition: they are more than their neighbours' capacities together.
///
/// An edge is an item and a place, and may stand there twice. Each item is settled twice, by one
/// search for an augmenting path, which goes over each edge at most once; capacities are counts.
/// The error is want of memory.
pub fn match_all(
    alloc: Global,
    left: u32,
    capacities: &[Option<u32>],
    edges: &[(u32, u32)],
) -> Result<Matching, NoMemory>
    requires { ArePairsWithin left capacities.now edges.now }
    ensures matched { IfOk result (λ answer. IfMatched answer (IsLeast left capacities.now edges.now)) }
    ensures deficient { IfOk result (λ answer.
        IfDeficient answer (IsDeficient left capacities.now edges.now)) }
    ensures unmatched { IfOk result (λ answer.
        IfDeficient answer (λ _. (list : List ℕ) → ¬ IsMatching left capacities.now edges.now list)) }
{
    let rows = rows_of(alloc, left, edges)?;
    let mut held = PartialMatching::new(alloc, left, capacities.len())?;
    if let Some(items) = settle_all(alloc, capacities, &rows, &mut held, left)? {
        return Ok(Matching::Deficient(items));
    }
    settle_least(alloc, capacities, &rows, &mut held, left)?;
    Ok(Matching::Matched(places_of(alloc, &held.given)?))
}
