//! Matchings of items and places, where a test tells which of them go together.

ghost use Rattle.std.specs.Prelude.{ℕ, ◌≡◌, ◌<◌, ◌^◌, List, length, replicate, Some, IfOk, IfSome, IfNone};
ghost use Rattle.hall_match.specs.Joined.{OfPairs, IsTransversal, IsLeastTransversal};
ghost use Rattle.hall_match.specs.Matchings.{IsMatching, IsLeast, IsDeficient};
ghost use Rattle.hall_match.specs.Outcome.{IfMatched, IfDeficient};

use crate::NoMemory;
use crate::edges::{Edges, pairs_where};
use crate::firsts::{are_different, first_places};
use crate::outcome::{Matching, match_all};
use std::alloc::{AllocError, Global};

/// The count as a number of 32 bits. The error is that it has more.
pub fn small(count: usize) -> Result<u32, NoMemory>
    ensures { IfOk result (λ number. number ≡ count) }
{
    if count > u32::MAX as usize {
        return Err(AllocError);
    }
    Ok(count as u32)
}

/// `match_all` of the pairs of an item and a place that go together. The error is want of memory, or
/// more items or places than 32 bits count.
pub fn match_by<E: Edges>(
    alloc: Global,
    left: usize,
    capacities: &[Option<u32>],
    edges: &E,
) -> Result<Matching, NoMemory>
    ensures matched { IfOk result (λ answer. IfMatched answer (λ list.
        OfPairs (E.joins edges.now) left (length capacities.now) (λ pairs. IsLeast left capacities.now pairs list))) }
    ensures deficient { IfOk result (λ answer. IfDeficient answer (λ items.
        OfPairs (E.joins edges.now) left (length capacities.now) (λ pairs. IsDeficient left capacities.now pairs items))) }
    ensures unmatched { IfOk result (λ answer. IfDeficient answer (λ _.
        OfPairs (E.joins edges.now) left (length capacities.now) (λ pairs. (list : List ℕ) → ¬ IsMatching left capacities.now pairs list))) }
{
    let items = small(left)?;
    let places = small(capacities.len())?;
    let pairs = pairs_where(alloc, edges, items, places)?;
    let answer = match_all(alloc, items, capacities, &pairs)?;
    Ok(answer)
}

/// Room for one item at each of so many places.
fn ones(alloc: Global, count: usize) -> Result<Vec<Option<u32>>, AllocError>
    ensures { IfOk result (λ ones. ones.items ≡ replicate count (Some 1)) }
{
    let ones = vec![in alloc; Some(1); count]?;
    Ok(ones)
}

/// The least transversal, by a matching.
fn matched_transversal<E: Edges>(
    alloc: Global,
    left: usize,
    places: usize,
    edges: &E,
) -> Result<Option<Vec<u32>>, AllocError>
    ensures least { IfOk result (λ found. IfSome found (λ list. IsLeastTransversal (E.joins edges.now) left places list.items)) }
    ensures none { IfOk result (λ found. IfNone found ((list : List ℕ) → ¬ IsTransversal (E.joins edges.now) left places list)) }
{
    let ones = ones(alloc, places)?;
    match match_by(alloc, left, &ones, edges)? {
        Matching::Matched(list) => Ok(Some(list)),
        Matching::Deficient(_) => Ok(None),
    }
}

/// The least list of different places, one for each item, with which the items go; none exactly where
/// there is no such list. A matching is sought only where two items have the same least place. The error is want of memory, or more items or places than 32 bits count.
pub fn least_transversal<E: Edges>(
    alloc: Global,
    left: usize,
    places: usize,
    edges: &E,
) -> Result<Option<Vec<u32>>, NoMemory>
    ensures least { IfOk result (λ found. IfSome found (λ list. IsLeastTransversal (E.joins edges.now) left places list.items)) }
    ensures none { IfOk result (λ found. IfNone found ((list : List ℕ) → ¬ IsTransversal (E.joins edges.now) left places list)) }
{
    let Some(firsts) = first_places(alloc, edges, small(left)?, small(places)?)? else {
        return Ok(None);
    };
    if are_different(&firsts) {
        return Ok(Some(firsts));
    }
    let found = matched_transversal(alloc, left, places, edges)?;
    Ok(found)
}
