//! The least place of each item, whatever the others have.

ghost use Rattle.std.specs.Prelude.{ℕ, ◌≡◌, ◌<◌, length, slice_index, IsTrue, IfOk, IfSome, IfNone};
ghost use Rattle.hall_match.specs.Firsts.{IsFirstPlace, AreFirstPlaces, HasNoPlace};

use crate::NoMemory;
use crate::edges::Edges;
use std::alloc::Global;

/// The least place with which the item goes.
fn first_place<E: Edges>(edges: &E, item: u32, places: u32) -> Option<u32>
    ensures found { IfSome result (IsFirstPlace (E.joins edges.now) places item) }
    ensures none { IfNone result (HasNoPlace (E.joins edges.now) places item) }
{
    for place in 0..places {
        if edges.has(item, place) {
            return Some(place);
        }
    }
    None
}

/// The least place of each item; none where an item has no place.
pub fn first_places<E: Edges>(
    alloc: Global,
    edges: &E,
    items: u32,
    places: u32,
) -> Result<Option<Vec<u32>>, NoMemory>
    ensures found { IfOk result (λ found. IfSome found (λ list. AreFirstPlaces (E.joins edges.now) places items list.items)) }
    ensures none { IfOk result (λ found. IfNone found ((item : ℕ) × (item < items) × HasNoPlace (E.joins edges.now) places item)) }
{
    let mut list = Vec::new(alloc);
    for item in 0..items {
        match first_place(edges, item, places) {
            Some(place) => list.push(place)?,
            None => return Ok(None),
        }
    }
    Ok(Some(list))
}

/// Whether no place stands twice in the list.
pub fn are_different(list: &[u32]) -> bool
    ensures { IsTrue result → (i j : ℕ) → i < length list.now → j < length list.now
        → slice_index list.now i ≡ slice_index list.now j → i ≡ j }
{
    for at in 0..list.len() {
        if list[..at].contains(&list[at]) {
            return false;
        }
    }
    true
}
