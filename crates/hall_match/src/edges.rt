//! Which item goes with which place.

ghost use Rattle.std.specs.Prelude.{ℕ, ◌≡◌, ◌<◌, ◌⊎◌, ◌↔◌, Contains, IsTrue, OnOk, IfOk};
ghost use Rattle.hall_match.specs.Joined.{AreJoined};

use crate::NoMemory;
use std::alloc::{AllocError, Global};

/// What tells whether an item goes with a place.
pub trait Edges {
    /// The item goes with the place.
    ghost joins: { Self → ℕ → ℕ → Type 0 };

    fn has(&self, item: u32, place: u32) -> bool
        ensures { IsTrue result ↔ joins self.now item place };
}

/// Puts a pair of the item and the place for each place with which the item goes.
fn put_pairs<E: Edges>(
    pairs: &mut Vec<(u32, u32)>,
    edges: &E,
    item: u32,
    places: u32,
) -> Result<(), AllocError>
    ensures { OnOk result ((k u : ℕ) → Contains pairs.new.items (k, u) ↔
        (Contains pairs.old.items (k, u) ⊎ ((k ≡ item) × (u < places) × E.joins edges.now item u))) }
{
    for place in 0..places {
        if edges.has(item, place) {
            pairs.push((item, place))?;
        }
    }
    Ok(())
}

/// The pairs of an item and a place with which it goes.
pub fn pairs_where<E: Edges>(
    alloc: Global,
    edges: &E,
    items: u32,
    places: u32,
) -> Result<Vec<(u32, u32)>, NoMemory>
    ensures { IfOk result (λ pairs. AreJoined (E.joins edges.now) items places pairs.items) }
{
    let mut pairs = Vec::new(alloc);
    for item in 0..items {
        put_pairs(&mut pairs, edges, item, places)?;
    }
    Ok(pairs)
}
