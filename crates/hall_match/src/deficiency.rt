//! The deficient set that a failed search leaves.

ghost use Rattle.std.specs.Prelude.{ℕ, ◌≡◌, ◌<◌, ◌^◌, length, Some, None, IfOk};
ghost use Rattle.hall_match.specs.Holding.{given_at};
ghost use Rattle.hall_match.specs.Blocking.{is_blocked, AreBlocked};

use crate::NoMemory;
use std::alloc::Global;

/// The item that finds no place, and the items that are given a seen one.
pub fn blocked_items(
    alloc: Global,
    given: &[Option<u32>],
    seen: &[bool],
    item: u32,
) -> Result<Vec<u32>, NoMemory>
    requires few { length given.now < 2 ^ 32 }
    requires item { item < length given.now }
    requires free { given_at given.now item ≡ None }
    requires inside { (item place : ℕ) → given_at given.now item ≡ Some place →
        place < length seen.now }
    ensures { IfOk result (λ items. AreBlocked given.now seen.now item items.items) }
{
    let mut items = Vec::new(alloc);
    for i in 0..given.len() {
        if is_blocked(given, seen, item, i) {
            items.push(i as u32)?;
        }
    }
    Ok(items)
}

fn is_blocked(given: &[Option<u32>], seen: &[bool], item: u32, i: usize) -> bool
    requires item { i < length given.now }
    requires inside { (place : ℕ) → given_at given.now i ≡ Some place → place < length seen.now }
    ensures { result ≡ is_blocked given.now seen.now item i }
{
    match given[i] {
        Some(place) => i == item as usize || seen[place as usize],
        None => i == item as usize,
    }
}
