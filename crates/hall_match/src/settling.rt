//! Gives an item a place, and moves later items along an augmenting path where that makes room.

ghost use Rattle.std.specs.Prelude.{◌≡◌, ◌<◌, length, None, MatchOption, IfOk, OnOk};
ghost use Rattle.hall_match.specs.Holding.{given_at, IsPartialMatching};
ghost use Rattle.hall_match.specs.Rows.{lists, AreInside, RowsRise};
ghost use Rattle.hall_match.specs.Search.{instance, IsClosedRow};
ghost use Rattle.hall_match.specs.Settling.{Settles};

use crate::NoMemory;
use crate::partial_matching::PartialMatching;
use crate::search::{Found, find_path};
use crate::users::users_from;
use std::alloc::Global;

/// Gives the item the least place that it can have while later items are moved.
/// Where it can have none, nothing changes, and the answer is the places that are closed.
pub fn settle(
    alloc: Global,
    capacities: &[Option<u32>],
    rows: &[Vec<u32>],
    held: &mut PartialMatching,
    item: u32,
) -> Result<Option<Vec<bool>>, NoMemory>
    requires item { item < length rows.now }
    requires whole { length held.old.given.items ≡ length rows.now }
    requires places { length held.old.used.items ≡ length capacities.now }
    requires inside { AreInside (lists rows.now) (length capacities.now) }
    requires rising { RowsRise (lists rows.now) }
    requires held { IsPartialMatching capacities.now (lists rows.now) held.old.given.items }
    requires free { given_at held.old.given.items item ≡ None }
    ensures places { OnOk result (length held.new.used.items ≡ length held.old.used.items) }
    ensures outcome { let s = instance capacities.now rows.now held.old.given.items item in
        IfOk result (λ closed. MatchOption closed
        (Settles s held.new.given.items)
        (λ seen. IsClosedRow s seen.items)) }
    ensures unchanged { IfOk result (λ closed. MatchOption closed (Unit {0})
        (λ _. held.new.given.items ≡ held.old.given.items)) }
{
    let users = users_from(alloc, &held.given, capacities.len(), item as usize + 1)?;
    let path = match find_path(alloc, capacities, rows, held, &users, item)? {
        Found::Path(path) => path,
        Found::Closed(seen) => return Ok(Some(seen)),
    };
    let mut here = path[path.len() - 1];
    while let Some(step) = here.by {
        held.release(step.item);
        held.give(step.item, here.place);
        here = path[step.from];
    }
    held.give(item, here.place);
    Ok(None)
}
