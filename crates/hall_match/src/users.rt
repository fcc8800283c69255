//! Which of the later items each place is given to.

ghost use Rattle.std.specs.Prelude.{ℕ, ◌≡◌, ◌<◌, ◌≤◌, ◌^◌, length, Some, IfOk};
ghost use Rattle.hall_match.specs.Holding.{given_at};
ghost use Rattle.hall_match.specs.Chains.{AreChains};

use crate::NoMemory;
use std::alloc::Global;

/// The items from some item on that are given each place: the last one, and before each item the
/// next one with the same place.
#[derive(Drop)]
pub struct Users {
    pub last: Vec<Option<u32>>,
    pub before: Vec<Option<u32>>,
}

/// The users of each place among the items from `low` on.
pub fn users_from(
    alloc: Global,
    given: &[Option<u32>],
    places: usize,
    low: usize,
) -> Result<Users, NoMemory>
    requires few { length given.now < 2 ^ 32 }
    requires low { low ≤ length given.now }
    requires inside { (item place : ℕ) → given_at given.now item ≡ Some place → place < places }
    ensures places { IfOk result (λ users. length users.last.items ≡ places) }
    ensures items { IfOk result (λ users. length users.before.items ≡ length given.now) }
    ensures chains { IfOk result (λ users.
        AreChains given.now low (length given.now) users.last.items users.before.items) }
{
    let mut last = vec![in alloc; None; places]?;
    let mut before = vec![in alloc; None; given.len()]?;
    for item in low..given.len() {
        if let Some(place) = given[item] {
            before[item] = last[place as usize];
            last[place as usize] = Some(item as u32);
        }
    }
    Ok(Users { last, before })
}
