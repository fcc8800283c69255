//! A partial matching: the place that each item is given so far.

ghost use Rattle.std.specs.Prelude.{ℕ, ◌≡◌, ◌<◌, ◌^◌, length, slice_index, slice_set, Some, None, IfOk};
ghost use Rattle.std.specs.Prelude.{replicate};
ghost use Rattle.hall_match.specs.Holding.{given_at, holder_count, has_room};

use crate::NoMemory;
use std::alloc::Global;

/// The place that each item is given, and how many items each place is given to.
#[derive(Drop)]
pub struct PartialMatching {
    pub given: Vec<Option<u32>>,
    pub used: Vec<u32>,
    pub ghost few: { length given.items < 2 ^ 32 },
    pub ghost inside: { (item place : ℕ) → given_at given.items item ≡ Some place →
        place < length used.items },
    pub ghost counted: { (place : ℕ) → place < length used.items →
        slice_index used.items place ≡ holder_count place given.items },
}

impl PartialMatching {
    /// No item is given a place yet.
    pub fn new(alloc: Global, left: u32, places: usize) -> Result<Self, NoMemory>
        ensures given { IfOk result (λ held. held.given.items ≡ replicate left None) }
        ensures places { IfOk result (λ held. length held.used.items ≡ places) }
    {
        Ok(PartialMatching {
            given: vec![in alloc; None; left as usize]?,
            used: vec![in alloc; 0; places]?,
        })
    }

    /// Whether the place can be given to one more item.
    pub fn has_room(&self, capacities: &[Option<u32>], place: u32) -> bool
        requires listed { place < length capacities.now }
        requires inside { place < length self.now.used.items }
        ensures { result ≡ has_room capacities.now self.now.given.items place }
    {
        match capacities[place as usize] {
            Some(most) => self.used[place as usize] < most,
            None => true,
        }
    }

    /// Gives the place to an item that has none.
    pub fn give(&mut self, item: u32, place: u32)
        requires item { item < length self.old.given.items }
        requires free { given_at self.old.given.items item ≡ None }
        requires inside { place < length self.old.used.items }
        ensures given { self.new.given.items ≡ slice_set self.old.given.items item (Some place) }
        ensures places { length self.new.used.items ≡ length self.old.used.items }
    {
        self.given[item as usize] = Some(place);
        self.used[place as usize] += 1;
    }

    /// Takes the item's place from it, if it has one.
    pub fn release(&mut self, item: u32)
        requires { item < length self.old.given.items }
        ensures given { self.new.given.items ≡ slice_set self.old.given.items item None }
        ensures places { length self.new.used.items ≡ length self.old.used.items }
    {
        if let Some(place) = self.given[item as usize] {
            self.given[item as usize] = None;
            self.used[place as usize] -= 1;
        }
    }
}
