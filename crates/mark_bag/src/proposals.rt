//! Items proposed by hash.

ghost use Rattle.std.specs.Prelude.{◌<◌, ◌≤◌, length, IfSome};

use crate::NoMemory;
use crate::marks::Accepts;
use std::alloc::Global;

/// The slots of the first table. Each further one has twice as many.
const FIRST_SLOTS: usize = 64;

/// An item with its hash.
#[derive(Clone, Copy)]
struct Slot {
    hash: u32,
    item: u32,
}

/// Items by the hash of what they are. What is proposed is tested in full, and an item may be missed: nothing
/// is promised of what was put in.
#[derive(Drop)]
pub struct Proposals {
    alloc: Global,
    /// Open addressing: an item is in the first free slot from that of its hash on.
    slots: Vec<Option<Slot>>,
    /// How many items more the table takes before it grows.
    room: usize,
}

/// The part of a hash that is kept.
fn folded(hash: u64) -> u32 {
    ((hash ^ (hash >> 32)) & 0xffff_ffff) as u32
}

/// The slot that comes so many steps after that of the hash, of a power of two of slots.
fn slot_at(hash: u32, step: usize, count: usize) -> usize
    requires { 0 < count }
    ensures { result < count }
{
    (hash as usize).wrapping_add(step) & (count - 1)
}

/// Puts the item into the first free slot, if there is one.
fn fill(slots: &mut [Option<Slot>], slot: Slot) {
    for step in 0..slots.len() {
        let at = slot_at(slot.hash, step, slots.len());
        if slots[at].is_none() {
            slots[at] = Some(slot);
            return;
        }
    }
}

impl Proposals {
    /// The table of no items.
    pub fn new(alloc: Global) -> Proposals {
        Proposals {
            alloc,
            slots: Vec::new(alloc),
            room: 0,
        }
    }

    /// An item of the hash that the test accepts, if the table proposes one.
    pub fn propose<T: Accepts>(&self, hash: u64, test: &T) -> Option<u32>
        ensures { IfSome result (λ item. T.accepts test.now item) }
    {
        let hash = folded(hash);
        for step in 0..self.slots.len() {
            let Some(slot) = self.slots[slot_at(hash, step, self.slots.len())] else {
                return None;
            };
            if slot.hash == hash && test.accepts(slot.item) {
                return Some(slot.item);
            }
        }
        None
    }

    /// Puts in an item of the hash.
    pub fn put(&mut self, hash: u64, item: u32) -> Result<(), NoMemory> {
        if self.room == 0 {
            self.grow()?;
        }
        self.room = self.room.saturating_sub(1);
        let hash = folded(hash);
        fill(&mut self.slots, Slot { hash, item });
        Ok(())
    }

    /// Moves the items into a table of twice as many slots, of which three quarters may be filled.
    fn grow(&mut self) -> Result<(), NoMemory> {
        let count = self.slots.len().saturating_mul(2).max(FIRST_SLOTS);
        let mut slots = vec![in self.alloc; None; count]?;
        for slot in &self.slots {
            if let Some(slot) = slot {
                fill(&mut slots, *slot);
            }
        }
        self.room = (count - count / 4).saturating_sub(self.slots.len() - self.slots.len() / 4);
        self.slots = slots;
        Ok(())
    }
}
