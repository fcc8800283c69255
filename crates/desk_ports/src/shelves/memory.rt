//! A shelf in memory.
ghost use Rattle.std.specs.Prelude.{ℕ, ◌≡◌, ◌+◌, ◌≤◌, [], List, length, take, Some, IfOk, OnOk, IsErrOf};
ghost use Rattle.desk_ports.specs.Faults.{HasCause, fresh_plan, Fails, Goes};
ghost use Rattle.desk_ports.specs.Shelves.{Misses, texts_of, text_named};

use super::{Shelf, ShelfError};
use crate::fault_plan::FaultPlan;
use std::alloc::{AllocError, Global};
use std::marker::Model;

/// A shelf of texts in memory, some calls of which are to fail.
#[derive(Drop)]
pub struct MemShelf {
    alloc: Global,
    files: Vec<(String, Vec<u8>)>,
    plan: FaultPlan,
    missed: String,
}

impl Model for MemShelf {
    ghost use Rattle.std.specs.Prelude.{string_bytes};
    ghost use Rattle.desk_ports.specs.Shelves.{ShelfState, texts_of};

    ghost Value = { ShelfState };

    ghost view = { λ s. record {
      texts = texts_of s.files.items;
      plan = s.plan;
      missed = string_bytes s.missed;
    } };
}

impl MemShelf {
    /// A shelf of these texts by name. Where a name stands twice its first text is taken, and any
    /// other name has the empty text. `fail`: which calls fail, by number from 1.
    pub fn new(alloc: Global, files: Vec<(String, Vec<u8>)>, fail: Vec<u64>) -> MemShelf
        ensures texts { result.texts ≡ texts_of files.items }
        ensures plan { result.plan ≡ fresh_plan fail.items }
        ensures missed { result.missed ≡ [] }
    {
        MemShelf {
            alloc,
            files,
            plan: FaultPlan::new(fail),
            missed: String::new(alloc),
        }
    }
}

/// The first `most + 1` bytes of the first text of that name.
#[tactic(auto, using(crate::proofs::TextLemmas::text_step, crate::proofs::TextLemmas::text_end))]
fn front_of(
    alloc: Global,
    files: &[(String, Vec<u8>)],
    name: &str,
    most: u32,
) -> Result<Vec<u8>, AllocError>
    ensures text { IfOk result (λ bytes.
        bytes.items ≡ take (most + 1) (text_named (texts_of files.now) name.now)) }
    ensures bound { IfOk result (λ bytes. length bytes.items ≤ most + 1) }
{
    for (file, text) in files {
        if file.as_str() == name {
            let count = (most as usize + 1).min(text.len());
            return Vec::from_slice(alloc, &text[..count]);
        }
    }
    Ok(Vec::new(alloc))
}

impl Shelf for MemShelf {
    ghost seen = { λ s. record {
      told = λ name. Some (text_named s.texts name);
      missed = s.missed;
      faults = s.plan.faults;
    } };

    /// A call that finds no memory isn't counted.
    fn fetch(&mut self, name: &str, most: u32) -> Result<Vec<u8>, ShelfError>
        ensures text { IfOk result (λ bytes.
            bytes.items ≡ take (most + 1) (text_named self.old.texts name.now)) }
        ensures bound { IfOk result (λ bytes. length bytes.items ≤ most + 1) }
        ensures texts { self.new.texts ≡ self.old.texts }
        ensures missed { Misses self.old.missed self.new.missed name.now
            (IsErrOf result ShelfError.Failed) }
        ensures cause { HasCause self.old.plan.faults self.new.plan.faults
            (IsErrOf result ShelfError.Failed) }

        // It fails exactly at the calls of its list.
        ensures fails { IsErrOf result ShelfError.Failed → Fails self.old.plan self.new.plan }
        ensures goes { OnOk result (Goes self.old.plan self.new.plan) }
        ensures memory { IsErrOf result ShelfError.Memory → self.new ≡ self.old }
    {
        let missed = String::from_str(self.alloc, name)?;
        let bytes = front_of(self.alloc, &self.files, name, most)?;
        if self.plan.count_call() {
            self.missed = missed;
            return Err(ShelfError::Failed);
        }
        Ok(bytes)
    }
}
