//! A list of different names that tells the place of a name without a walk.

ghost use Rattle.std.specs.Prelude.{ℕ, ◌≡◌, ◌<◌, ◌+◌, ◌^◌, [], ◌∷◌, ◌++◌, List, length, take, slice_get, Some, None};
ghost use Rattle.std.specs.Prelude.{OnOk, OnErr, IfSome, IfOk};
ghost use Rattle.list_words.specs.Lists.{AreDifferent};
ghost use Rattle.role_order.specs.Names.{place_of};

use profile_set::{Name, NoMemory};
use std::alloc::Global;
use std::collections::HashMap;
use std::marker::Model;

/// Different names, in the order in which they were added. Contracts see the list.
#[derive(Drop)]
pub struct NameIndex {
    alloc: Global,
    names: Vec<Name>,
    /// The place of each name, by its text.
    places: HashMap<String, u32>,
}

impl Model for NameIndex {
    ghost use Rattle.std.specs.Prelude.{ℕ, List};
    ghost use Rattle.name_index.specs.Indexed.{IsIndexed};

    ghost Value = { List (List ℕ) };

    ghost view = { λ x. x.names.items };

    ghost invariant = { λ x. IsIndexed x.names.items x.places };
}

impl NameIndex {
    /// The index without names.
    pub fn new(alloc: Global) -> NameIndex
        ensures { result ≡ [] }
    {
        NameIndex {
            alloc,
            names: Vec::new(alloc),
            places: HashMap::new(alloc),
        }
    }

    /// The names by place.
    pub fn names(&self) -> &[Name]
        ensures names { result.now ≡ self.now }
        ensures different { AreDifferent self.now }
    {
        &self.names
    }

    /// How many names there are.
    pub fn len(&self) -> u32
        ensures { result ≡ length self.now }
    {
        self.names.len() as u32
    }

    /// The place of the name, from 0; none exactly where it isn't among the names.
    pub fn place_of(&self, name: &Name) -> Option<u32>
        ensures place { result ≡ place_of self.now name.now }
        ensures within { IfSome result (λ place. place < length self.now) }
        ensures there { IfSome result (λ place. slice_get self.now place ≡ Some name.now) }
    {
        self.places.get(name.as_str()).copied()
    }

    /// Adds a name that isn't there, last.
    pub fn add(&mut self, name: Name) -> Result<(), NoMemory>
        requires new { place_of self.old name ≡ None }
        requires room { length self.old + 1 < 2 ^ 32 }
        ensures added { OnOk result (self.new ≡ self.old ++ name ∷ []) }
        ensures same { OnErr result (self.new ≡ self.old) }
    {
        let text = String::from_str(self.alloc, name.as_str())?;
        self.names.reserve(1)?;
        self.places.insert(text, self.names.len() as u32)?;
        self.names.push_reserved(name);
        Ok(())
    }

    /// Gives up all names but the first `count`.
    pub fn truncate(&mut self, count: u32)
        ensures { self.new ≡ take count self.old }
    {
        while self.names.len() > count as usize {
            if let Some(name) = self.names.pop() {
                self.places.remove(name.as_str());
            }
        }
    }
}
