//! Requirements that were made before.

ghost use Rattle.std.specs.Prelude.{◌≡◌, ◌++◌, ◌∷◌, [], IsTrue, OnOk};
ghost use Rattle.list_words.specs.Lists.{IsOneOf};
ghost use Rattle.shared_reqs.specs.Shared.{needs_marked};

use crate::NoMemory;
use crate::shared::SharedReq;
use mark_bag::{Accepts, Proposals};
use std::alloc::{AllocError, Global};
use std::marker::Model;
use std::sync::Arc;

/// A list of requirements, and a table that proposes one like a given one.
#[derive(Drop)]
pub struct Seen {
    list: Vec<Arc<SharedReq>>,
    proposals: Proposals,
}

impl Model for Seen {
    ghost use Rattle.std.specs.Prelude.{List, map};
    ghost use Rattle.arbac_laws.specs.Needs.{Need};
    ghost use Rattle.shared_reqs.specs.Shared.{needs_marked};

    ghost Value = { List (List Need) };

    ghost view = { λ seen. map (λ req. needs_marked req.value) seen.list.items };
}

/// The requirements of a list that are the same as one.
#[derive(Clone, Copy)]
struct SameReq<'a> {
    list: &'a [Arc<SharedReq>],
    req: &'a SharedReq,
}

impl Accepts for SameReq<'_> {
    ghost use Rattle.std.specs.Prelude.{◌≡◌, map, slice_get, Some};
    ghost use Rattle.shared_reqs.specs.Shared.{needs_marked};

    ghost accepts = { λ test item. slice_get (map (λ req. needs_marked req.value) test.list.now) item ≡ Some (needs_marked test.req.now) };

    fn accepts(&self, item: u32) -> bool {
        match self.list.get(item as usize) {
            Some(other) => other.is_same(self.req),
            None => false,
        }
    }
}

impl Seen {
    /// The list of none.
    pub fn new(alloc: Global) -> Seen
        ensures { result ≡ [] }
    {
        Seen {
            list: Vec::new(alloc),
            proposals: Proposals::new(alloc),
        }
    }

    /// Whether the requirement is found in the list. It may be missed.
    pub fn has(&self, req: &SharedReq) -> bool
        ensures { IsTrue result → IsOneOf self.now (needs_marked req.now) }
    {
        let test = SameReq {
            list: &self.list,
            req,
        };
        self.proposals.propose(req.hash(), &test).is_some()
    }

    /// Adds the requirement.
    pub fn add(&mut self, req: Arc<SharedReq>) -> Result<(), NoMemory>
        ensures { OnOk result (self.new ≡ self.old ++ needs_marked req.value ∷ []) }
    {
        if self.list.len() > u32::MAX as usize {
            return Err(AllocError);
        }
        let item = self.list.len() as u32;
        self.list.reserve(1)?;
        self.proposals.put(req.hash(), item)?;
        self.list.push_reserved(req);
        Ok(())
    }
}
