//! What a round gathers.

ghost use Rattle.std.specs.Prelude.{◌≡◌, ◌++◌, ◌∷◌, [], OnOk, IfOk};
ghost use Rattle.shared_reqs.specs.Shared.{IsOwnMark, AreOwnMarks, needs_marked};
ghost use Rattle.search_rounds.specs.Keeping.{Gathered, IsGathered, Gathers};
ghost use Rattle.search_rounds.specs.Views.{origin_of, entries_of, HaveOwnMarks};

use crate::NoMemory;
use crate::candidate::{Candidate, Origin};
use req_core::UserReq;
use role_order::Order;
use shared_reqs::{Index, MarkedUser, Pool, Seen, SharedReq};
use std::alloc::{AllocError, Global};
use std::marker::Model;
use std::sync::Arc;

/// The requirements that were known before a round, all that were made so far, and those of the round that are kept: no known one
/// covers them.
#[derive(Drop)]
pub struct Gathering<'a> {
    index: Index<'a>,
    seen: Seen,
    pool: Pool,
    kept: Vec<Candidate>,
}

impl<'a> Model for Gathering<'a> {
    ghost use Rattle.shared_reqs.specs.Shared.{AreOwnMarks};
    ghost use Rattle.search_rounds.specs.Keeping.{Gathered};
    ghost use Rattle.search_rounds.specs.Views.{entries_of, HaveOwnMarks};

    ghost Value = { Gathered };

    ghost view = { λ g. record { order = g.index.order; known = g.index.members; seen = g.seen; kept = entries_of g.kept.items } };

    ghost invariant = { λ g. AreOwnMarks g.index.order g.pool × HaveOwnMarks g.index.order g.kept.items };
}

impl<'a> Gathering<'a> {
    /// Nothing is known, and nothing was made.
    pub fn new(alloc: Global, order: &'a Order) -> Gathering<'a>
        ensures nothing { result ≡ record { order = order.now; known = []; seen = []; kept = [] } }
        ensures gathered { IsGathered result }
    {
        Gathering {
            index: Index::new(alloc, order),
            seen: Seen::new(alloc),
            pool: Pool::new(alloc),
            kept: Vec::new(alloc),
        }
    }

    /// The role order by which requirements are marked.
    pub fn order(&self) -> &'a Order
        ensures { result.now ≡ self.now.order }
    {
        self.index.order()
    }

    /// The user requirement with its mark, shared with others that are the same.
    pub fn share(&mut self, alloc: Global, user: UserReq) -> Result<Arc<MarkedUser>, NoMemory>
        ensures need { IfOk result (λ shared. shared.value.need ≡ user) }
        ensures mark { IfOk result (λ shared. IsOwnMark self.old.order shared.value) }
        ensures same { self.new ≡ self.old }
    {
        self.pool.share(alloc, self.index.order(), user)
    }

    /// The requirement was made: it is kept, unless it was made before or is covered by what was known.
    pub fn add(&mut self, alloc: Global, req: SharedReq, origin: Origin) -> Result<(), NoMemory>
        requires { AreOwnMarks self.old.order req }
        ensures { OnOk result (Gathers self.old self.new (record { origin = origin_of origin; needs = needs_marked req } ∷ [])) }
    {
        if self.seen.has(&req) {
            return Ok(());
        }
        let is_known = self.index.is_covered(alloc, &req)?;
        let req = Arc::new(alloc, req)?;
        if !is_known {
            self.kept.push(Candidate {
                req: req.clone()?,
                origin,
            })?;
        }
        self.seen.add(req)?;
        Ok(())
    }

    /// The requirement is known from now on.
    pub fn know(&mut self, alloc: Global, req: &Arc<SharedReq>) -> Result<(), NoMemory>
        requires { AreOwnMarks self.old.order req.now.value }
        ensures { OnOk result (self.new ≡ record {
          order = self.old.order;
          known = self.old.known ++ needs_marked req.now.value ∷ [];
          seen = self.old.seen;
          kept = self.old.kept;
        }) }
    {
        self.index.add(alloc, req.clone()?)?;
        Ok(())
    }

    /// What is kept leaves the gathering.
    pub fn take(&mut self, alloc: Global) -> Vec<Candidate>
        ensures kept { entries_of result.items ≡ self.old.kept }
        ensures marks { HaveOwnMarks self.old.order result.items }
        ensures rest { self.new ≡ record { order = self.old.order; known = self.old.known; seen = self.old.seen; kept = [] } }
    {
        std::mem::replace(&mut self.kept, Vec::new(alloc))
    }
}
