//! User requirements that are shared.

ghost use Rattle.std.specs.Prelude.{◌≡◌, [], slice_get, Some, IfOk, IfSome};
ghost use Rattle.shared_reqs.specs.Shared.{IsOwnMark, AreOwnMarks, needs_marked};

use crate::NoMemory;
use crate::user::{MarkedUser, hash_of};
use mark_bag::{Accepts, Proposals};
use req_core::UserReq;
use role_order::Order;
use std::alloc::{AllocError, Global};
use std::marker::Model;
use std::sync::Arc;

/// The user requirements so far, to be shared with the next that is the same.
#[derive(Drop)]
pub struct Pool {
    users: Vec<Arc<MarkedUser>>,
    proposals: Proposals,
}

impl Model for Pool {
    ghost use Rattle.std.specs.Prelude.{List};
    ghost use Rattle.shared_reqs.specs.Shared.{MarkedNeed, marked_of};

    ghost Value = { List MarkedNeed };

    ghost view = { λ pool. marked_of pool.users.items };
}

/// The users of whom the same is wanted as of one.
#[derive(Clone, Copy)]
struct SameUser<'a> {
    users: &'a [Arc<MarkedUser>],
    user: &'a UserReq,
}

impl Accepts for SameUser<'_> {
    ghost use Rattle.std.specs.Prelude.{◌≡◌, slice_get, Some};
    ghost use Rattle.shared_reqs.specs.Shared.{needs_shared};

    ghost accepts = { λ test item. slice_get (needs_shared test.users.now) item ≡ Some test.user.now };

    fn accepts(&self, item: u32) -> bool {
        match self.users.get(item as usize) {
            Some(other) => other.user().is_same(self.user),
            None => false,
        }
    }
}

impl Pool {
    /// The pool of nobody.
    pub fn new(alloc: Global) -> Pool
        ensures { result ≡ [] }
    {
        Pool {
            users: Vec::new(alloc),
            proposals: Proposals::new(alloc),
        }
    }

    /// The place of a user of whom the same is wanted, if one is found.
    fn find(&self, user: &UserReq) -> Option<u32>
        ensures { IfSome result (λ at. slice_get (needs_marked self.now) at ≡ Some user.now) }
    {
        let test = SameUser {
            users: &self.users,
            user,
        };
        self.proposals.propose(hash_of(user), &test)
    }

    /// Adds the user requirement.
    fn add(
        &mut self,
        alloc: Global,
        order: &Order,
        user: UserReq,
    ) -> Result<Arc<MarkedUser>, NoMemory>
        requires { AreOwnMarks order.now self.old }
        ensures need { IfOk result (λ shared. shared.value.need ≡ user) }
        ensures mark { IfOk result (λ shared. IsOwnMark order.now shared.value) }
        ensures pool { AreOwnMarks order.now self.new }
    {
        if self.users.len() > u32::MAX as usize {
            return Err(AllocError);
        }
        let item = self.users.len() as u32;
        let shared = Arc::new(alloc, MarkedUser::new(order, user))?;
        let kept = shared.clone()?;
        self.users.reserve(1)?;
        self.proposals.put(shared.hash(), item)?;
        self.users.push_reserved(kept);
        Ok(shared)
    }

    /// The user requirement with its mark: one of the pool, or a new one that joins it.
    pub fn share(
        &mut self,
        alloc: Global,
        order: &Order,
        user: UserReq,
    ) -> Result<Arc<MarkedUser>, NoMemory>
        requires { AreOwnMarks order.now self.old }
        ensures need { IfOk result (λ shared. shared.value.need ≡ user) }
        ensures mark { IfOk result (λ shared. IsOwnMark order.now shared.value) }
        ensures pool { AreOwnMarks order.now self.new }
    {
        match self.find(&user) {
            Some(at) => self.users[at as usize].clone(),
            None => self.add(alloc, order, user),
        }
    }
}
