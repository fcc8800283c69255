//! Requirements that share their user requirements.

ghost use Rattle.std.specs.Prelude.{◌≡◌, ◌<◌, ◌++◌, ◌∷◌, [], ◌↔◌, length, slice_get, slice_set, Some, OnOk, IsTrue, IfOk};
ghost use Rattle.role_order.specs.Graph.{Graph};
ghost use Rattle.arbac_laws.specs.Needs.{Covers};
ghost use Rattle.arbac_laws.specs.NormalForms.{IsNormal, IsNormalNeed, insert_by, sort_by};
ghost use Rattle.arbac_laws.specs.Orders.{need_before, requirement_before};
ghost use Rattle.need_marks.specs.Marks.{AreUserMarks};
ghost use Rattle.list_words.specs.Orders.{list_before};
ghost use Rattle.req_core.specs.Forms.{IsSpot};
ghost use Rattle.shared_reqs.specs.Shared.{IsOwnMark, AreOwnMarks, marked_of, needs_marked, needs_shared, marks_marked};
ghost use Rattle.shared_reqs.specs.Shared.{marked_before, marked_by, shared_before};

use crate::NoMemory;
use crate::cover_rows::covers;
use crate::hashing::{NOTHING, and_word};
use crate::user::MarkedUser;
use need_marks::UserMark;
use req_core::{Req, UserReq};
use role_order::Order;
use std::alloc::{AllocError, Global};
use std::marker::Model;
use std::sync::Arc;

/// A requirement in normal form. A copy shares its user requirements.
#[derive(Drop)]
pub struct SharedReq {
    users: Vec<Arc<MarkedUser>>,
}

impl Model for SharedReq {
    ghost use Rattle.std.specs.Prelude.{List};
    ghost use Rattle.arbac_laws.specs.NormalForms.{IsNormal};
    ghost use Rattle.shared_reqs.specs.Shared.{MarkedNeed, marked_of, needs_marked};

    ghost Value = { List MarkedNeed };

    ghost view = { λ s. marked_of s.users.items };

    ghost invariant = { λ s. IsNormal (needs_marked (marked_of s.users.items)) };
}

/// The user requirement at the place.
fn user_at(users: &[Arc<MarkedUser>], at: usize) -> &UserReq
    requires { at < length users.now }
    ensures { slice_get (needs_shared users.now) at ≡ Some result.now }
{
    users[at].user()
}

/// Whether the same is wanted of as many users, one by one.
fn are_same(users: &[Arc<MarkedUser>], others: &[Arc<MarkedUser>]) -> bool
    ensures { IsTrue result ↔ (needs_shared users.now ≡ needs_shared others.now) }
{
    if users.len() != others.len() {
        return false;
    }
    for at in 0..users.len() {
        if !user_at(users, at).is_same(user_at(others, at)) {
            return false;
        }
    }
    true
}

/// Whether the users come before the others, as lists do.
fn are_before(users: &[Arc<MarkedUser>], others: &[Arc<MarkedUser>]) -> bool
    ensures { result ≡ list_before need_before (needs_shared users.now) (needs_shared others.now) }
{
    let count = users.len().min(others.len());
    for at in 0..count {
        let user = user_at(users, at);
        let other = user_at(others, at);
        if user.precedes(other) {
            return true;
        }
        if other.precedes(user) {
            return false;
        }
    }
    users.len() < others.len()
}

/// Whether the user comes before the other.
fn is_before(user: &Arc<MarkedUser>, other: &Arc<MarkedUser>) -> bool
    ensures { result ≡ shared_before user.now other.now }
{
    user.user().precedes(other.user())
}

/// The place of the first user that isn't before this one.
fn place_of(users: &[Arc<MarkedUser>], user: &Arc<MarkedUser>) -> usize
    ensures { IsSpot shared_before user.now users.now result }
{
    users
        .iter()
        .position(|other| !is_before(other, user))
        .unwrap_or(users.len())
}

/// Puts the user in its place.
fn insert(users: &mut Vec<Arc<MarkedUser>>, user: &Arc<MarkedUser>) -> Result<(), NoMemory>
    ensures inserted { OnOk result (marked_of users.new.items ≡ insert_by marked_before user.now.value (marked_of users.old.items)) }
    ensures normal { IsNormalNeed user.now.value.need }
{
    user.is_normal();
    let at = place_of(users, user);
    users.insert(at, user.clone()?)?;
    Ok(())
}

/// The requirement of these users, sorted. Of equal ones the earlier stays before the later.
fn sorted(alloc: Global, users: &[&Arc<MarkedUser>]) -> Result<SharedReq, NoMemory>
    ensures { IfOk result (λ made. made ≡ sort_by marked_before (marked_by users.now)) }
{
    let mut list = Vec::with_capacity(alloc, users.len())?;
    for at in (0..users.len()).rev() {
        insert(&mut list, users[at])?;
    }
    Ok(SharedReq { users: list })
}

impl SharedReq {
    /// The users, in a list that has room for one more.
    fn list(&self, alloc: Global) -> Result<Vec<&Arc<MarkedUser>>, NoMemory>
        ensures { IfOk result (λ list. marked_by list.items ≡ self.now) }
    {
        let mut list = Vec::with_capacity(alloc, self.users.len().saturating_add(1))?;
        for user in &self.users {
            list.push(user)?;
        }
        Ok(list)
    }

    /// The requirement, its users marked by the role order.
    pub fn of(alloc: Global, order: &Order, req: &Req) -> Result<SharedReq, NoMemory>
        ensures needs { IfOk result (λ made. needs_marked made ≡ req.now) }
        ensures marks { IfOk result (λ made. AreOwnMarks order.now made) }
    {
        let all = req.users();
        let mut users = Vec::with_capacity(alloc, all.len())?;
        for user in all {
            let marked = MarkedUser::new(order, user.copy(alloc)?);
            users.push(Arc::new(alloc, marked)?)?;
        }
        Ok(SharedReq { users })
    }

    /// The requirement in values of its own.
    pub fn to_req(&self, alloc: Global) -> Result<Req, NoMemory>
        ensures { IfOk result (λ req. req ≡ needs_marked self.now) }
    {
        let mut users = Vec::with_capacity(alloc, self.users.len())?;
        for user in &self.users {
            users.push(user.user().copy(alloc)?)?;
        }
        Ok(Req::of(users))
    }

    /// The user requirements, in order.
    pub fn users(&self) -> &[Arc<MarkedUser>]
        ensures users { marked_of result.now ≡ self.now }
        ensures normal { IsNormal (needs_marked self.now) }
    {
        &self.users
    }

    /// Whether it is the same requirement.
    pub fn is_same(&self, other: &SharedReq) -> bool
        ensures { IsTrue result ↔ (needs_marked self.now ≡ needs_marked other.now) }
    {
        are_same(&self.users, &other.users)
    }

    /// Whether it comes before the other: fewer users first, and as lists where there are as many.
    pub fn precedes(&self, other: &SharedReq) -> bool
        ensures { result ≡ requirement_before (needs_marked self.now) (needs_marked other.now) }
    {
        let count = self.users.len();
        let others = other.users.len();
        count < others || (count == others && are_before(&self.users, &other.users))
    }

    /// A hash of what is wanted.
    pub fn hash(&self) -> u64 {
        let mut hash = NOTHING;
        for user in &self.users {
            hash = and_word(hash, user.hash());
        }
        hash
    }

    /// The marks of the users.
    pub fn marks(&self, alloc: Global) -> Result<Vec<UserMark>, NoMemory>
        ensures marks { IfOk result (λ marks. marks.items ≡ marks_marked self.now) }
        ensures own { IfOk result (λ marks. (order : Graph) → AreOwnMarks order self.now → AreUserMarks order (needs_marked self.now) marks.items) }
    {
        let mut marks = Vec::with_capacity(alloc, self.users.len())?;
        for user in &self.users {
            marks.push(*user.mark())?;
        }
        Ok(marks)
    }

    /// Whether it covers the other. The error is want of memory, or more users than 32 bits count.
    pub fn covers(&self, alloc: Global, other: &SharedReq) -> Result<bool, NoMemory>
        ensures { IfOk result (λ answer. IsTrue answer ↔ Covers (needs_marked self.now) (needs_marked other.now)) }
    {
        covers(alloc, &self.users, &other.users)
    }

    /// The requirement with another user in place of the one at the target's place.
    pub fn exchanged<'a>(
        &'a self,
        alloc: Global,
        target: usize,
        before: &'a Arc<MarkedUser>,
    ) -> Result<SharedReq, NoMemory>
        requires { target < length self.now }
        ensures needs { IfOk result (λ made. needs_marked made
            ≡ sort_by need_before (slice_set (needs_marked self.now) target before.now.value.need)) }
        ensures marks { IfOk result (λ made. (order : Graph) → AreOwnMarks order self.now → IsOwnMark order before.now.value → AreOwnMarks order made) }
    {
        let mut users = self.list(alloc)?;
        users[target] = before;
        sorted(alloc, &users)
    }

    /// The requirement with others in place of the users at the target's and the administrator's place.
    pub fn exchanged_both<'a>(
        &'a self,
        alloc: Global,
        target: usize,
        before: &'a Arc<MarkedUser>,
        place: usize,
        admin: &'a Arc<MarkedUser>,
    ) -> Result<SharedReq, NoMemory>
        requires target { target < length self.now }
        requires place { place < length self.now }
        ensures needs { IfOk result (λ made. needs_marked made
            ≡ sort_by need_before (slice_set (slice_set (needs_marked self.now) target before.now.value.need) place admin.now.value.need)) }
        ensures marks { IfOk result (λ made. (order : Graph) → AreOwnMarks order self.now → IsOwnMark order before.now.value
            → IsOwnMark order admin.now.value → AreOwnMarks order made) }
    {
        let mut users = self.list(alloc)?;
        users[target] = before;
        users[place] = admin;
        sorted(alloc, &users)
    }

    /// The requirement with another user in place of the one at the target's place, and a new user.
    pub fn exchanged_and<'a>(
        &'a self,
        alloc: Global,
        target: usize,
        before: &'a Arc<MarkedUser>,
        fresh: &'a Arc<MarkedUser>,
    ) -> Result<SharedReq, NoMemory>
        requires { target < length self.now }
        ensures needs { IfOk result (λ made. needs_marked made
            ≡ sort_by need_before (slice_set (needs_marked self.now) target before.now.value.need ++ fresh.now.value.need ∷ [])) }
        ensures marks { IfOk result (λ made. (order : Graph) → AreOwnMarks order self.now → IsOwnMark order before.now.value
            → IsOwnMark order fresh.now.value → AreOwnMarks order made) }
    {
        let mut users = self.list(alloc)?;
        users[target] = before;
        users.push(fresh)?;
        sorted(alloc, &users)
    }
}
