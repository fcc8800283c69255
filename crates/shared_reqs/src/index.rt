//! An index of requirements, which tells whether one of them covers a given one.

ghost use Rattle.std.specs.Prelude.{ℕ, ◌≡◌, ◌<◌, ◌⊎◌, ◌++◌, ◌∷◌, [], ◌↔◌, slice_get, Some, IsTrue, IfOk, OnOk, OnErr};
ghost use Rattle.role_order.specs.Graph.{Graph};
ghost use Rattle.arbac_laws.specs.Needs.{IsCovered};
ghost use Rattle.need_marks.specs.Marks.{IsNeedMark};
ghost use Rattle.shared_reqs.specs.Shared.{AreOwnMarks, needs_marked};
ghost use Rattle.shared_reqs.specs.Indexes.{IsCoveredBy, BeatsAt};

use crate::NoMemory;
use crate::cover_rows::covers_few;
use crate::shared::SharedReq;
use mark_bag::{Accepts, Bag};
use mask_match::MOST_PLACES;
use need_marks::{NeedMark, NeedQuery};
use role_order::Order;
use std::alloc::{AllocError, Global};
use std::marker::Model;
use std::sync::Arc;

/// Requirements, which contracts see in the order in which they were added, with their marks.
#[derive(Drop)]
pub struct Index<'a> {
    order: &'a Order,
    members: Vec<Arc<SharedReq>>,
    marks: Bag<NeedMark>,
}

impl<'a> Model for Index<'a> {
    ghost use Rattle.std.specs.Prelude.{map};
    ghost use Rattle.shared_reqs.specs.Shared.{needs_marked};
    ghost use Rattle.shared_reqs.specs.Indexes.{Indexed, AreMarked};

    ghost Value = { Indexed };

    ghost view = { λ i. record { order = i.order.now; members = map (λ req. needs_marked req.value) i.members.items } };

    ghost invariant = { λ i. AreMarked i.order.now (map (λ req. needs_marked req.value) i.members.items) i.marks };
}

/// Whether the member at the place counts against the requirement: it is different, or stands before the end.
fn counts(member: &SharedReq, req: &SharedReq, end: u32, place: u32) -> bool
    ensures { IsTrue result ↔ (¬ (needs_marked member.now ≡ needs_marked req.now) ⊎ (place < end)) }
{
    place < end || !member.is_same(req)
}

/// The members that cover a requirement on at most `MOST_PLACES` users, and are different or stand before the end.
#[derive(Clone, Copy)]
struct Covering<'a> {
    members: &'a [Arc<SharedReq>],
    req: &'a SharedReq,
    end: u32,
}

impl Accepts for Covering<'_> {
    ghost use Rattle.std.specs.Prelude.{map, length, ◌≤◌};
    ghost use Rattle.mask_match.specs.declared.TheConstants.{MOST_PLACES};
    ghost use Rattle.shared_reqs.specs.Shared.{needs_marked};
    ghost use Rattle.shared_reqs.specs.Indexes.{CoversAt};

    ghost accepts = { λ test item. (length (needs_marked test.req.now) ≤ MOST_PLACES)
        × CoversAt (map (λ req. needs_marked req.value) test.members.now) (needs_marked test.req.now) test.end item };

    fn accepts(&self, item: u32) -> bool {
        match self.members.get(item as usize) {
            Some(member) => {
                covers_few(member.users(), self.req.users())
                    && counts(member, self.req, self.end, item)
            }
            None => false,
        }
    }
}

/// The mark of the requirement. The error is want of memory, or more users than 32 bits count.
fn mark_of(alloc: Global, req: &SharedReq) -> Result<NeedMark, NoMemory>
    ensures { IfOk result (λ mark. (order : Graph) → AreOwnMarks order req.now → IsNeedMark order (needs_marked req.now) mark) }
{
    let marks = req.marks(alloc)?;
    if marks.len() > u32::MAX as usize {
        return Err(AllocError);
    }
    Ok(NeedMark::of(&marks))
}

impl<'a> Index<'a> {
    /// The index of no requirements.
    pub fn new(alloc: Global, order: &'a Order) -> Index<'a>
        ensures order { result.order ≡ order.now }
        ensures none { result.members ≡ [] }
    {
        Index {
            order,
            members: Vec::new(alloc),
            marks: Bag::new(alloc),
        }
    }

    /// The role order by which requirements are marked.
    pub fn order(&self) -> &'a Order
        ensures { result.now ≡ self.now.order }
    {
        self.order
    }

    /// Adds the requirement. On an error all is as before.
    pub fn add(&mut self, alloc: Global, req: Arc<SharedReq>) -> Result<(), NoMemory>
        requires { AreOwnMarks self.old.order req.value }
        ensures order { self.new.order ≡ self.old.order }
        ensures added { OnOk result (self.new.members ≡ self.old.members ++ needs_marked req.value ∷ []) }
        ensures kept { OnErr result (self.new.members ≡ self.old.members) }
    {
        let mark = mark_of(alloc, &req)?;
        self.members.reserve(1)?;
        self.marks.insert(mark)?;
        self.members.push_reserved(req);
        Ok(())
    }

    /// Whether a member covers the requirement.
    pub fn is_covered(&self, alloc: Global, req: &SharedReq) -> Result<bool, NoMemory>
        requires { AreOwnMarks self.now.order req.now }
        ensures { IfOk result (λ answer. IsTrue answer ↔ IsCovered self.now.members (needs_marked req.now)) }
    {
        let answer = self.is_covered_by(alloc, req, self.marks.len())?;
        Ok(answer)
    }

    /// Whether the member at the place, which is this requirement, is covered by a different member or by one before it.
    pub fn is_beaten(&self, alloc: Global, place: u32, req: &SharedReq) -> Result<bool, NoMemory>
        requires marks { AreOwnMarks self.now.order req.now }
        requires member { slice_get self.now.members place ≡ Some (needs_marked req.now) }
        ensures { IfOk result (λ answer. IsTrue answer ↔ ((other : ℕ) × BeatsAt self.now.members place other)) }
    {
        let answer = self.is_covered_by(alloc, req, place)?;
        Ok(answer)
    }

    /// Whether a member covers the requirement, a different one or one before the end.
    fn is_covered_by(&self, alloc: Global, req: &SharedReq, end: u32) -> Result<bool, NoMemory>
        requires { AreOwnMarks self.now.order req.now }
        ensures { IfOk result (λ answer. IsTrue answer ↔ IsCoveredBy self.now.members (needs_marked req.now) end) }
    {
        if req.users().len() > MOST_PLACES {
            let answer = self.has_covering(alloc, req, end)?;
            return Ok(answer);
        }
        let marks = req.marks(alloc)?;
        let test = Covering {
            members: &self.members,
            req,
            end,
        };
        Ok(self.marks.find(&NeedQuery::of(&marks), &test).is_some())
    }

    /// The same, by trying all members.
    fn has_covering(&self, alloc: Global, req: &SharedReq, end: u32) -> Result<bool, NoMemory>
        ensures { IfOk result (λ answer. IsTrue answer ↔ IsCoveredBy self.now.members (needs_marked req.now) end) }
    {
        for place in 0..self.marks.len() {
            let member = &self.members[place as usize];
            if counts(member, req, end, place) && member.covers(alloc, req)? {
                return Ok(true);
            }
        }
        Ok(false)
    }
}
