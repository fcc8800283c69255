//! An index of requirements, which tells whether one of them covers a given one.

ghost use Rattle.std.specs.Prelude.{◌≡◌, ◌++◌, ◌∷◌, [], IsTrue, ◌↔◌, IfOk, IfSome, IfNone, OnOk};
ghost use Rattle.list_words.specs.Lists.{IsFirst};
ghost use Rattle.arbac_laws.specs.Needs.{Covers, IsCovered};
ghost use Rattle.arbac_laws.specs.Views.{needs_of};
ghost use Rattle.cert_needs.specs.Wanted.{needs_wanted};
ghost use Rattle.need_marks.specs.Marks.{AreUserMarks, IsNeedMark};

use crate::NoMemory;
use crate::cover_rows::covers_few;
use cert_needs::{NeedUser, Wanted, covers};
use mark_bag::{Accepts, Bag};
use mask_match::MOST_PLACES;
use need_marks::{NeedMark, NeedQuery, UserMark};
use role_order::Order;
use std::alloc::{AllocError, Global};
use std::marker::Model;

/// Requirements, which contracts see in the order in which they were added, with their marks.
#[derive(Drop)]
pub struct Index<'a> {
    order: &'a Order,
    members: Vec<&'a [NeedUser]>,
    marks: Bag<NeedMark>,
}

impl<'a> Model for Index<'a> {
    ghost use Rattle.std.specs.Prelude.{map};
    ghost use Rattle.arbac_laws.specs.Views.{needs_of};
    ghost use Rattle.cert_check.specs.Indexes.{Indexed, AreMarked};

    ghost Value = { Indexed };

    ghost view = { λ i. record { order = i.order.now; members = map (λ users. needs_of users.now) i.members.items } };

    ghost invariant = { λ i. AreMarked i.order.now (map (λ users. needs_of users.now) i.members.items) i.marks };
}

/// The members that cover a requirement on at most `MOST_PLACES` users.
#[derive(Clone, Copy)]
struct Covering<'a> {
    members: &'a [&'a [NeedUser]],
    raw: &'a [Wanted<'a>],
}

impl Accepts for Covering<'_> {
    ghost use Rattle.std.specs.Prelude.{map};
    ghost use Rattle.arbac_laws.specs.Views.{needs_of};
    ghost use Rattle.cert_needs.specs.Wanted.{needs_wanted};
    ghost use Rattle.cert_check.specs.Indexes.{CoversAt};

    ghost accepts = { λ test item. CoversAt (map (λ users. needs_of users.now) test.members.now) (needs_wanted test.raw.now) item };

    fn accepts(&self, item: u32) -> bool {
        match self.members.get(item as usize) {
            Some(users) => covers_few(users, self.raw),
            None => false,
        }
    }
}

/// The marks of the users.
pub fn marks_of(alloc: Global, order: &Order, users: &[NeedUser]) -> Result<Vec<UserMark>, NoMemory>
    ensures { IfOk result (λ marks. AreUserMarks order.now (needs_of users.now) marks.items) }
{
    let mut marks = Vec::with_capacity(alloc, users.len())?;
    for user in users {
        marks.push(UserMark::of(order, &user.hits, &user.lacks))?;
    }
    Ok(marks)
}

/// The mark of the requirement.
fn mark_of(alloc: Global, order: &Order, users: &[NeedUser]) -> Result<NeedMark, NoMemory>
    ensures { IfOk result (λ mark. IsNeedMark order.now (needs_of users.now) mark) }
{
    if users.len() > u32::MAX as usize {
        return Err(AllocError);
    }
    let marks = marks_of(alloc, order, users)?;
    Ok(NeedMark::of(&marks))
}

impl<'a> Index<'a> {
    /// The index of no requirements.
    pub fn new(alloc: Global, order: &'a Order) -> Index<'a>
        ensures order { result.order ≡ order.now }
        ensures none { result.members ≡ [] }
    {
        Index {
            order,
            members: Vec::new(alloc),
            marks: Bag::new(alloc),
        }
    }

    /// Adds the requirement.
    pub fn add(&mut self, alloc: Global, users: &'a [NeedUser]) -> Result<(), NoMemory>
        ensures order { self.new.order ≡ self.old.order }
        ensures added { OnOk result (self.new.members ≡ self.old.members ++ needs_of users.now ∷ []) }
    {
        let mark = mark_of(alloc, self.order, users)?;
        self.members.reserve(1)?;
        self.marks.insert(mark)?;
        self.members.push_reserved(users);
        Ok(())
    }

    /// Whether a member covers the requirement, whose users have these marks.
    pub fn is_covered(
        &self,
        alloc: Global,
        raw: &[Wanted],
        marks: &[UserMark],
    ) -> Result<bool, NoMemory>
        requires { AreUserMarks self.now.order (needs_wanted raw.now) marks.now }
        ensures { IfOk result (λ answer. IsTrue answer ↔ IsCovered self.now.members (needs_wanted raw.now)) }
    {
        if raw.len() > MOST_PLACES {
            let found = self.first_covering(alloc, raw)?;
            return Ok(found.is_some());
        }
        let test = Covering {
            members: &self.members,
            raw,
        };
        Ok(self.marks.find(&NeedQuery::of(marks), &test).is_some())
    }

    /// The first member that covers the requirement.
    pub fn first_covering(&self, alloc: Global, raw: &[Wanted]) -> Result<Option<u32>, NoMemory>
        ensures first { IfOk result (λ found. IfSome found (IsFirst (λ one. Covers one (needs_wanted raw.now)) self.now.members)) }
        ensures none { IfOk result (λ found. IfNone found (¬ IsCovered self.now.members (needs_wanted raw.now))) }
    {
        for place in 0..self.marks.len() {
            if covers(alloc, self.members[place as usize], raw)? {
                return Ok(Some(place));
            }
        }
        Ok(None)
    }
}
