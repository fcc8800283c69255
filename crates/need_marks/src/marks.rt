//! Marks of user requirements and of requirements.

ghost use Rattle.std.specs.Prelude.{ℕ, ◌≡◌, ◌<◌, ◌^◌, ◌⊎◌, ◌↔◌, List, length, IsTrue};
ghost use Rattle.std.specs.List.{list_any};
ghost use Rattle.list_words.specs.Lists.{Some_of, IsOneOf};
ghost use Rattle.role_order.specs.Roles.{IsIn, IsWithin, AreBelow};
ghost use Rattle.role_order.specs.Graph.{Graph};
ghost use Rattle.role_order.specs.Reach.{seniors_of};
ghost use Rattle.arbac_laws.specs.Needs.{Need};
ghost use Rattle.arbac_laws.specs.PreImages.{add_hit};
ghost use Rattle.need_marks.specs.declared.marks.UserMark.{UserMark as Marked};
ghost use Rattle.need_marks.specs.Marks.{IsUserMark, AreUserMarks, IsPart, HasNothing, IsNeedMark, IsNeedQuery, IsUnder, MayCover};
ghost use Rattle.need_marks.specs.MarkTests as tests;

use mark_bag::{Mark, Query};
use role_order::{Order, RoleSet};

/// What a user requirement aims at, and its lacks. A requirement that covers another has a part of the other's mark.
#[derive(Clone, Copy)]
pub struct UserMark {
    /// The roles within whose seniors one of the hits lies.
    pub aims: RoleSet,
    pub lacks: RoleSet,
}

/// The mark of a requirement.
#[derive(Clone, Copy)]
pub struct NeedMark {
    /// What some user has.
    pub all: UserMark,
    /// What one of the users has, the one with the most.
    pub heaviest: UserMark,
    pub users: u32,
}

/// What asks for requirements that may cover one with these users.
#[derive(Clone, Copy)]
pub struct NeedQuery<'a> {
    /// What some user has.
    pub all: UserMark,
    pub each: &'a [UserMark],
}

/// All roles of the order.
fn all_roles(order: &Order) -> RoleSet
    ensures { (role : ℕ) → IsIn result role ↔ (role < length order.now.names) }
{
    let mut all = RoleSet::empty();
    for role in 0..order.count() {
        all = all.with(role);
    }
    all
}

/// The roles of the set, all of them roles of the order, within whose seniors all of the roles lie.
fn common_juniors(order: &Order, set: RoleSet, roles: &RoleSet) -> RoleSet
    requires { AreBelow (length order.now.names) set }
    ensures { (role : ℕ) → IsIn result role ↔ (IsIn set role × IsWithin roles.now (seniors_of order.now role)) }
{
    let mut common = set;
    for role in roles.roles() {
        if role >= order.count() {
            return RoleSet::empty();
        }
        common = common.common(&order.juniors(role));
    }
    common
}

/// The roles within whose seniors the hit lies.
fn aims_of(order: &Order, hit: &RoleSet) -> RoleSet
    ensures { (role : ℕ) → IsIn result role ↔ ((role < length order.now.names) × IsWithin hit.now (seniors_of order.now role)) }
{
    match hit.least() {
        None => all_roles(order),
        Some(first) => {
            if first >= order.count() {
                return RoleSet::empty();
            }
            common_juniors(order, order.juniors(first), hit)
        }
    }
}

impl UserMark {
    /// The mark of the user requirement with the hits and lacks.
    pub fn of(order: &Order, hits: &[RoleSet], lacks: &RoleSet) -> UserMark
        ensures { IsUserMark order.now (record { hits = hits.now; lacks = lacks.now }) result }
    {
        let mut aims = RoleSet::empty();
        for hit in hits {
            aims = aims.join(&aims_of(order, &hit.less(lacks)));
        }
        UserMark {
            aims,
            lacks: *lacks,
        }
    }

    /// The mark of the same with one more hit.
    pub fn and_hit(&self, order: &Order, hit: &RoleSet) -> UserMark
        ensures { (need : Need) → IsUserMark order.now need self.now → IsUserMark order.now (add_hit hit.now need) result }
    {
        UserMark {
            aims: self.aims.join(&aims_of(order, &hit.less(&self.lacks))),
            lacks: self.lacks,
        }
    }

    /// The mark that has nothing.
    fn nothing() -> UserMark
        ensures { HasNothing result }
    {
        UserMark {
            aims: RoleSet::empty(),
            lacks: RoleSet::empty(),
        }
    }

    fn is_nothing(&self) -> bool
        ensures { IsTrue result ↔ HasNothing self.now }
    {
        self.aims.is_empty() && self.lacks.is_empty()
    }

    /// Whether the mark has nothing, or one of the others has all that it has.
    fn lies_in_one(&self, others: &[UserMark]) -> bool
        ensures { IsTrue result ↔ (HasNothing self.now ⊎ Some_of (IsPart self.now) others.now) }
    {
        self.is_nothing() || self.is_part_of_one(others)
    }

    /// Whether the other has all that the mark has.
    fn is_part(&self, other: &UserMark) -> bool
        ensures { result ≡ tests.is_part self.now other.now }
    {
        self.aims.within(&other.aims) && self.lacks.within(&other.lacks)
    }

    /// Whether one of the marks has all that the mark has.
    fn is_part_of_one(&self, marks: &[UserMark]) -> bool
        ensures { result ≡ list_any (tests.is_part self.now) marks.now }
    {
        marks.iter().any(|mark| self.is_part(mark))
    }

    /// What both have.
    fn common(&self, other: &UserMark) -> UserMark
        ensures one { IsPart result self.now }
        ensures other { IsPart result other.now }
    {
        UserMark {
            aims: self.aims.common(&other.aims),
            lacks: self.lacks.common(&other.lacks),
        }
    }

    fn weight(&self) -> u32 {
        let aims = self.aims.len() as u32;
        aims.saturating_add(self.lacks.len() as u32)
    }
}

/// What some of the marks have.
fn joined(marks: &[UserMark]) -> UserMark
    ensures aims { (role : ℕ) → IsIn result.aims role ↔ Some_of (λ (mark : Marked). IsIn mark.aims role) marks.now }
    ensures lacks { (role : ℕ) → IsIn result.lacks role ↔ Some_of (λ (mark : Marked). IsIn mark.lacks role) marks.now }
{
    let mut aims = RoleSet::empty();
    let mut lacks = RoleSet::empty();
    for mark in marks {
        aims = aims.join(&mark.aims);
        lacks = lacks.join(&mark.lacks);
    }
    UserMark { aims, lacks }
}

/// The mark that has the most, the first of these; nothing where there is none.
fn heaviest(marks: &[UserMark]) -> UserMark
    ensures { HasNothing result ⊎ IsOneOf marks.now result }
{
    let mut most = UserMark::nothing();
    for mark in marks {
        if mark.weight() > most.weight() {
            most = *mark;
        }
    }
    most
}

impl NeedMark {
    /// The mark of a requirement whose users have these marks.
    pub fn of(marks: &[UserMark]) -> NeedMark
        requires { length marks.now < 2 ^ 32 }
        ensures { (order : Graph) (needs : List Need) → AreUserMarks order needs marks.now → IsNeedMark order needs result }
    {
        NeedMark {
            all: joined(marks),
            heaviest: heaviest(marks),
            users: marks.len() as u32,
        }
    }
}

impl<'a> NeedQuery<'a> {
    /// The query for requirements that cover one whose users have these marks.
    pub fn of(marks: &'a [UserMark]) -> NeedQuery<'a>
        ensures { (order : Graph) (needs : List Need) → AreUserMarks order needs marks.now → IsNeedQuery order needs result }
    {
        NeedQuery {
            all: joined(marks),
            each: marks,
        }
    }
}

/// How many numbers of roles a word has bits for.
const WORD_BITS: u16 = 128;

/// The roles of the set from a number on, as the bits of a word.
fn bits_from(set: &RoleSet, from: u16) -> u128 {
    let mut bits = 0u128;
    for role in set.roles() {
        if from <= role && role - from < WORD_BITS {
            bits |= 1 << (role - from);
        }
    }
    bits
}

impl Mark for NeedMark {
    ghost use Rattle.need_marks.specs.MarkParts.{under_itself, under_through};

    ghost within = { IsUnder };

    ghost itself = { under_itself };

    ghost through = { under_through };

    fn common(&self, other: &NeedMark) -> NeedMark {
        NeedMark {
            all: self.all.common(&other.all),
            heaviest: self.heaviest.common(&other.heaviest),
            users: self.users.min(other.users),
        }
    }

    fn weight(&self) -> u32 {
        self.all.weight().saturating_add(self.heaviest.weight())
    }

    fn is_within(&self, other: &NeedMark) -> bool {
        self.all.is_part(&other.all) && self.heaviest.is_part(&other.heaviest)
    }

    fn words() -> u32 {
        8
    }

    fn word(&self, place: u32) -> u128 {
        let mark = if place < 4 { &self.all } else { &self.heaviest };
        let set = if place % 4 < 2 {
            &mark.aims
        } else {
            &mark.lacks
        };
        bits_from(set, if place % 2 == 0 { 0 } else { WORD_BITS })
    }
}

impl<'a> Query<NeedMark> for NeedQuery<'a> {
    ghost use Rattle.need_marks.specs.MarkParts.{fits_under};

    ghost fits = { MayCover };

    ghost falls = { fits_under };

    fn may_fit(&self, mark: &NeedMark) -> bool {
        if mark.users as usize > self.each.len() {
            return false;
        }
        mark.all.is_part(&self.all) && mark.heaviest.lies_in_one(self.each)
    }
}
