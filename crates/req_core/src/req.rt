//! Requirements in normal form.

ghost use Rattle.std.specs.Prelude.{◌≡◌, ◌↔◌, IsTrue, IfOk};
ghost use Rattle.std.specs.List.{list_all};
ghost use Rattle.role_order.specs.Roles.{have_common};
ghost use Rattle.arbac_laws.specs.Needs.{MeetsNeed};
ghost use Rattle.arbac_laws.specs.Orders.{hits_before, need_before};
ghost use Rattle.arbac_laws.specs.NormalForms.{IsNormalNeed, IsNormal};

use crate::NoMemory;
use crate::sorted::Ranked;
use role_order::RoleSet;
use std::alloc::Global;
use std::marker::Model;

/// What is wanted of one user, in normal form: hits that have roles and no lacks, none within another,
/// sorted.
#[derive(Drop)]
pub struct UserReq {
    pub(crate) hits: Vec<RoleSet>,
    pub(crate) lacks: RoleSet,
}

impl Model for UserReq {
    ghost use Rattle.arbac_laws.specs.Needs.{Need};
    ghost use Rattle.arbac_laws.specs.NormalForms.{IsNormalNeed};

    ghost Value = { Need };

    ghost view = { λ u. record { hits = u.hits.items; lacks = u.lacks } };

    ghost invariant = { λ u. IsNormalNeed (record { hits = u.hits.items; lacks = u.lacks }) };
}

impl UserReq {
    /// Sets of roles, one of each of which is wanted.
    pub fn hits(&self) -> &[RoleSet]
        ensures hits { result.now ≡ self.now.hits }
        ensures normal { IsNormalNeed self.now }
    {
        &self.hits
    }

    /// Roles none of which may be held.
    pub fn lacks(&self) -> &RoleSet
        ensures { result.now ≡ self.now.lacks }
    {
        &self.lacks
    }
}

impl UserReq {
    /// A copy.
    pub fn copy(&self, alloc: Global) -> Result<UserReq, NoMemory>
        ensures { IfOk result (λ other. other ≡ self.now) }
    {
        let mut hits = Vec::with_capacity(alloc, self.hits.len())?;
        hits.extend_from_slice(&self.hits)?;
        let lacks = self.lacks;
        Ok(UserReq { hits, lacks })
    }

    /// Whether the same is wanted.
    pub fn is_same(&self, other: &UserReq) -> bool
        ensures { IsTrue result ↔ (self.now ≡ other.now) }
    {
        self.lacks == other.lacks && self.hits == other.hits
    }

    /// Whether it comes before the other: by the hits, and then by the lacks.
    pub fn precedes(&self, other: &UserReq) -> bool
        ensures { result ≡ need_before self.now other.now }
    {
        self.is_before(other)
    }
}

/// Whether the set has a role of each hit.
fn has_hits(hits: &[RoleSet], set: &RoleSet) -> bool
    ensures { result ≡ list_all (λ hit. have_common hit set.now) hits.now }
{
    hits.iter().all(|hit| hit.meets(set))
}

/// Whether the set has a role of each hit of the user requirement, and none of its lacks.
pub fn meets(user: &UserReq, set: &RoleSet) -> bool
    ensures { IsTrue result ↔ MeetsNeed user.now set.now }
{
    has_hits(user.hits(), set) && !user.lacks().meets(set)
}

/// Whether the hits come before the others, as lists of sets do.
fn hits_are_before(hits: &[RoleSet], others: &[RoleSet]) -> bool
    ensures { result ≡ hits_before hits.now others.now }
{
    let count = hits.len().min(others.len());
    for at in 0..count {
        if hits[at].before(&others[at]) {
            return true;
        }
        if others[at].before(&hits[at]) {
            return false;
        }
    }
    hits.len() < others.len()
}

impl Ranked for UserReq {
    ghost before = { need_before };

    /// By the hits, and then by the lacks.
    fn is_before(&self, other: &UserReq) -> bool {
        hits_are_before(self.hits(), other.hits())
            || (!hits_are_before(other.hits(), self.hits()) && self.lacks().before(other.lacks()))
    }
}

/// User requirements in normal form, sorted, that different users are to meet.
#[derive(Drop)]
pub struct Req {
    pub(crate) users: Vec<UserReq>,
}

impl Model for Req {
    ghost use Rattle.std.specs.Prelude.{List};
    ghost use Rattle.arbac_laws.specs.Needs.{Need};
    ghost use Rattle.arbac_laws.specs.NormalForms.{IsNormal};

    ghost Value = { List Need };

    ghost view = { λ r. r.users.items };

    ghost invariant = { λ r. IsNormal r.users.items };
}

impl Req {
    /// The requirement of user requirements that are sorted.
    pub fn of(users: Vec<UserReq>) -> Req
        requires { IsNormal users.items }
        ensures { result ≡ users.items }
    {
        Req { users }
    }

    /// The user requirements, in order.
    pub fn users(&self) -> &[UserReq]
        ensures users { result.now ≡ self.now }
        ensures normal { IsNormal self.now }
    {
        &self.users
    }
}
