//! Cover.

ghost use Rattle.std.specs.Prelude.{◌≡◌, ◌↔◌, IsTrue, IfOk, IfSome, IfNone};
ghost use Rattle.std.specs.List.{list_any, list_all};
ghost use Rattle.role_order.specs.Roles.{less_roles, is_within};
ghost use Rattle.arbac_laws.specs.Needs.{CoversNeed, Covers};
ghost use Rattle.list_words.specs.Places.{ArePlaces};
ghost use Rattle.hall_match.specs.Joined.{JoinsAt};

use crate::NoMemory;
use crate::req::{Req, UserReq};
use hall_match::{Edges, least_transversal};
use role_order::RoleSet;
use std::alloc::Global;

/// Whether one of the hits, less the lacks, lies within the hit.
fn has_within(hits: &[RoleSet], lacks: &RoleSet, hit: &RoleSet) -> bool
    ensures { result ≡ list_any (λ other. is_within (less_roles other lacks.now) hit.now) hits.now }
{
    hits.iter().any(|other| other.less(lacks).within(hit))
}

/// Whether within each of the hits lies one of the others, less the lacks.
fn covers_hits(hits: &[RoleSet], others: &[RoleSet], lacks: &RoleSet) -> bool
    ensures { result ≡ list_all (λ hit. list_any (λ other. is_within (less_roles other lacks.now) hit) others.now) hits.now }
{
    hits.iter().all(|hit| has_within(others, lacks, hit))
}

/// Whether the first user requirement covers the second.
pub fn covers_user(a: &UserReq, b: &UserReq) -> bool
    ensures { IsTrue result ↔ CoversNeed a.now b.now }
{
    a.lacks().within(b.lacks()) && covers_hits(a.hits(), b.hits(), b.lacks())
}

/// User requirements, and others that they may cover.
#[derive(Clone, Copy)]
struct Covering<'a> {
    users: &'a [UserReq],
    others: &'a [UserReq],
}

impl<'a> Edges for Covering<'a> {
    ghost joins = { λ s. JoinsAt CoversNeed s.users.now s.others.now };

    fn has(&self, item: u32, place: u32) -> bool {
        match (
            self.users.get(item as usize),
            self.others.get(place as usize),
        ) {
            (Some(user), Some(other)) => covers_user(user, other),
            _ => false,
        }
    }
}

/// The places of users of the second requirement, a different one for each user of the first, whom the first
/// ones cover; none exactly where the first requirement doesn't cover the second. The error is want of memory, or
/// more users than 32 bits count.
pub fn covers(alloc: Global, a: &Req, b: &Req) -> Result<Option<Vec<u32>>, NoMemory>
    ensures map { IfOk result (λ found. IfSome found (λ places. ArePlaces CoversNeed a.now b.now places.items)) }
    ensures none { IfOk result (λ found. IfNone found (¬ Covers a.now b.now)) }
{
    let users = a.users();
    let others = b.users();
    let places = least_transversal(
        alloc,
        users.len(),
        others.len(),
        &Covering { users, others },
    )?;
    Ok(places)
}
