//! Whether users cover what is wanted of others.

ghost use Rattle.std.specs.Prelude.{◌≡◌, ◌↔◌, ◌≤◌, length, IsTrue, IfOk, IfSome};
ghost use Rattle.std.specs.List.{list_any, list_all};
ghost use Rattle.role_order.specs.Roles.{is_within, less_roles};
ghost use Rattle.arbac_laws.specs.Needs.{Covers, CoversNeed};
ghost use Rattle.arbac_laws.specs.Views.{need_of, needs_of};
ghost use Rattle.hall_match.specs.Joined.{JoinsAt};
ghost use Rattle.cert_needs.specs.Wanted.{need_wanted, needs_wanted};
ghost use Rattle.cert_needs.specs.Cover.{covers_need, IsPartner, IsFreePartner};

use crate::{NeedUser, NoMemory, Wanted};
use hall_match::{Edges, least_transversal};
use role_order::RoleSet;
use std::alloc::Global;

/// So many users at most are given partners one by one, in a row that needs no memory.
const MOST_IN_ROW: usize = 16;

/// Whether one of the hits, less the lacks, lies within the hit.
fn has_within(hits: &[RoleSet], lacks: &RoleSet, hit: &RoleSet) -> bool
    ensures { result ≡ list_any (λ one. is_within (less_roles one lacks.now) hit.now) hits.now }
{
    hits.iter().any(|one| one.less(lacks).within(hit))
}

/// Whether one of the hits that are wanted, less the lacks, lies within the hit.
fn wants_within(other: &Wanted, hit: &RoleSet) -> bool
    ensures { result ≡ list_any (λ one. is_within (less_roles one other.now.lacks) hit.now) (need_wanted other.now).hits }
{
    match &other.admin {
        Some(admin) => {
            admin.less(&other.lacks).within(hit) || has_within(other.hits, &other.lacks, hit)
        }
        None => has_within(other.hits, &other.lacks, hit),
    }
}

/// Whether within each of the hits lies one of those that are wanted, less the lacks.
fn wants_within_each(other: &Wanted, hits: &[RoleSet]) -> bool
    ensures { result ≡ list_all (λ hit. list_any (λ one. is_within (less_roles one other.now.lacks) hit) (need_wanted other.now).hits) hits.now }
{
    hits.iter().all(|hit| wants_within(other, hit))
}

/// Whether the user covers what is wanted of the other.
pub fn covers_user(user: &NeedUser, other: &Wanted) -> bool
    ensures covers { IsTrue result ↔ CoversNeed (need_of user.now) (need_wanted other.now) }
    ensures test { result ≡ covers_need (need_of user.now) (need_wanted other.now) }
{
    user.lacks.within(&other.lacks) && wants_within_each(other, &user.hits)
}

/// Whether the user covers what is wanted of some other.
fn has_partner(user: &NeedUser, others: &[Wanted]) -> bool
    ensures { result ≡ list_any (λ other. covers_need (need_of user.now) (need_wanted other)) others.now }
{
    others.iter().any(|other| covers_user(user, other))
}

/// Whether each user covers what is wanted of some other, be it the same for several.
fn have_partners(users: &[NeedUser], others: &[Wanted]) -> bool
    ensures { result ≡ list_all (λ user. list_any (λ other. covers_need (need_of user) (need_wanted other)) others.now) users.now }
{
    users.iter().all(|user| has_partner(user, others))
}

/// The place of the first, of those not taken, whom the user covers.
fn free_partner(user: &NeedUser, others: &[Wanted], taken: &[usize]) -> Option<usize>
    ensures { IfSome result (IsFreePartner user.now others.now taken.now) }
{
    for (place, other) in others.iter().enumerate() {
        if !taken.contains(&place) && covers_user(user, other) {
            return Some(place);
        }
    }
    None
}

/// Whether each user in turn finds a partner that those before have left.
fn find_free_partners(users: &[NeedUser], others: &[Wanted]) -> bool
    requires { length users.now ≤ MOST_IN_ROW }
    ensures { IsTrue result → Covers (needs_of users.now) (needs_wanted others.now) }
{
    let mut taken = [0; MOST_IN_ROW];
    for (at, user) in users.iter().enumerate() {
        match free_partner(user, others, &taken[..at]) {
            Some(place) => taken[at] = place,
            None => return false,
        }
    }
    true
}

/// The answer, where it is seen without a search.
fn quick_answer(users: &[NeedUser], others: &[Wanted]) -> Option<bool>
    ensures { IfSome result (λ answer. IsTrue answer ↔ Covers (needs_of users.now) (needs_wanted others.now)) }
{
    if users.len() > others.len() || !have_partners(users, others) {
        return Some(false);
    }
    if users.len() <= MOST_IN_ROW && find_free_partners(users, others) {
        return Some(true);
    }
    None
}

/// Users, and others that they may cover.
#[derive(Clone, Copy)]
struct Covering<'a> {
    users: &'a [NeedUser],
    others: &'a [Wanted<'a>],
}

impl<'a> Edges for Covering<'a> {
    ghost joins = { λ s. JoinsAt IsPartner s.users.now s.others.now };

    fn has(&self, item: u32, place: u32) -> bool {
        match (
            self.users.get(item as usize),
            self.others.get(place as usize),
        ) {
            (Some(user), Some(other)) => covers_user(user, other),
            _ => false,
        }
    }
}

/// Whether the users cover what is wanted of the others: each of them a different one. A matching is sought only where a user
/// finds that those before have taken all that it covers. The error is want of memory, or more users than 32 bits count.
pub fn covers(alloc: Global, users: &[NeedUser], others: &[Wanted]) -> Result<bool, NoMemory>
    ensures { IfOk result (λ answer. IsTrue answer ↔ Covers (needs_of users.now) (needs_wanted others.now)) }
{
    if let Some(answer) = quick_answer(users, others) {
        return Ok(answer);
    }
    let found = least_transversal(
        alloc,
        users.len(),
        others.len(),
        &Covering { users, others },
    )?;
    Ok(found.is_some())
}
