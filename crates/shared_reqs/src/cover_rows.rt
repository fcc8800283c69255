//! Cover tests: where there are few others, the bits of a row tell whom a user requirement covers, and no memory is taken.

ghost use Rattle.std.specs.Prelude.{◌≡◌, ◌↔◌, ◌≤◌, ◌<◌, ◌^◌, length, IsTrue, IfOk, IfSome};
ghost use Rattle.std.specs.Int.{bit_at};
ghost use Rattle.list_words.specs.Lists.{Some_of};
ghost use Rattle.hall_match.specs.Joined.{JoinsAt};
ghost use Rattle.mask_match.specs.declared.TheConstants.{MOST_PLACES};
ghost use Rattle.arbac_laws.specs.Needs.{CoversNeed, Covers};
ghost use Rattle.shared_reqs.specs.Shared.{needs_shared};
ghost use Rattle.shared_reqs.specs.CoverRows.{CoversThere, IsRow};

use crate::NoMemory;
use crate::user::MarkedUser;
use hall_match::{Edges, least_transversal};
use mask_match::{MOST_PLACES, all_placed};
use req_core::{UserReq, covers_user};
use std::alloc::Global;
use std::sync::Arc;

/// The word with this bit alone.
fn bit(place: usize) -> u128
    requires { place < MOST_PLACES }
    ensures { result ≡ 2 ^ place }
{
    1 << place
}

/// Which of the others the user covers, as the bits of their places.
fn row_of(user: &UserReq, others: &[Arc<MarkedUser>]) -> u128
    requires { length others.now ≤ MOST_PLACES }
    ensures { IsRow user.now (needs_shared others.now) result }
{
    let mut row = 0;
    for (place, other) in others.iter().enumerate() {
        if covers_user(user, other.user()) {
            row = row | bit(place);
        }
    }
    row
}

/// Whether the user covers one of the others.
fn covers_one(user: &UserReq, others: &[Arc<MarkedUser>]) -> bool
    ensures { IsTrue result ↔ Some_of (CoversNeed user.now) (needs_shared others.now) }
{
    for other in others {
        if covers_user(user, other.user()) {
            return true;
        }
    }
    false
}

/// Whether the users cover the others, each of them a different one.
fn covers_by_rows(users: &[Arc<MarkedUser>], others: &[Arc<MarkedUser>]) -> bool
    requires few { length others.now ≤ MOST_PLACES }
    requires fit { length users.now ≤ length others.now }
    ensures { IsTrue result ↔ Covers (needs_shared users.now) (needs_shared others.now) }
{
    let mut rows = [0; MOST_PLACES];
    for (at, user) in users.iter().enumerate() {
        let row = row_of(user.user(), others);
        if row == 0 {
            return false;
        }
        rows[at] = row;
    }
    all_placed(&rows[..users.len()])
}

/// Whether the bit of the place isn't set.
fn is_free(taken: u128, place: usize) -> bool
    requires { place < MOST_PLACES }
    ensures { IsTrue result ↔ (bit_at taken place ≡ 0) }
{
    taken & bit(place) == 0
}

/// The first place that isn't taken, and at which stands one of the others whom the user covers.
fn first_free(user: &UserReq, others: &[Arc<MarkedUser>], taken: u128) -> Option<usize>
    requires { length others.now ≤ MOST_PLACES }
    ensures { IfSome result (λ place. (bit_at taken place ≡ 0) × CoversThere user.now (needs_shared others.now) place) }
{
    for (place, other) in others.iter().enumerate() {
        if is_free(taken, place) && covers_user(user, other.user()) {
            return Some(place);
        }
    }
    None
}

/// Whether the users cover the others, each of them a different one, if that shows where each user in turn takes the first
/// one that is free. So it does nearly always.
fn covers_in_turn(users: &[Arc<MarkedUser>], others: &[Arc<MarkedUser>]) -> Option<bool>
    requires { length others.now ≤ MOST_PLACES }
    ensures { IfSome result (λ answer. IsTrue answer ↔ Covers (needs_shared users.now) (needs_shared others.now)) }
{
    let mut taken = 0;
    for user in users {
        match first_free(user.user(), others, taken) {
            Some(place) => {
                taken = taken | bit(place);
            }
            None => {
                if covers_one(user.user(), others) {
                    return None;
                }
                return Some(false);
            }
        }
    }
    Some(true)
}

/// Whether the users cover the others, where these are at most `MOST_PLACES`; where they are more, it says no.
pub fn covers_few(users: &[Arc<MarkedUser>], others: &[Arc<MarkedUser>]) -> bool
    ensures { IsTrue result ↔ ((length others.now ≤ MOST_PLACES) × Covers (needs_shared users.now) (needs_shared others.now)) }
{
    if others.len() > MOST_PLACES || users.len() > others.len() {
        return false;
    }
    match covers_in_turn(users, others) {
        Some(answer) => answer,
        None => covers_by_rows(users, others),
    }
}

/// Users, and others that they may cover.
#[derive(Clone, Copy)]
struct Covering<'a> {
    users: &'a [Arc<MarkedUser>],
    others: &'a [Arc<MarkedUser>],
}

impl<'a> Edges for Covering<'a> {
    ghost joins = { λ s. JoinsAt CoversNeed (needs_shared s.users.now) (needs_shared s.others.now) };

    fn has(&self, item: u32, place: u32) -> bool {
        match (
            self.users.get(item as usize),
            self.others.get(place as usize),
        ) {
            (Some(user), Some(other)) => covers_user(user.user(), other.user()),
            _ => false,
        }
    }
}

/// Whether the users cover the others. The error is want of memory, or more users than 32 bits count.
pub fn covers(
    alloc: Global,
    users: &[Arc<MarkedUser>],
    others: &[Arc<MarkedUser>],
) -> Result<bool, NoMemory>
    ensures { IfOk result (λ answer. IsTrue answer ↔ Covers (needs_shared users.now) (needs_shared others.now)) }
{
    if others.len() <= MOST_PLACES {
        return Ok(covers_few(users, others));
    }
    let found = least_transversal(
        alloc,
        users.len(),
        others.len(),
        &Covering { users, others },
    )?;
    Ok(found.is_some())
}
