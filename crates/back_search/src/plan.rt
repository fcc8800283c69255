//! The plan from a found requirement.

ghost use Rattle.std.specs.Prelude.{ℕ, ◌≡◌, ◌<◌, length, get_or, map, IfOk, IsSome};
ghost use Rattle.arbac_laws.specs.NormalForms.{pre_form};
ghost use Rattle.arbac_laws.specs.Obligations.{act_of, target_of};
ghost use Rattle.arbac_laws.specs.Obligations as laws;
ghost use Rattle.arbac_laws.specs.PreImages as images;
ghost use Rattle.req_pre.specs.Answers.{HasAdmin};
ghost use Rattle.req_pre.specs.Views.{owed_of, pick_of};
ghost use Rattle.shared_reqs.specs.Shared.{needs_marked};
ghost use Rattle.search_laws.specs.Plans.{Plans};
ghost use Rattle.search_laws.specs.Rounds.{Search, IsOutcome, found};
ghost use Rattle.search_rounds.specs.Views.{entry_of, entries_of};
ghost use Rattle.back_search.specs.Standing.{AreStanding};

use crate::NoMemory;
use arbac_policy::{Act, ActKind};
use req_core::Normal;
use req_pre::{Obligation, Pick, Prepared, pre};
use search_rounds::{Candidate, Origin};
use shared_reqs::SharedReq;
use std::alloc::{AllocError, Global};

/// The places of so many users. The error is want of memory, or more users than 32 bits count.
fn own_places(alloc: Global, count: usize) -> Result<Vec<u32>, NoMemory>
    ensures long { IfOk result (λ places. length places.items ≡ count) }
    ensures own { IfOk result (λ places. (user : ℕ) → user < count → get_or places.items user 0 ≡ user) }
{
    let Ok(count) = u32::try_from(count) else {
        return Err(AllocError);
    };
    let mut places = Vec::with_capacity(alloc, count as usize)?;
    for user in 0..count {
        places.push(user)?;
    }
    Ok(places)
}

/// Where the users of the pre-image of the parent's obligation stand in its normal form, which it has.
fn places_before(
    alloc: Global,
    prepared: &Prepared,
    parent: &SharedReq,
    ob: &Obligation,
) -> Result<Vec<u32>, NoMemory>
    requires admin { HasAdmin (length (needs_marked parent.now)) (owed_of ob.now) }
    requires form { IsSome (pre_form prepared.now (needs_marked parent.now) (owed_of ob.now)) }
    ensures { IfOk result (λ places. AreStanding prepared.now (needs_marked parent.now) (owed_of ob.now) places.items) }
{
    let req = parent.to_req(alloc)?;
    match pre(alloc, prepared, &req, ob)? {
        Some(Normal { req: _, places }) => Ok(places),
        None => unreachable!(),
    }
}

/// The places of the population at which users stand who stood at these places of it.
fn onward(alloc: Global, to: &[u32], places: &[u32]) -> Result<Vec<u32>, NoMemory>
    requires { (user : ℕ) → user < length places.now → get_or places.now user 0 < length to.now }
    ensures { IfOk result (λ moved. moved.items ≡ map (λ place. get_or to.now place 0) places.now) }
{
    let mut moved = Vec::with_capacity(alloc, places.len())?;
    for user in 0..places.len() {
        let place = places[user];
        moved.push(to[place as usize])?;
    }
    Ok(moved)
}

/// The administrator's place in the pre-image of a requirement of so many users. A new one stands last.
fn admin_place(admin: Pick, target: u32, count: usize) -> usize
    ensures { result ≡ images.admin_place (pick_of admin) target count }
{
    match admin {
        Pick::Itself => target as usize,
        Pick::Other(place) => place as usize,
        Pick::Fresh => count,
    }
}

/// The act of the obligation of a requirement of so many users, where the users of the pre-image stand at these places.
fn act(ob: &Obligation, count: usize, to: &[u32]) -> Act
    requires target { target_of (owed_of ob.now) < length to.now }
    requires admin { images.admin_place (laws.pick_of (owed_of ob.now)) (target_of (owed_of ob.now)) count < length to.now }
    ensures { result ≡ act_of (owed_of ob.now) count (λ user. get_or to.now user 0) }
{
    match *ob {
        Obligation::Assign {
            rule: _,
            conjunct: _,
            role,
            target,
            admin,
        } => Act {
            kind: ActKind::Assign,
            admin: to[admin_place(admin, target, count)],
            target: to[target as usize],
            role,
        },
        Obligation::Weak {
            rule: _,
            role,
            target,
            admin,
        } => Act {
            kind: ActKind::Weak,
            admin: to[admin_place(admin, target, count)],
            target: to[target as usize],
            role,
        },
    }
}

/// The acts from users who meet the requirement where they stand, by its origins back to the goal.
pub fn plan(
    alloc: Global,
    prepared: &Prepared,
    recorded: &[Candidate],
    entry: &Candidate,
) -> Result<Vec<Act>, NoMemory>
    requires { (s : Search) × (s.rules ≡ prepared.now) × IsOutcome s (found (entries_of recorded.now) (entry_of entry.now)) }
    ensures { IfOk result (λ acts. Plans prepared.now (entries_of recorded.now) (entry_of entry.now) (λ user. user) acts.items) }
{
    prepared.policy().order().is_order();
    let mut acts = Vec::new(alloc);
    let mut to = own_places(alloc, entry.req.users().len())?;
    let mut origin = entry.origin;
    while let Origin::Pre { parent, ob } = origin {
        let before = &recorded[parent as usize];
        let places = places_before(alloc, prepared, &before.req, &ob)?;
        to = onward(alloc, &to, &places)?;
        acts.push(act(&ob, before.req.users().len(), &to))?;
        origin = before.origin;
    }
    Ok(acts)
}
