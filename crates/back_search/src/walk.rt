//! The walk over the unbeaten candidates of a round.

ghost use Rattle.std.specs.Prelude.{◌≡◌, ◌∷◌, [], ◌↔◌, Some, IsTrue, IfOk, OnOk, IfSome, IfNone};
ghost use Rattle.list_words.specs.Lists.{Each, Some_of};
ghost use Rattle.arbac_laws.specs.Closed.{IsUnmet};
ghost use Rattle.arbac_laws.specs.Serving.{ServesLeast};
ghost use Rattle.search_laws.specs.Rounds.{Search, Walks};
ghost use Rattle.shared_reqs.specs.Shared.{AreOwnMarks, needs_marked, needs_shared};
ghost use Rattle.search_rounds.specs.Views.{entry_of, entries_of, HaveOwnMarks};
ghost use Rattle.back_search.specs.Stops.{walk_of, IsServed, Records, MayServe};

use crate::NoMemory;
use arbac_policy::Profile;
use req_core::{Met, UserReq, meets, met};
use search_rounds::{Candidate, Gathering};
use shared_reqs::{MarkedUser, SharedReq};
use std::alloc::Global;
use std::sync::Arc;

/// How a walk ends the search.
#[derive(Drop)]
pub enum Stop {
    /// Drawn users meet the requirement: the least choice of profiles for its users.
    Found { choice: Vec<u32>, entry: Candidate },
    /// There is no room for one more.
    Full { next: Candidate },
}

/// Whether there may be users of the profile.
fn has_users(profile: &Profile) -> bool
    ensures { IsTrue result ↔ (profile.now.most ≡ Some 0 → ⊥) }
{
    match profile.most {
        None => true,
        Some(most) => most != 0,
    }
}

/// Whether there may be users of the profile who meet the user requirement.
fn serves(profile: &Profile, user: &UserReq) -> bool
    ensures { IsTrue result ↔ MayServe user.now profile.now }
{
    has_users(profile) && meets(user, &profile.set)
}

/// Whether some profile serves the user requirement.
fn is_served(user: &UserReq, profiles: &[Profile]) -> bool
    ensures { IsTrue result ↔ Some_of (MayServe user.now) profiles.now }
{
    profiles.iter().any(|profile| serves(profile, user))
}

/// Whether some profile serves each user requirement, be it the same for several.
fn are_served(users: &[Arc<MarkedUser>], profiles: &[Profile]) -> bool
    ensures { IsTrue result ↔ Each (λ need. Some_of (MayServe need) profiles.now) (needs_shared users.now) }
{
    users.iter().all(|user| is_served(user.user(), profiles))
}

/// The least choice of profiles whose users meet the requirement; none where no users that can be drawn do. A matching is
/// sought only where each user requirement is served by some profile.
fn choice_of(
    alloc: Global,
    req: &SharedReq,
    profiles: &[Profile],
) -> Result<Option<Vec<u32>>, NoMemory>
    ensures some { IfOk result (λ found. IfSome found (λ choice. ServesLeast profiles.now (needs_marked req.now) choice.items)) }
    ensures none { IfOk result (λ found. IfNone found (IsUnmet profiles.now (needs_marked req.now))) }
{
    if !are_served(req.users(), profiles) {
        return Ok(None);
    }
    let plain = req.to_req(alloc)?;
    match met(alloc, &plain, profiles)? {
        Met::Choice(choice) => Ok(Some(choice)),
        Met::Apart(_) => Ok(None),
    }
}

/// Walks one candidate.
fn walk_one(
    alloc: Global,
    gathering: &mut Gathering,
    recorded: &mut Vec<Candidate>,
    one: Candidate,
    profiles: &[Profile],
    limit: u32,
) -> Result<Option<Stop>, NoMemory>
    requires one { AreOwnMarks gathering.old.order one.req.value }
    requires recorded { HaveOwnMarks gathering.old.order recorded.old.items }
    ensures walks { (s : Search) → s.profiles ≡ profiles.now → s.limit ≡ limit → IfOk result (λ stop.
        Walks s (entries_of recorded.old.items) (entry_of one ∷ []) (walk_of stop (entries_of recorded.new.items))) }
    ensures served { IfOk result (IsServed profiles.now) }
    ensures records { OnOk result (Records gathering.old gathering.new (entries_of recorded.old.items) (entries_of recorded.new.items)) }
    ensures marks { OnOk result (HaveOwnMarks gathering.old.order recorded.new.items) }
{
    if let Some(choice) = choice_of(alloc, &one.req, profiles)? {
        return Ok(Some(Stop::Found { choice, entry: one }));
    }
    if recorded.len() == limit as usize {
        return Ok(Some(Stop::Full { next: one }));
    }
    gathering.know(alloc, &one.req)?;
    recorded.push(one)?;
    Ok(None)
}

/// Walks the candidates: the search ends at one that drawn users meet, else at one for which there is no room, else it is
/// recorded, and known from then on.
pub fn walk(
    alloc: Global,
    gathering: &mut Gathering,
    recorded: &mut Vec<Candidate>,
    list: Vec<Candidate>,
    profiles: &[Profile],
    limit: u32,
) -> Result<Option<Stop>, NoMemory>
    requires list { HaveOwnMarks gathering.old.order list.items }
    requires recorded { HaveOwnMarks gathering.old.order recorded.old.items }
    ensures walks { (s : Search) → s.profiles ≡ profiles.now → s.limit ≡ limit → IfOk result (λ stop.
        Walks s (entries_of recorded.old.items) (entries_of list.items) (walk_of stop (entries_of recorded.new.items))) }
    ensures served { IfOk result (IsServed profiles.now) }
    ensures records { OnOk result (Records gathering.old gathering.new (entries_of recorded.old.items) (entries_of recorded.new.items)) }
    ensures marks { OnOk result (HaveOwnMarks gathering.old.order recorded.new.items) }
{
    for one in list {
        if let Some(stop) = walk_one(alloc, gathering, recorded, one, profiles, limit)? {
            return Ok(Some(stop));
        }
    }
    Ok(None)
}
