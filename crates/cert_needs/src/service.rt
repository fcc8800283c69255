//! Which profiles serve users.

ghost use Rattle.std.specs.Prelude.{◌≡◌, IfOk, IfSome, IfNone};
ghost use Rattle.std.specs.List.{list_any, list_all};
ghost use Rattle.role_order.specs.Roles.{have_common};
ghost use Rattle.arbac_laws.specs.Closed.{IsUnmet};
ghost use Rattle.arbac_laws.specs.Serving as laws;
ghost use Rattle.arbac_laws.specs.Serving.{ServesLeast};
ghost use Rattle.arbac_laws.specs.Views.{need_of, needs_of};
ghost use Rattle.hall_match.specs.Joined.{JoinsAt};
ghost use Rattle.cert_needs.specs.Serving.{has_users, meets_need, serves_need, IsMeeting};

use crate::{NeedUser, NoMemory};
use arbac_policy::Profile;
use hall_match::{Edges, Matching, match_by};
use role_order::RoleSet;
use std::alloc::{AllocError, Global};

/// Whether the set has a role of each hit.
fn has_hits(set: &RoleSet, hits: &[RoleSet]) -> bool
    ensures { result ≡ list_all (λ hit. have_common hit set.now) hits.now }
{
    hits.iter().all(|hit| hit.meets(set))
}

/// Whether the set has none of the user's lacks, and a role of each hit.
fn meets(user: &NeedUser, set: &RoleSet) -> bool
    ensures { result ≡ meets_need (need_of user.now) set.now }
{
    !user.lacks.meets(set) && has_hits(set, &user.hits)
}

/// Whether there may be users of the profile.
fn has_users(profile: &Profile) -> bool
    ensures { result ≡ has_users profile.now.most }
{
    match profile.most {
        None => true,
        Some(most) => most != 0,
    }
}

/// Whether there may be users of the profile who meet the requirement.
fn serves(profile: &Profile, user: &NeedUser) -> bool
    ensures { result ≡ serves_need profile.now (need_of user.now) }
{
    has_users(profile) && meets(user, &profile.set)
}

/// Whether some profile serves the user.
fn is_served(user: &NeedUser, profiles: &[Profile]) -> bool
    ensures { result ≡ list_any (λ profile. serves_need profile (need_of user.now)) profiles.now }
{
    profiles.iter().any(|profile| serves(profile, user))
}

/// Whether each user is served by some profile, be it the same for several.
fn are_served(users: &[NeedUser], profiles: &[Profile]) -> bool
    ensures { result ≡ list_all (λ user. list_any (λ profile. serves_need profile (need_of user)) profiles.now) users.now }
{
    users.iter().all(|user| is_served(user, profiles))
}

/// Users, and profiles that may serve them.
#[derive(Clone, Copy)]
struct Service<'a> {
    users: &'a [NeedUser],
    profiles: &'a [Profile],
}

impl<'a> Edges for Service<'a> {
    ghost joins = { λ s. JoinsAt IsMeeting s.users.now s.profiles.now };

    fn has(&self, item: u32, place: u32) -> bool {
        match (
            self.users.get(item as usize),
            self.profiles.get(place as usize),
        ) {
            (Some(user), Some(profile)) => meets(user, &profile.set),
            _ => false,
        }
    }
}

/// The greatest number of users of each profile.
fn counts_of(alloc: Global, profiles: &[Profile]) -> Result<Vec<Option<u32>>, AllocError>
    ensures { IfOk result (λ counts. counts.items ≡ laws.counts profiles.now) }
{
    let mut counts = Vec::with_capacity(alloc, profiles.len())?;
    for profile in profiles {
        counts.push(profile.most)?;
    }
    Ok(counts)
}

/// A profile for each user: the least choice that can be drawn and serves them; none exactly where no users that can be drawn
/// meet the requirement. A matching is sought only where each user is served by some profile. The error is want of memory, or
/// more users or profiles than 32 bits count.
pub fn serving(
    alloc: Global,
    users: &[NeedUser],
    profiles: &[Profile],
) -> Result<Option<Vec<u32>>, NoMemory>
    ensures some { IfOk result (λ found. IfSome found (λ choice. ServesLeast profiles.now (needs_of users.now) choice.items)) }
    ensures none { IfOk result (λ found. IfNone found (IsUnmet profiles.now (needs_of users.now))) }
{
    if !are_served(users, profiles) {
        return Ok(None);
    }
    let counts = counts_of(alloc, profiles)?;
    match match_by(alloc, users.len(), &counts, &Service { users, profiles })? {
        Matching::Matched(choice) => Ok(Some(choice)),
        Matching::Deficient(_) => Ok(None),
    }
}
