//! Which profiles serve a requirement.

ghost use Rattle.std.specs.Prelude.{ℕ, List, ◌≡◌, IfOk};
ghost use Rattle.arbac_policy.specs.Goals.{AreUsers};
ghost use Rattle.arbac_laws.specs.Needs.{MeetsNeed, MeetsBy};
ghost use Rattle.arbac_laws.specs.Closed.{IsUnmet};
ghost use Rattle.hall_match.specs.Joined.{JoinsAt};
ghost use Rattle.arbac_laws.specs.Serving as serving;
ghost use Rattle.arbac_laws.specs.Serving.{ServesLeast, AreUnserved};
ghost use Rattle.req_core.specs.Answers.{IfChoice, IfApart};

use crate::NoMemory;
use crate::answers::Met;
use crate::req::{Req, UserReq, meets};
use arbac_policy::Profile;
use hall_match::{Edges, Matching, match_by};
use std::alloc::{AllocError, Global};

/// User requirements, and profiles that may serve them.
#[derive(Clone, Copy)]
struct Service<'a> {
    users: &'a [UserReq],
    profiles: &'a [Profile],
}

impl<'a> Edges for Service<'a> {
    ghost joins = { λ s. JoinsAt (λ need profile. MeetsNeed need profile.set) s.users.now s.profiles.now };

    fn has(&self, item: u32, place: u32) -> bool {
        match (
            self.users.get(item as usize),
            self.profiles.get(place as usize),
        ) {
            (Some(user), Some(profile)) => meets(user, &profile.set),
            _ => false,
        }
    }
}

/// The greatest number of users of each profile.
fn counts_of(alloc: Global, profiles: &[Profile]) -> Result<Vec<Option<u32>>, AllocError>
    ensures { IfOk result (λ counts. counts.items ≡ serving.counts profiles.now) }
{
    let mut counts = Vec::new(alloc);
    for profile in profiles {
        counts.push(profile.most)?;
    }
    Ok(counts)
}

/// Whether users that can be drawn from the profiles meet the requirement. The error is want of memory, or
/// more users or profiles than 32 bits count.
pub fn met(alloc: Global, req: &Req, profiles: &[Profile]) -> Result<Met, NoMemory>
    // The choice serves the requirement, and is the least that does.
    ensures choice { IfOk result (λ met. IfChoice met (ServesLeast profiles.now req.now)) }
    // Its users meet the requirement in order.
    ensures users { IfOk result (λ met. IfChoice met (λ choice. (users : List (List ℕ)) × AreUsers profiles.now choice users
        × MeetsBy users req.now (λ i. i))) }
    ensures apart { IfOk result (λ met. IfApart met (AreUnserved profiles.now req.now)) }
    // No users that can be drawn meet it.
    ensures unmet { IfOk result (λ met. IfApart met (λ _. IsUnmet profiles.now req.now)) }
{
    let users = req.users();
    let counts = counts_of(alloc, profiles)?;
    match match_by(alloc, users.len(), &counts, &Service { users, profiles })? {
        Matching::Matched(choice) => Ok(Met::Choice(choice)),
        Matching::Deficient(items) => Ok(Met::Apart(items)),
    }
}
