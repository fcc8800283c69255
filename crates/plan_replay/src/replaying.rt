//! Replay of a list of acts.

ghost use Rattle.std.specs.Prelude.{ℕ, ◌≡◌, ◌<◌, ◌^◌, List, length, IfOk};
ghost use Rattle.arbac_policy.specs.Steps.{Run};
ghost use Rattle.plan_replay.specs.Replays.{StopsAt, IfEnded, IfStopped};

use crate::NoMemory;
use arbac_policy::{Act, Part, Policy};
use role_order::RoleSet;
use std::alloc::Global;
use ura_core::{Verdict, decide};

/// Where a list of acts ends.
#[derive(Drop)]
pub enum Replayed {
    /// Each act was a step; the explicit sets at the end.
    Ended(Vec<RoleSet>),
    /// The place of the first act that is refused, and its first part that fails.
    Stopped { place: u32, part: Part },
}

/// Carries the acts out one after another, from the sets that the users start with.
pub fn replay(
    alloc: Global,
    policy: &Policy,
    start: &[RoleSet],
    acts: &[Act],
) -> Result<Replayed, NoMemory>
    requires { length acts.now < 2 ^ 32 }
    ensures ended { IfOk result (λ replayed. IfEnded replayed (Run policy.now start.now acts.now)) }
    ensures users { IfOk result (λ replayed. IfEnded replayed (λ sets. length sets ≡ length start.now)) }
    ensures stopped { IfOk result (λ replayed. IfStopped replayed (StopsAt policy.now start.now acts.now)) }
    ensures no_run { IfOk result (λ replayed. IfStopped replayed (λ place part. (end : List (List ℕ)) → ¬ Run policy.now start.now acts.now end)) }
{
    let mut users = Vec::from_slice(alloc, start)?;
    for (place, act) in acts.iter().enumerate() {
        match decide(policy, &users, act) {
            Verdict::Granted(set) => users[act.target as usize] = set,
            Verdict::Denied(part) => {
                return Ok(Replayed::Stopped {
                    place: place as u32,
                    part,
                });
            }
        }
    }
    Ok(Replayed::Ended(users))
}
