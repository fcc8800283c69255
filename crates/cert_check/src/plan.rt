//! Certificates that a goal can be reached.

ghost use Rattle.std.specs.Prelude.{◌≡◌, ◌<◌, ◌^◌, ◌↔◌, length, map, IfOk, IsTrue};
ghost use Rattle.arbac_policy.specs.Goals.{AreUsers, GoalMet, IsDrawnChoice};
ghost use Rattle.arbac_policy.specs.Truth.{term_of};
ghost use Rattle.question_text.specs.Values as questions;
ghost use Rattle.question_text.specs.Rules.{KeepsRules};
ghost use Rattle.cert_text.specs.Certificates.{reachable};
ghost use Rattle.cert_check.specs.Asked.{HasProperty, FailsFirst};
ghost use Rattle.cert_check.specs.Judgements.{asked_by, IfAccepted, IfRefused};

use crate::NoMemory;
use crate::judgement::{Judgement, Why};
use arbac_policy::{Act, Profile};
use plan_replay::{Replayed, goal_met, replay};
use profile_set::undrawn;
use question_text::Question;
use role_order::RoleSet;
use std::alloc::{AllocError, Global};

/// The sets of the users of a choice that is drawn.
fn users_of(alloc: Global, profiles: &[Profile], choice: &[u32]) -> Result<Vec<RoleSet>, NoMemory>
    requires { IsDrawnChoice profiles.now choice.now }
    ensures users { IfOk result (λ users. AreUsers profiles.now choice.now users.items) }
    ensures long { IfOk result (λ users. length users.items ≡ length choice.now) }
{
    let mut users = Vec::with_capacity(alloc, choice.len())?;
    for at in 0..choice.len() {
        users.push(profiles[choice[at] as usize].set)?;
    }
    Ok(users)
}

/// Whether users with these sets meet the goal.
fn meets_goal(alloc: Global, question: &Question, sets: &[RoleSet]) -> Result<bool, NoMemory>
    requires question { KeepsRules (questions.plain_of question.now) }
    requires users { length sets.now < 2 ^ 32 }
    ensures { IfOk result (λ met. IsTrue met ↔ GoalMet question.now.policy.order.edges (map term_of question.now.goal.items) sets.now) }
{
    let met = goal_met(alloc, &question.policy, sets, &question.goal)?;
    Ok(met.is_some())
}

/// Judges the start, then the acts one by one, and then whether the goal is met. The error is want of memory, or more users or
/// acts than 32 bits count.
pub fn judge_plan(
    alloc: Global,
    question: &Question,
    start: &[u32],
    acts: &[Act],
) -> Result<Judgement, NoMemory>
    requires question { KeepsRules (questions.plain_of question.now) }
    ensures accepted { IfOk result (λ judgement. IfAccepted judgement (HasProperty (asked_by question.now) (reachable start.now acts.now))) }
    ensures refused { IfOk result (λ judgement. IfRefused judgement (FailsFirst (asked_by question.now) (reachable start.now acts.now))) }
{
    if start.len() > u32::MAX as usize || acts.len() > u32::MAX as usize {
        return Err(AllocError);
    }
    if let Some(user) = undrawn(&question.profiles, start) {
        return Ok(Judgement::Refused(Why::NotDrawn { user }));
    }
    let users = users_of(alloc, &question.profiles, start)?;
    match replay(alloc, &question.policy, &users, acts)? {
        Replayed::Stopped { place, part } => {
            Ok(Judgement::Refused(Why::StepRefused { place, part }))
        }
        Replayed::Ended(end) => {
            if meets_goal(alloc, question, &end)? {
                Ok(Judgement::Accepted)
            } else {
                Ok(Judgement::Refused(Why::GoalNotMet))
            }
        }
    }
}
