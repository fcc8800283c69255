//! Questions that are ready to be searched.

ghost use Rattle.std.specs.Prelude.{◌≡◌, IfOk};
ghost use Rattle.question_text.specs.Values.{plain_of};
ghost use Rattle.question_text.specs.Rules.{KeepsRules};
ghost use Rattle.cert_check.specs.Judgements.{asked_by};
ghost use Rattle.question_answer.specs.Posing.{asked_in, IsSearchable};
ghost use Rattle.question_answer.specs.Outcomes.{IsOutcomeOf};

use crate::NoMemory;
use arbac_policy::{Cond, Profile};
use back_search::{Gate, Outcome, search};
use question_text::Question;
use req_pre::{PrepareError, Prepared};
use rule_prune::barriers;
use std::alloc::{AllocError, Global};

/// A policy with the conjuncts of its rules, the profiles that users start with, and the conditions of the goal.
#[derive(Drop)]
pub struct Posed {
    pub prepared: Prepared,
    pub profiles: Vec<Profile>,
    pub goal: Vec<Cond>,
}

/// Makes the question ready to be searched. The error is want of memory.
pub fn pose(alloc: Global, question: Question) -> Result<Posed, NoMemory>
    requires { KeepsRules (plain_of question) }
    ensures asked { IfOk result (λ posed. asked_in posed ≡ asked_by question) }
    ensures searchable { IfOk result IsSearchable }
{
    let Question {
        policy,
        separate: _,
        admin_roles: _,
        profiles,
        goal,
    } = question;
    match Prepared::new(alloc, policy) {
        Ok(prepared) => Ok(Posed {
            prepared,
            profiles,
            goal,
        }),
        Err(PrepareError::Memory) => Err(AllocError),
        Err(PrepareError::TooWide { rule: _, count: _ }) => unreachable!(),
    }
}

/// Searches the question with the barriers of its ceiling, with at most so many recorded requirements, by so many workers, each of
/// whom passes the gate in each round. The error is want of memory.
pub fn search_posed<G: Gate>(
    alloc: Global,
    posed: &Posed,
    limit: u32,
    workers: u32,
    gate: &G,
) -> Result<Outcome, NoMemory>
    requires { IsSearchable posed.now }
    ensures { IfOk result (IsOutcomeOf (asked_in posed.now) limit) }
{
    let known = barriers(alloc, &posed.prepared, &posed.profiles)?;
    let outcome = search(
        alloc,
        &posed.prepared,
        &posed.profiles,
        &posed.goal,
        &known,
        limit,
        workers,
        gate,
    )?;
    Ok(outcome)
}
