//! The search.

ghost use Rattle.std.specs.Prelude.{ℕ, ◌≡◌, ◌≤◌, [], length, IfOk, OnOk};
ghost use Rattle.list_words.specs.Lists.{Each};
ghost use Rattle.arbac_policy.specs.Truth.{term_of, IsKnown};
ghost use Rattle.cond_text.specs.Grammar.{term_count};
ghost use Rattle.cond_text.specs.declared.TheConstants.{MOST_TERMS};
ghost use Rattle.arbac_laws.specs.Recorded.{IsRecordedList};
ghost use Rattle.search_laws.specs.Candidates.{goal_candidates, next_candidates};
ghost use Rattle.search_laws.specs.Rounds.{Round, ComesTo, IsOutcome};
ghost use Rattle.search_rounds.specs.Views.{entries_of, HaveOwnMarks};
ghost use Rattle.back_search.specs.Answers.{search_for, IsAnswer, AreBarriers, Shows};
ghost use Rattle.back_search.specs.Stops.{search_of, walk_of, outcome_of, IsServed, IfGoesOn, IsBetween};

use crate::NoMemory;
use crate::beginning::known;
use crate::copies::{add_needs, copies, entries, entry};
use crate::outcome::{Gate, Outcome};
use crate::plan::plan;
use crate::rounds::pass_all;
use crate::settle::settle;
use crate::task::Task;
use crate::walk::Stop;
use arbac_policy::{Cond, Profile};
use req_core::Req;
use req_pre::Prepared;
use search_rounds::{BATCH, Candidate, Gathering, gather_batch, gather_goals};
use std::alloc::{AllocError, Global};

/// The round of the goal requirements.
fn first_round(
    alloc: Global,
    task: &Task,
    gathering: &mut Gathering,
    recorded: &mut Vec<Candidate>,
) -> Result<Option<Stop>, NoMemory>
    requires terms { Each (λ cond. term_count (term_of cond) ≤ MOST_TERMS) task.now.goal.now }
    requires names { Each (λ cond. IsKnown (length task.now.prepared.now.order.names) (term_of cond)) task.now.goal.now }
    requires between { IsBetween (search_of task.now) gathering.old [] }
    requires none { recorded.old.items ≡ [] }
    ensures round { IfOk result (λ stop. Round (search_of task.now) []
        (goal_candidates (search_of task.now).rules (search_of task.now).goal) (walk_of stop (entries_of recorded.new.items))) }
    ensures between { IfOk result (λ stop. IfGoesOn stop (IsBetween (search_of task.now) gathering.new (entries_of recorded.new.items))) }
    ensures served { IfOk result (IsServed task.now.profiles.now) }
    ensures marks { OnOk result (HaveOwnMarks task.now.prepared.now.order recorded.new.items) }
{
    gather_goals(alloc, task.prepared, gathering, task.goal)?;
    let stop = settle(alloc, gathering, recorded, task.profiles, task.limit)?;
    Ok(stop)
}

/// The round of the pre-images of the next recorded requirements behind those that were taken.
fn next_round(
    alloc: Global,
    task: &Task,
    gathering: &mut Gathering,
    recorded: &mut Vec<Candidate>,
    taken: usize,
) -> Result<Option<Stop>, NoMemory>
    requires between { IsBetween (search_of task.now) gathering.old (entries_of recorded.old.items) }
    requires list { IsRecordedList (search_of task.now).rules (search_of task.now).profiles (search_of task.now).goal (entries_of recorded.old.items) }
    requires marks { HaveOwnMarks task.now.prepared.now.order recorded.old.items }
    ensures round { IfOk result (λ stop. Round (search_of task.now) (entries_of recorded.old.items)
        (next_candidates (search_of task.now).rules (entries_of recorded.old.items) taken) (walk_of stop (entries_of recorded.new.items))) }
    ensures between { IfOk result (λ stop. IfGoesOn stop (IsBetween (search_of task.now) gathering.new (entries_of recorded.new.items))) }
    ensures served { IfOk result (IsServed task.now.profiles.now) }
    ensures marks { OnOk result (HaveOwnMarks task.now.prepared.now.order recorded.new.items) }
{
    task.prepared.policy().order().is_order();
    gather_batch(alloc, task.prepared, gathering, recorded, taken)?;
    let stop = settle(alloc, gathering, recorded, task.profiles, task.limit)?;
    Ok(stop)
}

/// The rounds after the first, until one ends the search or nothing is left to take.
fn later_rounds<G: Gate>(
    alloc: Global,
    task: &Task,
    gathering: &mut Gathering,
    recorded: &mut Vec<Candidate>,
    workers: u32,
    gate: &G,
) -> Result<Option<Stop>, NoMemory>
    requires between { IsBetween (search_of task.now) gathering.old (entries_of recorded.old.items) }
    requires list { IsRecordedList (search_of task.now).rules (search_of task.now).profiles (search_of task.now).goal (entries_of recorded.old.items) }
    requires marks { HaveOwnMarks task.now.prepared.now.order recorded.old.items }
    requires few { length recorded.old.items ≤ task.now.limit }
    ensures comes { IfOk result (λ stop. (rounds : ℕ) × ComesTo (search_of task.now) rounds (entries_of recorded.old.items) 0
        (outcome_of stop (entries_of recorded.new.items))) }
    ensures served { IfOk result (IsServed task.now.profiles.now) }
{
    let mut taken = 0;
    while taken < recorded.len() {
        let count = recorded.len();
        pass_all(gate, workers);
        if let Some(stop) = next_round(alloc, task, gathering, recorded, taken)? {
            return Ok(Some(stop));
        }
        taken = (taken + BATCH).min(count);
    }
    Ok(None)
}

/// All rounds.
fn all_rounds<G: Gate>(
    alloc: Global,
    task: &Task,
    gathering: &mut Gathering,
    recorded: &mut Vec<Candidate>,
    workers: u32,
    gate: &G,
) -> Result<Option<Stop>, NoMemory>
    requires terms { Each (λ cond. term_count (term_of cond) ≤ MOST_TERMS) task.now.goal.now }
    requires names { Each (λ cond. IsKnown (length task.now.prepared.now.order.names) (term_of cond)) task.now.goal.now }
    requires between { IsBetween (search_of task.now) gathering.old [] }
    requires none { recorded.old.items ≡ [] }
    ensures outcome { IfOk result (λ stop. IsOutcome (search_of task.now) (outcome_of stop (entries_of recorded.new.items))) }
    ensures served { IfOk result (IsServed task.now.profiles.now) }
{
    pass_all(gate, workers);
    if let Some(stop) = first_round(alloc, task, gathering, recorded)? {
        return Ok(Some(stop));
    }
    let stop = later_rounds(alloc, task, gathering, recorded, workers, gate)?;
    Ok(stop)
}

/// What the search answers, where it stopped so.
fn answer(
    alloc: Global,
    task: &Task,
    recorded: Vec<Candidate>,
    stop: Option<Stop>,
) -> Result<Outcome, NoMemory>
    requires outcome { IsOutcome (search_of task.now) (outcome_of stop (entries_of recorded.items)) }
    requires served { IsServed task.now.profiles.now stop }
    ensures { IfOk result (IsAnswer (search_of task.now)) }
{
    let Ok(count) = u32::try_from(recorded.len()) else {
        return Err(AllocError);
    };
    match stop {
        None => {
            let order = task.prepared.policy().order();
            let mut needs = copies(alloc, order, task.barriers)?;
            add_needs(alloc, &mut needs, recorded)?;
            Ok(Outcome::Closed {
                needs,
                recorded: count,
            })
        }
        Some(Stop::Found { choice, entry }) => {
            let acts = plan(alloc, task.prepared, &recorded, &entry)?;
            Ok(Outcome::Found {
                choice,
                acts,
                recorded: count,
            })
        }
        Some(Stop::Full { next }) => {
            let next = entry(alloc, &next)?;
            let recorded = entries(alloc, recorded)?;
            Ok(Outcome::Limit { recorded, next })
        }
    }
}

/// The outcome of the task.
fn outcome_for<G: Gate>(
    alloc: Global,
    task: &Task,
    workers: u32,
    gate: &G,
) -> Result<Outcome, NoMemory>
    requires terms { Each (λ cond. term_count (term_of cond) ≤ MOST_TERMS) task.now.goal.now }
    requires names { Each (λ cond. IsKnown (length task.now.prepared.now.order.names) (term_of cond)) task.now.goal.now }
    ensures { IfOk result (IsAnswer (search_of task.now)) }
{
    let mut gathering = known(alloc, task.prepared.policy().order(), task.barriers)?;
    let mut recorded = Vec::new(alloc);
    let stop = all_rounds(alloc, task, &mut gathering, &mut recorded, workers, gate)?;
    // What was gathered is given up before the answer takes room.
    drop(gathering);
    answer(alloc, task, recorded, stop)
}

/// Searches backwards from the goal, whose combinations aren't too many, with at most so many recorded requirements. All work
/// is done by the caller, for whichever number of workers, each of whom passes the gate in each round.
pub fn search<G: Gate>(
    alloc: Global,
    prepared: &Prepared,
    profiles: &[Profile],
    goal: &[Cond],
    barriers: &[Req],
    limit: u32,
    workers: u32,
    gate: &G,
) -> Result<Outcome, NoMemory>
    requires terms { Each (λ cond. term_count (term_of cond) ≤ MOST_TERMS) goal.now }
    requires names { Each (λ cond. IsKnown (length prepared.now.order.names) (term_of cond)) goal.now }
    // The outcome of the rounds, the same for each number of workers.
    ensures outcome { IfOk result (IsAnswer (search_for prepared.now profiles.now goal.now barriers.now limit)) }
    // With barriers, each answer shows what it says.
    ensures shows { AreBarriers (search_for prepared.now profiles.now goal.now barriers.now limit)
        → IfOk result (Shows (search_for prepared.now profiles.now goal.now barriers.now limit)) }
{
    prepared.policy().order().is_order();
    let task = Task {
        prepared,
        profiles,
        goal,
        barriers,
        limit,
    };
    let outcome = outcome_for(alloc, &task, workers, gate)?;
    Ok(outcome)
}
