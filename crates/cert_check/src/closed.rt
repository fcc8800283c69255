//! Certificates that a goal can't be reached.

ghost use Rattle.std.specs.Prelude.{◌≡◌, ◌↔◌, map, IfOk, IfSome, IfNone, IsTrue};
ghost use Rattle.list_words.specs.Lists.{Each, IsFirst};
ghost use Rattle.arbac_policy.specs.Truth.{term_of};
ghost use Rattle.arbac_laws.specs.Goals.{goal_requirements};
ghost use Rattle.arbac_laws.specs.Views.{needs_of};
ghost use Rattle.question_text.specs.Values as questions;
ghost use Rattle.question_text.specs.Rules.{KeepsRules};
ghost use Rattle.cert_text.specs.Certificates.{users_of, unreachable};
ghost use Rattle.cert_check.specs.Asked.{HasProperty, FailsFirst, HasOpen, HasStart, IsUncovered};
ghost use Rattle.cert_check.specs.Firsts.{IsOpenAt, IsMetAt};
ghost use Rattle.cert_check.specs.Rulebooks.{lists_of};
ghost use Rattle.cert_check.specs.Judgements.{asked_by, IfAccepted, IfRefused};

use crate::NoMemory;
use crate::goals::goal_requirements;
use crate::index::{Index, marks_of};
use crate::judgement::{Judgement, Why};
use crate::open::first_open;
use crate::rulebook::Rulebook;
use arbac_policy::Profile;
use cert_needs::{NeedUser, as_wanted, is_possible, serving};
use cert_text::Need;
use question_text::Question;
use role_order::Order;
use std::alloc::{AllocError, Global};

/// The number of a place. The error is a place beyond 32 bits.
fn number_of(place: usize) -> Result<u32, NoMemory>
    ensures { IfOk result (λ number. number ≡ place) }
{
    if place > u32::MAX as usize {
        return Err(AllocError);
    }
    Ok(place as u32)
}

/// The index of the needs.
fn index_of<'a>(alloc: Global, order: &'a Order, needs: &'a [Need]) -> Result<Index<'a>, NoMemory>
    ensures order { IfOk result (λ index. index.order ≡ order.now) }
    ensures members { IfOk result (λ index. index.members ≡ map users_of needs.now) }
{
    let mut index = Index::new(alloc, order);
    for need in needs {
        index.add(alloc, &need.users)?;
    }
    Ok(index)
}

/// Whether the requirement is possible, and no member of the index covers it.
fn is_uncovered(
    alloc: Global,
    order: &Order,
    index: &Index,
    users: &[NeedUser],
) -> Result<bool, NoMemory>
    requires { index.now.order ≡ order.now }
    ensures { IfOk result (λ answer. IsTrue answer ↔ IsUncovered index.now.members (needs_of users.now)) }
{
    let raw = as_wanted(alloc, users)?;
    if !is_possible(&raw) {
        return Ok(false);
    }
    let marks = marks_of(alloc, order, users)?;
    let covered = index.is_covered(alloc, &raw, &marks)?;
    Ok(!covered)
}

/// The first goal requirement that is possible and that no member of the index covers.
fn first_uncovered(
    alloc: Global,
    order: &Order,
    index: &Index,
    goals: &[Vec<NeedUser>],
) -> Result<Option<u32>, NoMemory>
    requires { index.now.order ≡ order.now }
    ensures first { IfOk result (λ found. IfSome found (IsFirst (IsUncovered index.now.members) (lists_of (λ users. users.items) goals.now))) }
    ensures none { IfOk result (λ found. IfNone found
        (Each (λ needs. ¬ IsUncovered index.now.members needs) (lists_of (λ users. users.items) goals.now))) }
{
    for (place, users) in goals.iter().enumerate() {
        if is_uncovered(alloc, order, index, users)? {
            return Ok(Some(number_of(place)?));
        }
    }
    Ok(None)
}

/// The first need that has an open obligation, and its first such obligation.
fn first_with_open(
    alloc: Global,
    book: &Rulebook,
    index: &Index,
    needs: &[Need],
) -> Result<Option<(u32, u128)>, NoMemory>
    requires { index.now.order ≡ book.now.order }
    ensures first { IfOk result (λ found. IfSome found (λ first.
        IsOpenAt book.now index.now.members (map users_of needs.now) first.0 first.1)) }
    ensures none { IfOk result (λ found. IfNone found
        (Each (λ one. ¬ HasOpen book.now index.now.members one) (map users_of needs.now))) }
{
    for (place, need) in needs.iter().enumerate() {
        if let Some(obligation) = first_open(alloc, book, &need.users, index)? {
            return Ok(Some((number_of(place)?, obligation)));
        }
    }
    Ok(None)
}

/// The first need that users who can be drawn meet, and the least choice of their profiles.
fn first_met(
    alloc: Global,
    profiles: &[Profile],
    needs: &[Need],
) -> Result<Option<(u32, Vec<u32>)>, NoMemory>
    ensures first { IfOk result (λ found. IfSome found (λ first. IsMetAt profiles.now (map users_of needs.now) first.0 first.1.items)) }
    ensures none { IfOk result (λ found. IfNone found (Each (λ one. ¬ HasStart profiles.now one) (map users_of needs.now))) }
{
    for (place, need) in needs.iter().enumerate() {
        if let Some(choice) = serving(alloc, &need.users, profiles)? {
            return Ok(Some((number_of(place)?, choice)));
        }
    }
    Ok(None)
}

/// Judges the needs by the policy's rulebook, the goal requirements and the index of the needs.
fn judge_by(
    alloc: Global,
    question: &Question,
    needs: &[Need],
    book: &Rulebook,
    goals: &[Vec<NeedUser>],
    index: &Index,
) -> Result<Judgement, NoMemory>
    requires book { book.now ≡ question.now.policy }
    requires goals { lists_of (λ users. users.items) goals.now ≡ goal_requirements question.now.policy.order (map term_of question.now.goal.items) }
    requires order { index.now.order ≡ question.now.policy.order }
    requires members { index.now.members ≡ map users_of needs.now }
    ensures accepted { IfOk result (λ judgement. IfAccepted judgement (HasProperty (asked_by question.now) (unreachable (map users_of needs.now)))) }
    ensures refused { IfOk result (λ judgement. IfRefused judgement (FailsFirst (asked_by question.now) (unreachable (map users_of needs.now)))) }
{
    if let Some(goal) = first_uncovered(alloc, question.policy.order(), index, goals)? {
        return Ok(Judgement::Refused(Why::GoalUncovered { goal }));
    }
    if let Some((need, obligation)) = first_with_open(alloc, book, index, needs)? {
        return Ok(Judgement::Refused(Why::Open { need, obligation }));
    }
    match first_met(alloc, &question.profiles, needs)? {
        Some((need, choice)) => Ok(Judgement::Refused(Why::StartsMet { need, choice })),
        None => Ok(Judgement::Accepted),
    }
}

/// Judges whether the goals are covered, then each need's obligations, and then whether users who can be drawn meet a need. The
/// error is want of memory, or more needs than 32 bits count, or more obligations of one than 128 bits do.
pub fn judge_needs(
    alloc: Global,
    question: &Question,
    needs: &[Need],
) -> Result<Judgement, NoMemory>
    requires question { KeepsRules (questions.plain_of question.now) }
    ensures accepted { IfOk result (λ judgement. IfAccepted judgement (HasProperty (asked_by question.now) (unreachable (map users_of needs.now)))) }
    ensures refused { IfOk result (λ judgement. IfRefused judgement (FailsFirst (asked_by question.now) (unreachable (map users_of needs.now)))) }
{
    let order = question.policy.order();
    let book = Rulebook::new(alloc, &question.policy)?;
    let goals = goal_requirements(alloc, order, &question.goal)?;
    let index = index_of(alloc, order, needs)?;
    let judgement = judge_by(alloc, question, needs, &book, &goals, &index)?;
    Ok(judgement)
}
