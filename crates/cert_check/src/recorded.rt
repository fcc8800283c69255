//! Certificates that a limit came first.

ghost use Rattle.std.specs.Prelude.{◌≡◌, ◌<◌, ◌^◌, length, map, IfOk, IfSome, IfNone};
ghost use Rattle.list_words.specs.Lists.{IsFirst};
ghost use Rattle.question_text.specs.Values as questions;
ghost use Rattle.question_text.specs.Rules.{KeepsRules};
ghost use Rattle.arbac_policy.specs.Truth.{term_of};
ghost use Rattle.arbac_laws.specs.Goals as laws;
ghost use Rattle.arbac_laws.specs.Needs.{Covers, IsCovered};
ghost use Rattle.arbac_laws.specs.Recorded.{IsEntry};
ghost use Rattle.arbac_laws.specs.Views.{needs_of};
ghost use Rattle.cert_text.specs.Certificates.{entry_of, undecided};
ghost use Rattle.cert_check.specs.Asked.{HasProperty, FailsFirst, needs_in};
ghost use Rattle.cert_check.specs.Judgements.{asked_by, IfAccepted, IfRefused};
ghost use Rattle.cert_check.specs.Rulebooks.{lists_of};
ghost use Rattle.cert_check.specs.Steps.{IsStepFault};

use crate::NoMemory;
use crate::derived::is_derived;
use crate::goals::goal_requirements;
use crate::index::{Index, marks_of};
use crate::judgement::{Judgement, Why};
use crate::rulebook::Rulebook;
use cert_needs::{NeedUser, as_wanted, serving};
use cert_text::Step;
use hall_match::small;
use question_text::Question;
use role_order::Order;
use std::alloc::Global;

/// The first member of the index that covers the requirement.
fn first_earlier(
    alloc: Global,
    order: &Order,
    index: &Index,
    users: &[NeedUser],
) -> Result<Option<u32>, NoMemory>
    requires { index.now.order ≡ order.now }
    ensures first { IfOk result (λ found. IfSome found (IsFirst (λ one. Covers one (needs_of users.now)) index.now.members)) }
    ensures none { IfOk result (λ found. IfNone found (¬ IsCovered index.now.members (needs_of users.now))) }
{
    let wanted = as_wanted(alloc, users)?;
    let marks = marks_of(alloc, order, users)?;
    if !index.is_covered(alloc, &wanted, &marks)? {
        return Ok(None);
    }
    index.first_covering(alloc, &wanted)
}

/// What is wrong with the step behind the earlier ones, which are the members of the index: it isn't derived, or an earlier one
/// covers it, or users who can be drawn meet it.
fn fault_of(
    alloc: Global,
    question: &Question,
    book: &Rulebook,
    goals: &[Vec<NeedUser>],
    index: &Index,
    earlier: &[Step],
    step: &Step,
) -> Result<Option<Why>, NoMemory>
    requires book { book.now ≡ question.now.policy }
    requires goals { lists_of (λ users. users.items) goals.now ≡ laws.goal_requirements question.now.policy.order (map term_of question.now.goal.items) }
    requires order { index.now.order ≡ question.now.policy.order }
    requires members { index.now.members ≡ needs_in (map entry_of earlier.now) }
    requires few { length earlier.now < 2 ^ 32 }
    ensures some { IfOk result (λ found. IfSome found (IsStepFault (asked_by question.now) (map entry_of earlier.now) (entry_of step.now))) }
    ensures none { IfOk result (λ found. IfNone found (IsEntry question.now.policy question.now.profiles.items (map term_of question.now.goal.items)
        (map entry_of earlier.now) (entry_of step.now))) }
{
    let place = earlier.len() as u32;
    if !is_derived(alloc, book, goals, earlier, step)? {
        return Ok(Some(Why::NotDerived { place }));
    }
    let users = step.need.users.as_slice();
    if let Some(earlier) = first_earlier(alloc, question.policy.order(), index, users)? {
        return Ok(Some(Why::Repeated { place, earlier }));
    }
    match serving(alloc, users, &question.profiles)? {
        Some(choice) => Ok(Some(Why::StartsMet {
            need: place,
            choice,
        })),
        None => Ok(None),
    }
}

/// Judges each step in order, the one after the recorded ones last.
fn judge_each(
    alloc: Global,
    question: &Question,
    book: &Rulebook,
    goals: &[Vec<NeedUser>],
    recorded: &[Step],
    next: &Step,
) -> Result<Judgement, NoMemory>
    requires book { book.now ≡ question.now.policy }
    requires goals { lists_of (λ users. users.items) goals.now ≡ laws.goal_requirements question.now.policy.order (map term_of question.now.goal.items) }
    requires few { length recorded.now < 2 ^ 32 }
    ensures accepted { IfOk result (λ judgement. IfAccepted judgement
        (HasProperty (asked_by question.now) (undecided (length recorded.now) (map entry_of recorded.now) (entry_of next.now)))) }
    ensures refused { IfOk result (λ judgement. IfRefused judgement
        (FailsFirst (asked_by question.now) (undecided (length recorded.now) (map entry_of recorded.now) (entry_of next.now)))) }
{
    let mut index = Index::new(alloc, question.policy.order());
    for at in 0..recorded.len() {
        let step = &recorded[at];
        if let Some(why) = fault_of(alloc, question, book, goals, &index, &recorded[..at], step)? {
            return Ok(Judgement::Refused(why));
        }
        index.add(alloc, &step.need.users)?;
    }
    match fault_of(alloc, question, book, goals, &index, recorded, next)? {
        Some(why) => Ok(Judgement::Refused(why)),
        None => Ok(Judgement::Accepted),
    }
}

/// Judges the number of steps, and then for each step where it comes from, whether an earlier one covers it, and whether users
/// who can be drawn meet it.
pub fn judge_steps(
    alloc: Global,
    question: &Question,
    limit: u32,
    recorded: &[Step],
    next: &Step,
) -> Result<Judgement, NoMemory>
    requires question { KeepsRules (questions.plain_of question.now) }
    ensures accepted { IfOk result (λ judgement. IfAccepted judgement
        (HasProperty (asked_by question.now) (undecided limit (map entry_of recorded.now) (entry_of next.now)))) }
    ensures refused { IfOk result (λ judgement. IfRefused judgement
        (FailsFirst (asked_by question.now) (undecided limit (map entry_of recorded.now) (entry_of next.now)))) }
{
    let count = small(recorded.len())?;
    if count != limit {
        return Ok(Judgement::Refused(Why::WrongCount { count }));
    }
    let book = Rulebook::new(alloc, &question.policy)?;
    let goals = goal_requirements(alloc, question.policy.order(), &question.goal)?;
    judge_each(alloc, question, &book, &goals, recorded, next)
}
