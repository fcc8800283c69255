//! What was read of a condition, word by word.

ghost use Rattle.std.specs.Prelude.{◌≡◌, ◌∷◌, IfOk, option_map, Some};
ghost use Rattle.arbac_policy.specs.Truth.{term_of};
ghost use Rattle.cond_text.specs.Views.{frame_of, stack_of, state_of};
ghost use Rattle.cond_text.specs.Machine as machine;
ghost use Rattle.cond_text.specs.Machine.{and_with, or_with, operand_read, closing};

use crate::NoMemory;
use crate::word::Word;
use arbac_policy::Cond;
use sqlite_items::Boxed;
use std::alloc::{AllocError, Global};

/// What was read since a parenthesis opened.
#[derive(Drop)]
pub struct Frame {
    /// What stands before the last `or`.
    pub ors: Option<Cond>,
    /// What stands before the last `and`, behind that `or`.
    pub ands: Option<Cond>,
}

/// What was read, and what is wanted next. The frames of the open parentheses stand outermost first.
#[derive(Drop)]
pub enum State {
    WantsOperand {
        outer: Vec<Frame>,
        frame: Frame,
    },
    /// A `not` was read.
    WantsName {
        outer: Vec<Frame>,
        frame: Frame,
    },
    /// An `and`, an `or`, a `)` or the end may follow.
    HasConjunction {
        outer: Vec<Frame>,
        ors: Option<Cond>,
        conjunction: Cond,
    },
}

/// The conjunction with what stands before its `and`, if there is one.
fn and_of(alloc: Global, left: Option<Cond>, right: Cond) -> Result<Cond, AllocError>
    ensures { IfOk result (λ cond. term_of cond ≡ and_with (option_map term_of left) (term_of right)) }
{
    match left {
        None => Ok(right),
        Some(left) => Ok(Cond::And(Boxed::new(alloc, left)?, Boxed::new(alloc, right)?)),
    }
}

/// The condition with what stands before its `or`, if there is one.
pub fn or_of(alloc: Global, left: Option<Cond>, right: Cond) -> Result<Cond, NoMemory>
    ensures { IfOk result (λ cond. term_of cond ≡ or_with (option_map term_of left) (term_of right)) }
{
    match left {
        None => Ok(right),
        Some(left) => Ok(Cond::Or(Boxed::new(alloc, left)?, Boxed::new(alloc, right)?)),
    }
}

/// The state behind an operand.
fn with_operand(
    alloc: Global,
    outer: Vec<Frame>,
    frame: Frame,
    operand: Cond,
) -> Result<State, AllocError>
    ensures { IfOk result (λ s. state_of s ≡ operand_read (stack_of outer.items) (frame_of frame)
        (term_of operand)) }
{
    let Frame { ors, ands } = frame;
    Ok(State::HasConjunction {
        outer,
        ors,
        conjunction: and_of(alloc, ands, operand)?,
    })
}

/// The frames with one more, whose parenthesis just opened.
fn with_frame(mut outer: Vec<Frame>, frame: Frame) -> Result<Vec<Frame>, AllocError>
    ensures { IfOk result (λ v. stack_of v.items ≡ frame_of frame ∷ stack_of outer.items) }
{
    outer.push(frame)?;
    Ok(outer)
}

fn step_operand(
    alloc: Global,
    outer: Vec<Frame>,
    frame: Frame,
    word: Word,
) -> Result<Option<State>, AllocError>
    ensures { IfOk result (λ o. option_map state_of o ≡ machine.step_operand (stack_of outer.items)
        (frame_of frame) word) }
{
    match word {
        Word::Any => Ok(Some(with_operand(alloc, outer, frame, Cond::Any)?)),
        Word::Name(role) => Ok(Some(with_operand(alloc, outer, frame, Cond::Has(role))?)),
        Word::Not => Ok(Some(State::WantsName { outer, frame })),
        Word::Open => Ok(Some(State::WantsOperand {
            outer: with_frame(outer, frame)?,
            frame: Frame {
                ors: None,
                ands: None,
            },
        })),
        Word::And => Ok(None),
        Word::Or => Ok(None),
        Word::Close => Ok(None),
        Word::Stray => Ok(None),
    }
}

fn step_name(
    alloc: Global,
    outer: Vec<Frame>,
    frame: Frame,
    word: Word,
) -> Result<Option<State>, AllocError>
    ensures { IfOk result (λ o. option_map state_of o ≡ machine.step_name (stack_of outer.items)
        (frame_of frame) word) }
{
    match word {
        Word::Name(role) => Ok(Some(with_operand(alloc, outer, frame, Cond::Lacks(role))?)),
        Word::Any => Ok(None),
        Word::Not => Ok(None),
        Word::Open => Ok(None),
        Word::And => Ok(None),
        Word::Or => Ok(None),
        Word::Close => Ok(None),
        Word::Stray => Ok(None),
    }
}

/// A parenthesis closes round the condition.
fn close(alloc: Global, mut outer: Vec<Frame>, cond: Cond) -> Result<Option<State>, AllocError>
    ensures { IfOk result (λ o. option_map state_of o ≡ closing (stack_of outer.items) (term_of cond)) }
{
    match outer.pop() {
        None => Ok(None),
        Some(frame) => Ok(Some(with_operand(alloc, outer, frame, cond)?)),
    }
}

fn step_conjunction(
    alloc: Global,
    outer: Vec<Frame>,
    ors: Option<Cond>,
    conjunction: Cond,
    word: Word,
) -> Result<Option<State>, AllocError>
    ensures { IfOk result (λ o. option_map state_of o ≡ machine.step_conjunction (stack_of outer.items)
        (option_map term_of ors) (term_of conjunction) word) }
{
    match word {
        Word::And => Ok(Some(State::WantsOperand {
            outer,
            frame: Frame {
                ors,
                ands: Some(conjunction),
            },
        })),
        Word::Or => Ok(Some(State::WantsOperand {
            outer,
            frame: Frame {
                ors: Some(or_of(alloc, ors, conjunction)?),
                ands: None,
            },
        })),
        Word::Close => close(alloc, outer, or_of(alloc, ors, conjunction)?),
        Word::Any => Ok(None),
        Word::Name(_) => Ok(None),
        Word::Not => Ok(None),
        Word::Open => Ok(None),
        Word::Stray => Ok(None),
    }
}

/// The state behind the word, and none where the word can't stand here.
pub fn step(alloc: Global, state: State, word: Word) -> Result<Option<State>, NoMemory>
    ensures { IfOk result (λ o. option_map state_of o ≡ machine.step (state_of state) word) }
{
    match state {
        State::WantsOperand { outer, frame } => step_operand(alloc, outer, frame, word),
        State::WantsName { outer, frame } => step_name(alloc, outer, frame, word),
        State::HasConjunction {
            outer,
            ors,
            conjunction,
        } => step_conjunction(alloc, outer, ors, conjunction, word),
    }
}
