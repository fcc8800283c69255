//! Reading a condition.

ghost use Rattle.std.specs.Prelude.{◌≡◌, ◌<◌, ◌≤◌, ◌^◌, length, IfOk, IfErr, option_map};
ghost use Rattle.arbac_policy.specs.Truth.{Term, term_of, IsKnown};
ghost use Rattle.cond_text.specs.Words as words;
ghost use Rattle.cond_text.specs.Machine.{start, finish};
ghost use Rattle.cond_text.specs.Faults as faults;
ghost use Rattle.cond_text.specs.Judge as judged;
ghost use Rattle.cond_text.specs.Judge.{limit, ending};
ghost use Rattle.cond_text.specs.Views.{state_of, uncons, Gives};
ghost use Rattle.cond_text.specs.Grammar.{term_count};
ghost use Rattle.cond_text.specs.Reading.{StandsFor, IsFaultless, IsWithin, Reads, IsRefused, IsFirstOf, Refuses};

use crate::cond_error::CondError;
use crate::reader::{Frame, State, or_of, step};
use crate::word::{Placed, Word};
use crate::words::placed_words;
use crate::{MOST_OPEN, MOST_TERMS};
use arbac_policy::Cond;
use role_order::Order;
use std::alloc::Global;

fn is_name(word: Word) -> bool
    ensures { result ≡ judged.is_name word }
{
    match word {
        Word::Name(_) => true,
        Word::Any => false,
        Word::Not => false,
        Word::And => false,
        Word::Or => false,
        Word::Open => false,
        Word::Close => false,
        Word::Stray => false,
    }
}

fn begins_with_name(list: &[Placed]) -> bool
    ensures { result ≡ judged.begins_with_name list.now }
{
    match list {
        [] => false,
        [first, ..] => is_name(first.word),
    }
}

/// One for the word that ends a term.
fn weight(word: Word) -> usize
    ensures { result ≡ faults.weight word }
{
    match word {
        Word::Any => 1,
        Word::Name(_) => 1,
        Word::Not => 0,
        Word::And => 0,
        Word::Or => 0,
        Word::Open => 0,
        Word::Close => 0,
        Word::Stray => 0,
    }
}

/// How many parentheses are open.
fn open_in(state: &State) -> usize
    ensures { result ≡ judged.open_in (state_of state.now) }
{
    match state {
        State::WantsOperand { outer, .. } => outer.len(),
        State::WantsName { outer, .. } => outer.len(),
        State::HasConjunction { outer, .. } => outer.len(),
    }
}

/// The limit that a word passes which may stand there, or its unknown name.
fn limit_at(
    count: u16,
    terms: usize,
    nested: usize,
    name_follows: bool,
    found: Placed,
) -> Option<CondError>
    ensures { result ≡ limit count terms nested found.place name_follows found.word }
{
    let place = found.place;
    match found.word {
        Word::Any => if MOST_TERMS <= terms {
            Some(CondError::TooDeep { place })
        } else {
            None
        },
        Word::Name(role) => {
            if MOST_TERMS <= terms {
                Some(CondError::TooDeep { place })
            } else if count <= role {
                Some(CondError::UnknownRole { place })
            } else {
                None
            }
        }
        Word::Not => if MOST_TERMS <= terms && name_follows {
            Some(CondError::TooDeep { place })
        } else {
            None
        },
        Word::Open => if MOST_OPEN <= nested {
            Some(CondError::TooDeep { place })
        } else {
            None
        },
        Word::And => None,
        Word::Or => None,
        Word::Close => None,
        Word::Stray => None,
    }
}

/// The state behind the word, or the word's fault.
fn advance(
    alloc: Global,
    count: u16,
    state: State,
    terms: usize,
    name_follows: bool,
    found: Placed,
) -> Result<State, CondError>
    ensures { Gives state_of result (judged.advance count (state_of state) terms found.place name_follows
        found.word) }
{
    let nested = open_in(&state);
    match step(alloc, state, found.word)? {
        None => Err(CondError::Unexpected { place: found.place }),
        Some(next) => match limit_at(count, terms, nested, name_follows, found) {
            None => Ok(next),
            Some(fault) => Err(fault),
        },
    }
}

/// The condition at the end of a text of so many bytes.
fn end(alloc: Global, size: u32, state: State) -> Result<Cond, CondError>
    ensures { Gives term_of result (ending size (finish (state_of state))) }
{
    match state {
        State::WantsOperand { .. } => Err(CondError::Unexpected { place: size }),
        State::WantsName { .. } => Err(CondError::Unexpected { place: size }),
        State::HasConjunction {
            outer,
            ors,
            conjunction,
        } => {
            if outer.is_empty() {
                Ok(or_of(alloc, ors, conjunction)?)
            } else {
                Err(CondError::Unexpected { place: size })
            }
        }
    }
}

fn next_of(list: &[Placed]) -> Option<(Placed, &[Placed])>
    ensures { option_map (λ x. (x.0, x.1.now)) result ≡ uncons list.now }
{
    match list {
        [] => None,
        [first, rest @ ..] => Some((*first, rest)),
    }
}

/// The condition of the words, where so many roles are, or the first fault.
fn judge(alloc: Global, count: u16, size: u32, list: &[Placed]) -> Result<Cond, CondError>
    ensures { Gives term_of result (judged.judge count size start 0 list.now) }
{
    let mut state = State::WantsOperand {
        outer: Vec::new(alloc),
        frame: Frame {
            ors: None,
            ands: None,
        },
    };
    let mut terms = 0;
    let mut rest = list;
    while let Some((first, after)) = next_of(rest) {
        state = advance(alloc, count, state, terms, begins_with_name(after), first)?;
        terms += weight(first.word);
        rest = after;
    }
    end(alloc, size, state)
}

/// The condition of the text, exactly.
fn read(alloc: Global, order: &Order, text: &str) -> Result<Cond, CondError>
    requires { length text.now < 2 ^ 32 }
    ensures { Gives term_of result (judged.judge (length order.now.names) (length text.now) start 0
        (words.placed_words order.now.names text.now)) }
{
    let list = placed_words(alloc, order, text.as_bytes())?;
    judge(alloc, order.count(), text.len() as u32, list.as_slice())
}

/// The condition that the text stands for under the order's names, or its first fault.
///
/// Its words are `any`, `not`, `and`, `or`, names and parentheses, with spaces and tabs between them
/// where they like. `and` binds tighter than `or`, both group to the left, and `not` stands before a
/// name alone (this project). At most `MOST_TERMS` terms and `MOST_OPEN` open parentheses are read.
pub fn parse_cond(alloc: Global, order: &Order, text: &str) -> Result<Cond, CondError>
    requires { length text.now < 2 ^ 32 }
    // What is read is what the text stands for, and no word has a fault.
    ensures found { IfOk result (λ cond. StandsFor order.now.names text.now (term_of cond)
        × IsFaultless order.now.names text.now) }
    // It has few terms, and each of its roles is one of the order's.
    ensures few { IfOk result (λ cond. term_count (term_of cond) ≤ MOST_TERMS) }
    ensures known { IfOk result (λ cond. IsKnown (length order.now.names) (term_of cond)) }
    // A text that stands for a condition, without a fault, is read as that condition.
    ensures only { (term : Term) → StandsFor order.now.names text.now term
        → IsFaultless order.now.names text.now → Reads result term }
    // So is one that stands for a condition and keeps the limits.
    ensures within { (term : Term) → StandsFor order.now.names text.now term
        → IsWithin order.now.names text.now → Reads result term }
    // An error is the first fault.
    ensures first { IfErr result (IsRefused order.now.names text.now) }
    // The first fault of a text, where it has one, is the error.
    ensures told { (fault : CondError) → IsFirstOf order.now.names text.now fault → Refuses result fault }
    // A text stands for one condition at most.
    ensures one { (left right : Term) → StandsFor order.now.names text.now left
        → StandsFor order.now.names text.now right → left ≡ right }
    // The limits by number.
    ensures limits { (MOST_TERMS ≡ 64) × (MOST_OPEN ≡ 64) }
{
    read(alloc, order, text)
}
