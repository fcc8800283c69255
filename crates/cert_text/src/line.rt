//! One line of a certificate text.

ghost use Rattle.std.specs.Prelude.{ℕ, ◌≡◌, List, IfOk, IfSome, IfNone};
ghost use Rattle.cert_text.specs.LineForms.{LineForm, IsWellFormed, spell};
ghost use Rattle.cert_text.specs.Spelling.{limit_in, word_in, undecided_in, start_in, act_line_in, step_in, next_in, user_line_in};
ghost use Rattle.cert_text.specs.Spelling.{keyword_in, form_of};
ghost use Rattle.cert_text.specs.Told.{Agrees};
ghost use Rattle.cert_text.specs.Views.{TellsAct, Tells, IsLine};
ghost use Rattle.text_lines.specs.Acts.{act_view};

use crate::MOST_LIMIT;
use crate::cert::{NeedUser, StepFrom};
use crate::lists::read_user;
use crate::origins::{named_origin, origin_of};
use arbac_policy::Act;
use cond_text::cut;
use role_order::{Order, RoleSet};
use std::alloc::{AllocError, Global};
use text_lines::{ActLine, act_of, is, number_of};

/// A line as it was read; nothing stands for an act, an origin or a user that names no role of the order.
#[derive(Drop)]
pub enum Line {
    Reachable,
    Unreachable,
    Undecided(u32),
    Start(u32),
    Act(Option<Act>),
    Need,
    Step(Option<StepFrom>),
    Next(Option<StepFrom>),
    User(Option<NeedUser>),
}

/// The first word of a line, where others follow.
#[derive(Clone, Copy)]
pub enum Keyword {
    Undecided,
    Start,
    Act,
    Need,
    Next,
    User,
}

#[tactic(auto, unfolding(crate::specs::Spelling::keyword_in))]
fn keyword_of(word: &[u8]) -> Option<Keyword>
    ensures { result ≡ keyword_in word.now }
{
    if is(word, "user") {
        Some(Keyword::User)
    } else if is(word, "need") {
        Some(Keyword::Need)
    } else if is(word, "act") {
        Some(Keyword::Act)
    } else if is(word, "start") {
        Some(Keyword::Start)
    } else if is(word, "next") {
        Some(Keyword::Next)
    } else if is(word, "undecided") {
        Some(Keyword::Undecided)
    } else {
        None
    }
}

/// The line that is this word.
#[tactic(auto, unfolding(crate::specs::Spelling::word_in))]
fn word_line(alloc: Global, word: &[u8]) -> Option<Line>
    ensures { (names : List (List ℕ)) → Agrees (Tells names) result (word_in word.now) }
{
    if is(word, "need") {
        Some(Line::Need)
    } else if is(word, "user") {
        Some(Line::User(Some(NeedUser {
            hits: Vec::new(alloc),
            lacks: RoleSet::empty(),
        })))
    } else if is(word, "reachable") {
        Some(Line::Reachable)
    } else if is(word, "unreachable") {
        Some(Line::Unreachable)
    } else {
        None
    }
}

/// The limit that the bytes write, if one may be told.
#[tactic(auto, unfolding(crate::specs::Spelling::limit_in))]
fn limit_of(text: &[u8]) -> Option<u32>
    ensures { result ≡ limit_in text.now }
{
    let limit = number_of(text)?;
    if 1 <= limit && limit <= MOST_LIMIT {
        Some(limit)
    } else {
        None
    }
}

#[tactic(auto, unfolding(crate::specs::Spelling::undecided_in))]
fn undecided_line(rest: &[u8]) -> Option<Line>
    ensures { (names : List (List ℕ)) → Agrees (Tells names) result (undecided_in rest.now) }
{
    let limit = limit_of(rest)?;
    Some(Line::Undecided(limit))
}

#[tactic(auto, unfolding(crate::specs::Spelling::start_in))]
fn start_line(rest: &[u8]) -> Option<Line>
    ensures { (names : List (List ℕ)) → Agrees (Tells names) result (start_in rest.now) }
{
    let profile = number_of(rest)?;
    Some(Line::Start(profile))
}

/// The act with its role's number; nothing where no role has the name.
fn named_act(order: &Order, written: &ActLine) -> Option<Act>
    ensures { TellsAct order.now.names result (act_view written.now) }
{
    let role = order.role_named(written.role)?;
    Some(Act {
        kind: written.kind,
        admin: written.admin,
        target: written.target,
        role,
    })
}

#[tactic(auto, unfolding(crate::specs::Spelling::act_line_in))]
fn act_line(order: &Order, rest: &[u8]) -> Option<Line>
    ensures { Agrees (Tells order.now.names) result (act_line_in rest.now) }
{
    let written = act_of(rest)?;
    Some(Line::Act(named_act(order, &written)))
}

#[tactic(auto, unfolding(crate::specs::Spelling::step_in))]
fn step_line(order: &Order, rest: &[u8]) -> Option<Line>
    ensures { Agrees (Tells order.now.names) result (step_in rest.now) }
{
    let written = origin_of(rest)?;
    Some(Line::Step(named_origin(order, &written)))
}

#[tactic(auto, unfolding(crate::specs::Spelling::next_in))]
fn next_line(order: &Order, rest: &[u8]) -> Option<Line>
    ensures { Agrees (Tells order.now.names) result (next_in rest.now) }
{
    let written = origin_of(rest)?;
    Some(Line::Next(named_origin(order, &written)))
}

#[tactic(auto, unfolding(crate::specs::Spelling::user_line_in))]
fn user_line(alloc: Global, order: &Order, rest: &[u8]) -> Result<Option<Line>, AllocError>
    ensures { IfOk result (λ o. Agrees (Tells order.now.names) o (user_line_in rest.now)) }
{
    match read_user(alloc, order, rest)? {
        Some(user) => Ok(Some(Line::User(user))),
        None => Ok(None),
    }
}

#[tactic(auto, unfolding(crate::specs::Spelling::form_of))]
fn line_of(alloc: Global, order: &Order, bytes: &[u8]) -> Result<Option<Line>, AllocError>
    ensures { IfOk result (λ o. Agrees (Tells order.now.names) o (form_of bytes.now)) }
{
    let Some((word, rest)) = cut(bytes, b' ') else {
        return Ok(word_line(alloc, bytes));
    };
    match keyword_of(word) {
        Some(Keyword::Undecided) => Ok(undecided_line(rest)),
        Some(Keyword::Start) => Ok(start_line(rest)),
        Some(Keyword::Act) => Ok(act_line(order, rest)),
        Some(Keyword::Need) => Ok(step_line(order, rest)),
        Some(Keyword::Next) => Ok(next_line(order, rest)),
        Some(Keyword::User) => user_line(alloc, order, rest),
        None => Ok(None),
    }
}

/// The line that the bytes spell, if they spell one.
pub fn read_line(alloc: Global, order: &Order, bytes: &[u8]) -> Result<Option<Line>, AllocError>
    ensures line { IfOk result (λ o. IfSome o (IsLine order.now.names bytes.now)) }
    ensures none { IfOk result (λ o. IfNone o ((form : LineForm) → IsWellFormed form → ¬ (spell form ≡ bytes.now))) }
{
    line_of(alloc, order, bytes)
}
