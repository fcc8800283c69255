//! The lines between the first line of a run text and its last.

ghost use Rattle.std.specs.Prelude.{◌≡◌, [], IfOk, map};
ghost use Rattle.std.specs.Option.{option_map};
ghost use Rattle.policy_text.specs.Spelling.{text_in, role_in, edge_in, assign_in, revoke_in, user_in, names_behind, words, act_line_in};
ghost use Rattle.policy_text.specs.Spelling.{goal_in, keyword_in, form_of};
ghost use Rattle.policy_text.specs.Views.{form_of_line};

use cond_text::{NamedRange, cut, name_of, range_of};
use std::alloc::{AllocError, Global};
use text_lines::{ActLine, act_of, is};

/// A line as it is written.
#[derive(Drop)]
pub enum Line<'a> {
    Role(&'a str),
    Edge {
        senior: &'a str,
        junior: &'a str,
    },
    Assign {
        admin: &'a str,
        range: NamedRange<'a>,
        condition: &'a str,
    },
    Revoke {
        admin: &'a str,
        range: NamedRange<'a>,
    },
    User(Vec<&'a str>),
    Act(ActLine<'a>),
    Goal(&'a str),
}

/// The first word of a line.
#[derive(Clone, Copy)]
pub enum Keyword {
    Role,
    Edge,
    Assign,
    Revoke,
    User,
    Act,
    Goal,
}

/// The bytes as text, if they are UTF-8.
#[tactic(auto, using(crate::proofs::WordLemmas::text_given, crate::proofs::WordLemmas::text_refused))]
fn text_of(bytes: &[u8]) -> Option<&str>
    ensures { option_map (λ text. text.now) result ≡ text_in bytes.now }
{
    match str::from_utf8(bytes) {
        Ok(text) => Some(text),
        Err(_) => None,
    }
}

#[tactic(auto, unfolding(crate::specs::Spelling::role_in))]
fn role_line(rest: &[u8]) -> Option<Line>
    ensures { option_map form_of_line result ≡ role_in rest.now }
{
    let name = name_of(rest)?;
    Some(Line::Role(name))
}

#[tactic(auto, unfolding(crate::specs::Spelling::edge_in))]
fn edge_line(rest: &[u8]) -> Option<Line>
    ensures { option_map form_of_line result ≡ edge_in rest.now }
{
    let (senior, junior) = cut(rest, b' ')?;
    let senior = name_of(senior)?;
    let junior = name_of(junior)?;
    Some(Line::Edge { senior, junior })
}

#[tactic(auto, unfolding(crate::specs::Spelling::assign_in))]
fn assign_line(rest: &[u8]) -> Option<Line>
    ensures { option_map form_of_line result ≡ assign_in rest.now }
{
    let (admin, rest) = cut(rest, b' ')?;
    let admin = name_of(admin)?;
    let (range, condition) = cut(rest, b' ')?;
    let range = range_of(range)?;
    let condition = text_of(condition)?;
    Some(Line::Assign {
        admin,
        range,
        condition,
    })
}

#[tactic(auto, unfolding(crate::specs::Spelling::revoke_in))]
fn revoke_line(rest: &[u8]) -> Option<Line>
    ensures { option_map form_of_line result ≡ revoke_in rest.now }
{
    let (admin, range) = cut(rest, b' ')?;
    let admin = name_of(admin)?;
    let range = range_of(range)?;
    Some(Line::Revoke { admin, range })
}

#[tactic(auto, unfolding(crate::specs::Spelling::act_line_in))]
fn act_line(rest: &[u8]) -> Option<Line>
    ensures { option_map form_of_line result ≡ act_line_in rest.now }
{
    let act = act_of(rest)?;
    Some(Line::Act(act))
}

#[tactic(auto, unfolding(crate::specs::Spelling::goal_in))]
fn goal_line(rest: &[u8]) -> Option<Line>
    ensures { option_map form_of_line result ≡ goal_in rest.now }
{
    let condition = text_of(rest)?;
    Some(Line::Goal(condition))
}

/// The names between single spaces, if each is one.
#[tactic(auto, using(crate::proofs::WordLemmas::names_more, crate::proofs::WordLemmas::names_stop, crate::proofs::WordLemmas::names_last, crate::proofs::WordLemmas::names_no_last, cond_text::proofs::CutLemmas::cut_shorter))]
fn names_of<'a>(alloc: Global, text: &'a [u8]) -> Result<Option<Vec<&'a str>>, AllocError>
    ensures { IfOk result (λ o. option_map (λ v. map (λ name. name.now) v.items) o ≡ names_behind [] (words text.now)) }
{
    let mut names = Vec::new(alloc);
    let mut rest = text;
    while let Some((word, after)) = cut(rest, b' ') {
        let Some(name) = name_of(word) else {
            return Ok(None);
        };
        names.push(name)?;
        rest = after;
    }
    let Some(name) = name_of(rest) else {
        return Ok(None);
    };
    names.push(name)?;
    Ok(Some(names))
}

#[tactic(auto, unfolding(crate::specs::Spelling::user_in))]
fn user_line(alloc: Global, rest: &[u8]) -> Result<Option<Line>, AllocError>
    ensures { IfOk result (λ o. option_map form_of_line o ≡ user_in rest.now) }
{
    match names_of(alloc, rest)? {
        Some(names) => Ok(Some(Line::User(names))),
        None => Ok(None),
    }
}

#[tactic(auto, unfolding(crate::specs::Spelling::keyword_in))]
fn keyword_of(word: &[u8]) -> Option<Keyword>
    ensures { result ≡ keyword_in word.now }
{
    if is(word, "role") {
        Some(Keyword::Role)
    } else if is(word, "edge") {
        Some(Keyword::Edge)
    } else if is(word, "assign") {
        Some(Keyword::Assign)
    } else if is(word, "revoke") {
        Some(Keyword::Revoke)
    } else if is(word, "user") {
        Some(Keyword::User)
    } else if is(word, "act") {
        Some(Keyword::Act)
    } else if is(word, "goal") {
        Some(Keyword::Goal)
    } else {
        None
    }
}

/// The line that the bytes spell, if they spell one.
#[tactic(auto, unfolding(crate::specs::Spelling::form_of))]
pub fn read_line(alloc: Global, line: &[u8]) -> Result<Option<Line>, AllocError>
    ensures { IfOk result (λ o. option_map form_of_line o ≡ form_of line.now) }
{
    let Some((word, rest)) = cut(line, b' ') else {
        return Ok(if is(line, "user") {
            Some(Line::User(Vec::new(alloc)))
        } else {
            None
        });
    };
    match keyword_of(word) {
        Some(Keyword::Role) => Ok(role_line(rest)),
        Some(Keyword::Edge) => Ok(edge_line(rest)),
        Some(Keyword::Assign) => Ok(assign_line(rest)),
        Some(Keyword::Revoke) => Ok(revoke_line(rest)),
        Some(Keyword::User) => user_line(alloc, rest),
        Some(Keyword::Act) => Ok(act_line(rest)),
        Some(Keyword::Goal) => Ok(goal_line(rest)),
        None => Ok(None),
    }
}
