//! The written forms of commands.

ghost use Rattle.std.specs.Prelude.{ℕ, ◌≡◌, ◌∷◌, [], ◌↔◌, List, None, IsTrue, IfOk, IfSome, IfNone, codes};
ghost use Rattle.role_order.specs.Names.{texts};
ghost use Rattle.command_words.specs.Views.{said_by};
ghost use Rattle.arbac_desk.specs.Commands as forms;
ghost use Rattle.arbac_desk.specs.Commands.{Form, form_of, IsSetting, IsSearch, IsForm, files_alone, AreWordsOf, AreOfNoForm};

use crate::{MOST_LIMIT, MOST_WORKERS, USUAL_LIMIT, USUAL_WORKERS};
use command_words::{Words, number_in, read_words};
use sample_question::MOST_SIZE;
use std::alloc::{AllocError, Global};

/// A command, as its words tell it.
#[derive(Clone, Copy)]
pub enum Command<'a> {
    /// `replay RUN`
    Replay {
        run: &'a str,
    },
    /// `check QUESTION CERT`
    Check {
        question: &'a str,
        cert: &'a str,
    },
    /// `ask QUESTION [--limit L] [--workers W]`
    Ask {
        question: &'a str,
        limit: u32,
        workers: u32,
    },
    /// `make N [--limit L] [--workers W]`
    Make {
        size: u32,
        limit: u32,
        workers: u32,
    },
}

/// The number that an option sets, up to the greatest, or the usual one where it isn't told.
fn setting(told: Option<u32>, most: u32, usual: u32) -> Option<u32>
    ensures found { IfSome result (IsSetting told most usual) }
    ensures none { IfNone result ((number : ℕ) → ¬ IsSetting told most usual number) }
{
    match told {
        None => Some(usual),
        Some(number) if 1 <= number && number <= most => Some(number),
        Some(_) => None,
    }
}

/// Whether no option is told but those of a search.
fn is_for_search(read: &Words) -> bool
    ensures { IsTrue result ↔ ((read.now.connections ≡ None) × (read.now.port ≡ None)) }
{
    read.connections.is_none() && read.port.is_none()
}

/// Whether no option is told.
fn is_plain(read: &Words) -> bool
    ensures { IsTrue result ↔ ((read.now.limit ≡ None) × (read.now.workers ≡ None) × (read.now.connections ≡ None) × (read.now.port ≡ None)) }
{
    read.limit.is_none() && read.workers.is_none() && is_for_search(read)
}

/// The command `replay`, if the words behind it are of its form.
fn replay<'a>(read: &Words<'a>) -> Option<Command<'a>>
    ensures found { IfSome result (λ command. IsForm (codes "replay") (said_by read.now) (form_of command)) }
    ensures none { IfNone result ((run : List ℕ) → ¬ (said_by read.now ≡ files_alone (run ∷ []))) }
{
    match read.files.as_slice() {
        [run] if is_plain(read) => Some(Command::Replay { run }),
        _ => None,
    }
}

/// The command `check`, if the words behind it are of its form.
fn check<'a>(read: &Words<'a>) -> Option<Command<'a>>
    ensures found { IfSome result (λ command. IsForm (codes "check") (said_by read.now) (form_of command)) }
    ensures none { IfNone result ((question cert : List ℕ) → ¬ (said_by read.now ≡ files_alone (question ∷ cert ∷ []))) }
{
    match read.files.as_slice() {
        [question, cert] if is_plain(read) => Some(Command::Check { question, cert }),
        _ => None,
    }
}

/// The command `ask`, if the words behind it are of its form.
fn ask<'a>(read: &Words<'a>) -> Option<Command<'a>>
    ensures found { IfSome result (λ command. IsForm (codes "ask") (said_by read.now) (form_of command)) }
    ensures none { IfNone result ((question : List ℕ) (limit workers : ℕ) → ¬ IsSearch (said_by read.now) (question ∷ []) limit workers) }
{
    let [question] = read.files.as_slice() else {
        return None;
    };
    let limit = setting(read.limit, MOST_LIMIT, USUAL_LIMIT)?;
    let workers = setting(read.workers, MOST_WORKERS, USUAL_WORKERS)?;
    if is_for_search(read) {
        Some(Command::Ask {
            question,
            limit,
            workers,
        })
    } else {
        None
    }
}

/// The command `make`, if the words behind it are of its form.
fn make<'a>(read: &Words<'a>) -> Option<Command<'a>>
    ensures found { IfSome result (λ command. IsForm (codes "make") (said_by read.now) (form_of command)) }
    ensures none { IfNone result ((size limit workers : ℕ) → ¬ IsForm (codes "make") (said_by read.now) (forms.make size limit workers)) }
{
    let [text] = read.files.as_slice() else {
        return None;
    };
    let number = number_in(text)?;
    let size = setting(Some(number), MOST_SIZE, MOST_SIZE)?;
    let limit = setting(read.limit, MOST_LIMIT, USUAL_LIMIT)?;
    let workers = setting(read.workers, MOST_WORKERS, USUAL_WORKERS)?;
    if is_for_search(read) {
        Some(Command::Make {
            size,
            limit,
            workers,
        })
    } else {
        None
    }
}

/// The command of the first word, if what is read behind it is of its form.
fn command_of<'a>(word: &str, read: &Words<'a>) -> Option<Command<'a>>
    ensures found { IfSome result (λ command. IsForm word.now (said_by read.now) (form_of command)) }
    ensures none { IfNone result ((form : Form) → ¬ IsForm word.now (said_by read.now) form) }
{
    match word {
        "replay" => replay(read),
        "check" => check(read),
        "ask" => ask(read),
        "make" => make(read),
        _ => None,
    }
}

/// The command that the words tell, if they are of a written form. The error is want of memory.
pub fn read_command<'a>(
    alloc: Global,
    words: &'a [String],
) -> Result<Option<Command<'a>>, AllocError>
    ensures found { IfOk result (λ told. IfSome told (λ command. AreWordsOf (texts words.entry.now) (form_of command))) }
    ensures none { IfOk result (λ told. IfNone told (AreOfNoForm (texts words.entry.now))) }
{
    let [word, rest @ ..] = words else {
        return Ok(None);
    };
    match read_words(alloc, rest)? {
        Some(read) => Ok(command_of(word, &read)),
        None => Ok(None),
    }
}
