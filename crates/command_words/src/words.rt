//! Words with numbers for options.

ghost use Rattle.std.specs.Prelude.{ℕ, ◌≡◌, List, Option, Some, None, IfOk, IfSome, IfNone, option_map};
ghost use Rattle.role_order.specs.Names.{texts};
ghost use Rattle.command_words.specs.Words.{Said, IsSaid, IsNumber};
ghost use Rattle.command_words.specs.Command.{taken_of};
ghost use Rattle.command_words.specs.Views.{said_by, IsToldAs, IsUntold, AreJudged};

use crate::NoMemory;
use crate::clap_words::{Taken, take_words};
use crate::files::are_file_names;
use crate::numbers::number_in;
use std::alloc::Global;

/// The words after a command: names of files in their order, and the numbers of options.
#[derive(Drop)]
pub struct Words<'a> {
    pub files: Vec<&'a str>,
    pub limit: Option<u32>,
    pub workers: Option<u32>,
    pub connections: Option<u32>,
    pub port: Option<u32>,
}

/// The number of an option, if it has a value; none where its value is no number.
fn told(value: Option<&str>) -> Option<Option<u32>>
    ensures told { IfSome result (IsToldAs (option_map (λ text. text.now) value.entry)) }
    ensures none { IfNone result (IsUntold (option_map (λ text. text.now) value.entry)) }
{
    match value {
        None => Some(None),
        Some(text) => match number_in(text) {
            Some(number) => Some(Some(number)),
            None => None,
        },
    }
}

/// The words that `clap` took, if each file name is one and each value a number.
fn judged(taken: Taken) -> Option<Words>
    ensures found { IfSome result (λ read. AreJudged (taken_of taken.entry) (said_by read)) }
    ensures none { IfNone result ((told : Said) → ¬ AreJudged (taken_of taken.entry) told) }
{
    if !are_file_names(&taken.files) {
        return None;
    }
    let limit = told(taken.limit)?;
    let workers = told(taken.workers)?;
    let connections = told(taken.connections)?;
    let port = told(taken.port)?;
    Some(Words {
        files: taken.files,
        limit,
        workers,
        connections,
        port,
    })
}

/// Reads the words after a command. An option is written `--name V` or `--name=V`, at most once; behind `--` stand names of
/// files alone. None where the words are of another form. The error is want of memory.
pub fn read_words<'a>(alloc: Global, words: &'a [String]) -> Result<Option<Words<'a>>, NoMemory>
    ensures said { IfOk result (λ found. IfSome found (λ read. IsSaid (texts words.entry.now) (said_by read))) }
    ensures none { IfOk result (λ found. IfNone found ((said : Said) → ¬ IsSaid (texts words.entry.now) said)) }
{
    match take_words(alloc, words)? {
        Some(taken) => Ok(judged(taken)),
        None => Ok(None),
    }
}
