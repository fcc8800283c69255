//! Words as `clap` takes them: file names and options with any texts.

ghost use Rattle.std.specs.Prelude.{◌≡◌, IfOk, option_map, map};
ghost use Rattle.role_order.specs.Names.{texts};
ghost use Rattle.clap.specs.Words.{app_of, with_rule};
ghost use Rattle.command_words.specs.Reading.{AreText, files_in};
ghost use Rattle.command_words.specs.Command.{command, option_rule, taken, taken_of};

use crate::NoMemory;
use clap::error::ErrorKind;
use clap::{Arg, ArgAction, Command};
use std::alloc::{AllocError, Global};

/// What `clap` takes the words for.
#[derive(Drop)]
pub struct Taken<'a> {
    pub files: Vec<&'a str>,
    pub limit: Option<&'a str>,
    pub workers: Option<&'a str>,
    pub connections: Option<&'a str>,
    pub port: Option<&'a str>,
}

/// The command with an option more, which takes a value.
fn with_option<'a>(alloc: Global, made: Command<'a>, name: &'a str) -> Result<Command<'a>, NoMemory>
    ensures { IfOk result (λ more. app_of more ≡ with_rule (app_of made.entry) (option_rule name.entry.now)) }
{
    made.arg(Arg::new(alloc, name).long(name))
}

/// One simple command with all options, without help and version.
fn command<'a>(alloc: Global) -> Result<Command<'a>, NoMemory>
    ensures { IfOk result (λ made. app_of made ≡ command) }
{
    let bare = Command::new(alloc, "desk")
        .no_binary_name(true)
        .disable_help_flag(true);
    let limit = with_option(alloc, bare, "limit")?;
    let workers = with_option(alloc, limit, "workers")?;
    let connections = with_option(alloc, workers, "connections")?;
    let port = with_option(alloc, connections, "port")?;
    port.arg(Arg::new(alloc, "file").action(ArgAction::Append))
}

fn copied<'a>(alloc: Global, files: Option<&[&'a str]>) -> Result<Vec<&'a str>, NoMemory>
    ensures { IfOk result (λ list. map (λ file. file.now) list.items ≡ files_in files.entry) }
{
    match files {
        Some(files) => files.to_vec(alloc),
        None => Ok(Vec::new(alloc)),
    }
}

/// Says that each word is text.
fn are_text(words: &[String])
    ensures { AreText (texts words.now) }
{
    for word in words {
        let _text = word.as_str();
    }
}

/// Takes the words, or none where `clap` refuses them.
pub fn take_words<'a>(alloc: Global, words: &'a [String]) -> Result<Option<Taken<'a>>, NoMemory>
    ensures { IfOk result (λ found. option_map taken_of found ≡ taken (texts words.entry.now)) }
{
    are_text(words);
    match command(alloc)?.try_get_matches_from(words) {
        Ok(found) => {
            let files = copied(alloc, found.get_raw("file"))?;
            Ok(Some(Taken {
                files,
                limit: found.get_str("limit"),
                workers: found.get_str("workers"),
                connections: found.get_str("connections"),
                port: found.get_str("port"),
            }))
        }
        Err(error) => match error.kind() {
            ErrorKind::OutOfMemory => Err(AllocError),
            _ => Ok(None),
        },
    }
}
