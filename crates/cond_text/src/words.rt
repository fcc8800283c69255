//! The words of a text.

ghost use Rattle.std.specs.Prelude.{◌≡◌, ◌+◌, ◌<◌, ◌++◌, ◌^◌, length, IfOk, OnOk, codes};
ghost use Rattle.std.specs.List.{take_while};
ghost use Rattle.std.specs.Str.{bytes_eq};
ghost use Rattle.role_order.specs.Names as role_names;
ghost use Rattle.cond_text.specs.Words as words;
ghost use Rattle.cond_text.specs.Words.{placed};

use crate::NoMemory;
use crate::word::{Placed, Word};
use role_order::{Order, is_name_byte};
use std::alloc::{AllocError, Global};

fn is_any(run: &[u8]) -> bool
    ensures { result ≡ bytes_eq run.now (codes "any") }
{
    run == b"any".as_slice()
}

fn is_not(run: &[u8]) -> bool
    ensures { result ≡ bytes_eq run.now (codes "not") }
{
    run == b"not".as_slice()
}

fn is_and(run: &[u8]) -> bool
    ensures { result ≡ bytes_eq run.now (codes "and") }
{
    run == b"and".as_slice()
}

fn is_or(run: &[u8]) -> bool
    ensures { result ≡ bytes_eq run.now (codes "or") }
{
    run == b"or".as_slice()
}

/// The role of the name, or the number of roles where it is no role's.
fn role_or_count(order: &Order, name: &[u8]) -> u16
    ensures { result ≡ words.role_or_count order.now.names name.now }
{
    match order.role_of_bytes(name) {
        Some(role) => role,
        None => order.count(),
    }
}

/// The word that a run of name bytes is.
#[tactic(auto, unfolding(crate::specs::Words::word_of))]
fn word_of(order: &Order, run: &[u8]) -> Word
    ensures { result ≡ words.word_of order.now.names run.now }
{
    if is_any(run) {
        Word::Any
    } else if is_not(run) {
        Word::Not
    } else if is_and(run) {
        Word::And
    } else if is_or(run) {
        Word::Or
    } else {
        Word::Name(role_or_count(order, run))
    }
}

/// The word that a byte is which is no name byte; a space or a tab is none.
fn sign(b: u8) -> Option<Word>
    ensures { result ≡ words.sign b }
{
    if b == b' ' || b == b'\t' {
        None
    } else if b == b'(' {
        Some(Word::Open)
    } else if b == b')' {
        Some(Word::Close)
    } else {
        Some(Word::Stray)
    }
}

fn leading_count(text: &[u8]) -> usize
    ensures { result ≡ length (take_while role_names.is_name_byte text.now) }
{
    text.iter().take_while(|b| is_name_byte(**b)).count()
}

/// The name bytes that the text begins with.
fn leading_name(text: &[u8]) -> &[u8]
    ensures { result.now ≡ take_while role_names.is_name_byte text.now }
{
    &text[..leading_count(text)]
}

/// The word that begins with the first byte, behind a name byte or not.
fn word_at(order: &Order, behind_name: bool, text: &[u8]) -> Option<Word>
    ensures { result ≡ words.word_at order.now.names behind_name text.now }
{
    match text {
        [] => None,
        [first, ..] => {
            if !is_name_byte(*first) {
                sign(*first)
            } else if behind_name {
                None
            } else {
                Some(word_of(order, leading_name(text)))
            }
        }
    }
}

fn add_word(list: &mut Vec<Placed>, place: u32, word: Option<Word>) -> Result<(), AllocError>
    ensures { OnOk result (list.new.items ≡ list.old.items ++ placed place word) }
{
    if let Some(word) = word {
        list.push(Placed { place, word })?;
    }
    Ok(())
}

/// The words of the text, each with the place of its first byte.
pub fn placed_words(alloc: Global, order: &Order, text: &[u8]) -> Result<Vec<Placed>, NoMemory>
    requires { length text.now < 2 ^ 32 }
    ensures { IfOk result (λ list. list.items ≡ words.placed_words order.now.names text.now) }
{
    let mut list = Vec::new(alloc);
    let mut behind_name = false;
    for at in 0..text.len() {
        add_word(
            &mut list,
            at as u32,
            word_at(order, behind_name, &text[at..]),
        )?;
        behind_name = is_name_byte(text[at]);
    }
    Ok(list)
}
