//! Faults, and the code that puts their texts.

ghost use Rattle.std.specs.Prelude.{ℕ, ◌≡◌, ◌++◌, List, OnOk, codes};
ghost use Rattle.std.specs.Fmt.{decimal};
ghost use Rattle.desk_texts.specs.Faults as faults;

use cert_text::CertError;
use cond_text::CondError;
use policy_text::RunError;
use profile_set::MembersError;
use question_text::QuestionError;
use role_order::OrderError;
use std::alloc::{AllocError, Global};
use text_pieces::{put, put_count, put_number, put_wide_number};

/// A fault of a text that is read.
pub trait Fault {
    /// Its written form.
    ghost written: { Self → List ℕ };

    /// Puts its written form behind the text.
    fn put(&self, alloc: Global, text: &mut Vec<u8>) -> Result<(), AllocError>
        ensures { OnOk result (text.new.items ≡ text.old.items ++ written self.now) };
}

/// A text has more bytes than are read.
#[derive(Clone, Copy, Debug, PartialEq, Eq)]
pub struct TooLong;

impl Fault for TooLong {
    ghost written = { λ _. faults.too_long };

    fn put(&self, _alloc: Global, text: &mut Vec<u8>) -> Result<(), AllocError> {
        put(text, "TooLong")?;
        Ok(())
    }
}

impl Fault for RunError {
    ghost written = { faults.run_fault };

    fn put(&self, alloc: Global, text: &mut Vec<u8>) -> Result<(), AllocError> {
        put_run_fault(alloc, text, *self)?;
        Ok(())
    }
}

impl Fault for QuestionError {
    ghost written = { faults.question_fault };

    fn put(&self, alloc: Global, text: &mut Vec<u8>) -> Result<(), AllocError> {
        put_question_fault(alloc, text, self)?;
        Ok(())
    }
}

impl Fault for MembersError {
    ghost written = { faults.members_fault };

    fn put(&self, alloc: Global, text: &mut Vec<u8>) -> Result<(), AllocError> {
        put_members_fault(alloc, text, *self)?;
        Ok(())
    }
}

impl Fault for CertError {
    ghost written = { faults.cert_fault };

    fn put(&self, alloc: Global, text: &mut Vec<u8>) -> Result<(), AllocError> {
        put_cert_fault(alloc, text, *self)?;
        Ok(())
    }
}

/// Puts a word and two numbers behind the text.
fn put_two(
    alloc: Global,
    text: &mut Vec<u8>,
    word: &str,
    first: u32,
    second: u32,
) -> Result<(), AllocError>
    ensures { OnOk result (text.new.items ≡ text.old.items ++ (word.now ++ decimal first ++ codes " " ++ decimal second)) }
{
    put_count(alloc, text, word, first as u64)?;
    put_count(alloc, text, " ", second as u64)?;
    Ok(())
}

/// Puts the fault of names and edges behind the text.
#[tactic(auto, unfolding(crate::specs::Faults::order_fault))]
pub fn put_order_fault(
    alloc: Global,
    text: &mut Vec<u8>,
    error: OrderError,
) -> Result<(), AllocError>
    ensures { OnOk result (text.new.items ≡ text.old.items ++ faults.order_fault error) }
{
    match error {
        OrderError::NoRoles => put(text, "NoRoles")?,
        OrderError::TooManyRoles { count } => {
            put_count(alloc, text, "TooManyRoles ", count as u64)?
        }
        OrderError::BadName { place } => put_count(alloc, text, "BadName ", place as u64)?,
        OrderError::SameName { first, second } => {
            put_two(alloc, text, "SameName ", first, second)?
        }
        OrderError::EdgeOutOfRange { place } => {
            put_count(alloc, text, "EdgeOutOfRange ", place as u64)?
        }
        OrderError::Cycle { place } => put_count(alloc, text, "Cycle ", place as u64)?,
        OrderError::Memory => put(text, "Memory")?,
    }
    Ok(())
}

/// Puts the fault of a condition behind the text.
#[tactic(auto, unfolding(crate::specs::Faults::cond_fault))]
pub fn put_cond_fault(alloc: Global, text: &mut Vec<u8>, error: CondError) -> Result<(), AllocError>
    ensures { OnOk result (text.new.items ≡ text.old.items ++ faults.cond_fault error) }
{
    match error {
        CondError::Unexpected { place } => put_count(alloc, text, "Unexpected ", place as u64)?,
        CondError::UnknownRole { place } => put_count(alloc, text, "UnknownRole ", place as u64)?,
        CondError::TooDeep { place } => put_count(alloc, text, "TooDeep ", place as u64)?,
        CondError::Memory => put(text, "Memory")?,
    }
    Ok(())
}

/// Puts the fault of a line's condition behind the text.
fn put_cond_at_line(
    alloc: Global,
    text: &mut Vec<u8>,
    line: u32,
    error: CondError,
) -> Result<(), AllocError>
    ensures { OnOk result (text.new.items ≡ text.old.items ++ (codes "Cond " ++ decimal line ++ codes " " ++ faults.cond_fault error)) }
{
    put_count(alloc, text, "Cond ", line as u64)?;
    put(text, " ")?;
    put_cond_fault(alloc, text, error)?;
    Ok(())
}

/// Puts the fault of a run text behind the text.
#[tactic(auto, unfolding(crate::specs::Faults::run_fault))]
pub fn put_run_fault(alloc: Global, text: &mut Vec<u8>, error: RunError) -> Result<(), AllocError>
    ensures { OnOk result (text.new.items ≡ text.old.items ++ faults.run_fault error) }
{
    match error {
        RunError::BadLine { line } => put_count(alloc, text, "BadLine ", line as u64)?,
        RunError::UnknownRole { line } => put_count(alloc, text, "UnknownRole ", line as u64)?,
        RunError::Order(error) => put_order_fault(alloc, text, error)?,
        RunError::Cond { line, error } => put_cond_at_line(alloc, text, line, error)?,
        RunError::TooMany { line } => put_count(alloc, text, "TooMany ", line as u64)?,
        RunError::Unended => put(text, "Unended")?,
        RunError::Memory => put(text, "Memory")?,
    }
    Ok(())
}

/// Puts a word and a key behind the text.
fn put_key(text: &mut Vec<u8>, word: &str, key: &str) -> Result<(), AllocError>
    ensures { OnOk result (text.new.items ≡ text.old.items ++ (word.now ++ key.now)) }
{
    put(text, word)?;
    put(text, key)?;
    Ok(())
}

/// Puts a word, a key and a number behind the text.
fn put_key_count(
    alloc: Global,
    text: &mut Vec<u8>,
    word: &str,
    key: &str,
    count: u128,
) -> Result<(), AllocError>
    ensures { OnOk result (text.new.items ≡ text.old.items ++ (word.now ++ key.now ++ codes " " ++ decimal count)) }
{
    put_key(text, word, key)?;
    put(text, " ")?;
    put_wide_number(alloc, text, count)?;
    Ok(())
}

/// Puts the fault of a condition at the key behind the text.
fn put_cond_at_key(
    alloc: Global,
    text: &mut Vec<u8>,
    key: &str,
    error: CondError,
) -> Result<(), AllocError>
    ensures { OnOk result (text.new.items ≡ text.old.items ++ (codes "Cond " ++ key.now ++ codes " " ++ faults.cond_fault error)) }
{
    put_key(text, "Cond ", key)?;
    put(text, " ")?;
    put_cond_fault(alloc, text, error)?;
    Ok(())
}

/// Puts the fault of a question behind the text.
#[tactic(auto, unfolding(crate::specs::Faults::question_fault))]
pub fn put_question_fault(
    alloc: Global,
    text: &mut Vec<u8>,
    error: &QuestionError,
) -> Result<(), AllocError>
    ensures { OnOk result (text.new.items ≡ text.old.items ++ faults.question_fault error.now) }
{
    match error {
        QuestionError::NotToml => put(text, "NotToml")?,
        QuestionError::Missing { key } => put_key(text, "Missing ", key)?,
        QuestionError::WrongKind { key } => put_key(text, "WrongKind ", key)?,
        QuestionError::UnknownRole { key } => put_key(text, "UnknownRole ", key)?,
        QuestionError::Order(error) => put_order_fault(alloc, text, *error)?,
        QuestionError::Cond { key, error } => put_cond_at_key(alloc, text, key, *error)?,
        QuestionError::MixedRole { key } => put_key(text, "MixedRole ", key)?,
        QuestionError::TooMany { key, count } => {
            put_key_count(alloc, text, "TooMany ", key, *count as u128)?
        }
        QuestionError::TooWide { key, count } => {
            put_key_count(alloc, text, "TooWide ", key, *count)?
        }
        QuestionError::UnknownKey { key } => put_key(text, "UnknownKey ", key)?,
        QuestionError::Memory => put(text, "Memory")?,
    }
    Ok(())
}

/// Puts the fault of a list of members behind the text.
#[tactic(auto, unfolding(crate::specs::Faults::members_fault))]
pub fn put_members_fault(
    alloc: Global,
    text: &mut Vec<u8>,
    error: MembersError,
) -> Result<(), AllocError>
    ensures { OnOk result (text.new.items ≡ text.old.items ++ faults.members_fault error) }
{
    match error {
        MembersError::BadRow { number } => put_count(alloc, text, "BadRow ", number as u64)?,
        MembersError::UnknownRole { number } => {
            put_count(alloc, text, "UnknownRole ", number as u64)?
        }
        MembersError::Memory => put(text, "Memory")?,
    }
    Ok(())
}

/// Puts the fault of a certificate text behind the text.
#[tactic(auto, unfolding(crate::specs::Faults::cert_fault))]
pub fn put_cert_fault(alloc: Global, text: &mut Vec<u8>, error: CertError) -> Result<(), AllocError>
    ensures { OnOk result (text.new.items ≡ text.old.items ++ faults.cert_fault error) }
{
    match error {
        CertError::BadLine { line } => put_count(alloc, text, "BadLine ", line as u64)?,
        CertError::UnknownRole { line } => put_count(alloc, text, "UnknownRole ", line as u64)?,
        CertError::Unended => put(text, "Unended")?,
        CertError::Memory => put(text, "Memory")?,
    }
    Ok(())
}
