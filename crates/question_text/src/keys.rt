//! The values of a table's keys, and the paths that faults tell.

ghost use Rattle.std.specs.Prelude.{◌≡◌, [], None, Some, Option, IfOk, map, option_map, string_bytes};
ghost use Rattle.std.specs.List.{list_any};
ghost use Rattle.std.specs.Str.{bytes_eq};
ghost use Rattle.toml.specs.View.{table_view, array_view, view};
ghost use Rattle.toml.specs.Data.{get_member, as_bool, as_str};
ghost use Rattle.question_text.specs.Keys.{key_of, entry_of, toml_of, list_of, as_list, as_filled_list, as_two_texts, as_version, as_most, first_unknown};
ghost use Rattle.question_text.specs.Keys as keys;
ghost use Rattle.question_text.specs.Keys.{required, optional};
ghost use Rattle.question_text.specs.Documents.{if_toml};
ghost use Rattle.question_text.specs.Answers.{Answers};
ghost use Rattle.question_text.specs.Views.{entries_of};

use crate::MOST_OF_PROFILE;
use crate::question_error::QuestionError;
use std::alloc::{AllocError, Global};
use toml::value::Array;
use toml::{Table, Value};

/// The path of a key of the table at a path; the document's own table has the empty path.
pub fn key_path(alloc: Global, path: &str, key: &str) -> Result<String, AllocError>
    ensures { IfOk result (λ text. string_bytes text ≡ key_of path.now key.now) }
{
    if path.is_empty() {
        return Ok(String::from_str(alloc, key)?);
    }
    format!(in alloc; "{path}.{key}")
}

/// The path of an entry of the list at a path.
pub fn entry_path(alloc: Global, path: &str, place: usize) -> Result<String, AllocError>
    ensures { IfOk result (λ text. string_bytes text ≡ entry_of path.now place) }
{
    format!(in alloc; "{path}.{place}")
}

/// The table that the bytes are as TOML.
pub fn toml_table(alloc: Global, bytes: &[u8]) -> Result<Table, QuestionError>
    ensures { Answers table_view (if_toml (toml_of bytes.now)) result }
{
    match toml::table_from_slice(alloc, bytes) {
        Ok(table) => Ok(table),
        Err(e) => {
            if e.is_memory() {
                Err(QuestionError::Memory)
            } else {
                Err(QuestionError::NotToml)
            }
        }
    }
}

/// The value of the key.
pub fn value_at<'t>(table: &'t Table, key: &str) -> Option<&'t Value>
    ensures { option_map (λ value. view value.now) result ≡ get_member key.now (table_view table.now) }
{
    table.get(key)
}

/// The value of the key, which must be there.
fn required_value<'t>(
    alloc: Global,
    table: &'t Table,
    path: &str,
    key: &str,
) -> Result<&'t Value, QuestionError>
    ensures { Answers (λ value. view value.now) (required (λ d. Some d) (table_view table.now) path.now key.now) result }
{
    match value_at(table, key) {
        Some(value) => Ok(value),
        None => Err(QuestionError::Missing {
            key: key_path(alloc, path, key)?,
        }),
    }
}

/// The value where it is of the kind that the path asks for.
pub fn of_kind<T>(alloc: Global, value: Option<T>, path: &str) -> Result<T, QuestionError>
    ensures { Answers (λ value. value) (keys.of_kind value path.now) result }
{
    match value {
        Some(value) => Ok(value),
        None => Err(QuestionError::WrongKind {
            key: String::from_str(alloc, path)?,
        }),
    }
}

/// The value where it is of the kind that the key of the table at the path asks for.
fn of_kind_at<T>(alloc: Global, value: Option<T>, path: &str, key: &str) -> Result<T, QuestionError>
    ensures { Answers (λ value. value) (keys.of_kind value (key_of path.now key.now)) result }
{
    match value {
        Some(value) => Ok(value),
        None => Err(QuestionError::WrongKind {
            key: key_path(alloc, path, key)?,
        }),
    }
}

/// The text that must be the value of the key.
pub fn required_text<'t>(
    alloc: Global,
    table: &'t Table,
    path: &str,
    key: &str,
) -> Result<&'t str, QuestionError>
    ensures { Answers (λ text. text.now) (required as_str (table_view table.now) path.now key.now) result }
{
    let value = required_value(alloc, table, path, key)?;
    of_kind_at(alloc, value.as_str(), path, key)
}

/// The list that must be the value of the key.
pub fn required_list<'t>(
    alloc: Global,
    table: &'t Table,
    path: &str,
    key: &str,
) -> Result<&'t Array, QuestionError>
    ensures { Answers (λ list. list_of (array_view list.now)) (required as_list (table_view table.now) path.now key.now) result }
{
    let value = required_value(alloc, table, path, key)?;
    of_kind_at(alloc, value.as_array(), path, key)
}

/// The truth value that must be the value of the key.
pub fn required_bool(
    alloc: Global,
    table: &Table,
    path: &str,
    key: &str,
) -> Result<bool, QuestionError>
    ensures { Answers (λ value. value) (required as_bool (table_view table.now) path.now key.now) result }
{
    let value = required_value(alloc, table, path, key)?;
    of_kind_at(alloc, value.as_bool(), path, key)
}

/// The version, 1 or 2.
fn version_of(value: &Value) -> Option<u32>
    ensures { result ≡ as_version (view value.now) }
{
    match value.as_integer() {
        Some(1) => Some(1),
        Some(2) => Some(2),
        _ => None,
    }
}

/// The version that must be the value of the key.
pub fn required_version(
    alloc: Global,
    table: &Table,
    path: &str,
    key: &str,
) -> Result<u32, QuestionError>
    ensures { Answers (λ number. number) (required as_version (table_view table.now) path.now key.now) result }
{
    let value = required_value(alloc, table, path, key)?;
    of_kind_at(alloc, version_of(value), path, key)
}

/// The list that is the value of the key; none where the key is absent.
pub fn optional_list<'t>(
    alloc: Global,
    table: &'t Table,
    path: &str,
    key: &str,
) -> Result<Option<&'t Array>, QuestionError>
    ensures { Answers entries_of (optional as_list [] (table_view table.now) path.now key.now) result }
{
    match value_at(table, key) {
        None => Ok(None),
        Some(value) => Ok(Some(of_kind_at(alloc, value.as_array(), path, key)?)),
    }
}

/// How many users a profile may have, none for any number; within, none where the value says neither.
fn most_of(value: &Value) -> Option<Option<u32>>
    ensures { result ≡ as_most (view value.now) }
{
    match value.as_integer() {
        Some(number) => match u32::try_from(number) {
            Ok(most) if most <= MOST_OF_PROFILE => Some(Some(most)),
            _ => None,
        },
        None => match value.as_str() {
            Some("any") => Some(None),
            _ => None,
        },
    }
}

/// How many users a profile may have by the key; none for any number, also where the key is absent.
pub fn optional_most(
    alloc: Global,
    table: &Table,
    path: &str,
    key: &str,
) -> Result<Option<u32>, QuestionError>
    ensures { Answers (λ most. most) (optional as_most None (table_view table.now) path.now key.now) result }
{
    match value_at(table, key) {
        None => Ok(None),
        Some(value) => of_kind_at(alloc, most_of(value), path, key),
    }
}

/// The list of at least one entry.
pub fn filled_list(value: &Value) -> Option<&Array>
    ensures { option_map (λ list. list_of (array_view list.now)) result ≡ as_filled_list (view value.now) }
{
    match value.as_array() {
        Some(list) if !list.is_empty() => Some(list),
        _ => None,
    }
}

/// The texts of a list of exactly two.
pub fn two_texts(value: &Value) -> Option<(&str, &str)>
    ensures { option_map (λ texts. (texts.0.now, texts.1.now)) result ≡ as_two_texts (view value.now) }
{
    let list = value.as_array()?;
    if list.len() != 2 {
        return None;
    }
    Some((list[0].as_str()?, list[1].as_str()?))
}

/// Whether the name is one of the known ones.
fn is_known(name: &str, known: &[&str]) -> bool
    ensures { result ≡ list_any (λ other. bytes_eq name.now other.now) known.now }
{
    known.iter().any(|other| name == *other)
}

/// The least key that isn't a known one.
fn unknown_key<'t>(table: &'t Table, known: &[&str]) -> Option<&'t str>
    ensures { option_map (λ key. key.now) result ≡ first_unknown (map (λ key. key.now) known.now) (table_view table.now) }
{
    for (key, _) in table.iter() {
        let name = key.as_str();
        if !is_known(name, known) {
            return Some(name);
        }
    }
    None
}

/// Refuses the table at the path for its least key that isn't a known one.
pub fn knows_only(
    alloc: Global,
    known: &[&str],
    table: &Table,
    path: &str,
) -> Result<(), QuestionError>
    ensures { Answers (λ _. tt) (keys.knows_only (map (λ key. key.now) known.now) (table_view table.now) path.now) result }
{
    match unknown_key(table, known) {
        None => Ok(()),
        Some(key) => Err(QuestionError::UnknownKey {
            key: key_path(alloc, path, key)?,
        }),
    }
}

/// Refuses the list at the path where it has more entries than the greatest number.
pub fn at_most(alloc: Global, most: usize, path: &str, list: &Array) -> Result<(), QuestionError>
    ensures { Answers (λ _. tt) (keys.at_most most path.now (list_of (array_view list.now))) result }
{
    if list.len() <= most {
        return Ok(());
    }
    match u32::try_from(list.len()) {
        Ok(count) => Err(QuestionError::TooMany {
            key: String::from_str(alloc, path)?,
            count,
        }),
        // The error's count has no room for such a list, which no memory holds.
        Err(_) => Err(QuestionError::Memory),
    }
}
