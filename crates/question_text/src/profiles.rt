//! The profiles of a document.

ghost use Rattle.std.specs.Prelude.{◌≤◌, IfOk, codes, length};
ghost use Rattle.toml.specs.View.{table_view, array_view, view};
ghost use Rattle.list_words.specs.Lists.{Each};
ghost use Rattle.question_text.specs.Keys.{list_of, entries};
ghost use Rattle.question_text.specs.Rules.{IsProfile};
ghost use Rattle.question_text.specs.Tables as tables;
ghost use Rattle.question_text.specs.Tables.{a_profile};
ghost use Rattle.question_text.specs.Answers.{Answers};

use crate::MOST_PROFILES;
use crate::entries::{ReadEntry, each_entry};
use crate::keys::{
    at_most, key_path, knows_only, of_kind, optional_list, optional_most, required_list,
};
use crate::question_error::QuestionError;
use crate::roles::role_set;
use arbac_policy::Profile;
use role_order::Order;
use std::alloc::Global;
use toml::value::Array;
use toml::{Table, Value};

/// The profile that the table at the path is.
fn profile_of(
    alloc: Global,
    order: &Order,
    path: &str,
    value: &Value,
) -> Result<Profile, QuestionError>
    ensures { Answers (λ profile. profile) (a_profile order.now.names path.now (view value.now)) result }
{
    let table = of_kind(alloc, value.as_table(), path)?;
    knows_only(alloc, &["roles", "most"], table, path)?;
    let list = required_list(alloc, table, path, "roles")?;
    let key = key_path(alloc, path, "roles")?;
    let set = role_set(alloc, order, key.as_str(), list)?;
    let most = optional_most(alloc, table, path, "most")?;
    Ok(Profile { set, most })
}

/// Reads profiles.
#[derive(Clone, Copy)]
struct ProfileReader<'o> {
    order: &'o Order,
}

impl<'o> ReadEntry for ProfileReader<'o> {
    type Entry = Profile;

    ghost reads = { λ by path d. a_profile by.order.now.names path d };

    fn read(&self, alloc: Global, path: &str, value: &Value) -> Result<Profile, QuestionError> {
        profile_of(alloc, self.order, path, value)
    }
}

/// The profiles of a document.
pub fn profiles(alloc: Global, order: &Order, table: &Table) -> Result<Vec<Profile>, QuestionError>
    ensures { Answers (λ profiles. profiles.items) (tables.profiles order.now.names (table_view table.now)) result }
{
    let Some(list) = optional_list(alloc, table, "", "profile")? else {
        return Ok(Vec::new(alloc));
    };
    at_most(alloc, MOST_PROFILES, "profile", list)?;
    each_entry(alloc, &ProfileReader { order }, "profile", list)
}
