//! The goal of a document.

ghost use Rattle.std.specs.Prelude.{◌≤◌, IfOk, codes, length, map};
ghost use Rattle.toml.specs.View.{table_view, array_view, view};
ghost use Rattle.list_words.specs.Lists.{Each};
ghost use Rattle.arbac_policy.specs.Truth.{term_of};
ghost use Rattle.cond_text.specs.Grammar.{term_count};
ghost use Rattle.question_text.specs.Outcomes.{seen_as};
ghost use Rattle.question_text.specs.Keys.{list_of, entries};
ghost use Rattle.question_text.specs.Rules.{IsCondition};
ghost use Rattle.question_text.specs.Tables as tables;
ghost use Rattle.question_text.specs.Tables.{a_goal_condition, not_wide_goal, a_goal};
ghost use Rattle.question_text.specs.Answers.{Answers};

use crate::entries::{ReadEntry, each_entry};
use crate::keys::{at_most, filled_list, of_kind, value_at};
use crate::question_error::QuestionError;
use crate::rules::a_condition;
use arbac_policy::{Cond, MOST_GOALS};
use arbac_rules::too_many;
use cond_text::MOST_TERMS;
use role_order::Order;
use std::alloc::Global;
use toml::value::Array;
use toml::{Table, Value};

/// The condition that the text at the path is.
fn condition_of(
    alloc: Global,
    order: &Order,
    path: &str,
    value: &Value,
) -> Result<Cond, QuestionError>
    ensures { Answers term_of (a_goal_condition order.now.names path.now (view value.now)) result }
{
    let text = of_kind(alloc, value.as_str(), path)?;
    a_condition(alloc, order, path, text)
}

/// Reads conditions of a goal.
#[derive(Clone, Copy)]
struct ConditionReader<'o> {
    order: &'o Order,
}

impl<'o> ReadEntry for ConditionReader<'o> {
    type Entry = Cond;

    ghost reads = { λ by path d. seen_as term_of (a_goal_condition by.order.now.names path d) };

    fn read(&self, alloc: Global, path: &str, value: &Value) -> Result<Cond, QuestionError> {
        condition_of(alloc, self.order, path, value)
    }
}

/// Refuses conditions with too many combinations of one conjunct of each.
fn not_wide(alloc: Global, conds: &[Cond]) -> Result<(), QuestionError>
    requires { Each (λ cond. term_count (term_of cond) ≤ MOST_TERMS) conds.now }
    ensures { Answers (λ _. tt) (not_wide_goal (map term_of conds.now)) result }
{
    match too_many(conds) {
        Some(count) => Err(QuestionError::TooWide {
            key: String::from_str(alloc, "goal")?,
            count,
        }),
        None => Ok(()),
    }
}

/// The conditions of a goal that is there.
fn goal_at(alloc: Global, order: &Order, value: &Value) -> Result<Vec<Cond>, QuestionError>
    ensures { Answers (λ conds. map term_of conds.items) (a_goal order.now.names (view value.now)) result }
{
    let list = of_kind(alloc, filled_list(value), "goal")?;
    at_most(alloc, MOST_GOALS, "goal", list)?;
    let conds = each_entry(alloc, &ConditionReader { order }, "goal", list)?;
    not_wide(alloc, conds.as_slice())?;
    Ok(conds)
}

/// The conditions of a document's goal, none where it is absent and none is needed.
pub fn the_goal(
    alloc: Global,
    order: &Order,
    need_goal: bool,
    table: &Table,
) -> Result<Vec<Cond>, QuestionError>
    ensures goal { Answers (λ conds. map term_of conds.items) (tables.the_goal need_goal order.now.names (table_view table.now)) result }
    ensures kept { IfOk result (λ conds. Each (IsCondition (length order.now.names)) (map term_of conds.items)) }
{
    match value_at(table, "goal") {
        Some(value) => goal_at(alloc, order, value),
        None => {
            if need_goal {
                Err(QuestionError::Missing {
                    key: String::from_str(alloc, "goal")?,
                })
            } else {
                Ok(Vec::new(alloc))
            }
        }
    }
}
