//! Administrative rules.

ghost use Rattle.std.specs.Prelude.{◌≡◌, ◌≤◌, ◌<◌, ◌+◌, None, Some, IfOk, length, map};
ghost use Rattle.toml.specs.View.{table_view, array_view, view};
ghost use Rattle.list_words.specs.Lists.{Each};
ghost use Rattle.role_order.specs.Roles.{has_role};
ghost use Rattle.arbac_policy.specs.Truth.{term_of, IsKnown};
ghost use Rattle.arbac_policy.specs.Rules.{IsKnownRange, IsKnownAssign, IsKnownRevoke};
ghost use Rattle.cond_text.specs.Grammar.{term_count};
ghost use Rattle.arbac_policy.specs.PlainRules.{plain_rule};
ghost use Rattle.question_text.specs.Outcomes.{fails_if, mixed_role, seen_as};
ghost use Rattle.question_text.specs.Keys.{list_of, entries};
ghost use Rattle.question_text.specs.Tables as tables;
ghost use Rattle.question_text.specs.Tables.{is_mixed_rule, not_mixed_rule};
ghost use Rattle.question_text.specs.Answers.{Answers};

use crate::entries::{ReadEntry, each_entry};
use crate::keys::{at_most, key_path, knows_only, of_kind, optional_list, required_text};
use crate::question_error::QuestionError;
use crate::roles::role_named;
use arbac_policy::{CanAssign, CanRevoke, Cond, MOST_RULES};
use arbac_rules::{MOST_CONJUNCTS, width_of};
use cond_text::{CondError, MOST_TERMS, parse_cond, read_range};
use role_order::{Order, Range, RoleSet};
use std::alloc::Global;
use toml::value::Array;
use toml::{Table, Value};

/// The condition that the text at a path is.
pub fn a_condition(
    alloc: Global,
    order: &Order,
    path: &str,
    text: &str,
) -> Result<Cond, QuestionError>
    ensures answers { Answers term_of (tables.a_condition order.now.names path.now text.now) result }
    ensures known { IfOk result (λ cond. IsKnown (length order.now.names) (term_of cond)) }
    ensures few { IfOk result (λ cond. term_count (term_of cond) ≤ MOST_TERMS) }
{
    // Places in a condition are 32-bit numbers; no document is as long as that.
    if text.len() > u32::MAX as usize {
        return Err(QuestionError::Memory);
    }
    match parse_cond(alloc, order, text) {
        Ok(cond) => Ok(cond),
        Err(CondError::Memory) => Err(QuestionError::Memory),
        Err(error) => Err(QuestionError::Cond {
            key: String::from_str(alloc, path)?,
            error,
        }),
    }
}

/// The range between two roles that the text at a path is.
fn a_range(alloc: Global, order: &Order, path: &str, text: &str) -> Result<Range, QuestionError>
    ensures answers { Answers (λ range. range) (tables.a_range order.now.names path.now text.now) result }
    ensures known { IfOk result (IsKnownRange (length order.now.names)) }
{
    let Some(named) = read_range(text) else {
        return Err(QuestionError::WrongKind {
            key: String::from_str(alloc, path)?,
        });
    };
    let low = role_named(alloc, order, path, named.low)?;
    let high = role_named(alloc, order, path, named.high)?;
    Ok(Range {
        low,
        high,
        low_open: named.low_open,
        high_open: named.high_open,
    })
}

/// The administrative role of a rule.
fn the_admin(alloc: Global, order: &Order, rule: &Table, path: &str) -> Result<u16, QuestionError>
    ensures { Answers (λ role. role) (tables.the_admin order.now.names (table_view rule.now) path.now) result }
{
    let name = required_text(alloc, rule, path, "admin")?;
    let key = key_path(alloc, path, "admin")?;
    role_named(alloc, order, key.as_str(), name)
}

/// The condition of a rule.
fn the_condition(
    alloc: Global,
    order: &Order,
    rule: &Table,
    path: &str,
) -> Result<Cond, QuestionError>
    ensures answers { Answers term_of (tables.the_condition order.now.names (table_view rule.now) path.now) result }
    ensures few { IfOk result (λ cond. term_count (term_of cond) ≤ MOST_TERMS) }
{
    let text = required_text(alloc, rule, path, "condition")?;
    let key = key_path(alloc, path, "condition")?;
    a_condition(alloc, order, key.as_str(), text)
}

/// The range of a rule.
fn the_range(alloc: Global, order: &Order, rule: &Table, path: &str) -> Result<Range, QuestionError>
    ensures { Answers (λ range. range) (tables.the_range order.now.names (table_view rule.now) path.now) result }
{
    let text = required_text(alloc, rule, path, "range")?;
    let key = key_path(alloc, path, "range")?;
    a_range(alloc, order, key.as_str(), text)
}

/// Whether the condition names a role of the set.
fn names_some(admins: &RoleSet, cond: &Cond) -> bool
    ensures { result ≡ tables.names_some (has_role admins.now) (term_of cond.now) }
{
    match cond {
        Cond::Any => false,
        Cond::Has(role) => admins.has(*role),
        Cond::Lacks(role) => admins.has(*role),
        Cond::And(left, right) => names_some(admins, left.get()) || names_some(admins, right.get()),
        Cond::Or(left, right) => names_some(admins, left.get()) || names_some(admins, right.get()),
    }
}

/// Whether the role that administers isn't administrative, or an end of the range is.
fn is_mixed(admins: &RoleSet, admin: u16, range: &Range) -> bool
    ensures { result ≡ is_mixed_rule admins.now admin range.now }
{
    !admins.has(admin) || admins.has(range.low) || admins.has(range.high)
}

/// Refuses a condition of too many conjuncts.
fn not_wide(alloc: Global, cond: &Cond, path: &str) -> Result<(), QuestionError>
    requires { term_count (term_of cond.now) ≤ MOST_TERMS }
    ensures { Answers (λ _. tt) (tables.not_wide (term_of cond.now) path.now) result }
{
    let count = width_of(cond);
    if count > MOST_CONJUNCTS as u128 {
        return Err(QuestionError::TooWide {
            key: String::from_str(alloc, path)?,
            count,
        });
    }
    Ok(())
}

/// Refuses a rule that is mixed.
fn not_mixed(alloc: Global, is_mixed: bool, path: &str) -> Result<(), QuestionError>
    ensures { Answers (λ _. tt) (fails_if is_mixed (mixed_role path.now)) result }
{
    if is_mixed {
        return Err(QuestionError::MixedRole {
            key: String::from_str(alloc, path)?,
        });
    }
    Ok(())
}

/// The parts of a rule of `can_assign` or `can_assignp`.
fn assign_parts(
    alloc: Global,
    order: &Order,
    rule: &Table,
    path: &str,
) -> Result<CanAssign, QuestionError>
    ensures answers { Answers plain_rule (tables.assign_parts order.now.names (table_view rule.now) path.now) result }
    ensures few { IfOk result (λ rule. term_count (term_of rule.cond) ≤ MOST_TERMS) }
{
    knows_only(alloc, &["admin", "condition", "range"], rule, path)?;
    let admin = the_admin(alloc, order, rule, path)?;
    let cond = the_condition(alloc, order, rule, path)?;
    let range = the_range(alloc, order, rule, path)?;
    Ok(CanAssign { admin, cond, range })
}

/// Refuses a rule whose condition is too wide, or which is mixed where roles are kept separate.
fn assign_tests(
    alloc: Global,
    separate: bool,
    admins: &RoleSet,
    rule: &CanAssign,
    path: &str,
) -> Result<(), QuestionError>
    requires { term_count (term_of rule.now.cond) ≤ MOST_TERMS }
    ensures { Answers (λ _. tt) (tables.assign_tests separate admins.now (plain_rule rule.now) path.now) result }
{
    not_wide(alloc, &rule.cond, path)?;
    let is_mixed = separate
        && (is_mixed(admins, rule.admin, &rule.range) || names_some(admins, &rule.cond));
    not_mixed(alloc, is_mixed, path)
}

/// A rule of `can_assign` or `can_assignp`.
fn an_assign_rule(
    alloc: Global,
    order: &Order,
    separate: bool,
    admins: &RoleSet,
    path: &str,
    value: &Value,
) -> Result<CanAssign, QuestionError>
    ensures { Answers plain_rule (tables.an_assign_rule separate admins.now order.now.names path.now (view value.now)) result }
{
    let table = of_kind(alloc, value.as_table(), path)?;
    let rule = assign_parts(alloc, order, table, path)?;
    assign_tests(alloc, separate, admins, &rule, path)?;
    Ok(rule)
}

/// The parts of a rule of `can_revoke` or `can_revokep`.
fn revoke_parts(
    alloc: Global,
    order: &Order,
    rule: &Table,
    path: &str,
) -> Result<CanRevoke, QuestionError>
    ensures { Answers (λ rule. rule) (tables.revoke_parts order.now.names (table_view rule.now) path.now) result }
{
    knows_only(alloc, &["admin", "range"], rule, path)?;
    let admin = the_admin(alloc, order, rule, path)?;
    let range = the_range(alloc, order, rule, path)?;
    Ok(CanRevoke { admin, range })
}

/// Refuses a rule that is mixed where roles are kept separate.
fn revoke_tests(
    alloc: Global,
    separate: bool,
    admins: &RoleSet,
    rule: &CanRevoke,
    path: &str,
) -> Result<(), QuestionError>
    ensures { Answers (λ _. tt) (not_mixed_rule separate admins.now rule.now.admin rule.now.range None path.now) result }
{
    let is_mixed = separate && is_mixed(admins, rule.admin, &rule.range);
    not_mixed(alloc, is_mixed, path)
}

/// A rule of `can_revoke` or `can_revokep`.
fn a_revoke_rule(
    alloc: Global,
    order: &Order,
    separate: bool,
    admins: &RoleSet,
    path: &str,
    value: &Value,
) -> Result<CanRevoke, QuestionError>
    ensures { Answers (λ rule. rule) (tables.a_revoke_rule separate admins.now order.now.names path.now (view value.now)) result }
{
    let table = of_kind(alloc, value.as_table(), path)?;
    let rule = revoke_parts(alloc, order, table, path)?;
    revoke_tests(alloc, separate, admins, &rule, path)?;
    Ok(rule)
}

/// Reads rules of `can_assign` or `can_assignp`.
#[derive(Clone, Copy)]
struct AssignReader<'o> {
    order: &'o Order,
    separate: bool,
    admins: &'o RoleSet,
}

impl<'o> ReadEntry for AssignReader<'o> {
    type Entry = CanAssign;

    ghost reads = { λ by path d. seen_as plain_rule (tables.an_assign_rule by.separate by.admins.now by.order.now.names path d) };

    fn read(&self, alloc: Global, path: &str, value: &Value) -> Result<CanAssign, QuestionError> {
        an_assign_rule(alloc, self.order, self.separate, self.admins, path, value)
    }
}

/// The rules of `can_assign` or `can_assignp`, the list under the key.
pub fn assign_rules(
    alloc: Global,
    order: &Order,
    separate: bool,
    admins: &RoleSet,
    table: &Table,
    key: &str,
) -> Result<Vec<CanAssign>, QuestionError>
    ensures rules { Answers (λ rules. map plain_rule rules.items) (tables.assign_rules separate admins.now order.now.names (table_view table.now) key.now) result }
    ensures known { IfOk result (λ rules. Each (IsKnownAssign (length order.now.names)) rules.items) }
    ensures few { IfOk result (λ rules. length rules.items ≤ MOST_RULES) }
{
    let Some(list) = optional_list(alloc, table, "", key)? else {
        return Ok(Vec::new(alloc));
    };
    at_most(alloc, MOST_RULES, key, list)?;
    let reader = AssignReader {
        order,
        separate,
        admins,
    };
    each_entry(alloc, &reader, key, list)
}

/// Reads rules of `can_revoke` or `can_revokep`.
#[derive(Clone, Copy)]
struct RevokeReader<'o> {
    order: &'o Order,
    separate: bool,
    admins: &'o RoleSet,
}

impl<'o> ReadEntry for RevokeReader<'o> {
    type Entry = CanRevoke;

    ghost reads = { λ by path d. tables.a_revoke_rule by.separate by.admins.now by.order.now.names path d };

    fn read(&self, alloc: Global, path: &str, value: &Value) -> Result<CanRevoke, QuestionError> {
        a_revoke_rule(alloc, self.order, self.separate, self.admins, path, value)
    }
}

/// The rules of `can_revoke` or `can_revokep`, the list under the key.
pub fn revoke_rules(
    alloc: Global,
    order: &Order,
    separate: bool,
    admins: &RoleSet,
    table: &Table,
    key: &str,
) -> Result<Vec<CanRevoke>, QuestionError>
    ensures rules { Answers (λ rules. rules.items) (tables.revoke_rules separate admins.now order.now.names (table_view table.now) key.now) result }
    ensures known { IfOk result (λ rules. Each (IsKnownRevoke (length order.now.names)) rules.items) }
    ensures few { IfOk result (λ rules. length rules.items ≤ MOST_RULES) }
{
    let Some(list) = optional_list(alloc, table, "", key)? else {
        return Ok(Vec::new(alloc));
    };
    at_most(alloc, MOST_RULES, key, list)?;
    let reader = RevokeReader {
        order,
        separate,
        admins,
    };
    each_entry(alloc, &reader, key, list)
}
