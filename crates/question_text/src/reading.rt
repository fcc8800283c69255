//! Reading question documents.

ghost use Rattle.std.specs.Prelude.{◌≡◌, Result, Ok, Err, IfOk, IfErr};
ghost use Rattle.toml.specs.View.{table_view};
ghost use Rattle.arbac_policy.specs.Rules as policies;
ghost use Rattle.arbac_policy.specs.Rules.{IsPolicy, AreCountable};
ghost use Rattle.question_text.specs.Outcomes.{Fault};
ghost use Rattle.question_text.specs.Values.{QuestionValue, plain_of};
ghost use Rattle.question_text.specs.Documents.{the_head, the_roles, the_rules, question, document};
ghost use Rattle.question_text.specs.Limits.{AreLimits};
ghost use Rattle.question_text.specs.Rules.{KeepsRules};
ghost use Rattle.question_text.specs.Answers.{Answers, IsToldBy, fault_of, Reads, Tells};
ghost use Rattle.question_text.specs.Views.{head_view, roles_view, rules_view};

use crate::goals::the_goal;
use crate::keys::{knows_only, required_bool, required_version, toml_table};
use crate::profiles::profiles;
use crate::question::Question;
use crate::question_error::QuestionError;
use crate::roles::{admin_roles, exclusive_pairs, role_edges, role_names};
use crate::rules::{assign_rules, revoke_rules};
use arbac_policy::{CanAssign, CanRevoke, Cond, Policy, Profile};
use role_order::{Order, RoleSet};
use std::alloc::Global;
use toml::Table;

/// The keys of a document.
const KNOWN_KEYS: [&str; 12] = [
    "version",
    "separate",
    "roles",
    "admin_roles",
    "edges",
    "exclusive",
    "can_assign",
    "can_revoke",
    "can_assignp",
    "can_revokep",
    "profile",
    "goal",
];

/// What the first keys say.
#[derive(Clone, Copy)]
pub struct Head {
    pub version: u32,
    pub separate: bool,
}

/// The role order, its administrative roles, and the exclusive pairs.
#[derive(Drop)]
pub struct Roles {
    pub order: Order,
    pub admins: RoleSet,
    pub exclusive: Vec<(u16, u16)>,
}

/// The administrative rules of the four tables.
#[derive(Drop)]
pub struct Rules {
    pub assign: Vec<CanAssign>,
    pub revoke: Vec<CanRevoke>,
    pub assignp: Vec<CanAssign>,
    pub revokep: Vec<CanRevoke>,
}

/// Reads the keys before the roles.
fn read_head(alloc: Global, table: &Table) -> Result<Head, QuestionError>
    ensures { Answers head_view (the_head (table_view table.now)) result }
{
    knows_only(alloc, &KNOWN_KEYS, table, "")?;
    let version = required_version(alloc, table, "", "version")?;
    let separate = required_bool(alloc, table, "", "separate")?;
    Ok(Head { version, separate })
}

/// Reads the keys of roles, edges and exclusive pairs.
fn read_roles(alloc: Global, head: &Head, table: &Table) -> Result<Roles, QuestionError>
    ensures { Answers roles_view (the_roles (head_view head.now) (table_view table.now)) result }
{
    let Head { version, separate } = *head;
    let named = role_names(alloc, table)?;
    let admins = admin_roles(alloc, &named, separate, table)?;
    let order = role_edges(alloc, &named, separate, &admins, table)?;
    let exclusive = exclusive_pairs(alloc, &order, version, separate, &admins, table)?;
    Ok(Roles {
        order,
        admins,
        exclusive,
    })
}

/// Reads the keys of administrative rules.
fn read_rules(
    alloc: Global,
    separate: bool,
    roles: &Roles,
    table: &Table,
) -> Result<Rules, QuestionError>
    ensures { Answers rules_view (the_rules separate roles.now.admins roles.now.order.names (table_view table.now)) result }
{
    let order = &roles.order;
    let admins = &roles.admins;
    let assign = assign_rules(alloc, order, separate, admins, table, "can_assign")?;
    let revoke = revoke_rules(alloc, order, separate, admins, table, "can_revoke")?;
    let assignp = assign_rules(alloc, order, separate, admins, table, "can_assignp")?;
    let revokep = revoke_rules(alloc, order, separate, admins, table, "can_revokep")?;
    Ok(Rules {
        assign,
        revoke,
        assignp,
        revokep,
    })
}

/// The policy of these parts.
fn policy_of(order: Order, rules: Rules, exclusive: Vec<(u16, u16)>) -> Policy
    requires known { IsPolicy (policies.policy_of order rules.assign.items rules.revoke.items rules.assignp.items rules.revokep.items exclusive.items) }
    requires few { AreCountable (policies.policy_of order rules.assign.items rules.revoke.items rules.assignp.items rules.revokep.items exclusive.items) }
    ensures { result ≡ policies.policy_of order rules.assign.items rules.revoke.items rules.assignp.items rules.revokep.items exclusive.items }
{
    let Rules {
        assign,
        revoke,
        assignp,
        revokep,
    } = rules;
    match Policy::new(order, assign, revoke, assignp, revokep, exclusive) {
        Some(policy) => policy,
        None => unreachable!(),
    }
}

/// Reads all keys, group by group.
fn read_table(alloc: Global, table: &Table, need_goal: bool) -> Result<Question, QuestionError>
    ensures { Answers plain_of (question need_goal (table_view table.now)) result }
{
    let head = read_head(alloc, table)?;
    let roles = read_roles(alloc, &head, table)?;
    let rules = read_rules(alloc, head.separate, &roles, table)?;
    let profiles = profiles(alloc, &roles.order, table)?;
    let goal = the_goal(alloc, &roles.order, need_goal, table)?;
    let Roles {
        order,
        admins,
        exclusive,
    } = roles;
    Ok(Question {
        policy: policy_of(order, rules, exclusive),
        separate: head.separate,
        admin_roles: admins,
        profiles,
        goal,
    })
}

/// Reads the bytes as TOML, and then its keys.
fn read(alloc: Global, bytes: &[u8], need_goal: bool) -> Result<Question, QuestionError>
    ensures { Answers plain_of (document need_goal bytes.now) result }
{
    let table = toml_table(alloc, bytes)?;
    read_table(alloc, &table, need_goal)
}

/// The question that the bytes stand for, or their first fault. Where a goal is needed it must be
/// there; one that is there is read in any case.
pub fn read_question(
    alloc: Global,
    bytes: &[u8],
    need_goal: bool,
) -> Result<Question, QuestionError>
    ensures value { IfOk result (λ q. document need_goal bytes.now (Ok (plain_of q))) }
    ensures kept { IfOk result (λ q. KeepsRules (plain_of q)) }
    ensures fault { IfErr result (λ e. IsToldBy (document need_goal bytes.now) (fault_of e)) }
    ensures only { (q : QuestionValue) → document need_goal bytes.now (Ok q) → Reads result q }
    ensures told { (fault : Fault) → document need_goal bytes.now (Err fault) → Tells result fault }
    ensures one { (left right : Result QuestionValue Fault) → document need_goal bytes.now left → document need_goal bytes.now right → left ≡ right }
    ensures limits { AreLimits }
{
    read(alloc, bytes, need_goal)
}
