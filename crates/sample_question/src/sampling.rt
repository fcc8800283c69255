//! The sample of a size.

ghost use Rattle.std.specs.Prelude.{◌≡◌, ◌≤◌, [], IfOk};
ghost use Rattle.arbac_policy.specs.Rules.{IsPolicy, AreCountable};
ghost use Rattle.arbac_policy.specs.Rules as policies;
ghost use Rattle.role_order.specs.declared.order.OrderError.TheVariants as refusals;
ghost use Rattle.question_text.specs.Values.{plain_of};
ghost use Rattle.question_text.specs.Rules.{KeepsRules};
ghost use Rattle.sample_question.specs.declared.TheConstants.{MOST_SIZE};
ghost use Rattle.sample_question.specs.Samples as samples;

use crate::NoMemory;
use crate::conditions::{ADMIN, goal, rules};
use crate::names::names;
use arbac_policy::{CanAssign, Policy, Profile};
use question_text::Question;
use role_order::{Order, OrderError, RoleSet};
use std::alloc::{AllocError, Global};

/// An error that is want of memory, as the error of this crate.
fn memory_of(error: OrderError) -> NoMemory
    requires { error ≡ refusals.Memory }
{
    match error {
        OrderError::Memory => AllocError,
        _ => unreachable!(),
    }
}

/// The order of the roles, of which no stands above another. The error is want of memory.
fn order_of(alloc: Global, size: u32) -> Result<Order, NoMemory>
    requires { size ≤ MOST_SIZE }
    ensures names { IfOk result (λ order. order.names ≡ samples.role_names size) }
    ensures edges { IfOk result (λ order. order.edges ≡ []) }
{
    let names = names(alloc, size)?;
    match Order::new(alloc, names, Vec::new(alloc)) {
        Ok(order) => Ok(order),
        Err(error) => Err(memory_of(error)),
    }
}

/// The policy of these rules alone.
fn policy_of(alloc: Global, order: Order, rules: Vec<CanAssign>) -> Policy
    requires known { IsPolicy (policies.policy_of order rules.items [] [] [] []) }
    requires few { AreCountable (policies.policy_of order rules.items [] [] [] []) }
    ensures { result ≡ policies.policy_of order rules.items [] [] [] [] }
{
    let policy = Policy::new(
        order,
        rules,
        Vec::new(alloc),
        Vec::new(alloc),
        Vec::new(alloc),
        Vec::new(alloc),
    );
    match policy {
        Some(policy) => policy,
        None => unreachable!(),
    }
}

/// The policy of the sample.
fn policy(alloc: Global, size: u32) -> Result<Policy, NoMemory>
    requires { size ≤ MOST_SIZE }
    ensures { IfOk result (samples.IsPolicyOf size) }
{
    let order = order_of(alloc, size)?;
    let given = rules(alloc, size)?;
    Ok(policy_of(alloc, order, given))
}

/// The sample.
fn question(alloc: Global, size: u32) -> Result<Question, NoMemory>
    requires some { 1 ≤ size }
    requires few { size ≤ MOST_SIZE }
    ensures { IfOk result (λ question. plain_of question ≡ samples.sample size) }
{
    let policy = policy(alloc, size)?;
    let profile = Profile {
        set: RoleSet::empty().with(ADMIN),
        most: None,
    };
    let wanted = goal(alloc, size)?;
    Ok(Question {
        policy,
        separate: false,
        admin_roles: RoleSet::empty(),
        profiles: vec![in alloc; profile]?,
        goal: vec![in alloc; wanted]?,
    })
}

/// The question of this size: one administrator role, two roles and two rules for each place, any number of users who start
/// as administrators, and one user wanted who has all roles `k`. The error is want of memory.
pub fn sample(alloc: Global, size: u32) -> Result<Question, NoMemory>
    requires some { 1 ≤ size }
    requires few { size ≤ MOST_SIZE }
    ensures question { IfOk result (λ question. plain_of question ≡ samples.sample size) }
    ensures rules { IfOk result (λ question. KeepsRules (plain_of question)) }
    ensures most { MOST_SIZE ≡ 58 }
{
    question(alloc, size)
}
