//! Rules and the goal of a sample.

ghost use Rattle.std.specs.Prelude.{◌≡◌, ◌≤◌, ◌<◌, IfOk, map};
ghost use Rattle.arbac_policy.specs.Truth.{term_of, has, lacks, both};
ghost use Rattle.arbac_policy.specs.PlainRules.{plain_rule};
ghost use Rattle.sample_question.specs.declared.TheConstants.{MOST_SIZE};
ghost use Rattle.sample_question.specs.Samples as samples;

use crate::NoMemory;
use arbac_policy::{CanAssign, Cond};
use role_order::Range;
use sqlite_items::Boxed;
use std::alloc::Global;

/// The role that all administer.
pub const ADMIN: u16 = 0;

/// The number of the role `k` of this place.
fn key(at: u32) -> u16
    requires { at < MOST_SIZE }
    ensures { result ≡ samples.key at }
{
    (1 + 2 * at) as u16
}

/// The number of the role `x` of this place.
fn extra(at: u32) -> u16
    requires { at < MOST_SIZE }
    ensures { result ≡ samples.extra at }
{
    (2 + 2 * at) as u16
}

/// The rule that gives the role alone, by the condition.
fn rule(cond: Cond, role: u16) -> CanAssign
    ensures { plain_rule result ≡ samples.rule (term_of cond) role }
{
    CanAssign {
        admin: ADMIN,
        cond,
        range: Range {
            low: role,
            high: role,
            low_open: false,
            high_open: false,
        },
    }
}

/// The rule that gives the role to those who have the other.
fn has_rule(other: u16, role: u16) -> CanAssign
    ensures { plain_rule result ≡ samples.rule (has other) role }
{
    rule(Cond::Has(other), role)
}

/// The rule that gives the role to those who lack the other.
fn lacks_rule(other: u16, role: u16) -> CanAssign
    ensures { plain_rule result ≡ samples.rule (lacks other) role }
{
    rule(Cond::Lacks(other), role)
}

/// The place behind this one, and the first behind the last.
fn next(size: u32, at: u32) -> u32
    requires there { at < size }
    requires few { size ≤ MOST_SIZE }
    ensures { result ≡ samples.next size at }
{
    if at + 1 == size { 0 } else { at + 1 }
}

/// Of each place: `k` is given to those who have `x`, and `x` to those who lack the next `k`.
pub fn rules(alloc: Global, size: u32) -> Result<Vec<CanAssign>, NoMemory>
    requires { size ≤ MOST_SIZE }
    ensures { IfOk result (λ rules. map plain_rule rules.items ≡ samples.rules size) }
{
    let mut rules = Vec::new(alloc);
    for at in 0..size {
        let behind = next(size, at);
        rules.push(has_rule(extra(at), key(at)))?;
        rules.push(lacks_rule(key(behind), extra(at)))?;
    }
    Ok(rules)
}

/// The condition, and the role too.
fn and_role(alloc: Global, cond: Cond, role: u16) -> Result<Cond, NoMemory>
    ensures { IfOk result (λ more. term_of more ≡ both (term_of cond) (has role)) }
{
    let more = Cond::Has(role);
    Ok(Cond::And(Boxed::new(alloc, cond)?, Boxed::new(alloc, more)?))
}

/// `k0 and k1 and ..`, as many as the size.
pub fn goal(alloc: Global, size: u32) -> Result<Cond, NoMemory>
    requires some { 1 ≤ size }
    requires few { size ≤ MOST_SIZE }
    ensures { IfOk result (λ cond. term_of cond ≡ samples.goal size) }
{
    let mut cond = Cond::Has(key(0));
    for at in 1..size {
        cond = and_role(alloc, cond, key(at))?;
    }
    Ok(cond)
}
