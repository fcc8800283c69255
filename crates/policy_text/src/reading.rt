//! Reading run texts.

ghost use Rattle.std.specs.Prelude.{ℕ, ◌≡◌, ◌<◌, ◌≤◌, ◌+◌, ◌^◌, [], List, length, vec_len, IfOk, IfErr};
ghost use Rattle.role_order.specs.Names.{texts};
ghost use Rattle.role_order.specs.Refusals.{IsOrder};
ghost use Rattle.arbac_policy.specs.Rules as rules;
ghost use Rattle.arbac_policy.specs.Rules.{IsPolicy, AreCountable};
ghost use Rattle.policy_text.specs.declared.run_error.RunError.{RunError};
ghost use Rattle.policy_text.specs.Limits.{AreLimits};
ghost use Rattle.policy_text.specs.Runs.{RunValue, StandsFor, Reads, plain_of, IsForUsers, KeepsLimits, AreKnownGoals};
ghost use Rattle.policy_text.specs.Faults.{IsFirstFault, IsRefused, Tells};
ghost use Rattle.policy_text.specs.Steps.{IsOrderTold, run_view};

use crate::body::{Body, read_body};
use crate::listing::{Listed, Listing, read_listing};
use crate::run::Run;
use crate::run_error::RunError;
use arbac_policy::{CanAssign, CanRevoke, Policy};
use cond_text::cut;
use role_order::{Order, OrderError};
use std::alloc::Global;
use text_lines::is;

/// The role order of the names and edges.
fn order_of(alloc: Global, listing: Listing) -> Result<Order, RunError>
    requires names { vec_len listing.names < 2 ^ 32 }
    requires edges { vec_len listing.edges < 2 ^ 32 }
    ensures names { IfOk result (λ order. order.names ≡ texts listing.names.items) }
    ensures edges { IfOk result (λ order. order.edges ≡ listing.edges.items) }
    ensures order { IfOk result (λ order. IsOrder order.names order.edges) }
    ensures refused { IfErr result (IsOrderTold (texts listing.names.items) listing.edges.items) }
{
    let Listing { names, edges } = listing;
    match Order::new(alloc, names, edges) {
        Ok(order) => Ok(order),
        Err(OrderError::Memory) => Err(RunError::Memory),
        Err(error) => Err(RunError::Order(error)),
    }
}

/// The policy of these rules for users, without rules for permissions and without exclusive pairs.
fn policy_of(alloc: Global, order: Order, assign: Vec<CanAssign>, revoke: Vec<CanRevoke>) -> Policy
    requires known { IsPolicy (rules.policy_of order assign.items revoke.items [] [] []) }
    requires few { AreCountable (rules.policy_of order assign.items revoke.items [] [] []) }
    ensures { result ≡ rules.policy_of order assign.items revoke.items [] [] [] }
{
    let policy = Policy::new(
        order,
        assign,
        revoke,
        Vec::new(alloc),
        Vec::new(alloc),
        Vec::new(alloc),
    );
    match policy {
        Some(policy) => policy,
        None => unreachable!(),
    }
}

fn run_of(alloc: Global, order: Order, body: Body) -> Run
    requires known { IsPolicy (rules.policy_of order body.assign.items body.revoke.items [] [] []) }
    requires few { AreCountable (rules.policy_of order body.assign.items body.revoke.items [] [] []) }
    ensures run { plain_of result ≡ run_view order body }
    ensures rules { result.policy ≡ rules.policy_of order body.assign.items body.revoke.items [] [] [] }
{
    let Body {
        assign,
        revoke,
        start,
        acts,
        goal,
    } = body;
    Run {
        policy: policy_of(alloc, order, assign, revoke),
        start,
        acts,
        goal,
    }
}

/// The run of a text whose lines can be counted in 32 bits.
fn read_short(alloc: Global, bytes: &[u8]) -> Result<Run, RunError>
    requires { length bytes.now < 2 ^ 32 }
    ensures found { IfOk result (λ run. StandsFor bytes.now (plain_of run)) }
    ensures users { IfOk result (λ run. IsForUsers run.policy) }
    ensures first { IfErr result (IsRefused bytes.now) }
{
    let Some((line, rest)) = cut(bytes, b'\n') else {
        return Err(RunError::Order(OrderError::NoRoles));
    };
    if !is(line, "run 1") {
        return Err(RunError::BadLine { line: 1 });
    }
    let Listed {
        listing,
        rest,
        number,
    } = read_listing(alloc, rest)?;
    let order = order_of(alloc, listing)?;
    let body = read_body(alloc, &order, rest, number)?;
    Ok(run_of(alloc, order, body))
}

fn read(alloc: Global, bytes: &[u8]) -> Result<Run, RunError>
    ensures found { IfOk result (λ run. StandsFor bytes.now (plain_of run)) }
    ensures users { IfOk result (λ run. IsForUsers run.policy) }
    ensures first { IfErr result (IsRefused bytes.now) }
{
    // Lines are counted in 32 bits.
    if bytes.len() > u32::MAX as usize {
        return Err(RunError::Memory);
    }
    read_short(alloc, bytes)
}

/// The run that the text stands for, or its first fault.
///
/// Lines end in LF and stand in this order: `run 1`; `role NAME`; `edge SENIOR JUNIOR`;
/// `assign ADMIN RANGE CONDITION`; `revoke ADMIN RANGE`; `user ROLE ROLE ..`;
/// `act KIND ADMIN TARGET ROLE`, users by place from 0; `goal CONDITION`; `end`. Words are
/// separated by one space. The form is this project's own.
/// A text of 2^32 bytes or more is `Memory`, since lines are counted in 32 bits.
pub fn read_run(alloc: Global, bytes: &[u8]) -> Result<Run, RunError>
    // What is read is what the text stands for.
    ensures found { IfOk result (λ run. StandsFor bytes.now (plain_of run)) }
    // It has no rules for permissions and no exclusive pairs.
    ensures users { IfOk result (λ run. IsForUsers run.policy) }
    // Its tables keep their limits, and its goal has conditions, each on roles of the order.
    ensures few { IfOk result (λ run. KeepsLimits (plain_of run)) }
    ensures goal { IfOk result (λ run. 1 ≤ length run.goal.items) }
    ensures known { IfOk result (λ run. AreKnownGoals (plain_of run)) }
    // A text that stands for a run is read as that run.
    ensures only { (run : RunValue) → StandsFor bytes.now run → Reads result run }
    // An error is the first fault.
    ensures first { IfErr result (IsRefused bytes.now) }
    // A text that has a first fault is refused with it.
    ensures told { (fault : RunError) → IsFirstFault bytes.now fault → Tells result fault }
    // A text stands for one run at most.
    ensures one { (left right : RunValue) → StandsFor bytes.now left → StandsFor bytes.now right → left ≡ right }
    // The limits by number.
    ensures limits { AreLimits }
{
    read(alloc, bytes)
}
