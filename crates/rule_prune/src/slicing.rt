//! The rules that can matter for a goal.

ghost use Rattle.std.specs.Prelude.{◌≡◌, ◌≤◌, ◌<◌, ◌^◌, ◌↔◌, IsTrue, List, None, length, map, IfOk, IfErr};
ghost use Rattle.list_words.specs.Lists.{Each, IsOneOf};
ghost use Rattle.role_order.specs.declared.range.Range.{Range};
ghost use Rattle.arbac_policy.specs.Truth.{term_of, IsKnown};
ghost use Rattle.arbac_policy.specs.Rules.{IsKnownRange};
ghost use Rattle.cond_text.specs.Grammar.{term_count};
ghost use Rattle.arbac_laws.specs.Needs.{Need};
ghost use Rattle.arbac_laws.specs.Obligations.{Obligation, obligations};
ghost use Rattle.arbac_laws.specs.Relevance.{IsDerived};
ghost use Rattle.arbac_rules.specs.Widths as widths;
ghost use Rattle.rule_prune.specs.Relevant.{RangeMeets};
ghost use Rattle.rule_prune.specs.Slicing.{IsSliceOf, NamesRule, IsTooMany, ArePlacesWhere};

use crate::answers::{Slice, SliceError};
use crate::closing::relevant_roles;
use arbac_policy::{CanAssign, CanRevoke, Cond, Policy};
use arbac_rules::too_many;
use cond_text::MOST_TERMS;
use req_pre::Prepared;
use role_order::{Order, Range, RoleSet};
use std::alloc::{AllocError, Global};

/// A rule with a range.
trait Ranged {
    /// The range.
    ghost range_of: { Self → Range };

    fn range(&self) -> Range
        ensures { result ≡ range_of self.now };
}

impl Ranged for CanAssign {
    ghost range_of = { λ rule. rule.range };

    fn range(&self) -> Range {
        self.range
    }
}

impl Ranged for CanRevoke {
    ghost range_of = { λ rule. rule.range };

    fn range(&self) -> Range {
        self.range
    }
}

/// Whether a role of the range is one of these.
fn range_meets(order: &Order, range: &Range, roles: &RoleSet) -> bool
    requires { IsKnownRange (length order.now.names) range.now }
    ensures { IsTrue result ↔ RangeMeets order.now range.now roles.now }
{
    order.roles_of(range).meets(roles)
}

/// The places of the rules that have one of the roles in their range.
fn places_with<R: Ranged>(
    alloc: Global,
    order: &Order,
    rules: &[R],
    roles: &RoleSet,
) -> Result<Vec<u32>, AllocError>
    requires known { Each (λ rule. IsKnownRange (length order.now.names) (R.range_of rule)) rules.now }
    requires few { length rules.now < 2 ^ 32 }
    ensures { IfOk result (λ places. ArePlacesWhere (λ rule. RangeMeets order.now (R.range_of rule) roles.now) rules.now places.items) }
{
    let mut places = Vec::new(alloc);
    for (place, rule) in rules.iter().enumerate() {
        if range_meets(order, &rule.range(), roles) {
            places.push(place as u32)?;
        }
    }
    Ok(places)
}

/// The slice of a goal, however wide.
fn slice_of(alloc: Global, policy: &Policy, goal: &[Cond]) -> Result<Slice, AllocError>
    requires { Each (λ cond. IsKnown (length policy.now.order.names) (term_of cond)) goal.now }
    ensures { IfOk result (IsSliceOf policy.now (map term_of goal.now)) }
{
    policy.law();
    let order = policy.order();
    let roles = relevant_roles(alloc, policy, goal)?;
    let assign = places_with(alloc, order, policy.assign(), &roles.wanted)?;
    let revoke = places_with(alloc, order, policy.revoke(), &roles.barred)?;
    Ok(Slice { assign, revoke })
}

/// The places of the rules that can matter for the goal (this project): the least that are closed under what rules,
/// their conditions and exclusive pairs ask for. Whatever a search backwards from the goal comes to, each
/// of its acts is by one of these rules.
pub fn slice(alloc: Global, prepared: &Prepared, goal: &[Cond]) -> Result<Slice, SliceError>
    requires terms { Each (λ cond. term_count (term_of cond) ≤ MOST_TERMS) goal.now }
    requires known { Each (λ cond. IsKnown (length prepared.now.order.names) (term_of cond)) goal.now }
    ensures least { IfOk result (IsSliceOf prepared.now (map term_of goal.now)) }
    ensures relevant { IfOk result (λ slice. (needs : List Need) → IsDerived prepared.now (map term_of goal.now) needs →
        (ob : Obligation) → IsOneOf (obligations prepared.now needs) ob → NamesRule slice ob) }
    ensures few { IfOk result (λ _. widths.too_many (map term_of goal.now) ≡ None) }
    ensures wide { IfErr result (IsTooMany (map term_of goal.now)) }
{
    let policy = prepared.policy();
    policy.order().is_order();
    if let Some(count) = too_many(goal) {
        return Err(SliceError::TooWide { count });
    }
    match slice_of(alloc, policy, goal) {
        Ok(slice) => Ok(slice),
        Err(_) => Err(SliceError::Memory),
    }
}
