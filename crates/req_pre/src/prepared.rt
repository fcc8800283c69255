//! A policy with the conjuncts of its rules.

ghost use Rattle.std.specs.Prelude.{◌≡◌, ◌≤◌, ◌<◌, ℕ, length, map, slice_get, Some, IfOk, IfErr, IfSome, IfNone};
ghost use Rattle.list_words.specs.Lists.{Each};
ghost use Rattle.arbac_policy.specs.Rules.{IsPolicy};
ghost use Rattle.arbac_policy.specs.declared.rule.CanAssign.{CanAssign};
ghost use Rattle.arbac_laws.specs.PreImages as laws;
ghost use Rattle.arbac_laws.specs.Views.{needs_of};
ghost use Rattle.req_pre.specs.Preparing.{conjuncts_of, AreShort, IsWide, IsTooWide};
ghost use Rattle.req_pre.specs.Views.{lists_of};

use crate::answers::PrepareError;
use crate::exclusions::{all_bars, closed_roles};
use arbac_policy::Policy;
use arbac_rules::{Conjunct, WideError, conjuncts};
use role_order::RoleSet;
use std::alloc::Global;
use std::marker::Model;

/// A policy, which contracts see, and what is made of it once: the conjuncts of each of its rules of `can_assign`, and what
/// its exclusive pairs bar.
#[derive(Drop)]
pub struct Prepared {
    policy: Policy,
    conjuncts: Vec<Vec<Conjunct>>,
    /// By role, what is barred from whoever is given it.
    bars: Vec<RoleSet>,
    /// The roles that nobody can be given who lacks them.
    closed: RoleSet,
}

impl Model for Prepared {
    ghost use Rattle.std.specs.Prelude.{◌≡◌, map};
    ghost use Rattle.arbac_policy.specs.Rules.{Rules};
    ghost use Rattle.arbac_policy.specs.contracts.cond.Cond as e;
    ghost use Rattle.std.specs.Coded.{codes};
    ghost use Rattle.req_pre.specs.Preparing.{conjuncts_of, AreExclusions};
    ghost use Rattle.req_pre.specs.Views.{lists_of};

    ghost Value = { Rules };

    ghost coded = { Prim.hlevel (codes, e.the_row.coded) };

    ghost view = { λ p. p.policy };

    ghost invariant = { λ p. (lists_of p.conjuncts.items ≡ map (conjuncts_of p.policy) p.policy.assign)
        × AreExclusions p.policy.order p.policy.exclusive p.bars.items p.closed };
}

/// The conjuncts of each rule of `can_assign`.
fn lists_for(alloc: Global, policy: &Policy) -> Result<Vec<Vec<Conjunct>>, PrepareError>
    requires { AreShort policy.now }
    ensures lists { IfOk result (λ lists. lists_of lists.items ≡ map (conjuncts_of policy.now) policy.now.assign) }
    ensures narrow { IfOk result (λ _. Each (λ rule. ¬ IsWide rule) policy.now.assign) }
    ensures wide { IfErr result (IsTooWide policy.now) }
{
    let order = policy.order();
    let mut lists = Vec::new(alloc);
    for (place, rule) in policy.assign().iter().enumerate() {
        match conjuncts(alloc, order, &rule.cond) {
            Ok(list) => lists.push(list)?,
            Err(WideError::TooWide { count }) => {
                return Err(PrepareError::TooWide {
                    rule: place as u32,
                    count,
                });
            }
            Err(WideError::Memory) => return Err(PrepareError::Memory),
        }
    }
    Ok(lists)
}

impl Prepared {
    /// The policy with the conjuncts of its rules. Refused is the first rule whose condition has too many.
    pub fn new(alloc: Global, policy: Policy) -> Result<Prepared, PrepareError>
        requires { AreShort policy }
        ensures policy { IfOk result (λ made. made ≡ policy) }
        ensures narrow { IfOk result (λ _. Each (λ rule. ¬ IsWide rule) policy.assign) }
        ensures wide { IfErr result (IsTooWide policy) }
    {
        let conjuncts = lists_for(alloc, &policy)?;
        let bars = all_bars(alloc, &policy)?;
        let closed = closed_roles(&policy);
        Ok(Prepared {
            policy,
            conjuncts,
            bars,
            closed,
        })
    }

    /// The policy.
    pub fn policy(&self) -> &Policy
        ensures { result.now ≡ self.now }
    {
        &self.policy
    }

    /// The conjuncts of the condition of the rule at the place of `can_assign`, if one stands there.
    pub fn conjuncts_at(&self, rule: usize) -> Option<&[Conjunct]>
        ensures list { IfSome result (λ list. (rule_is : CanAssign) × (slice_get self.now.assign rule ≡ Some rule_is)
            × (needs_of list.now ≡ conjuncts_of self.now rule_is)) }
        ensures there { IfNone result (length self.now.assign ≤ rule) }
    {
        match self.conjuncts.get(rule) {
            Some(list) => Some(list.as_slice()),
            None => None,
        }
    }

    /// What the exclusive pairs bar from whoever is given the role; nothing where that is no role.
    pub fn bars(&self, role: u16) -> RoleSet
        ensures { result ≡ laws.barred self.now.order role self.now.exclusive }
    {
        match self.bars.get(role as usize) {
            Some(set) => *set,
            None => RoleSet::empty(),
        }
    }

    /// Whether the role is above both roles of a pair, so that nobody who lacks it can be given it.
    pub fn is_closed(&self, role: u16) -> bool
        ensures { result ≡ laws.is_barred self.now.order role self.now.exclusive }
    {
        self.closed.has(role)
    }
}
