//! A policy as the checker needs it.

ghost use Rattle.std.specs.Prelude.{◌≡◌, ◌≤◌, length, map, slice_get, Some, IfOk, IfSome, IfNone};
ghost use Rattle.cond_text.specs.Grammar.{term_count};
ghost use Rattle.cond_text.specs.declared.TheConstants.{MOST_TERMS};
ghost use Rattle.arbac_policy.specs.Truth.{term_of, IsKnown};
ghost use Rattle.arbac_policy.specs.declared.rule.CanAssign.{CanAssign};
ghost use Rattle.arbac_laws.specs.Conjuncts as conjunct_laws;
ghost use Rattle.arbac_laws.specs.Views.{needs_of};
ghost use Rattle.cert_check.specs.Rulebooks.{conjuncts_of, lists_of, AreNarrow};

use crate::NoMemory;
use arbac_policy::{Cond, Conjunct, Policy};
use arbac_rules::conjuncts;
use cert_needs::Exclusions;
use role_order::Order;
use std::alloc::{AllocError, Global};
use std::marker::Model;

/// A policy, which contracts see, with the conjuncts of each rule of `can_assign` and what its exclusive pairs bar, each
/// made once.
#[derive(Drop)]
pub struct Rulebook<'a> {
    exclusions: Exclusions<'a>,
    conjuncts: Vec<Vec<Conjunct>>,
}

impl<'a> Model for Rulebook<'a> {
    ghost use Rattle.std.specs.Prelude.{◌≡◌, map};
    ghost use Rattle.arbac_policy.specs.Rules.{Rules};
    ghost use Rattle.arbac_policy.specs.contracts.cond.Cond as e;
    ghost use Rattle.std.specs.Coded.{codes};
    ghost use Rattle.cert_check.specs.Rulebooks.{conjuncts_of, lists_of};

    ghost Value = { Rules };

    ghost coded = { Prim.hlevel (codes, e.the_row.coded) };

    ghost view = { λ p. p.exclusions };

    ghost invariant = { λ p. lists_of (λ list. list.items) p.conjuncts.items ≡ map (conjuncts_of p.exclusions) p.exclusions.assign };
}

/// The conjuncts of a condition. No rule or goal of a question has a condition with too many, so an error is want of memory.
pub fn few_conjuncts(alloc: Global, order: &Order, cond: &Cond) -> Result<Vec<Conjunct>, NoMemory>
    requires terms { term_count (term_of cond.now) ≤ MOST_TERMS }
    requires known { IsKnown (length order.now.names) (term_of cond.now) }
    ensures { IfOk result (λ list. needs_of list.items ≡ conjunct_laws.conjuncts order.now (term_of cond.now)) }
{
    match conjuncts(alloc, order, cond) {
        Ok(list) => Ok(list),
        Err(_) => Err(AllocError),
    }
}

/// The conjuncts of each rule of `can_assign`.
fn lists_for(alloc: Global, policy: &Policy) -> Result<Vec<Vec<Conjunct>>, NoMemory>
    requires { AreNarrow policy.now }
    ensures { IfOk result (λ lists. lists_of (λ list. list.items) lists.items ≡ map (conjuncts_of policy.now) policy.now.assign) }
{
    let rules = policy.assign();
    let mut lists = Vec::with_capacity(alloc, rules.len())?;
    for rule in rules {
        lists.push(few_conjuncts(alloc, policy.order(), &rule.cond)?)?;
    }
    Ok(lists)
}

impl<'a> Rulebook<'a> {
    /// The policy with the conjuncts of its rules.
    pub fn new(alloc: Global, policy: &'a Policy) -> Result<Rulebook<'a>, NoMemory>
        requires { AreNarrow policy.now }
        ensures { IfOk result (λ book. book ≡ policy.now) }
    {
        let conjuncts = lists_for(alloc, policy)?;
        let exclusions = Exclusions::new(alloc, policy)?;
        Ok(Rulebook {
            exclusions,
            conjuncts,
        })
    }

    /// The policy.
    pub fn policy(&self) -> &'a Policy
        ensures { result.now ≡ self.now }
    {
        self.exclusions.policy()
    }

    /// What the exclusive pairs bar.
    pub fn exclusions(&self) -> &Exclusions<'a>
        ensures { result.now ≡ self.now }
    {
        &self.exclusions
    }

    /// The conjuncts of the condition of the rule at the place of `can_assign`, if one stands there.
    pub fn conjuncts_at(&self, rule: usize) -> Option<&[Conjunct]>
        ensures list { IfSome result (λ list. (rule_is : CanAssign) × (slice_get self.now.assign rule ≡ Some rule_is)
            × (needs_of list.now ≡ conjuncts_of self.now rule_is)) }
        ensures there { IfNone result (length self.now.assign ≤ rule) }
    {
        match self.conjuncts.get(rule) {
            Some(list) => Some(list.as_slice()),
            None => None,
        }
    }
}
