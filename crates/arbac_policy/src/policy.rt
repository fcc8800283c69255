//! Policies.

ghost use Rattle.std.specs.Prelude.{◌≡◌, ◌<◌, ◌↔◌, IsTrue, IfSome, IfNone};
ghost use Rattle.list_words.specs.Lists.{Each};
ghost use Rattle.arbac_policy.specs.Truth.{term_of, IsKnown};
ghost use Rattle.arbac_policy.specs.Rules.{IsPolicy, AreCountable, policy_of, IsKnownRange, IsKnownAssign, IsKnownRevoke, IsKnownPair};

use crate::cond::Cond;
use crate::rule::{CanAssign, CanRevoke};
use role_order::{Order, Range};
use std::marker::Model;

/// A role order, its rules for users (URA97) and for permissions (PRA97), and its exclusive pairs.
#[derive(Drop)]
pub struct Policy {
    order: Order,
    assign: Vec<CanAssign>,
    revoke: Vec<CanRevoke>,
    assignp: Vec<CanAssign>,
    revokep: Vec<CanRevoke>,
    exclusive: Vec<(u16, u16)>,
}

impl Model for Policy {
    ghost use Rattle.arbac_policy.specs.Rules.{Rules, IsPolicy, AreCountable};
    ghost use Rattle.arbac_policy.specs.contracts.cond.Cond as e;
    ghost use Rattle.std.specs.Coded.{codes};

    ghost Value = { Rules };

    ghost coded = { Prim.hlevel (codes, e.the_row.coded) };

    ghost use Rattle.arbac_policy.specs.Policies.{rules_of};

    ghost view = { rules_of };

    ghost invariant = { λ p. IsPolicy (rules_of p) × AreCountable (rules_of p) };
}

fn is_known(count: u16, cond: &Cond) -> bool
    ensures { IsTrue result ↔ IsKnown count (term_of cond.now) }
{
    match cond {
        Cond::Any => true,
        Cond::Has(role) => *role < count,
        Cond::Lacks(role) => *role < count,
        Cond::And(left, right) => is_known(count, left.get()) && is_known(count, right.get()),
        Cond::Or(left, right) => is_known(count, left.get()) && is_known(count, right.get()),
    }
}

fn is_known_range(count: u16, range: &Range) -> bool
    ensures { IsTrue result ↔ IsKnownRange count range.now }
{
    range.low < count && range.high < count
}

fn is_known_assign(count: u16, rule: &CanAssign) -> bool
    ensures { IsTrue result ↔ IsKnownAssign count rule.now }
{
    rule.admin < count && is_known(count, &rule.cond) && is_known_range(count, &rule.range)
}

fn is_known_revoke(count: u16, rule: &CanRevoke) -> bool
    ensures { IsTrue result ↔ IsKnownRevoke count rule.now }
{
    rule.admin < count && is_known_range(count, &rule.range)
}

fn are_known_assigns(count: u16, rules: &[CanAssign]) -> bool
    ensures { IsTrue result ↔ Each (IsKnownAssign count) rules.now }
{
    for rule in rules {
        if !is_known_assign(count, rule) {
            return false;
        }
    }
    true
}

fn are_known_revokes(count: u16, rules: &[CanRevoke]) -> bool
    ensures { IsTrue result ↔ Each (IsKnownRevoke count) rules.now }
{
    for rule in rules {
        if !is_known_revoke(count, rule) {
            return false;
        }
    }
    true
}

fn is_known_pair(count: u16, pair: (u16, u16)) -> bool
    ensures { IsTrue result ↔ IsKnownPair count pair }
{
    pair.0 < count && pair.1 < count
}

fn are_known_pairs(count: u16, pairs: &[(u16, u16)]) -> bool
    ensures { IsTrue result ↔ Each (IsKnownPair count) pairs.now }
{
    for &pair in pairs {
        if !is_known_pair(count, pair) {
            return false;
        }
    }
    true
}

impl Policy {
    /// The policy of these parts; none where, and only where, a rule or pair has a number that is no role's.
    pub fn new(
        order: Order,
        assign: Vec<CanAssign>,
        revoke: Vec<CanRevoke>,
        assignp: Vec<CanAssign>,
        revokep: Vec<CanRevoke>,
        exclusive: Vec<(u16, u16)>,
    ) -> Option<Policy>
        requires few { AreCountable (policy_of order assign.items revoke.items assignp.items revokep.items exclusive.items) }
        ensures parts { IfSome result (λ policy. policy ≡ record {
          order = order;
          assign = assign.items;
          revoke = revoke.items;
          assignp = assignp.items;
          revokep = revokep.items;
          exclusive = exclusive.items;
        }) }
        ensures known { IfSome result IsPolicy }
        ensures none { IfNone result (¬ IsPolicy record {
          order = order;
          assign = assign.items;
          revoke = revoke.items;
          assignp = assignp.items;
          revokep = revokep.items;
          exclusive = exclusive.items;
        }) }
    {
        let count = order.count();
        if are_known_assigns(count, &assign)
            && are_known_revokes(count, &revoke)
            && are_known_assigns(count, &assignp)
            && are_known_revokes(count, &revokep)
            && are_known_pairs(count, &exclusive)
        {
            Some(Policy {
                order,
                assign,
                revoke,
                assignp,
                revokep,
                exclusive,
            })
        } else {
            None
        }
    }

    /// What every policy keeps: its numbers are roles of its order, and its tables' places have 32 bits.
    /// It only says so.
    pub fn law(&self)
        ensures known { IsPolicy self.now }
        ensures few { AreCountable self.now }
    {
        let _ = &self.order;
    }

    /// The role order.
    pub fn order(&self) -> &Order
        ensures order { result.now ≡ self.now.order }
        ensures known { IsPolicy self.now }
        ensures few { AreCountable self.now }
    {
        &self.order
    }

    /// The rules of `can_assign`.
    pub fn assign(&self) -> &[CanAssign]
        ensures { result.now ≡ self.now.assign }
    {
        &self.assign
    }

    /// The rules of `can_revoke`.
    pub fn revoke(&self) -> &[CanRevoke]
        ensures { result.now ≡ self.now.revoke }
    {
        &self.revoke
    }

    /// The rules of `can_assignp`.
    pub fn assignp(&self) -> &[CanAssign]
        ensures { result.now ≡ self.now.assignp }
    {
        &self.assignp
    }

    /// The rules of `can_revokep`.
    pub fn revokep(&self) -> &[CanRevoke]
        ensures { result.now ≡ self.now.revokep }
    {
        &self.revokep
    }

    /// The exclusive pairs of roles.
    pub fn exclusive(&self) -> &[(u16, u16)]
        ensures { result.now ≡ self.now.exclusive }
    {
        &self.exclusive
    }
}
