//! What exclusive pairs bar, role by role.

ghost use Rattle.std.specs.Prelude.{ℕ, ◌≡◌, ◌<◌, [], if◌then◌else◌, length, slice_get, Some, IfOk};
ghost use Rattle.list_words.specs.Lists.{Each};
ghost use Rattle.role_order.specs.Reach.{seniors_of};
ghost use Rattle.role_order.specs.Roles.{has_role};
ghost use Rattle.arbac_policy.specs.Rules.{IsKnownPair};
ghost use Rattle.arbac_laws.specs.PreImages as laws;

use crate::NoMemory;
use arbac_policy::Policy;
use role_order::{Order, RoleSet};
use std::alloc::{AllocError, Global};
use std::marker::Model;

/// A policy, which contracts see, and what its exclusive pairs bar: they are gone through once for each role, and not for
/// each act.
#[derive(Drop)]
pub struct Exclusions<'a> {
    policy: &'a Policy,
    /// By role, what is barred from whoever is given it.
    bars: Vec<RoleSet>,
    /// The roles that nobody can be given who lacks them.
    closed: RoleSet,
}

impl<'a> Model for Exclusions<'a> {
    ghost use Rattle.arbac_policy.specs.Rules.{Rules};
    ghost use Rattle.arbac_policy.specs.contracts.cond.Cond as e;
    ghost use Rattle.std.specs.Coded.{codes};
    ghost use Rattle.cert_needs.specs.Exclusions.{AreExclusions};

    ghost Value = { Rules };

    ghost coded = { Prim.hlevel (codes, e.the_row.coded) };

    ghost view = { λ x. x.policy.now };

    ghost invariant = { λ x. AreExclusions x.policy.now.order x.policy.now.exclusive x.bars.items x.closed };
}

/// Whether the role is above both roles of a pair.
fn is_barred(order: &Order, role: u16, pairs: &[(u16, u16)]) -> bool
    requires { Each (IsKnownPair (length order.now.names)) pairs.now }
    ensures { result ≡ laws.is_barred order.now role pairs.now }
{
    for &pair in pairs {
        if order.seniors(pair.0).has(role) && order.seniors(pair.1).has(role) {
            return true;
        }
    }
    false
}

/// What is above the second, where the role is above the first.
fn barred_by(order: &Order, role: u16, first: u16, second: u16) -> RoleSet
    requires first { first < length order.now.names }
    requires second { second < length order.now.names }
    ensures { result ≡ (if has_role (seniors_of order.now first) role then seniors_of order.now second else []) }
{
    if order.seniors(first).has(role) {
        order.seniors(second)
    } else {
        RoleSet::empty()
    }
}

/// What the pairs bar from whoever is given the role.
fn barred(order: &Order, role: u16, pairs: &[(u16, u16)]) -> RoleSet
    requires { Each (IsKnownPair (length order.now.names)) pairs.now }
    ensures { result ≡ laws.barred order.now role pairs.now }
{
    let mut all = RoleSet::empty();
    for at in (0..pairs.len()).rev() {
        let pair = pairs[at];
        let second = barred_by(order, role, pair.1, pair.0).join(&all);
        all = barred_by(order, role, pair.0, pair.1).join(&second);
    }
    all
}

/// By role, what the pairs bar from whoever is given it.
fn all_bars(alloc: Global, order: &Order, pairs: &[(u16, u16)]) -> Result<Vec<RoleSet>, AllocError>
    requires { Each (IsKnownPair (length order.now.names)) pairs.now }
    ensures long { IfOk result (λ bars. length bars.items ≡ length order.now.names) }
    ensures bars { IfOk result (λ bars. (role : ℕ) → role < length order.now.names
        → slice_get bars.items role ≡ Some (laws.barred order.now role pairs.now)) }
{
    let count = order.count();
    let mut bars = Vec::with_capacity(alloc, count as usize)?;
    for role in 0..count {
        bars.push(barred(order, role, pairs))?;
    }
    Ok(bars)
}

/// The roles that are above both roles of a pair.
fn closed_roles(order: &Order, pairs: &[(u16, u16)]) -> RoleSet
    requires { Each (IsKnownPair (length order.now.names)) pairs.now }
    ensures { (role : ℕ) → role < length order.now.names → has_role result role ≡ laws.is_barred order.now role pairs.now }
{
    let count = order.count();
    let mut closed = RoleSet::empty();
    for role in 0..count {
        if is_barred(order, role, pairs) {
            closed = closed.with(role);
        }
    }
    closed
}

impl<'a> Exclusions<'a> {
    /// What the policy's exclusive pairs bar.
    pub fn new(alloc: Global, policy: &'a Policy) -> Result<Exclusions<'a>, NoMemory>
        ensures { IfOk result (λ made. made ≡ policy.now) }
    {
        let order = policy.order();
        let pairs = policy.exclusive();
        let bars = all_bars(alloc, order, pairs)?;
        let closed = closed_roles(order, pairs);
        Ok(Exclusions {
            policy,
            bars,
            closed,
        })
    }

    /// The policy.
    pub fn policy(&self) -> &'a Policy
        ensures { result.now ≡ self.now }
    {
        self.policy
    }

    /// What the pairs bar from whoever is given the role.
    pub fn bars(&self, role: u16) -> RoleSet
        requires { role < length self.now.order.names }
        ensures { result ≡ laws.barred self.now.order role self.now.exclusive }
    {
        self.bars[role as usize]
    }

    /// Whether the role is above both roles of a pair, so that nobody who lacks it can be given it.
    pub fn is_closed(&self, role: u16) -> bool
        requires { role < length self.now.order.names }
        ensures { result ≡ laws.is_barred self.now.order role self.now.exclusive }
    {
        self.closed.has(role)
    }
}
