//! Which rule or pair is the first that fits.

ghost use Rattle.std.specs.Prelude.{◌≡◌, ◌<◌, ◌^◌, ◌↔◌, IsTrue, IfSome, IfNone, length};
ghost use Rattle.list_words.specs.Lists.{Each, Some_of, IsFirst};
ghost use Rattle.role_order.specs.Ranges.{IsInRange};
ghost use Rattle.role_order.specs.Roles.{with_role};
ghost use Rattle.arbac_policy.specs.Truth.{IsMember};
ghost use Rattle.arbac_policy.specs.Rules.{IsKnownAssign, IsKnownRevoke, IsKnownPair};
ghost use Rattle.arbac_policy.specs.Holders.{assign_rules, revoke_rules};
ghost use Rattle.arbac_policy.specs.Steps.{Blocks, LetsAssign, LetsRevoke};
ghost use Rattle.arbac_policy.specs.Verdicts.{FitsRule};
ghost use Rattle.ura_core.specs.Placed.{IsPlaced};
ghost use Rattle.ura_core.specs.Searched.{HasNoneBefore};

use crate::criterion::{Criterion, first_met, some_met};
use crate::placed::Placed;
use arbac_policy::{CanAssign, CanRevoke, On, Policy, is_member, is_true};
use role_order::{Order, Range, RoleSet};

/// The rules by which roles are given.
fn assign_of(on: On, policy: &Policy) -> &[CanAssign]
    ensures rules { result.now ≡ assign_rules on policy.now }
    ensures known { Each (IsKnownAssign (length policy.now.order.names)) result.now }
    ensures few { length result.now < 2 ^ 32 }
{
    policy.law();
    match on {
        On::User => policy.assign(),
        On::Permission => policy.assignp(),
    }
}

/// The rules by which roles are taken away.
fn revoke_of(on: On, policy: &Policy) -> &[CanRevoke]
    ensures rules { result.now ≡ revoke_rules on policy.now }
    ensures known { Each (IsKnownRevoke (length policy.now.order.names)) result.now }
    ensures few { length result.now < 2 ^ 32 }
{
    policy.law();
    match on {
        On::User => policy.revoke(),
        On::Permission => policy.revokep(),
    }
}

/// Whether the range has the role and the administrator has the rule's administrative role.
fn fits(policy: &Policy, range: &Range, admin: u16, by: &RoleSet, placed: &Placed) -> bool
    requires admin { admin < length policy.now.order.names }
    requires placed { IsPlaced policy.now.order placed.now.role placed.now.above placed.now.below }
    ensures { IsTrue result ↔ FitsRule policy.now by.now placed.now.role range.now admin }
{
    placed.is_in(range) && is_member(policy.order(), by, admin)
}

/// A rule whose range has the role.
#[derive(Clone, Copy)]
struct InRange<'a> {
    policy: &'a Policy,
    placed: Placed,
}

impl<'a> Criterion<CanAssign> for InRange<'a> {
    ghost ready = { λ s. IsPlaced s.policy.now.order s.placed.role s.placed.above s.placed.below };

    ghost known = { λ s rule. IsKnownAssign (length s.policy.now.order.names) rule };

    ghost met = { λ s rule. IsInRange s.policy.now.order rule.range s.placed.role };

    fn is_met(&self, rule: &CanAssign) -> bool {
        self.placed.is_in(&rule.range)
    }
}

impl<'a> Criterion<CanRevoke> for InRange<'a> {
    ghost ready = { λ s. IsPlaced s.policy.now.order s.placed.role s.placed.above s.placed.below };

    ghost known = { λ s rule. IsKnownRevoke (length s.policy.now.order.names) rule };

    ghost met = { λ s rule. IsInRange s.policy.now.order rule.range s.placed.role };

    fn is_met(&self, rule: &CanRevoke) -> bool {
        self.placed.is_in(&rule.range)
    }
}

/// A rule that the role and the administrator fit.
#[derive(Clone, Copy)]
struct Fitting<'a> {
    policy: &'a Policy,
    by: &'a RoleSet,
    placed: Placed,
}

impl<'a> Criterion<CanAssign> for Fitting<'a> {
    ghost ready = { λ s. IsPlaced s.policy.now.order s.placed.role s.placed.above s.placed.below };

    ghost known = { λ s rule. IsKnownAssign (length s.policy.now.order.names) rule };

    ghost met = { λ s rule. FitsRule s.policy.now s.by.now s.placed.role rule.range rule.admin };

    fn is_met(&self, rule: &CanAssign) -> bool {
        fits(self.policy, &rule.range, rule.admin, self.by, &self.placed)
    }
}

impl<'a> Criterion<CanRevoke> for Fitting<'a> {
    ghost ready = { λ s. IsPlaced s.policy.now.order s.placed.role s.placed.above s.placed.below };

    ghost known = { λ s rule. IsKnownRevoke (length s.policy.now.order.names) rule };

    ghost met = { λ s rule. LetsRevoke s.policy.now s.by.now s.placed.role rule };

    fn is_met(&self, rule: &CanRevoke) -> bool {
        fits(self.policy, &rule.range, rule.admin, self.by, &self.placed)
    }
}

/// A rule that lets the administrator give the role to whoever has the set.
#[derive(Clone, Copy)]
struct Letting<'a> {
    on: On,
    fitting: Fitting<'a>,
    set: &'a RoleSet,
}

impl<'a> Criterion<CanAssign> for Letting<'a> {
    ghost ready = { λ s. IsPlaced s.fitting.policy.now.order s.fitting.placed.role s.fitting.placed.above s.fitting.placed.below };

    ghost known = { λ s rule. IsKnownAssign (length s.fitting.policy.now.order.names) rule };

    ghost met = { λ s rule. LetsAssign s.on s.fitting.policy.now s.fitting.by.now s.set.now s.fitting.placed.role rule };

    fn is_met(&self, rule: &CanAssign) -> bool {
        self.fitting.is_met(rule)
            && is_true(self.on, self.fitting.policy.order(), &rule.cond, self.set)
    }
}

/// Whether some rule lets the administrator give the role to the target, where none before the place
/// `from` has the role in its range and an administrative role that the administrator has.
pub fn some_assign(
    on: On,
    policy: &Policy,
    by: &RoleSet,
    set: &RoleSet,
    placed: &Placed,
    from: u32,
) -> bool
    requires placed { IsPlaced policy.now.order placed.now.role placed.now.above placed.now.below }
    requires before { HasNoneBefore (λ rule. FitsRule policy.now by.now placed.now.role rule.range rule.admin) (assign_rules on policy.now) from }
    ensures { IsTrue result ↔ Some_of (LetsAssign on policy.now by.now set.now placed.now.role) (assign_rules on policy.now) }
{
    let fitting = Fitting {
        policy,
        by,
        placed: *placed,
    };
    some_met(&Letting { on, fitting, set }, assign_of(on, policy), from)
}

/// Whether some rule lets the administrator take the role away.
pub fn some_revoke(on: On, policy: &Policy, by: &RoleSet, placed: &Placed, from: u32) -> bool
    requires placed { IsPlaced policy.now.order placed.now.role placed.now.above placed.now.below }
    requires before { HasNoneBefore (λ rule. IsInRange policy.now.order rule.range placed.now.role) (revoke_rules on policy.now) from }
    ensures { IsTrue result ↔ Some_of (LetsRevoke policy.now by.now placed.now.role) (revoke_rules on policy.now) }
{
    some_met(
        &Fitting {
            policy,
            by,
            placed: *placed,
        },
        revoke_of(on, policy),
        from,
    )
}

/// The first rule for giving roles whose range has the role.
pub fn assign_in_range(on: On, policy: &Policy, placed: &Placed) -> Option<u32>
    requires placed { IsPlaced policy.now.order placed.now.role placed.now.above placed.now.below }
    ensures found { IfSome result (IsFirst (λ rule. IsInRange policy.now.order rule.range placed.now.role) (assign_rules on policy.now)) }
    ensures none { IfNone result (¬ Some_of (λ rule. IsInRange policy.now.order rule.range placed.now.role) (assign_rules on policy.now)) }
{
    first_met(
        &InRange {
            policy,
            placed: *placed,
        },
        assign_of(on, policy),
        0,
    )
}

/// The first rule for giving roles whose range has the role and whose administrative role the
/// administrator has, where no rule before the place `from` has the role in its range.
pub fn assign_fitting(
    on: On,
    policy: &Policy,
    by: &RoleSet,
    placed: &Placed,
    from: u32,
) -> Option<u32>
    requires placed { IsPlaced policy.now.order placed.now.role placed.now.above placed.now.below }
    requires before { HasNoneBefore (λ rule. IsInRange policy.now.order rule.range placed.now.role) (assign_rules on policy.now) from }
    ensures found { IfSome result (IsFirst (λ rule. FitsRule policy.now by.now placed.now.role rule.range rule.admin) (assign_rules on policy.now)) }
    ensures none { IfNone result (¬ Some_of (λ rule. FitsRule policy.now by.now placed.now.role rule.range rule.admin) (assign_rules on policy.now)) }
{
    first_met(
        &Fitting {
            policy,
            by,
            placed: *placed,
        },
        assign_of(on, policy),
        from,
    )
}

/// The first rule for taking roles away whose range has the role.
pub fn revoke_in_range(on: On, policy: &Policy, placed: &Placed) -> Option<u32>
    requires placed { IsPlaced policy.now.order placed.now.role placed.now.above placed.now.below }
    ensures found { IfSome result (IsFirst (λ rule. IsInRange policy.now.order rule.range placed.now.role) (revoke_rules on policy.now)) }
    ensures none { IfNone result (¬ Some_of (λ rule. IsInRange policy.now.order rule.range placed.now.role) (revoke_rules on policy.now)) }
{
    first_met(
        &InRange {
            policy,
            placed: *placed,
        },
        revoke_of(on, policy),
        0,
    )
}

/// Whether a user with the set is a member of the other role once he has the role.
fn joins(order: &Order, set: &RoleSet, role: u16, other: u16) -> bool
    requires role { role < length order.now.names }
    requires other { other < length order.now.names }
    ensures { IsTrue result ↔ IsMember order.now.edges (with_role set.now role) other }
{
    order.geq(role, other) || is_member(order, set, other)
}

/// An exclusive pair that blocks the role for the set.
#[derive(Clone, Copy)]
struct Blocking<'a> {
    order: &'a Order,
    set: &'a RoleSet,
    role: u16,
}

impl<'a> Criterion<(u16, u16)> for Blocking<'a> {
    ghost ready = { λ s. s.role < length s.order.now.names };

    ghost known = { λ s pair. IsKnownPair (length s.order.now.names) pair };

    ghost met = { λ s pair. Blocks s.order.now.edges s.set.now s.role pair };

    fn is_met(&self, pair: &(u16, u16)) -> bool {
        (self.order.geq(self.role, pair.0) || self.order.geq(self.role, pair.1))
            && joins(self.order, self.set, self.role, pair.0)
            && joins(self.order, self.set, self.role, pair.1)
    }
}

/// The first exclusive pair that blocks the role for the set.
pub fn first_blocking(policy: &Policy, set: &RoleSet, role: u16) -> Option<u32>
    requires { role < length policy.now.order.names }
    ensures found { IfSome result (IsFirst (Blocks policy.now.order.edges set.now role) policy.now.exclusive) }
    ensures none { IfNone result (¬ Some_of (Blocks policy.now.order.edges set.now role) policy.now.exclusive) }
{
    policy.law();
    let order = policy.order();
    first_met(&Blocking { order, set, role }, policy.exclusive(), 0)
}
