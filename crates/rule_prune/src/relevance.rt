//! Roles that can matter for a goal.

ghost use Rattle.std.specs.Prelude.{◌≡◌, ◌<◌, ◌≤◌, ◌↔◌, ◌*◌, false, [], length, IsTrue};
ghost use Rattle.list_words.specs.Lists.{Each};
ghost use Rattle.role_order.specs.Roles.{join_roles};
ghost use Rattle.arbac_policy.specs.Truth.{term_of, IsKnown};
ghost use Rattle.rule_prune.specs.Steps.{IsStep, ByEach};
ghost use Rattle.rule_prune.specs.Relevant as words;
ghost use Rattle.rule_prune.specs.Relevant.{AreAmong, Meet, count_of};

use crate::growth::has_grown;
use arbac_policy::Cond;
use role_order::{MOST_ROLES, Order, RoleSet};

/// Roles that someone may have to have, and roles that someone may have to lack.
#[derive(Clone, Copy)]
pub struct Relevance {
    pub wanted: RoleSet,
    pub barred: RoleSet,
}

/// No roles.
fn no_roles() -> Relevance
    ensures { result ≡ record { wanted = []; barred = [] } }
{
    Relevance {
        wanted: RoleSet::empty(),
        barred: RoleSet::empty(),
    }
}

/// The roles of both.
pub fn joined(roles: &Relevance, more: &Relevance) -> Relevance
    ensures wanted { result.wanted ≡ join_roles roles.now.wanted more.now.wanted }
    ensures barred { result.barred ≡ join_roles roles.now.barred more.now.barred }
{
    Relevance {
        wanted: roles.wanted.join(&more.wanted),
        barred: roles.barred.join(&more.barred),
    }
}

/// Whether a role is wanted in both, or barred in both.
pub fn have_met(roles: &Relevance, other: &Relevance) -> bool
    ensures { IsTrue result ↔ Meet roles.now other.now }
{
    roles.wanted.meets(&other.wanted) || roles.barred.meets(&other.barred)
}

/// Whether the second ones, which have all roles of the first, have more.
pub fn have_grown(roles: &Relevance, more: &Relevance) -> bool
    requires { AreAmong roles.now more.now }
    ensures grown { IsTrue result → count_of roles.now < count_of more.now }
    ensures same { result ≡ false → AreAmong more.now roles.now }
    ensures few { count_of more.now ≤ 2 * MOST_ROLES }
{
    let wanted = has_grown(&roles.wanted, &more.wanted);
    let barred = has_grown(&roles.barred, &more.barred);
    wanted || barred
}

/// The roles above those that the condition names.
fn wants(order: &Order, cond: &Cond) -> RoleSet
    requires { IsKnown (length order.now.names) (term_of cond.now) }
    ensures { result ≡ words.wants order.now (term_of cond.now) }
{
    match cond {
        Cond::Any => RoleSet::empty(),
        Cond::Has(role) => order.seniors(*role),
        Cond::Lacks(_) => RoleSet::empty(),
        Cond::And(left, right) => wants(order, left.get()).join(&wants(order, right.get())),
        Cond::Or(left, right) => wants(order, left.get()).join(&wants(order, right.get())),
    }
}

/// The roles above those that the condition names behind `not`.
fn bars(order: &Order, cond: &Cond) -> RoleSet
    requires { IsKnown (length order.now.names) (term_of cond.now) }
    ensures { result ≡ words.bars order.now (term_of cond.now) }
{
    match cond {
        Cond::Any => RoleSet::empty(),
        Cond::Has(_) => RoleSet::empty(),
        Cond::Lacks(role) => order.seniors(*role),
        Cond::And(left, right) => bars(order, left.get()).join(&bars(order, right.get())),
        Cond::Or(left, right) => bars(order, left.get()).join(&bars(order, right.get())),
    }
}

/// What the condition wants and bars.
pub fn asked(order: &Order, cond: &Cond) -> Relevance
    requires { IsKnown (length order.now.names) (term_of cond.now) }
    ensures { result ≡ words.asked order.now (term_of cond.now) }
{
    Relevance {
        wanted: wants(order, cond),
        barred: bars(order, cond),
    }
}

/// What the conditions of a goal want and bar.
pub fn goal_roles(order: &Order, goal: &[Cond]) -> Relevance
    requires { Each (λ cond. IsKnown (length order.now.names) (term_of cond)) goal.now }
    ensures { IsStep AreAmong (ByEach (λ cond old new. AreAmong (words.asked order.now (term_of cond)) new) goal.now)
        (record { wanted = []; barred = [] }) result }
{
    let mut roles = no_roles();
    for cond in goal {
        roles = joined(&roles, &asked(order, cond));
    }
    roles
}
