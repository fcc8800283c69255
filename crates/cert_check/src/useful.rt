//! The roles with which acts may be of use to users.

ghost use Rattle.std.specs.Prelude.{ℕ, ◌≡◌, ◌<◌, List, length};
ghost use Rattle.std.specs.List.{list_any};
ghost use Rattle.list_words.specs.Lists.{Each};
ghost use Rattle.role_order.specs.Roles.{has_role};
ghost use Rattle.arbac_policy.specs.Rules.{IsKnownRange};
ghost use Rattle.arbac_laws.specs.Obligations.{flat, roles_in};
ghost use Rattle.arbac_laws.specs.Views.{need_of, needs_of};
ghost use Rattle.cert_check.specs.Passing.{is_of_use, given_by, by_role, by_range};

use crate::picks::Change;
use crate::rulebook::Rulebook;
use cert_needs::NeedUser;
use role_order::{Order, Range, RoleSet};

/// The roles of the hits.
fn hit_roles(hits: &[RoleSet]) -> RoleSet
    ensures { (role : ℕ) → has_role result role ≡ list_any (λ hit. has_role hit role) hits.now }
{
    let mut all = RoleSet::empty();
    for hit in hits {
        all = all.join(hit);
    }
    all
}

/// The roles with which an act is of use to the user.
fn user_roles(change: &Change, user: &NeedUser) -> RoleSet
    ensures { (role : ℕ) → has_role result role ≡ is_of_use (given_by change.now) role (need_of user.now) }
{
    match change {
        Change::Give(_) => hit_roles(&user.hits),
        Change::Take => user.lacks,
    }
}

/// The roles with which an act is of use to some user.
fn useful_roles(change: &Change, users: &[NeedUser]) -> RoleSet
    ensures { (role : ℕ) → has_role result role ≡ list_any (λ user. is_of_use (given_by change.now) role (need_of user)) users.now }
{
    let mut all = RoleSet::empty();
    for user in users {
        all = all.join(&user_roles(change, user));
    }
    all
}

/// The roles of the range.
fn roles_of(order: &Order, range: &Range) -> RoleSet
    requires { IsKnownRange (length order.now.names) range.now }
    ensures roles { result ≡ roles_in order.now range.now }
    ensures known { Each (λ role. role < length order.now.names) result }
{
    order.is_order();
    order.roles_of(range)
}

/// The roles of the range with which an act is of use to some user: no obligation has another one.
pub fn useful_in_range(
    book: &Rulebook,
    range: &Range,
    change: &Change,
    users: &[NeedUser],
) -> RoleSet
    requires { IsKnownRange (length book.now.order.names) range.now }
    ensures all { (hit : List ℕ) → flat (by_role book.now (given_by change.now) hit (needs_of users.now)) result
        ≡ by_range book.now (given_by change.now) hit range.now (needs_of users.now) }
    ensures known { Each (λ role. role < length book.now.order.names) result }
{
    let roles = roles_of(book.policy().order(), range);
    roles.common(&useful_roles(change, users))
}
