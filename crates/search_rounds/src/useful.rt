//! The roles with which acts may be of use to users.

ghost use Rattle.std.specs.Prelude.{ℕ, ◌≡◌, ◌<◌, length, filter};
ghost use Rattle.list_words.specs.Lists.{Each};
ghost use Rattle.role_order.specs.Roles.{has_role};
ghost use Rattle.arbac_policy.specs.Rules.{IsKnownRange};
ghost use Rattle.arbac_laws.specs.Obligations.{roles_in};
ghost use Rattle.shared_reqs.specs.Shared.{needs_shared};
ghost use Rattle.search_rounds.specs.Listing.{is_in_hits, AreUseful};

use req_core::UserReq;
use role_order::{Order, Range, RoleSet};
use shared_reqs::MarkedUser;
use std::sync::Arc;

/// The roles with which acts may be of use to some users: an act gives what a hit wants, or takes a lack.
#[derive(Clone, Copy)]
pub struct Useful {
    pub given: RoleSet,
    pub taken: RoleSet,
}

/// The roles of the user's hits.
fn hit_roles(user: &UserReq) -> RoleSet
    ensures { (role : ℕ) → has_role result role ≡ is_in_hits user.now role }
{
    let mut all = RoleSet::empty();
    for hit in user.hits() {
        all = all.join(hit);
    }
    all
}

/// The roles of all hits, and those of all lacks.
pub fn useful_roles(users: &[Arc<MarkedUser>]) -> Useful
    ensures { AreUseful (needs_shared users.now) result }
{
    let mut given = RoleSet::empty();
    let mut taken = RoleSet::empty();
    for user in users {
        let user = user.user();
        given = given.join(&hit_roles(user));
        taken = taken.join(user.lacks());
    }
    Useful { given, taken }
}

/// Those of the roles that are in the range.
pub fn useful_in(order: &Order, range: &Range, useful: &RoleSet) -> RoleSet
    requires { IsKnownRange (length order.now.names) range.now }
    ensures roles { result ≡ filter (has_role useful.now) (roles_in order.now range.now) }
    ensures known { Each (λ role. role < length order.now.names) result }
{
    order.is_order();
    order.roles_of(range).common(useful)
}
