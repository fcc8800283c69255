//! Strong revocation, as weak revocations one after another.

ghost use Rattle.std.specs.Prelude.{ℕ, ◌≡◌, ◌<◌, length, slice_get, slice_set, Some};
ghost use Rattle.std.specs.Option.{option_copied};
ghost use Rattle.role_order.specs.Roles.{Rises};
ghost use Rattle.arbac_policy.specs.Truth.{Holder, user};
ghost use Rattle.arbac_policy.specs.Holders as holders;
ghost use Rattle.arbac_policy.specs.Holders.{reach_of, admins_of};
ghost use Rattle.arbac_policy.specs.Steps.{WeakSteps, WeakStep};
ghost use Rattle.arbac_policy.specs.Verdicts.{WeaksDenied, WeakDenied};
ghost use Rattle.ura_core.specs.Answers.{IfGranted, IfDenied};

use crate::decision::Verdict;
use crate::judging::against_revoke;
use arbac_policy::{Act, On, Part, Policy, Side};
use role_order::{MOST_ROLES, RoleSet};

/// The set at the place.
pub fn set_at(sets: &[RoleSet], place: u32) -> Option<&RoleSet>
    ensures { option_copied result ≡ slice_get sets.now place }
{
    sets.get(place as usize)
}

fn reach(on: On, policy: &Policy, role: u16) -> RoleSet
    requires { role < length policy.now.order.names }
    ensures { result ≡ reach_of on policy.now.order role }
{
    match on {
        On::User => policy.order().seniors(role),
        On::Permission => policy.order().juniors(role),
    }
}

/// The role, and the roles of the set in its reach.
fn falling(on: On, policy: &Policy, set: &RoleSet, role: u16) -> RoleSet
    requires role { role < length policy.now.order.names }
    requires few { role < MOST_ROLES }
    ensures falling { result ≡ holders.falling on policy.now.order set.now role }
    ensures rises { Rises result }
{
    set.common(&reach(on, policy, role)).with(role)
}

/// The administrator's set, once the target's is the one that is left.
fn by_now(on: On, users: &[RoleSet], list: &[RoleSet], act: &Act, left: &RoleSet) -> Option<RoleSet>
    requires { act.now.target < length list.now }
    ensures { result ≡ slice_get (admins_of on users.now (slice_set list.now act.now.target left.now)) act.now.admin }
{
    match on {
        On::Permission => set_at(users, act.admin).copied(),
        On::User => {
            if act.admin == act.target {
                Some(*left)
            } else {
                set_at(list, act.admin).copied()
            }
        }
    }
}

/// One weak revocation, in the state in which the target's set is the one that is left.
fn revoke_one(
    on: On,
    policy: &Policy,
    users: &[RoleSet],
    list: &[RoleSet],
    act: &Act,
    left: &RoleSet,
    role: u16,
) -> Verdict
    requires { act.now.target < length list.now }
    ensures granted { IfGranted result (λ next.
        let state = slice_set list.now act.now.target left.now in
        WeakStep on policy.now (admins_of on users.now state) state act.now.admin act.now.target role (slice_set list.now act.now.target next)) }
    ensures denied { IfDenied result
        (let state = slice_set list.now act.now.target left.now in
        WeakDenied on policy.now (admins_of on users.now state) state act.now.admin act.now.target role) }
{
    let Some(by) = by_now(on, users, list, act, left) else {
        return Verdict::Denied(Part::NoUser {
            side: Side::Admin,
            place: act.admin,
        });
    };
    match against_revoke(on, policy, &by, role) {
        Some(part) => Verdict::Denied(part),
        None => Verdict::Granted(left.without(role)),
    }
}

/// The weak revocations of the role and of each role of the set in its reach, by rising number; the
/// administrator is judged by what is left of him.
pub fn revoke_all(
    on: On,
    policy: &Policy,
    users: &[RoleSet],
    list: &[RoleSet],
    act: &Act,
    set: &RoleSet,
) -> Verdict
    requires role { act.now.role < length policy.now.order.names }
    requires set { slice_get list.now act.now.target ≡ Some set.now }
    ensures granted { IfGranted result (λ new. WeakSteps on policy.now users.now list.now act.now.admin act.now.target
        (holders.falling on policy.now.order set.now act.now.role) (slice_set list.now act.now.target new)) }
    ensures denied { IfDenied result (WeaksDenied on policy.now users.now list.now act.now.admin act.now.target
        (holders.falling on policy.now.order set.now act.now.role)) }
{
    let count = policy.order().count();
    let falling = falling(on, policy, set, act.role);
    let mut left = *set;
    for role in 0..count {
        if falling.has(role) {
            match revoke_one(on, policy, users, list, act, &left, role) {
                Verdict::Granted(next) => left = next,
                Verdict::Denied(part) => return Verdict::Denied(part),
            }
        }
    }
    Verdict::Granted(left)
}
