//! Verdicts.

ghost use Rattle.std.specs.Prelude.{ℕ, ◌≡◌, ◌<◌, List, length, slice_set};
ghost use Rattle.arbac_policy.specs.Truth.{Holder, user};
ghost use Rattle.arbac_policy.specs.Steps.{Step, KindStep};
ghost use Rattle.arbac_policy.specs.Verdicts.{Denies, KindDenied};
ghost use Rattle.ura_core.specs.Answers.{IfGranted, IfDenied};
ghost use Rattle.ura_core.specs.declared.decision.Verdict.TheVariants as answers;
ghost use Rattle.arbac_policy.specs.declared.verdict.Part.TheVariants as parts;

use crate::judging::{against_assign, against_revoke};
use crate::strong::{revoke_all, set_at};
use arbac_policy::{Act, ActKind, On, Part, Policy, Side};
use role_order::RoleSet;

/// What becomes of an act.
#[derive(Clone, Copy)]
pub enum Verdict {
    /// Accepted; the target's new set.
    Granted(RoleSet),
    /// Refused; the first part that fails.
    Denied(Part),
}

fn no_user(side: Side, place: u32) -> Verdict
    ensures { result ≡ answers.Denied (parts.NoUser side place) }
{
    Verdict::Denied(Part::NoUser { side, place })
}

/// The verdict on an act on one of the list, by an administrator who is one of the users. Where users
/// are administered, both are the same list.
pub fn decide_on(on: On, policy: &Policy, users: &[RoleSet], list: &[RoleSet], act: &Act) -> Verdict
    requires { on ≡ user → users.now ≡ list.now }
    ensures granted { IfGranted result (λ set. KindStep act.now.kind on policy.now users.now list.now act.now.admin act.now.target act.now.role
        (slice_set list.now act.now.target set)) }
    ensures inside { IfGranted result (λ _. act.now.target < length list.now) }
    ensures denied { IfDenied result (KindDenied act.now.kind on policy.now users.now list.now act.now.admin act.now.target act.now.role) }
{
    let Some(by) = set_at(users, act.admin) else {
        return no_user(Side::Admin, act.admin);
    };
    let Some(set) = set_at(list, act.target) else {
        return no_user(Side::Target, act.target);
    };
    match act.kind {
        ActKind::Assign => match against_assign(on, policy, by, set, act.role) {
            Some(part) => Verdict::Denied(part),
            None => Verdict::Granted(set.with(act.role)),
        },
        ActKind::Weak => match against_revoke(on, policy, by, act.role) {
            Some(part) => Verdict::Denied(part),
            None => Verdict::Granted(set.without(act.role)),
        },
        ActKind::Strong => {
            if act.role >= policy.order().count() {
                return Verdict::Denied(Part::NoRole { role: act.role });
            }
            revoke_all(on, policy, users, list, act, set)
        }
    }
}

/// The verdict on an act on users (URA97): the target's new set exactly where the act is a step, else
/// the first part that fails.
pub fn decide(policy: &Policy, users: &[RoleSet], act: &Act) -> Verdict
    ensures granted { IfGranted result (λ set. Step policy.now users.now act.now (slice_set users.now act.now.target set)) }
    ensures inside { IfGranted result (λ _. act.now.target < length users.now) }
    ensures denied { IfDenied result (Denies policy.now users.now act.now) }
    ensures no_step { IfDenied result (λ _. (new : List (List ℕ)) → ¬ Step policy.now users.now act.now new) }
{
    decide_on(On::User, policy, users, users, act)
}
