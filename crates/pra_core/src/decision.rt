//! Verdicts on permissions.

ghost use Rattle.std.specs.Prelude.{ℕ, ◌≡◌, List, slice_set};
ghost use Rattle.arbac_policy.specs.Steps.{PermStep};
ghost use Rattle.arbac_policy.specs.Verdicts.{PermDenies};
ghost use Rattle.arbac_policy.specs.declared.verdict.Part.TheVariants as parts;
ghost use Rattle.ura_core.specs.Answers.{IfGranted, IfDenied};

use arbac_policy::{Act, On, Policy};
use role_order::RoleSet;
use ura_core::{Verdict, decide_on};

/// The verdict as the dual of URA97 gives it.
fn decide_by_dual(policy: &Policy, users: &[RoleSet], permissions: &[RoleSet], act: &Act) -> Verdict
    ensures granted { IfGranted result (λ set.
        PermStep policy.now users.now permissions.now act.now (slice_set permissions.now act.now.target set)) }
    ensures denied { IfDenied result (PermDenies policy.now users.now permissions.now act.now) }
{
    decide_on(On::Permission, policy, users, permissions, act)
}

/// The verdict on a user's act on a permission (PRA97): the permission's new set exactly where the act
/// is a step, else the first part that fails. The administrator is a place of the users, the target one
/// of the permissions.
pub fn decide_perm(
    policy: &Policy,
    users: &[RoleSet],
    permissions: &[RoleSet],
    act: &Act,
) -> Verdict
    ensures granted { IfGranted result (λ set.
        PermStep policy.now users.now permissions.now act.now (slice_set permissions.now act.now.target set)) }
    ensures denied { IfDenied result (PermDenies policy.now users.now permissions.now act.now) }
    ensures no_step { IfDenied result (λ _. (new : List (List ℕ)) → ¬ PermStep policy.now users.now permissions.now act.now new) }
    ensures no_pair { IfDenied result (λ part. (role pair : ℕ) → ¬ (part ≡ parts.Exclusive role pair)) }
{
    decide_by_dual(policy, users, permissions, act)
}
