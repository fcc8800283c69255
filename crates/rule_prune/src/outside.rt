//! Barriers: requirements that nobody comes to meet.

ghost use Rattle.std.specs.Prelude.{ℕ, ◌≡◌, List, [], ◌∷◌, length, Some, if◌then◌else◌, IfOk};
ghost use Rattle.list_words.specs.Lists.{IsOneOf};
ghost use Rattle.role_order.specs.Reach.{count_up};
ghost use Rattle.arbac_laws.specs.Needs.{Need, IsCovered};
ghost use Rattle.arbac_laws.specs.PreImages.{is_empty};
ghost use Rattle.arbac_laws.specs.Obligations.{Obligation, obligations, pre_image};
ghost use Rattle.arbac_laws.specs.Closed.{IsUnmet};
ghost use Rattle.arbac_laws.specs.Barriers as laws;
ghost use Rattle.arbac_laws.specs.Barriers.{IsCeiling};
ghost use Rattle.arbac_laws.specs.Views.{needs_of};

use crate::NoMemory;
use crate::gains::ceiling;
use arbac_policy::Profile;
use req_core::{RawUser, Req, normal};
use req_pre::Prepared;
use role_order::{Order, RoleSet};
use std::alloc::{AllocError, Global};

/// All roles of the order.
fn all_roles(order: &Order) -> RoleSet
    ensures { result ≡ count_up 0 (length order.now.names) }
{
    let mut all = RoleSet::empty();
    for role in 0..order.count() {
        all = all.with(role);
    }
    all
}

/// The roles of the order that the set hasn't.
fn outside(order: &Order, set: &RoleSet) -> RoleSet
    ensures { result ≡ laws.outside (length order.now.names) set.now }
{
    all_roles(order).less(set)
}

/// One user of whom a role of the set is wanted.
fn one_user(alloc: Global, hit: RoleSet) -> Result<Vec<RawUser>, AllocError>
    ensures { IfOk result (λ raw. needs_of raw.items ≡ record { hits = hit ∷ []; lacks = [] } ∷ []) }
{
    let mut hits = Vec::new(alloc);
    hits.push(hit)?;
    let mut raw = Vec::new(alloc);
    raw.push(RawUser {
        hits,
        lacks: RoleSet::empty(),
    })?;
    Ok(raw)
}

/// The requirement of one user with this hit, if the hit has a role; else no requirement.
fn one_hit(alloc: Global, hit: RoleSet) -> Result<Vec<Req>, AllocError>
    ensures { IfOk result (λ list. list.items
        ≡ (if is_empty hit then [] else (record { hits = hit ∷ []; lacks = [] } ∷ []) ∷ [])) }
{
    let mut list = Vec::new(alloc);
    if let Some(form) = normal(alloc, &one_user(alloc, hit)?)? {
        list.push(form.req)?;
    }
    Ok(list)
}

/// The barriers (this project): where roles stand outside the ceiling, the requirement of one user whose only hit
/// is all of them; else none. The error is want of memory.
pub fn barriers(
    alloc: Global,
    prepared: &Prepared,
    profiles: &[Profile],
) -> Result<Vec<Req>, NoMemory>
    ensures list { IfOk result (λ list. (set : List ℕ) × IsCeiling prepared.now profiles.now set
        × (list.items ≡ laws.barriers (length prepared.now.order.names) set)) }
    // What is wanted before an act that may lead to a barrier is covered by a barrier.
    ensures closed { IfOk result (λ list. (needs : List Need) → IsOneOf list.items needs →
        (ob : Obligation) → IsOneOf (obligations prepared.now needs) ob →
        (before : List Need) → pre_image prepared.now needs ob ≡ Some before → IsCovered list.items before) }
    // No users that can be drawn meet a barrier.
    ensures unmet { IfOk result (λ list. (needs : List Need) → IsOneOf list.items needs → IsUnmet profiles.now needs) }
{
    let order = prepared.policy().order();
    order.is_order();
    let set = ceiling(prepared, profiles);
    let list = one_hit(alloc, outside(order, &set))?;
    Ok(list)
}
