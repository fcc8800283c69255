//! What the target of an act must meet before it.

ghost use Rattle.std.specs.Prelude.{◌≡◌, ◌++◌, not, map, filter, option_map, IfOk};
ghost use Rattle.std.specs.List.{list_any};
ghost use Rattle.role_order.specs.Roles.{has_role, join_roles, without_role};
ghost use Rattle.arbac_laws.specs.Obligations.{and_then};
ghost use Rattle.arbac_laws.specs.PreImages as laws;
ghost use Rattle.arbac_laws.specs.Views.{need_of};
ghost use Rattle.req_core.specs.Forms.{user_form};

use crate::NoMemory;
use crate::prepared::Prepared;
use arbac_rules::Conjunct;
use req_core::{RawUser, UserReq, normal_user};
use role_order::RoleSet;
use std::alloc::{AllocError, Global};

/// The hits that don't have the role.
fn other_hits(alloc: Global, role: u16, hits: &[RoleSet]) -> Result<Vec<RoleSet>, AllocError>
    ensures { IfOk result (λ list. list.items ≡ filter (λ hit. not (has_role hit role)) hits.now) }
{
    let mut list = Vec::with_capacity(alloc, hits.len())?;
    for hit in hits {
        if !hit.has(role) {
            list.push(*hit)?;
        }
    }
    Ok(list)
}

/// What the target must meet before it is given the role, which no pair bars from it.
fn raw_before(
    alloc: Global,
    prepared: &Prepared,
    conjunct: &Conjunct,
    role: u16,
    user: &UserReq,
) -> Result<RawUser, AllocError>
    ensures hits { IfOk result (λ raw. (need_of raw).hits
        ≡ filter (λ hit. not (has_role hit role)) user.now.hits ++ (need_of conjunct.now).hits) }
    ensures lacks { IfOk result (λ raw. (need_of raw).lacks ≡ join_roles user.now.lacks
        (join_roles (need_of conjunct.now).lacks (laws.barred prepared.now.order role prepared.now.exclusive))) }
{
    let mut hits = other_hits(alloc, role, user.hits())?;
    hits.extend_from_slice(&conjunct.hits)?;
    let bars = prepared.bars(role);
    let lacks = user.lacks().join(&conjunct.lacks.join(&bars));
    Ok(RawUser { hits, lacks })
}

/// What the target must meet before it is given the role, not in normal form.
pub fn before_assign(
    alloc: Global,
    prepared: &Prepared,
    conjunct: &Conjunct,
    role: u16,
    user: &UserReq,
) -> Result<Option<RawUser>, NoMemory>
    ensures { IfOk result (λ raw. option_map need_of raw ≡ laws.before_assign prepared.now (need_of conjunct.now) role user.now) }
{
    if user.lacks().has(role) || prepared.is_closed(role) {
        return Ok(None);
    }
    let raw = raw_before(alloc, prepared, conjunct, role, user)?;
    Ok(Some(raw))
}

/// Whether the set has no other role.
fn is_alone(hit: &RoleSet, role: u16) -> bool
    ensures { result ≡ laws.is_empty (without_role hit.now role) }
{
    hit.without(role).within(&RoleSet::empty())
}

/// Whether some hit has no other role.
fn has_alone(hits: &[RoleSet], role: u16) -> bool
    ensures { result ≡ list_any (λ hit. laws.is_empty (without_role hit role)) hits.now }
{
    hits.iter().any(|hit| is_alone(hit, role))
}

/// The hits without the role.
fn hits_without(alloc: Global, role: u16, hits: &[RoleSet]) -> Result<Vec<RoleSet>, AllocError>
    ensures { IfOk result (λ list. list.items ≡ map (λ hit. without_role hit role) hits.now) }
{
    let mut list = Vec::with_capacity(alloc, hits.len())?;
    for hit in hits {
        list.push(hit.without(role))?;
    }
    Ok(list)
}

/// What the target must meet before it loses the role, not in normal form.
pub fn before_weak(alloc: Global, role: u16, user: &UserReq) -> Result<Option<RawUser>, NoMemory>
    ensures { IfOk result (λ raw. option_map need_of raw ≡ laws.before_weak role user.now) }
{
    if has_alone(user.hits(), role) {
        return Ok(None);
    }
    let hits = hits_without(alloc, role, user.hits())?;
    let lacks = user.lacks().without(role);
    Ok(Some(RawUser { hits, lacks }))
}

/// The user in normal form; none where there is none, or where it is impossible.
fn form_of(alloc: Global, raw: Option<RawUser>) -> Result<Option<UserReq>, AllocError>
    ensures { IfOk result (λ form. form ≡ and_then (option_map need_of raw) user_form) }
{
    match raw {
        Some(raw) => {
            let form = normal_user(alloc, &raw)?;
            Ok(form)
        }
        None => Ok(None),
    }
}

/// What the target must meet before it is given the role by a rule whose condition it meets by the conjunct, in normal
/// form; none where nothing will do.
pub fn before_given(
    alloc: Global,
    prepared: &Prepared,
    conjunct: &Conjunct,
    role: u16,
    user: &UserReq,
) -> Result<Option<UserReq>, NoMemory>
    ensures { IfOk result (λ before. before ≡ and_then (laws.before_assign prepared.now (need_of conjunct.now) role user.now) user_form) }
{
    let raw = before_assign(alloc, prepared, conjunct, role, user)?;
    let form = form_of(alloc, raw)?;
    Ok(form)
}

/// What the target must meet before the role is taken from it, in normal form; none where nothing will do.
pub fn before_taken(alloc: Global, role: u16, user: &UserReq) -> Result<Option<UserReq>, NoMemory>
    ensures { IfOk result (λ before. before ≡ and_then (laws.before_weak role user.now) user_form) }
{
    let raw = before_weak(alloc, role, user)?;
    let form = form_of(alloc, raw)?;
    Ok(form)
}
