//! What the target of an act must meet before it, so that it meets a user requirement after it.

ghost use Rattle.std.specs.Prelude.{◌≡◌, ◌<◌, ◌++◌, not, length, map, filter, option_map, IfOk};
ghost use Rattle.role_order.specs.Roles.{has_role, join_roles, without_role};
ghost use Rattle.arbac_laws.specs.PreImages as laws;
ghost use Rattle.arbac_laws.specs.Views.{need_of};

use crate::exclusions::Exclusions;
use crate::{NeedUser, NoMemory};
use arbac_policy::Conjunct;
use role_order::RoleSet;
use std::alloc::{AllocError, Global};

/// The hits that don't have the role.
fn other_hits(alloc: Global, role: u16, hits: &[RoleSet]) -> Result<Vec<RoleSet>, AllocError>
    ensures { IfOk result (λ list. list.items ≡ filter (λ hit. not (has_role hit role)) hits.now) }
{
    let mut list = Vec::with_capacity(alloc, hits.len())?;
    for hit in hits {
        if !hit.has(role) {
            list.push(*hit)?;
        }
    }
    Ok(list)
}

/// What the target must meet before it is given the role, if it can be given it.
fn before_given(
    alloc: Global,
    exclusions: &Exclusions,
    conjunct: &Conjunct,
    role: u16,
    user: &NeedUser,
) -> Result<NeedUser, AllocError>
    requires { role < length exclusions.now.order.names }
    ensures hits { IfOk result (λ before. before.hits.items
        ≡ filter (λ hit. not (has_role hit role)) user.now.hits.items ++ conjunct.now.hits.items) }
    ensures lacks { IfOk result (λ before. before.lacks ≡ join_roles user.now.lacks
        (join_roles conjunct.now.lacks (laws.barred exclusions.now.order role exclusions.now.exclusive))) }
{
    let mut hits = other_hits(alloc, role, &user.hits)?;
    hits.extend_from_slice(&conjunct.hits)?;
    let bars = exclusions.bars(role);
    let lacks = user.lacks.join(&conjunct.lacks.join(&bars));
    Ok(NeedUser { hits, lacks })
}

/// What the target must meet before it is given the role by a rule whose condition it meets by the conjunct (URA97). None
/// exactly where it may not have the role, or nobody who lacks it can be given it.
pub fn before_assign(
    alloc: Global,
    exclusions: &Exclusions,
    conjunct: &Conjunct,
    role: u16,
    user: &NeedUser,
) -> Result<Option<NeedUser>, NoMemory>
    requires { role < length exclusions.now.order.names }
    ensures { IfOk result (λ before. option_map need_of before
        ≡ laws.before_assign exclusions.now (need_of conjunct.now) role (need_of user.now)) }
{
    if user.lacks.has(role) || exclusions.is_closed(role) {
        return Ok(None);
    }
    let before = before_given(alloc, exclusions, conjunct, role, user)?;
    Ok(Some(before))
}

/// Whether the set has no other role.
fn is_alone(hit: &RoleSet, role: u16) -> bool
    ensures { result ≡ laws.is_empty (without_role hit.now role) }
{
    hit.without(role).within(&RoleSet::empty())
}

/// Whether some hit has no other role.
fn has_alone(hits: &[RoleSet], role: u16) -> bool
    ensures { result ≡ laws.has_alone role hits.now }
{
    for hit in hits {
        if is_alone(hit, role) {
            return true;
        }
    }
    false
}

/// The hits without the role.
fn hits_without(alloc: Global, role: u16, hits: &[RoleSet]) -> Result<Vec<RoleSet>, AllocError>
    ensures { IfOk result (λ list. list.items ≡ map (λ hit. without_role hit role) hits.now) }
{
    let mut list = Vec::with_capacity(alloc, hits.len())?;
    for hit in hits {
        list.push(hit.without(role))?;
    }
    Ok(list)
}

/// What the target must meet before the role is taken from it by weak revocation (URA97). None exactly where one of its hits
/// has no other role.
pub fn before_weak(alloc: Global, role: u16, user: &NeedUser) -> Result<Option<NeedUser>, NoMemory>
    ensures { IfOk result (λ before. option_map need_of before ≡ laws.before_weak role (need_of user.now)) }
{
    if has_alone(&user.hits, role) {
        return Ok(None);
    }
    let hits = hits_without(alloc, role, &user.hits)?;
    let lacks = user.lacks.without(role);
    Ok(Some(NeedUser { hits, lacks }))
}
