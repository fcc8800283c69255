//! The normal form of one user requirement.

ghost use Rattle.std.specs.Prelude.{◌≡◌, ◌<◌, ◌≤◌, true, false, if◌then◌else◌, ℕ, List, length, slice_get, Option, Some, None, IfOk};
ghost use Rattle.std.specs.Prelude.{IfSome, OnOk, option_map};
ghost use Rattle.std.specs.List.{list_any};
ghost use Rattle.role_order.specs.Orders.{set_before};
ghost use Rattle.arbac_laws.specs.PreImages.{is_empty};
ghost use Rattle.arbac_laws.specs.NormalForms as forms;
ghost use Rattle.arbac_laws.specs.NormalForms.{least_hits, insert_once, sort_once, normal_need, AreSets, IsNormalNeed};
ghost use Rattle.arbac_laws.specs.PreImages.{add_hit};
ghost use Rattle.arbac_laws.specs.Views.{need_of};
ghost use Rattle.req_core.specs.Forms.{user_form};

use crate::req::UserReq;
use crate::sorted::{Ranked, place_of};
use crate::{NoMemory, RawUser};
use role_order::RoleSet;
use std::alloc::{AllocError, Global};

/// The hits without the lacks; none where one of them has no role left.
fn bare_hits(alloc: Global, raw: &RawUser) -> Result<Option<Vec<RoleSet>>, AllocError>
    ensures hits { IfOk result (λ hits. option_map (λ list. list.items) hits
        ≡ (if list_any is_empty (forms.bare_hits (need_of raw.now)) then None else Some (forms.bare_hits (need_of raw.now)))) }
    ensures sets { IfOk result (λ hits. IfSome hits (λ _. AreSets (need_of raw.now))) }
{
    raw.lacks.is_role_set();
    let mut hits = Vec::with_capacity(alloc, raw.hits.len())?;
    for hit in &raw.hits {
        hit.is_role_set();
        let rest = hit.less(&raw.lacks);
        if rest.is_empty() {
            return Ok(None);
        }
        hits.push(rest)?;
    }
    Ok(Some(hits))
}

/// Whether it lies within the other, and not the other way round.
fn is_less(hit: &RoleSet, other: &RoleSet) -> bool
    ensures { result ≡ forms.is_less hit.now other.now }
{
    hit.within(other) && !other.within(hit)
}

/// Whether a different hit lies within it.
fn some_less(hits: &[RoleSet], hit: &RoleSet) -> bool
    ensures { result ≡ list_any (λ other. forms.is_less other hit.now) hits.now }
{
    hits.iter().any(|other| is_less(other, hit))
}

impl Ranked for RoleSet {
    ghost before = { set_before };

    fn is_before(&self, other: &RoleSet) -> bool {
        self.before(other)
    }
}

/// Puts the hit in its place, if it isn't there.
fn insert(hits: &mut Vec<RoleSet>, hit: &RoleSet) -> Result<(), AllocError>
    ensures { OnOk result (hits.new.items ≡ insert_once set_before hit.now hits.old.items) }
{
    let at = place_of(hits, hit);
    if at == hits.len() || hit.before(&hits[at]) {
        hits.insert(at, *hit)?;
    }
    Ok(())
}

/// Puts the hit in its place, if no different one lies within it.
fn add_least(list: &mut Vec<RoleSet>, hits: &[RoleSet], hit: &RoleSet) -> Result<(), AllocError>
    ensures { OnOk result (list.new.items ≡ (if list_any (λ other. forms.is_less other hit.now) hits.now
        then list.old.items else insert_once set_before hit.now list.old.items)) }
{
    if !some_less(hits, hit) {
        insert(list, hit)?;
    }
    Ok(())
}

/// The hits within which no different one lies, sorted, each of them once.
fn least_sorted(alloc: Global, hits: &[RoleSet]) -> Result<Vec<RoleSet>, AllocError>
    ensures { IfOk result (λ list. list.items ≡ sort_once set_before (least_hits hits.now)) }
{
    let mut list = Vec::with_capacity(alloc, hits.len())?;
    for at in (0..hits.len()).rev() {
        add_least(&mut list, hits, &hits[at])?;
    }
    Ok(list)
}

/// The user requirement of hits and lacks in normal form.
fn made(hits: Vec<RoleSet>, lacks: RoleSet) -> UserReq
    requires { IsNormalNeed (record { hits = hits.items; lacks = lacks }) }
    ensures need { result ≡ record { hits = hits.items; lacks = lacks } }
    ensures normal { IsNormalNeed result }
{
    UserReq { hits, lacks }
}

/// The user requirement in normal form; none where a hit has no role left.
pub fn normal_user(alloc: Global, raw: &RawUser) -> Result<Option<UserReq>, NoMemory>
    ensures need { IfOk result (λ user. user ≡ user_form (need_of raw.now)) }
    ensures normal { IfOk result (λ user. IfSome user IsNormalNeed) }
{
    match bare_hits(alloc, raw)? {
        None => Ok(None),
        Some(hits) => {
            let hits = least_sorted(alloc, &hits)?;
            Ok(Some(made(hits, raw.lacks)))
        }
    }
}

/// The user requirement with one more hit, in normal form; none where the hit has no role but the lacks.
pub fn with_hit(alloc: Global, user: &UserReq, hit: &RoleSet) -> Result<Option<UserReq>, NoMemory>
    ensures { IfOk result (λ made. made ≡ user_form (add_hit hit.now user.now)) }
{
    let mut hits = Vec::with_capacity(alloc, user.hits().len().saturating_add(1))?;
    hits.push(*hit)?;
    hits.extend_from_slice(user.hits())?;
    let lacks = *user.lacks();
    let made = normal_user(alloc, &RawUser { hits, lacks })?;
    Ok(made)
}
