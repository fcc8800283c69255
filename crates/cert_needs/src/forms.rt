//! Whether what is wanted is possible, and whether users are its normal form.

ghost use Rattle.std.specs.Prelude.{◌≡◌, ◌↔◌, [], length, map, if◌then◌else◌, IsTrue, Some, IfOk, OnOk};
ghost use Rattle.std.specs.List.{list_any, prefix_len};
ghost use Rattle.role_order.specs.Roles.{is_within};
ghost use Rattle.role_order.specs.Orders.{set_before};
ghost use Rattle.arbac_laws.specs.Needs.{IsPossible};
ghost use Rattle.arbac_laws.specs.Orders.{hits_before, need_before};
ghost use Rattle.arbac_laws.specs.NormalForms as forms;
ghost use Rattle.arbac_laws.specs.NormalForms.{least_hits, insert_by, insert_once, sort_by, sort_once, normal_form, normal_need};
ghost use Rattle.arbac_laws.specs.Views.{need_of, needs_of};
ghost use Rattle.cert_needs.specs.Wanted.{need_wanted, needs_wanted};
ghost use Rattle.cert_needs.specs.Forms.{wants_barred, admin_need, user_before};

use crate::{NeedUser, NoMemory, Wanted};
use role_order::RoleSet;
use std::alloc::{AllocError, Global};

/// Whether one of the hits lies within the lacks.
fn has_barred(hits: &[RoleSet], lacks: &RoleSet) -> bool
    ensures { result ≡ list_any (λ hit. is_within hit lacks.now) hits.now }
{
    hits.iter().any(|hit| hit.within(lacks))
}

/// Whether one of the hits that are wanted lies within the lacks.
fn wants_barred(user: &Wanted) -> bool
    ensures { result ≡ wants_barred (need_wanted user.now) }
{
    match &user.admin {
        Some(admin) => admin.within(&user.lacks) || has_barred(user.hits, &user.lacks),
        None => has_barred(user.hits, &user.lacks),
    }
}

/// Whether a hit of some user lies within its lacks.
fn is_impossible(users: &[Wanted]) -> bool
    ensures { result ≡ list_any (λ user. wants_barred (need_wanted user)) users.now }
{
    users.iter().any(|user| wants_barred(user))
}

/// Whether no hit lies within the lacks of its user.
pub fn is_possible(users: &[Wanted]) -> bool
    ensures { IsTrue result ↔ IsPossible (needs_wanted users.now) }
{
    !is_impossible(users)
}

/// The administrator's hit without the lacks, where the user administers.
fn bare_admin(alloc: Global, user: &Wanted) -> Result<Vec<RoleSet>, AllocError>
    ensures { IfOk result (λ hits. hits.items ≡ forms.bare_hits (admin_need user.now)) }
{
    let mut hits = Vec::new(alloc);
    if let Some(admin) = &user.admin {
        hits.push(admin.less(&user.lacks))?;
    }
    Ok(hits)
}

/// The hits that are wanted, without the lacks.
fn bare_hits(alloc: Global, user: &Wanted) -> Result<Vec<RoleSet>, AllocError>
    ensures { IfOk result (λ hits. hits.items ≡ forms.bare_hits (need_wanted user.now)) }
{
    let mut hits = bare_admin(alloc, user)?;
    for hit in user.hits {
        hits.push(hit.less(&user.lacks))?;
    }
    Ok(hits)
}

/// Whether it lies within the other, and not the other way round.
fn is_less(hit: &RoleSet, other: &RoleSet) -> bool
    ensures { result ≡ forms.is_less hit.now other.now }
{
    hit.within(other) && !other.within(hit)
}

/// Whether a different hit lies within it.
fn contains_less(hit: &RoleSet, hits: &[RoleSet]) -> bool
    ensures { result ≡ list_any (λ other. forms.is_less other hit.now) hits.now }
{
    hits.iter().any(|other| is_less(other, hit))
}

/// How many hits at the front are before this one.
fn hits_ahead(hits: &[RoleSet], hit: &RoleSet) -> usize
    ensures { result ≡ prefix_len (λ other. set_before other hit.now) hits.now }
{
    hits.iter().take_while(|other| other.before(hit)).count()
}

/// Puts the hit in its place, if it isn't there.
fn insert_hit(hits: &mut Vec<RoleSet>, hit: &RoleSet) -> Result<(), AllocError>
    ensures { OnOk result (hits.new.items ≡ insert_once set_before hit.now hits.old.items) }
{
    let at = hits_ahead(hits, hit);
    if at == hits.len() || hit.before(&hits[at]) {
        hits.insert(at, *hit)?;
    }
    Ok(())
}

/// Puts the hit in its place, if no different one of all hits lies within it.
fn insert_least(list: &mut Vec<RoleSet>, hits: &[RoleSet], hit: &RoleSet) -> Result<(), AllocError>
    ensures { OnOk result (list.new.items ≡ (if list_any (λ other. forms.is_less other hit.now) hits.now
        then list.old.items else insert_once set_before hit.now list.old.items)) }
{
    if !contains_less(hit, hits) {
        insert_hit(list, hit)?;
    }
    Ok(())
}

/// The hits within which no different one lies, sorted, each of them once.
fn least_sorted(alloc: Global, hits: &[RoleSet]) -> Result<Vec<RoleSet>, AllocError>
    ensures { IfOk result (λ list. list.items ≡ sort_once set_before (least_hits hits.now)) }
{
    let mut list = Vec::with_capacity(alloc, hits.len())?;
    for at in (0..hits.len()).rev() {
        insert_least(&mut list, hits, &hits[at])?;
    }
    Ok(list)
}

/// The normal form of what is wanted of one user.
fn normal_user(alloc: Global, user: &Wanted) -> Result<NeedUser, AllocError>
    ensures { IfOk result (λ form. need_of form ≡ normal_need (need_wanted user.now)) }
{
    let bare = bare_hits(alloc, user)?;
    let hits = least_sorted(alloc, &bare)?;
    Ok(NeedUser {
        hits,
        lacks: user.lacks,
    })
}

/// Whether the hits come before the others, as lists of sets do.
fn hits_are_before(hits: &[RoleSet], others: &[RoleSet]) -> bool
    ensures { result ≡ hits_before hits.now others.now }
{
    let count = hits.len().min(others.len());
    for at in 0..count {
        if hits[at].before(&others[at]) {
            return true;
        }
        if others[at].before(&hits[at]) {
            return false;
        }
    }
    hits.len() < others.len()
}

/// Whether the user comes before the other: by the hits, and then by the lacks.
fn is_before(user: &NeedUser, other: &NeedUser) -> bool
    ensures { result ≡ user_before user.now other.now }
{
    hits_are_before(&user.hits, &other.hits)
        || (!hits_are_before(&other.hits, &user.hits) && user.lacks.before(&other.lacks))
}

/// How many users at the front are before this one.
fn users_ahead(users: &[NeedUser], user: &NeedUser) -> usize
    ensures { result ≡ prefix_len (λ other. user_before other user.now) users.now }
{
    users
        .iter()
        .take_while(|other| is_before(other, user))
        .count()
}

/// Puts the user before the first that isn't before it.
fn insert_user(users: &mut Vec<NeedUser>, user: NeedUser) -> Result<(), AllocError>
    ensures { OnOk result (needs_of users.new.items ≡ insert_by need_before (need_of user) (needs_of users.old.items)) }
{
    let at = users_ahead(users, &user);
    users.insert(at, user)?;
    Ok(())
}

/// The normal form of what is wanted of each user, sorted.
fn sorted_users(alloc: Global, users: &[Wanted]) -> Result<Vec<NeedUser>, AllocError>
    ensures { IfOk result (λ form. needs_of form.items ≡ sort_by need_before (map normal_need (needs_wanted users.now))) }
{
    let mut form = Vec::with_capacity(alloc, users.len())?;
    for at in (0..users.len()).rev() {
        let user = normal_user(alloc, &users[at])?;
        insert_user(&mut form, user)?;
    }
    Ok(form)
}

/// Whether both users have the same hits, in the same order, and the same lacks.
fn is_same(user: &NeedUser, other: &NeedUser) -> bool
    ensures { IsTrue result ↔ (need_of user.now ≡ need_of other.now) }
{
    user.lacks == other.lacks && user.hits.as_slice() == other.hits.as_slice()
}

/// Whether the users are the same as the others, one by one.
fn are_same(users: &[NeedUser], others: &[NeedUser]) -> bool
    ensures { IsTrue result ↔ (needs_of users.now ≡ needs_of others.now) }
{
    if users.len() != others.len() {
        return false;
    }
    for at in 0..users.len() {
        if !is_same(&users[at], &others[at]) {
            return false;
        }
    }
    true
}

/// Whether what is wanted is possible and has these users as its normal form, in this order.
pub fn has_form(alloc: Global, raw: &[Wanted], form: &[NeedUser]) -> Result<bool, NoMemory>
    ensures { IfOk result (λ answer. IsTrue answer ↔ (normal_form (needs_wanted raw.now) ≡ Some (needs_of form.now))) }
{
    if !is_possible(raw) {
        return Ok(false);
    }
    let users = sorted_users(alloc, raw)?;
    Ok(are_same(&users, form))
}
