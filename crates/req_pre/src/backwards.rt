//! Pre-images.

ghost use Rattle.std.specs.Prelude.{◌≡◌, ◌<◌, ◌++◌, [], ◌∷◌, length, slice_get, slice_set};
ghost use Rattle.std.specs.Prelude.{◌↔◌, option_map, IfOk, IfSome, IsNone, IsTrue, OnOk};
ghost use Rattle.role_order.specs.Reach.{seniors_of};
ghost use Rattle.arbac_policy.specs.declared.rule.CanAssign.{CanAssign};
ghost use Rattle.arbac_policy.specs.declared.rule.CanRevoke.{CanRevoke};
ghost use Rattle.arbac_laws.specs.Obligations.{and_then, assigns, revokes};
ghost use Rattle.arbac_laws.specs.NormalForms.{normal_form, pre_form, AreFormPlaces};
ghost use Rattle.arbac_laws.specs.PreImages as laws;
ghost use Rattle.arbac_laws.specs.PreImages.{change_at, with_admin};
ghost use Rattle.req_core.specs.Answers.{form_in};
ghost use Rattle.arbac_laws.specs.Views.{need_of, needs_of};
ghost use Rattle.req_pre.specs.Preparing.{conjuncts_of};
ghost use Rattle.req_pre.specs.Views.{owed_of, pick_of};
ghost use Rattle.req_pre.specs.Answers.{ArePrePlaces, HasAdmin, IsThere};

use crate::NoMemory;
use crate::owed::{Obligation, Pick};
use crate::prepared::Prepared;
use crate::raw::raw_user;
use crate::targets::{before_assign, before_weak};
use arbac_policy::Policy;
use arbac_rules::Conjunct;
use req_core::{Normal, RawUser, Req, normal};
use role_order::RoleSet;
use std::alloc::{AllocError, Global};

/// The user requirements in values of their own.
fn raw_users(alloc: Global, req: &Req) -> Result<Vec<RawUser>, AllocError>
    ensures { IfOk result (λ raw. needs_of raw.items ≡ req.now) }
{
    let users = req.users();
    let mut raw = Vec::with_capacity(alloc, users.len())?;
    for user in users {
        raw.push(raw_user(alloc, user.hits(), user.lacks())?)?;
    }
    Ok(raw)
}

/// One more hit for the user.
fn and_one(user: &mut RawUser, hit: RoleSet) -> Result<(), AllocError>
    ensures { OnOk result (need_of user.new ≡ laws.add_hit hit (need_of user.old)) }
{
    user.hits.insert(0, hit)?;
    Ok(())
}

/// One more hit for the user at the place, if one is there.
fn add_hit(raw: &mut Vec<RawUser>, at: u32, hit: RoleSet) -> Result<(), AllocError>
    ensures { OnOk result (needs_of raw.new.items ≡ change_at at (laws.add_hit hit) (needs_of raw.old.items)) }
{
    if (at as usize) < raw.len() {
        and_one(&mut raw[at as usize], hit)?;
    }
    Ok(())
}

/// A new user of whom only the hit is wanted.
fn add_fresh(alloc: Global, raw: &mut Vec<RawUser>, hit: RoleSet) -> Result<(), AllocError>
    ensures { OnOk result (needs_of raw.new.items ≡ needs_of raw.old.items ++ record { hits = hit ∷ []; lacks = [] } ∷ []) }
{
    let mut hits = Vec::new(alloc);
    hits.push(hit)?;
    raw.push(RawUser {
        hits,
        lacks: RoleSet::empty(),
    })?;
    Ok(())
}

/// The administrator is to meet the hit too.
fn add_admin(
    alloc: Global,
    raw: &mut Vec<RawUser>,
    admin: Pick,
    target: u32,
    hit: RoleSet,
) -> Result<(), AllocError>
    ensures { OnOk result (needs_of raw.new.items ≡ with_admin (pick_of admin) target hit (needs_of raw.old.items)) }
{
    match admin {
        Pick::Itself => add_hit(raw, target, hit),
        Pick::Other(place) => add_hit(raw, place, hit),
        Pick::Fresh => add_fresh(alloc, raw, hit),
    }
}

/// The target is to meet this in place of what it was to meet.
fn exchange(raw: &mut Vec<RawUser>, target: u32, before: RawUser)
    requires { target < length raw.old.items }
    ensures { needs_of raw.new.items ≡ slice_set (needs_of raw.old.items) target (need_of before) }
{
    raw[target as usize] = before;
}

/// The requirement with the target's part exchanged and the administrator's hit, in normal form.
fn exchanged(
    alloc: Global,
    req: &Req,
    before: RawUser,
    target: u32,
    admin: Pick,
    hit: RoleSet,
) -> Result<Option<Normal>, AllocError>
    requires { target < length req.now }
    ensures form { IfOk result (λ normal. form_in normal
        ≡ normal_form (with_admin (pick_of admin) target hit (slice_set req.now target (need_of before)))) }
    ensures places { IfOk result (λ normal. IfSome normal (λ n.
        AreFormPlaces (with_admin (pick_of admin) target hit (slice_set req.now target (need_of before))) n.req n.places.items)) }
{
    let mut raw = raw_users(alloc, req)?;
    exchange(&mut raw, target, before);
    add_admin(alloc, &mut raw, admin, target, hit)?;
    let form = normal(alloc, &raw)?;
    Ok(form)
}

/// The roles one of which the administrator needs, by the rule of `can_assign` at the place.
fn givers(policy: &Policy, rule: u32) -> Option<RoleSet>
    ensures { result ≡ option_map (λ (rule : CanAssign). seniors_of policy.now.order rule.admin) (slice_get policy.now.assign rule) }
{
    let order = policy.order();
    match policy.assign().get(rule as usize) {
        Some(rule) => Some(order.seniors(rule.admin)),
        None => None,
    }
}

/// The roles one of which the administrator needs, by the rule of `can_revoke` at the place.
fn takers(policy: &Policy, rule: u32) -> Option<RoleSet>
    ensures { result ≡ option_map (λ (rule : CanRevoke). seniors_of policy.now.order rule.admin) (slice_get policy.now.revoke rule) }
{
    let order = policy.order();
    match policy.revoke().get(rule as usize) {
        Some(rule) => Some(order.seniors(rule.admin)),
        None => None,
    }
}

/// The conjunct at the place, of the rule of `can_assign` at its place.
fn conjunct_at(prepared: &Prepared, rule: u32, conjunct: u32) -> Option<&Conjunct>
    ensures { option_map (λ one. need_of one.now) result
        ≡ and_then (slice_get prepared.now.assign rule) (λ rule. slice_get (conjuncts_of prepared.now rule) conjunct) }
{
    match prepared.conjuncts_at(rule as usize) {
        Some(list) => list.get(conjunct as usize),
        None => None,
    }
}

/// Before the rule of `can_assign` gives the role, its condition met by the conjunct.
fn pre_assign(
    alloc: Global,
    prepared: &Prepared,
    req: &Req,
    rule: u32,
    conjunct: u32,
    role: u16,
    target: u32,
    admin: Pick,
) -> Result<Option<Normal>, AllocError>
    ensures form { IfOk result (λ normal. form_in normal ≡ pre_form prepared.now req.now (assigns rule conjunct role target (pick_of admin))) }
    ensures places { IfOk result (λ normal. IfSome normal (ArePrePlaces prepared.now req.now (assigns rule conjunct role target (pick_of admin)))) }
{
    let Some(hit) = givers(prepared.policy(), rule) else {
        return Ok(None);
    };
    let Some(one) = conjunct_at(prepared, rule, conjunct) else {
        return Ok(None);
    };
    let Some(user) = req.users().get(target as usize) else {
        return Ok(None);
    };
    let Some(before) = before_assign(alloc, prepared, one, role, user)? else {
        return Ok(None);
    };
    let form = exchanged(alloc, req, before, target, admin, hit)?;
    Ok(form)
}

/// Before the rule of `can_revoke` takes the role away.
fn pre_weak(
    alloc: Global,
    prepared: &Prepared,
    req: &Req,
    rule: u32,
    role: u16,
    target: u32,
    admin: Pick,
) -> Result<Option<Normal>, AllocError>
    ensures form { IfOk result (λ normal. form_in normal ≡ pre_form prepared.now req.now (revokes rule role target (pick_of admin))) }
    ensures places { IfOk result (λ normal. IfSome normal (ArePrePlaces prepared.now req.now (revokes rule role target (pick_of admin)))) }
{
    let Some(hit) = takers(prepared.policy(), rule) else {
        return Ok(None);
    };
    let Some(user) = req.users().get(target as usize) else {
        return Ok(None);
    };
    let Some(before) = before_weak(alloc, role, user)? else {
        return Ok(None);
    };
    let form = exchanged(alloc, req, before, target, admin, hit)?;
    Ok(form)
}

/// Whether the administrator is the target, new, or one of so many users.
fn is_there(admin: Pick, count: usize) -> bool
    ensures { IsTrue result ↔ IsThere count (pick_of admin) }
{
    match admin {
        Pick::Itself => true,
        Pick::Other(place) => (place as usize) < count,
        Pick::Fresh => true,
    }
}

/// Whether the obligation's administrator is there, in a requirement of so many users.
fn has_admin(ob: &Obligation, count: usize) -> bool
    ensures { IsTrue result ↔ HasAdmin count (owed_of ob.now) }
{
    match *ob {
        Obligation::Assign { admin, .. } => is_there(admin, count),
        Obligation::Weak { admin, .. } => is_there(admin, count),
    }
}

/// What a population must meet before the act of the obligation, in normal form; none exactly where nothing will
/// do, or where one of its places isn't there, the administrator's among them. `places` says where the users of the
/// requirement went, and behind them a new administrator.
pub fn pre(
    alloc: Global,
    prepared: &Prepared,
    req: &Req,
    ob: &Obligation,
) -> Result<Option<Normal>, NoMemory>
    ensures form { HasAdmin (length req.now) (owed_of ob.now) → IfOk result (λ normal. form_in normal ≡ pre_form prepared.now req.now (owed_of ob.now)) }
    ensures places { IfOk result (λ normal. IfSome normal (ArePrePlaces prepared.now req.now (owed_of ob.now))) }
    ensures absent { ¬ HasAdmin (length req.now) (owed_of ob.now) → IfOk result (λ normal. IsNone normal) }
{
    if !has_admin(ob, req.users().len()) {
        return Ok(None);
    }
    match *ob {
        Obligation::Assign {
            rule,
            conjunct,
            role,
            target,
            admin,
        } => pre_assign(alloc, prepared, req, rule, conjunct, role, target, admin),
        Obligation::Weak {
            rule,
            role,
            target,
            admin,
        } => pre_weak(alloc, prepared, req, rule, role, target, admin),
    }
}
