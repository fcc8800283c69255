//! The candidates of an act on one target, by administrator.

ghost use Rattle.std.specs.Prelude.{ℕ, ◌≡◌, ◌<◌, ◌≤◌, ◌↔◌, List, [], ◌∷◌, length, slice_get, Some, option_map, IsTrue, OnOk, IfOk, IfSome};
ghost use Rattle.role_order.specs.Graph.{Graph};
ghost use Rattle.role_order.specs.Reach.{count_up, seniors_of};
ghost use Rattle.arbac_laws.specs.Needs.{Need};
ghost use Rattle.arbac_laws.specs.PreImages.{IsPick, add_hit, itself, other, fresh};
ghost use Rattle.arbac_laws.specs.Obligations.{flat};
ghost use Rattle.req_core.specs.Forms.{user_form};
ghost use Rattle.req_pre.specs.Views.{owed_of, pick_of};
ghost use Rattle.shared_reqs.specs.Shared.{IsOwnMark, AreOwnMarks, needs_marked};
ghost use Rattle.search_rounds.specs.Keeping.{Gathers};
ghost use Rattle.search_rounds.specs.Making.{way_of, ob_by, by_pick, by_picks};
ghost use Rattle.search_laws.specs.Pruning.{HasHitWithin};
ghost use Rattle.search_rounds.specs.Picks.{IsPreForm, IsFreePlace, IsFirstFree, by_other};

use crate::NoMemory;
use crate::candidate::Origin;
use crate::gathering::Gathering;
use arbac_rules::Conjunct;
use req_core::{RawUser, UserReq, normal_user, with_hit};
use req_pre::{Obligation, Pick};
use role_order::RoleSet;
use shared_reqs::{MarkedUser, SharedReq};
use std::alloc::{AllocError, Global};
use std::sync::Arc;

/// What an act does: by the rule at the place it gives a role, its condition met by the conjunct at its place, or takes one.
#[derive(Clone, Copy)]
pub enum Change<'a> {
    Give {
        rule: u32,
        place: u32,
        conjunct: &'a Conjunct,
    },
    Take {
        rule: u32,
    },
}

/// A recorded requirement whose pre-images are made, with its number.
#[derive(Clone, Copy)]
pub struct Parent<'a> {
    pub number: u32,
    pub req: &'a SharedReq,
}

/// An act on one of the parent's users, whoever carries it out.
#[derive(Clone, Copy)]
pub struct Deed<'a> {
    pub change: Change<'a>,
    pub role: u16,
    pub target: u32,
    /// The rule's administrative role.
    pub admin: u16,
    /// The roles one of which an administrator needs: the seniors of that role.
    pub hit: RoleSet,
}

/// The act's obligation, by the administrator.
fn obligation(deed: &Deed, admin: Pick) -> Obligation
    ensures { owed_of result ≡ ob_by (way_of deed.now.change) deed.now.role deed.now.target (pick_of admin) }
{
    let Deed { role, target, .. } = *deed;
    match deed.change {
        Change::Give { rule, place, .. } => Obligation::Assign {
            rule,
            conjunct: place,
            role,
            target,
            admin,
        },
        Change::Take { rule } => Obligation::Weak {
            rule,
            role,
            target,
            admin,
        },
    }
}

/// The user requirement with one more hit, shared; none where the hit has no role but the lacks.
fn share_with_hit(
    alloc: Global,
    gathering: &mut Gathering,
    user: &UserReq,
    hit: &RoleSet,
) -> Result<Option<Arc<MarkedUser>>, NoMemory>
    ensures need { IfOk result (λ shared. option_map (λ one. one.value.need) shared ≡ user_form (add_hit hit.now user.now)) }
    ensures mark { IfOk result (λ shared. IfSome shared (λ one. IsOwnMark gathering.old.order one.value)) }
    ensures same { gathering.new ≡ gathering.old }
{
    match with_hit(alloc, user, hit)? {
        None => Ok(None),
        Some(made) => Ok(Some(gathering.share(alloc, made)?)),
    }
}

/// A user with this hit alone, shared; none where the hit has no role.
fn share_fresh(
    alloc: Global,
    gathering: &mut Gathering,
    hit: &RoleSet,
) -> Result<Option<Arc<MarkedUser>>, NoMemory>
    ensures need { IfOk result (λ shared. option_map (λ one. one.value.need) shared
        ≡ user_form (record { hits = hit.now ∷ []; lacks = [] })) }
    ensures mark { IfOk result (λ shared. IfSome shared (λ one. IsOwnMark gathering.old.order one.value)) }
    ensures same { gathering.new ≡ gathering.old }
{
    let mut hits = Vec::with_capacity(alloc, 1)?;
    hits.push(*hit)?;
    let lacks = RoleSet::empty();
    match normal_user(alloc, &RawUser { hits, lacks })? {
        None => Ok(None),
        Some(made) => Ok(Some(gathering.share(alloc, made)?)),
    }
}

/// The parent's user at the place.
fn user_at<'a>(parent: &Parent<'a>, place: u32) -> &'a MarkedUser
    requires { place < length parent.now.req.now }
    ensures { slice_get parent.now.req.now place ≡ Some result.now }
{
    let users = parent.req.users();
    &users[place as usize]
}

/// The pre-image in normal form, where the target is its own administrator; none where it is impossible.
fn made_by_itself(
    alloc: Global,
    gathering: &mut Gathering,
    parent: &Parent,
    deed: &Deed,
    before: &Arc<MarkedUser>,
) -> Result<Option<SharedReq>, NoMemory>
    requires marks { AreOwnMarks gathering.old.order parent.now.req.now }
    requires target { deed.now.target < length parent.now.req.now }
    ensures form { IfOk result (IsPreForm (needs_marked parent.now.req.now) deed.now.target deed.now.hit before.now.value.need itself) }
    ensures marks { IfOk result (λ made. IfSome made (AreOwnMarks gathering.old.order)) }
    ensures same { gathering.new ≡ gathering.old }
{
    parent.req.users();
    match share_with_hit(alloc, gathering, before.user(), &deed.hit)? {
        None => Ok(None),
        Some(both) => Ok(Some(parent.req.exchanged(alloc, deed.target as usize, &both)?)),
    }
}

/// The same, where the user at another place is the administrator.
fn made_by_other(
    alloc: Global,
    gathering: &mut Gathering,
    parent: &Parent,
    deed: &Deed,
    before: &Arc<MarkedUser>,
    place: u32,
) -> Result<Option<SharedReq>, NoMemory>
    requires marks { AreOwnMarks gathering.old.order parent.now.req.now }
    requires before { IsOwnMark gathering.old.order before.now.value }
    requires target { deed.now.target < length parent.now.req.now }
    requires place { place < length parent.now.req.now }
    requires apart { ¬ (place ≡ deed.now.target) }
    ensures form { IfOk result (IsPreForm (needs_marked parent.now.req.now) deed.now.target deed.now.hit before.now.value.need (other place)) }
    ensures marks { IfOk result (λ made. IfSome made (AreOwnMarks gathering.old.order)) }
    ensures same { gathering.new ≡ gathering.old }
{
    parent.req.users();
    let user = user_at(parent, place).user();
    match share_with_hit(alloc, gathering, user, &deed.hit)? {
        None => Ok(None),
        Some(admin) => {
            let target = deed.target as usize;
            let at = place as usize;
            let req = parent.req;
            Ok(Some(req.exchanged_both(alloc, target, before, at, &admin)?))
        }
    }
}

/// The same, where a new user is the administrator.
fn made_by_fresh(
    alloc: Global,
    gathering: &mut Gathering,
    parent: &Parent,
    deed: &Deed,
    before: &Arc<MarkedUser>,
) -> Result<Option<SharedReq>, NoMemory>
    requires marks { AreOwnMarks gathering.old.order parent.now.req.now }
    requires before { IsOwnMark gathering.old.order before.now.value }
    requires target { deed.now.target < length parent.now.req.now }
    ensures form { IfOk result (IsPreForm (needs_marked parent.now.req.now) deed.now.target deed.now.hit before.now.value.need fresh) }
    ensures marks { IfOk result (λ made. IfSome made (AreOwnMarks gathering.old.order)) }
    ensures same { gathering.new ≡ gathering.old }
{
    parent.req.users();
    match share_fresh(alloc, gathering, &deed.hit)? {
        None => Ok(None),
        Some(admin) => {
            let target = deed.target as usize;
            Ok(Some(parent.req.exchanged_and(alloc, target, before, &admin)?))
        }
    }
}

/// The pre-image in normal form; none where it is impossible.
fn make(
    alloc: Global,
    gathering: &mut Gathering,
    parent: &Parent,
    deed: &Deed,
    before: &Arc<MarkedUser>,
    admin: Pick,
) -> Result<Option<SharedReq>, NoMemory>
    requires marks { AreOwnMarks gathering.old.order parent.now.req.now }
    requires before { IsOwnMark gathering.old.order before.now.value }
    requires target { deed.now.target < length parent.now.req.now }
    requires pick { IsPick (pick_of admin) deed.now.target (length parent.now.req.now) }
    ensures form { IfOk result (IsPreForm (needs_marked parent.now.req.now) deed.now.target deed.now.hit before.now.value.need (pick_of admin)) }
    ensures marks { IfOk result (λ made. IfSome made (AreOwnMarks gathering.old.order)) }
    ensures same { gathering.new ≡ gathering.old }
{
    match admin {
        Pick::Itself => made_by_itself(alloc, gathering, parent, deed, before),
        Pick::Other(place) => made_by_other(alloc, gathering, parent, deed, before, place),
        Pick::Fresh => made_by_fresh(alloc, gathering, parent, deed, before),
    }
}

/// The candidate of the act by the administrator, if it is possible.
fn gather_pick(
    alloc: Global,
    gathering: &mut Gathering,
    parent: &Parent,
    deed: &Deed,
    before: &Arc<MarkedUser>,
    admin: Pick,
) -> Result<(), NoMemory>
    requires marks { AreOwnMarks gathering.old.order parent.now.req.now }
    requires before { IsOwnMark gathering.old.order before.now.value }
    requires target { deed.now.target < length parent.now.req.now }
    requires pick { IsPick (pick_of admin) deed.now.target (length parent.now.req.now) }
    ensures order { OnOk result (gathering.new.order ≡ gathering.old.order) }
    ensures gathers { OnOk result ((raw : Need) → user_form raw ≡ Some before.now.value.need → Gathers gathering.old gathering.new
        (by_pick parent.now.number (ob_by (way_of deed.now.change) deed.now.role deed.now.target) deed.now.hit
        (needs_marked parent.now.req.now) deed.now.target raw (pick_of admin))) }
{
    let made = make(alloc, gathering, parent, deed, before, admin)?;
    match made {
        None => Ok(()),
        Some(req) => {
            let ob = obligation(deed, admin);
            let parent = parent.number;
            Ok(gathering.add(alloc, req, Origin::Pre { parent, ob })?)
        }
    }
}

/// How many users the parent has. The error is more of them than 32 bits count.
fn user_count(parent: &Parent) -> Result<u32, NoMemory>
    ensures { IfOk result (λ count. count ≡ length parent.now.req.now) }
{
    let count = parent.req.users().len();
    if count > u32::MAX as usize {
        return Err(AllocError);
    }
    Ok(count as u32)
}

/// The candidate of the act by the user at the place, unless that is the target.
fn gather_other(
    alloc: Global,
    gathering: &mut Gathering,
    parent: &Parent,
    deed: &Deed,
    before: &Arc<MarkedUser>,
    place: u32,
) -> Result<(), NoMemory>
    requires marks { AreOwnMarks gathering.old.order parent.now.req.now }
    requires before { IsOwnMark gathering.old.order before.now.value }
    requires target { deed.now.target < length parent.now.req.now }
    requires place { place < length parent.now.req.now }
    ensures order { OnOk result (gathering.new.order ≡ gathering.old.order) }
    ensures gathers { OnOk result ((raw : Need) → user_form raw ≡ Some before.now.value.need → Gathers gathering.old gathering.new
        (by_other parent.now.number (ob_by (way_of deed.now.change) deed.now.role deed.now.target) deed.now.hit
        (needs_marked parent.now.req.now) deed.now.target raw place)) }
{
    if place == deed.target {
        return Ok(());
    }
    Ok(gather_pick(alloc, gathering, parent, deed, before, Pick::Other(place))?)
}

/// The candidates of the act by each user but the target.
fn gather_others(
    alloc: Global,
    gathering: &mut Gathering,
    parent: &Parent,
    deed: &Deed,
    before: &Arc<MarkedUser>,
) -> Result<(), NoMemory>
    requires marks { AreOwnMarks gathering.old.order parent.now.req.now }
    requires before { IsOwnMark gathering.old.order before.now.value }
    requires target { deed.now.target < length parent.now.req.now }
    ensures order { OnOk result (gathering.new.order ≡ gathering.old.order) }
    ensures gathers { OnOk result ((raw : Need) → user_form raw ≡ Some before.now.value.need → Gathers gathering.old gathering.new
        (flat (by_other parent.now.number (ob_by (way_of deed.now.change) deed.now.role deed.now.target) deed.now.hit
        (needs_marked parent.now.req.now) deed.now.target raw) (count_up 0 (length parent.now.req.now)))) }
{
    let count = user_count(parent)?;
    for place in 0..count {
        gather_other(alloc, gathering, parent, deed, before, place)?;
    }
    Ok(())
}

/// The candidates of the act by each administrator, all of them made.
fn gather_all(
    alloc: Global,
    gathering: &mut Gathering,
    parent: &Parent,
    deed: &Deed,
    before: &Arc<MarkedUser>,
) -> Result<(), NoMemory>
    requires marks { AreOwnMarks gathering.old.order parent.now.req.now }
    requires before { IsOwnMark gathering.old.order before.now.value }
    requires target { deed.now.target < length parent.now.req.now }
    ensures { OnOk result ((raw : Need) → user_form raw ≡ Some before.now.value.need → Gathers gathering.old gathering.new
        (by_picks parent.now.number (ob_by (way_of deed.now.change) deed.now.role deed.now.target) deed.now.hit
        (needs_marked parent.now.req.now) deed.now.target raw)) }
{
    gather_pick(alloc, gathering, parent, deed, before, Pick::Itself)?;
    gather_others(alloc, gathering, parent, deed, before)?;
    gather_pick(alloc, gathering, parent, deed, before, Pick::Fresh)?;
    Ok(())
}

/// Whether the user has a hit within the administrator's already.
fn is_admin(deed: &Deed, user: &MarkedUser) -> bool
    ensures { (order : Graph) → deed.now.admin < length order.names → deed.now.hit ≡ seniors_of order deed.now.admin →
        IsOwnMark order user.now → IsTrue result ↔ HasHitWithin deed.now.hit user.now.need }
{
    user.mark().aims.has(deed.admin)
}

/// Whether the user at the place isn't the target, and has such a hit.
fn is_free(parent: &Parent, deed: &Deed, place: u32) -> bool
    requires { place < length parent.now.req.now }
    ensures { (order : Graph) → deed.now.admin < length order.names → deed.now.hit ≡ seniors_of order deed.now.admin →
        AreOwnMarks order parent.now.req.now →
        IsTrue result ↔ IsFreePlace deed.now.hit (needs_marked parent.now.req.now) deed.now.target place }
{
    place != deed.target && is_admin(deed, user_at(parent, place))
}

/// The first place of such a user, of so many.
fn free_place(parent: &Parent, deed: &Deed, count: u32) -> Option<u32>
    requires { count ≤ length parent.now.req.now }
    ensures free { (order : Graph) → deed.now.admin < length order.names → deed.now.hit ≡ seniors_of order deed.now.admin →
        AreOwnMarks order parent.now.req.now →
        IfSome result (λ place. IsFreePlace deed.now.hit (needs_marked parent.now.req.now) deed.now.target place
        × ((k : ℕ) → k < place → ¬ IsFreePlace deed.now.hit (needs_marked parent.now.req.now) deed.now.target k)) }
{
    for place in 0..count {
        if is_free(parent, deed, place) {
            return Some(place);
        }
    }
    None
}

/// The first administrator who has such a hit, of the target and of so many users.
fn free_pick(parent: &Parent, deed: &Deed, before: &MarkedUser, count: u32) -> Option<Pick>
    requires { count ≤ length parent.now.req.now }
    ensures { (order : Graph) → deed.now.admin < length order.names → deed.now.hit ≡ seniors_of order deed.now.admin →
        AreOwnMarks order parent.now.req.now → IsOwnMark order before.now →
        IfSome result (λ pick. IsFirstFree deed.now.hit (needs_marked parent.now.req.now) deed.now.target before.now.need (pick_of pick)) }
{
    if is_admin(deed, before) {
        return Some(Pick::Itself);
    }
    match free_place(parent, deed, count) {
        None => None,
        Some(place) => Some(Pick::Other(place)),
    }
}

/// The candidates of the act by each administrator, where the target must meet so much before.
pub fn gather_picks(
    alloc: Global,
    gathering: &mut Gathering,
    parent: &Parent,
    deed: &Deed,
    before: &Arc<MarkedUser>,
) -> Result<(), NoMemory>
    requires marks { AreOwnMarks gathering.old.order parent.now.req.now }
    requires before { IsOwnMark gathering.old.order before.now.value }
    requires target { deed.now.target < length parent.now.req.now }
    requires admin { deed.now.admin < length gathering.old.order.names }
    requires hit { deed.now.hit ≡ seniors_of gathering.old.order deed.now.admin }
    ensures { OnOk result ((raw : Need) → user_form raw ≡ Some before.now.value.need → Gathers gathering.old gathering.new
        (by_picks parent.now.number (ob_by (way_of deed.now.change) deed.now.role deed.now.target) deed.now.hit
        (needs_marked parent.now.req.now) deed.now.target raw)) }
{
    let count = user_count(parent)?;
    match free_pick(parent, deed, before, count) {
        None => Ok(gather_all(alloc, gathering, parent, deed, before)?),
        Some(admin) => Ok(gather_pick(alloc, gathering, parent, deed, before, admin)?),
    }
}
