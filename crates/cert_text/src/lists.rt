//! The lists of role names in a user line.
//!
//! What is read of them is made into sets where it stands. A name that is no role's leaves nothing of the sets, and the
//! form of what follows is still judged.

ghost use Rattle.std.specs.Prelude.{◌≡◌, [], ◌∷◌, IfOk};
ghost use Rattle.std.specs.Option.{option_map};
ghost use Rattle.arbac_laws.specs.Views.{need_of};
ghost use Rattle.cert_text.specs.Spelling.{list_in, pairs_in, user_in};
ghost use Rattle.cert_text.specs.Told as told;
ghost use Rattle.cert_text.specs.Told.{set_named, with_set, need_with, user_behind, user_named};

use crate::cert::NeedUser;
use cond_text::{cut, name_of};
use role_order::{Order, RoleSet};
use std::alloc::{AllocError, Global};
use text_lines::is;

/// The set with the role of the name; nothing where no role has it, or where nothing was left before.
fn with_named(order: &Order, set: Option<RoleSet>, name: &str) -> Option<RoleSet>
    ensures { result ≡ told.with_named order.now.names set name.now }
{
    let set = set?;
    let role = order.role_named(name)?;
    order.is_order();
    Some(set.with(role))
}

/// The set of the roles whose names stand between commas; none where one of them is no name.
#[tactic(auto, using(crate::proofs::ListLemmas::list_more, crate::proofs::ListLemmas::list_stop, crate::proofs::ListLemmas::list_last, crate::proofs::ListLemmas::list_no_last, cond_text::proofs::CutLemmas::cut_shorter))]
fn read_list(order: &Order, text: &[u8]) -> Option<Option<RoleSet>>
    ensures { result ≡ option_map (set_named order.now.names) (list_in text.now) }
{
    let mut set = Some(RoleSet::empty());
    let mut rest = text;
    while let Some((word, after)) = cut(rest, b',') {
        let name = name_of(word)?;
        set = with_named(order, set, name);
        rest = after;
    }
    let name = name_of(rest)?;
    Some(with_named(order, set, name))
}

/// The hits with one more, if nothing is missing.
fn with_hit(
    hits: Option<Vec<RoleSet>>,
    set: Option<RoleSet>,
) -> Result<Option<Vec<RoleSet>>, AllocError>
    ensures { IfOk result (λ more. option_map (λ v. v.items) more ≡ with_set (option_map (λ v. v.items) hits) set) }
{
    let Some(mut sets) = hits else {
        return Ok(None);
    };
    let Some(set) = set else {
        return Ok(None);
    };
    // A certificate has many users, most of them with one or two hits, and a push makes room for four.
    if sets.len() < 4 {
        sets.reserve_exact(1)?;
    }
    sets.push(set)?;
    Ok(Some(sets))
}

/// The user with these hits and lacks, if nothing is missing.
fn user_with(hits: Option<Vec<RoleSet>>, lacks: Option<RoleSet>) -> Option<NeedUser>
    ensures { option_map need_of result ≡ need_with (option_map (λ v. v.items) hits) lacks }
{
    let mut hits = hits?;
    let lacks = lacks?;
    hits.shrink_to_fit();
    Some(NeedUser { hits, lacks })
}

/// The user of a line that ends in this pair of words.
fn end_user(
    order: &Order,
    hits: Option<Vec<RoleSet>>,
    key: &[u8],
    list: &[u8],
) -> Result<Option<Option<NeedUser>>, AllocError>
    ensures { IfOk result (λ o. option_map (option_map need_of) o
        ≡ option_map (user_behind order.now.names (option_map (λ v. v.items) hits)) (pairs_in (key.now ∷ list.now ∷ []))) }
{
    let Some(set) = read_list(order, list) else {
        return Ok(None);
    };
    if is(key, "hit") {
        let hits = with_hit(hits, set)?;
        Ok(Some(user_with(hits, Some(RoleSet::empty()))))
    } else if is(key, "lack") {
        Ok(Some(user_with(hits, set)))
    } else {
        Ok(None)
    }
}

/// The user that pairs of words tell, `hit LIST` for each hit and `lack LIST` at the end; none where they have another form,
/// and nothing inside where a name is that of no role.
pub fn read_user(
    alloc: Global,
    order: &Order,
    text: &[u8],
) -> Result<Option<Option<NeedUser>>, AllocError>
    ensures { IfOk result (λ o. option_map (option_map need_of) o ≡ option_map (user_named order.now.names) (user_in text.now)) }
{
    let mut hits = Some(Vec::new(alloc));
    let mut rest = text;
    while let Some((key, behind)) = cut(rest, b' ') {
        let Some((list, after)) = cut(behind, b' ') else {
            return end_user(order, hits, key, behind);
        };
        if !is(key, "hit") {
            return Ok(None);
        }
        let Some(set) = read_list(order, list) else {
            return Ok(None);
        };
        hits = with_hit(hits, set)?;
        rest = after;
    }
    Ok(None)
}
