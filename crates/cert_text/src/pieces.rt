//! The pieces of a certificate's lines.

ghost use Rattle.std.specs.Prelude.{ℕ, ◌≡◌, ◌<◌, ◌^◌, ◌+◌, ◌++◌, [], ◌∷◌, length, map, codes, OnOk};
ghost use Rattle.std.specs.Fmt.{decimal};
ghost use Rattle.list_words.specs.Lists.{Each};
ghost use Rattle.role_order.specs.Names.{name_at};
ghost use Rattle.role_order.specs.Roles.{AreBelow, Rises};
ghost use Rattle.arbac_laws.specs.Views.{need_of};
ghost use Rattle.text_lines.specs.Acts as acts;
ghost use Rattle.cert_text.specs.Certificates.{pick_of, origin_of, IsKnownOrigin, IsWritten};
ghost use Rattle.cert_text.specs.LineForms.{IsWrittenPick, spell_pick, spell_origin, behind_commas, joined, spell_hits, spell_lacks};
ghost use Rattle.cert_text.specs.Texts.{written_act, written_origin, set_names};
ghost use Rattle.cert_text.specs.Sizes.{IsSizedAct, IsSizedOrigin, HasSets};

use crate::cert::{NeedUser, StepFrom, Who};
use arbac_policy::{Act, ActKind};
use role_order::{Order, RoleSet, Roles};
use std::alloc::AllocError;
use text_pieces::put;

fn put_digit(text: &mut Vec<u8>, digit: u8) -> Result<(), AllocError>
    requires { digit < 10 }
    ensures { OnOk result (text.new.items ≡ text.old.items ++ (48 + digit) ∷ []) }
{
    text.push(b'0' + digit)?;
    Ok(())
}

/// Puts the number behind the text, in decimal; nothing is allocated for it.
pub fn put_number(text: &mut Vec<u8>, number: u32) -> Result<(), AllocError>
    ensures text { OnOk result (text.new.items ≡ text.old.items ++ decimal number) }
    ensures size { number < 2 ^ 32 }
{
    if number < 10 {
        put_digit(text, number as u8)?;
        return Ok(());
    }
    put_number(text, number / 10)?;
    put_digit(text, (number % 10) as u8)?;
    Ok(())
}

/// Puts a word and a number behind the text; a space between them stands in the word.
pub fn put_count(text: &mut Vec<u8>, word: &str, number: u32) -> Result<(), AllocError>
    ensures text { OnOk result (text.new.items ≡ text.old.items ++ (word.now ++ decimal number)) }
    ensures size { number < 2 ^ 32 }
{
    put(text, word)?;
    put_number(text, number)?;
    Ok(())
}

fn put_name(text: &mut Vec<u8>, order: &Order, role: u16) -> Result<(), AllocError>
    requires { role < length order.now.names }
    ensures { OnOk result (text.new.items ≡ text.old.items ++ name_at order.now.names role) }
{
    put(text, order.name(role))?;
    Ok(())
}

/// Puts each role's name behind the text, after a comma.
fn put_more_names(text: &mut Vec<u8>, order: &Order, roles: Roles) -> Result<(), AllocError>
    requires { Each (λ role. role < length order.now.names) roles }
    ensures { OnOk result (text.new.items ≡ text.old.items ++ behind_commas (set_names order.now.names roles)) }
{
    for role in roles {
        put(text, ",")?;
        put_name(text, order, role)?;
    }
    Ok(())
}

/// Puts the names of the set's roles behind the text, with commas between them.
fn put_names(text: &mut Vec<u8>, order: &Order, set: &RoleSet) -> Result<(), AllocError>
    requires { AreBelow (length order.now.names) set.now }
    ensures text { OnOk result (text.new.items ≡ text.old.items ++ joined (set_names order.now.names set.now)) }
    ensures rises { Rises set.now }
{
    set.is_role_set();
    let mut roles = set.roles();
    match roles.next() {
        Some(first) => {
            put_name(text, order, first)?;
            put_more_names(text, order, roles)?;
            Ok(())
        }
        None => Ok(()),
    }
}

fn put_hits(text: &mut Vec<u8>, order: &Order, hits: &[RoleSet]) -> Result<(), AllocError>
    requires { Each (AreBelow (length order.now.names)) hits.now }
    ensures text { OnOk result (text.new.items ≡ text.old.items ++ spell_hits (map (set_names order.now.names) hits.now)) }
    ensures rise { OnOk result (Each Rises hits.now) }
{
    for hit in hits {
        put(text, " hit ")?;
        put_names(text, order, hit)?;
    }
    Ok(())
}

fn put_lacks(text: &mut Vec<u8>, order: &Order, lacks: &RoleSet) -> Result<(), AllocError>
    requires { AreBelow (length order.now.names) lacks.now }
    ensures text { OnOk result (text.new.items ≡ text.old.items ++ spell_lacks (set_names order.now.names lacks.now)) }
    ensures rises { OnOk result (Rises lacks.now) }
{
    lacks.is_role_set();
    if lacks.is_empty() {
        return Ok(());
    }
    put(text, " lack ")?;
    put_names(text, order, lacks)?;
    Ok(())
}

/// Puts the hits and the lacks behind the text: what stands behind `user` in the user's line.
pub fn put_user(text: &mut Vec<u8>, order: &Order, user: &NeedUser) -> Result<(), AllocError>
    requires { IsWritten (length order.now.names) (need_of user.now) }
    ensures text { OnOk result (text.new.items ≡ text.old.items
        ++ (spell_hits (map (set_names order.now.names) (need_of user.now).hits)
        ++ spell_lacks (set_names order.now.names (need_of user.now).lacks))) }
    ensures sets { OnOk result (HasSets (need_of user.now)) }
{
    put_hits(text, order, &user.hits)?;
    put_lacks(text, order, &user.lacks)?;
    Ok(())
}

fn kind_word(kind: ActKind) -> &'static str
    ensures { result.now ≡ acts.spell_kind kind }
{
    match kind {
        ActKind::Assign => "assign",
        ActKind::Weak => "weak",
        ActKind::Strong => "strong",
    }
}

/// Puts the act behind the text: what stands behind `act ` in its line.
pub fn put_act(text: &mut Vec<u8>, order: &Order, act: Act) -> Result<(), AllocError>
    requires { act.role < length order.now.names }
    ensures text { OnOk result (text.new.items ≡ text.old.items ++ acts.spell_act (written_act order.now.names act)) }
    ensures sized { OnOk result (IsSizedAct act) }
{
    put(text, kind_word(act.kind))?;
    put_count(text, " ", act.admin)?;
    put_count(text, " ", act.target)?;
    put(text, " ")?;
    put_name(text, order, act.role)?;
    Ok(())
}

fn put_pick(text: &mut Vec<u8>, admin: Who) -> Result<(), AllocError>
    ensures text { OnOk result (text.new.items ≡ text.old.items ++ spell_pick (pick_of admin)) }
    ensures sized { OnOk result (IsWrittenPick (pick_of admin)) }
{
    match admin {
        Who::Itself => {
            put(text, "self")?;
            Ok(())
        }
        Who::Other(place) => {
            put_number(text, place)?;
            Ok(())
        }
        Who::Fresh => {
            put(text, "new")?;
            Ok(())
        }
    }
}

/// Puts the end of an act's origin behind the text: role, target and administrator, each after a space.
fn put_change(
    text: &mut Vec<u8>,
    order: &Order,
    role: u16,
    target: u32,
    admin: Who,
) -> Result<(), AllocError>
    requires { role < length order.now.names }
    ensures text { OnOk result (text.new.items ≡ text.old.items
        ++ (codes " " ++ (name_at order.now.names role ++ (codes " " ++ (decimal target ++ (codes " " ++ spell_pick (pick_of admin))))))) }
    ensures sized { OnOk result ((target < 2 ^ 32) × IsWrittenPick (pick_of admin)) }
{
    put(text, " ")?;
    put_name(text, order, role)?;
    put_count(text, " ", target)?;
    put(text, " ")?;
    put_pick(text, admin)?;
    Ok(())
}

/// Puts the origin behind the text: what stands behind `need ` or `next ` in its line.
pub fn put_origin(text: &mut Vec<u8>, order: &Order, origin: StepFrom) -> Result<(), AllocError>
    requires { IsKnownOrigin (length order.now.names) (origin_of origin) }
    ensures text { OnOk result (text.new.items ≡ text.old.items ++ spell_origin (written_origin order.now.names (origin_of origin))) }
    ensures sized { OnOk result (IsSizedOrigin (origin_of origin)) }
{
    match origin {
        StepFrom::Goal { place } => {
            put_count(text, "goal ", place)?;
            Ok(())
        }
        StepFrom::Assign {
            parent,
            rule,
            conjunct,
            role,
            target,
            admin,
        } => {
            put_count(text, "pre ", parent)?;
            put_count(text, " assign ", rule)?;
            put_count(text, " ", conjunct)?;
            put_change(text, order, role, target, admin)?;
            Ok(())
        }
        StepFrom::Weak {
            parent,
            rule,
            role,
            target,
            admin,
        } => {
            put_count(text, "pre ", parent)?;
            put_count(text, " weak ", rule)?;
            put_change(text, order, role, target, admin)?;
            Ok(())
        }
    }
}
