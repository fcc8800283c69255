//! Texts that grow piece by piece: values, and lists of them.

ghost use Rattle.std.specs.Prelude.{◌≡◌, ◌<◌, ◌++◌, ◌∷◌, [], map, OnOk, IfOk, length, codes, if◌then◌else◌, ◌==◌};
ghost use Rattle.list_words.specs.Lists.{Each};
ghost use Rattle.role_order.specs.Roles.{has_role};
ghost use Rattle.arbac_policy.specs.Truth.{term_of, IsKnown};
ghost use Rattle.arbac_policy.specs.Rules.{IsKnownPair, IsKnownRange};
ghost use Rattle.cond_text.specs.Ranges.{opening_text, closing_text};
ghost use Rattle.question_text.specs.Rules.{IsSet};
ghost use Rattle.question_writer.specs.Texts.{header, quoted, listed, role_text, pair_text, condition_text, range_text};

use crate::NoMemory;
use arbac_policy::Cond;
use cond_text::print_cond;
use role_order::{Order, Range, RoleSet};
use std::alloc::{AllocError, Global};
use text_pieces::put;

/// Puts the words between quotation marks behind the text.
pub fn put_quoted(text: &mut Vec<u8>, words: &str) -> Result<(), NoMemory>
    ensures { OnOk result (text.new.items ≡ text.old.items ++ quoted words.now) }
{
    put(text, "\"")?;
    put(text, words)?;
    put(text, "\"")?;
    Ok(())
}

/// Puts the key and the sign of equality behind the text.
pub fn put_key(text: &mut Vec<u8>, key: &str) -> Result<(), NoMemory>
    ensures { OnOk result (text.new.items ≡ text.old.items ++ (key.now ++ codes " = ")) }
{
    put(text, key)?;
    put(text, " = ")?;
    Ok(())
}

/// Puts the header of one more table of the key behind the text.
pub fn put_header(text: &mut Vec<u8>, key: &str) -> Result<(), NoMemory>
    ensures { OnOk result (text.new.items ≡ text.old.items ++ header key.now) }
{
    put(text, "[[")?;
    put(text, key)?;
    put(text, "]]\n")?;
    Ok(())
}

/// Puts a comma and a space behind the text, unless the list's first item is to come.
fn put_comma(text: &mut Vec<u8>, place: usize) -> Result<(), AllocError>
    ensures { OnOk result (text.new.items ≡ text.old.items ++ (if place == 0 then [] else codes ", ")) }
{
    if place != 0 {
        put(text, ", ")?;
    }
    Ok(())
}

pub fn put_role(text: &mut Vec<u8>, order: &Order, role: u16) -> Result<(), NoMemory>
    requires { role < length order.now.names }
    ensures { OnOk result (text.new.items ≡ text.old.items ++ role_text order.now.names role) }
{
    put_quoted(text, order.name(role))?;
    Ok(())
}

fn put_pair(text: &mut Vec<u8>, order: &Order, pair: (u16, u16)) -> Result<(), AllocError>
    requires { IsKnownPair (length order.now.names) pair }
    ensures { OnOk result (text.new.items ≡ text.old.items ++ pair_text order.now.names pair) }
{
    put(text, "[")?;
    put_role(text, order, pair.0)?;
    put(text, ", ")?;
    put_role(text, order, pair.1)?;
    put(text, "]")?;
    Ok(())
}

pub fn put_condition(
    alloc: Global,
    text: &mut Vec<u8>,
    order: &Order,
    cond: &Cond,
) -> Result<(), NoMemory>
    requires { IsKnown (length order.now.names) (term_of cond.now) }
    ensures { OnOk result (text.new.items ≡ text.old.items ++ condition_text order.now.names (term_of cond.now)) }
{
    let words = print_cond(alloc, order, cond)?;
    put_quoted(text, words.as_str())?;
    Ok(())
}

fn opening(is_open: bool) -> &'static str
    ensures { result.now ≡ opening_text is_open }
{
    if is_open { "(" } else { "[" }
}

fn closing(is_open: bool) -> &'static str
    ensures { result.now ≡ closing_text is_open }
{
    if is_open { ")" } else { "]" }
}

pub fn put_range(text: &mut Vec<u8>, order: &Order, range: &Range) -> Result<(), NoMemory>
    requires { IsKnownRange (length order.now.names) range.now }
    ensures { OnOk result (text.new.items ≡ text.old.items ++ range_text order.now.names range.now) }
{
    put(text, "\"")?;
    put(text, opening(range.low_open))?;
    put(text, order.name(range.low))?;
    put(text, ",")?;
    put(text, order.name(range.high))?;
    put(text, closing(range.high_open))?;
    put(text, "\"")?;
    Ok(())
}

/// Puts the list of all names behind the text.
pub fn put_names(text: &mut Vec<u8>, order: &Order) -> Result<(), NoMemory>
    ensures { OnOk result (text.new.items ≡ text.old.items ++ listed quoted order.now.names) }
{
    put(text, "[")?;
    for role in 0..order.count() {
        put_comma(text, role as usize)?;
        put_quoted(text, order.name(role))?;
    }
    put(text, "]")?;
    Ok(())
}

/// Puts the list of the roles' names behind the text.
pub fn put_roles(text: &mut Vec<u8>, order: &Order, roles: &[u16]) -> Result<(), NoMemory>
    requires { Each (λ role. role < length order.now.names) roles.now }
    ensures { OnOk result (text.new.items ≡ text.old.items ++ listed (role_text order.now.names) roles.now) }
{
    put(text, "[")?;
    for (place, role) in roles.iter().enumerate() {
        put_comma(text, place)?;
        put_role(text, order, *role)?;
    }
    put(text, "]")?;
    Ok(())
}

/// Puts the list of pairs of names behind the text.
pub fn put_pairs(text: &mut Vec<u8>, order: &Order, pairs: &[(u16, u16)]) -> Result<(), NoMemory>
    requires { Each (IsKnownPair (length order.now.names)) pairs.now }
    ensures { OnOk result (text.new.items ≡ text.old.items ++ listed (pair_text order.now.names) pairs.now) }
{
    put(text, "[")?;
    for (place, pair) in pairs.iter().enumerate() {
        put_comma(text, place)?;
        put_pair(text, order, *pair)?;
    }
    put(text, "]")?;
    Ok(())
}

/// Puts the list of the conditions' texts behind the text.
pub fn put_conditions(
    alloc: Global,
    text: &mut Vec<u8>,
    order: &Order,
    conds: &[Cond],
) -> Result<(), NoMemory>
    requires { Each (IsKnown (length order.now.names)) (map term_of conds.now) }
    ensures { OnOk result (text.new.items ≡ text.old.items ++ listed (condition_text order.now.names) (map term_of conds.now)) }
{
    put(text, "[")?;
    for (place, cond) in conds.iter().enumerate() {
        put_comma(text, place)?;
        put_condition(alloc, text, order, cond)?;
    }
    put(text, "]")?;
    Ok(())
}

/// Puts the role behind the others, if the set has it.
fn push_if_held(roles: &mut Vec<u16>, set: &RoleSet, role: u16) -> Result<(), AllocError>
    ensures { OnOk result (roles.new.items ≡ roles.old.items ++ (if has_role set.now role then role ∷ [] else [])) }
{
    if set.has(role) {
        roles.push(role)?;
    }
    Ok(())
}

/// The roles of the set, by rising number.
pub fn roles_of(alloc: Global, order: &Order, set: &RoleSet) -> Result<Vec<u16>, NoMemory>
    requires { IsSet (length order.now.names) set.now }
    ensures { IfOk result (λ roles. roles.items ≡ set.now) }
{
    let mut roles = Vec::new(alloc);
    for role in 0..order.count() {
        push_if_held(&mut roles, set, role)?;
    }
    Ok(roles)
}
