//! Names of roles, and parts of acts.

ghost use Rattle.std.specs.Prelude.{ℕ, ◌≡◌, ◌++◌, OnOk, codes};
ghost use Rattle.std.specs.Fmt.{decimal};
ghost use Rattle.desk_texts.specs.Parts as parts;
ghost use Rattle.desk_texts.specs.Parts.{name_of, part_text};

use arbac_policy::{Part, Side};
use role_order::Order;
use std::alloc::{AllocError, Global};
use text_pieces::{put, put_count};

/// Puts the role's name behind the text, and nothing for a number that is no role.
pub fn put_name(text: &mut Vec<u8>, order: &Order, role: u16) -> Result<(), AllocError>
    ensures { OnOk result (text.new.items ≡ text.old.items ++ name_of order.now.names role) }
{
    if role < order.count() {
        put(text, order.name(role))?;
    }
    Ok(())
}

fn side_word(side: Side) -> &'static str
    ensures { result.now ≡ parts.side_word side }
{
    match side {
        Side::Admin => "admin ",
        Side::Target => "target ",
    }
}

fn put_no_user(alloc: Global, text: &mut Vec<u8>, side: Side, place: u32) -> Result<(), AllocError>
    ensures { OnOk result (text.new.items ≡ text.old.items ++ (codes "NoUser " ++ parts.side_word side ++ decimal place)) }
{
    put(text, "NoUser ")?;
    put_count(alloc, text, side_word(side), place as u64)?;
    Ok(())
}

/// Puts a word and the role's name behind the text.
fn put_at_role(text: &mut Vec<u8>, order: &Order, word: &str, role: u16) -> Result<(), AllocError>
    ensures { OnOk result (text.new.items ≡ text.old.items ++ (word.now ++ name_of order.now.names role)) }
{
    put(text, word)?;
    put_name(text, order, role)?;
    Ok(())
}

/// Puts a word, the role's name, and the place of a rule behind the text.
fn put_at_rule(
    alloc: Global,
    text: &mut Vec<u8>,
    order: &Order,
    word: &str,
    role: u16,
    rule: u32,
) -> Result<(), AllocError>
    ensures { OnOk result (text.new.items ≡ text.old.items ++ (word.now ++ name_of order.now.names role ++ codes " rule " ++ decimal rule)) }
{
    put_at_role(text, order, word, role)?;
    put_count(alloc, text, " rule ", rule as u64)?;
    Ok(())
}

/// Puts the role's name and the place of a pair behind the text.
fn put_at_pair(
    alloc: Global,
    text: &mut Vec<u8>,
    order: &Order,
    role: u16,
    pair: u32,
) -> Result<(), AllocError>
    ensures { OnOk result (text.new.items ≡ text.old.items ++ (codes "Exclusive " ++ name_of order.now.names role ++ codes " pair " ++ decimal pair)) }
{
    put_at_role(text, order, "Exclusive ", role)?;
    put_count(alloc, text, " pair ", pair as u64)?;
    Ok(())
}

/// Puts the text of the part that failed behind the text.
#[tactic(auto, unfolding(crate::specs::Parts::part_text))]
pub fn put_part(
    alloc: Global,
    text: &mut Vec<u8>,
    order: &Order,
    part: Part,
) -> Result<(), AllocError>
    ensures { OnOk result (text.new.items ≡ text.old.items ++ part_text order.now.names part) }
{
    match part {
        Part::NoUser { side, place } => put_no_user(alloc, text, side, place)?,
        Part::NoRole { role } => put_count(alloc, text, "NoRole ", role as u64)?,
        Part::NoRange { role } => put_at_role(text, order, "NoRange ", role)?,
        Part::NoAdmin { role, rule } => put_at_rule(alloc, text, order, "NoAdmin ", role, rule)?,
        Part::NoCondition { role, rule } => {
            put_at_rule(alloc, text, order, "NoCondition ", role, rule)?
        }
        Part::Exclusive { role, pair } => put_at_pair(alloc, text, order, role, pair)?,
    }
    Ok(())
}
