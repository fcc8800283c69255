//! Writing a condition.

ghost use Rattle.std.specs.Prelude.{◌≡◌, ◌++◌, ◌<◌, ◌≤◌, ℕ, List, [], length, get_or, IfOk, OnOk, codes, if◌then◌else◌};
ghost use Rattle.std.specs.String.{string_bytes};
ghost use Rattle.arbac_policy.specs.Truth.{term_of, IsKnown};
ghost use Rattle.cond_text.specs.Reading.{StandsFor, IsFaultless};
ghost use Rattle.cond_text.specs.Grammar.{term_count};
ghost use Rattle.cond_text.specs.Printing.{phrase_at, written, text_of, parentheses};

use crate::level::Level;
use crate::{MOST_TERMS, NoMemory};
use arbac_policy::Cond;
use role_order::Order;
use std::alloc::{AllocError, Global};

fn opening(free: bool) -> &'static str
    ensures { result.now ≡ (if free then [] else codes "(") }
{
    if free { "" } else { "(" }
}

fn closing(free: bool) -> &'static str
    ensures { result.now ≡ (if free then [] else codes ")") }
{
    if free { "" } else { ")" }
}

fn write_any(out: &mut String) -> Result<(), AllocError>
    ensures { OnOk result (string_bytes out.new ≡ string_bytes out.old ++ codes "any") }
{
    out.push_str("any")
}

fn write_not(out: &mut String) -> Result<(), AllocError>
    ensures { OnOk result (string_bytes out.new ≡ string_bytes out.old ++ codes "not ") }
{
    out.push_str("not ")
}

fn write_and(out: &mut String) -> Result<(), AllocError>
    ensures { OnOk result (string_bytes out.new ≡ string_bytes out.old ++ codes " and ") }
{
    out.push_str(" and ")
}

fn write_or(out: &mut String) -> Result<(), AllocError>
    ensures { OnOk result (string_bytes out.new ≡ string_bytes out.old ++ codes " or ") }
{
    out.push_str(" or ")
}

fn write_name(order: &Order, out: &mut String, role: u16) -> Result<(), AllocError>
    requires { role < length order.now.names }
    ensures { OnOk result (string_bytes out.new ≡ string_bytes out.old
        ++ get_or order.now.names role []) }
{
    out.push_str(order.name(role))
}

/// Writes the condition where the level is wanted, in parentheses where it must be.
fn write_at(order: &Order, out: &mut String, level: Level, cond: &Cond) -> Result<(), AllocError>
    requires { IsKnown (length order.now.names) (term_of cond.now) }
    ensures { OnOk result (string_bytes out.new ≡ string_bytes out.old
        ++ written order.now.names (phrase_at level (term_of cond.now))) }
{
    match cond {
        Cond::Any => {
            write_any(out)?;
            Ok(())
        }
        Cond::Has(role) => {
            write_name(order, out, *role)?;
            Ok(())
        }
        Cond::Lacks(role) => {
            write_not(out)?;
            write_name(order, out, *role)?;
            Ok(())
        }
        Cond::And(left, right) => {
            let free = level.takes_and();
            out.push_str(opening(free))?;
            write_at(order, out, Level::Conjunction, left.get())?;
            write_and(out)?;
            write_at(order, out, Level::Operand, right.get())?;
            out.push_str(closing(free))?;
            Ok(())
        }
        Cond::Or(left, right) => {
            let free = level.takes_or();
            out.push_str(opening(free))?;
            write_at(order, out, Level::Condition, left.get())?;
            write_or(out)?;
            write_at(order, out, Level::Conjunction, right.get())?;
            out.push_str(closing(free))?;
            Ok(())
        }
    }
}

/// Writes the condition so that it is read back; no text for it has fewer parentheses.
///
/// Its calls nest as deep as the condition does.
pub fn print_cond(alloc: Global, order: &Order, cond: &Cond) -> Result<String, NoMemory>
    requires { IsKnown (length order.now.names) (term_of cond.now) }
    ensures stands { IfOk result (λ text. StandsFor order.now.names (string_bytes text)
        (term_of cond.now)) }
    // No text that stands for the condition has fewer parentheses.
    ensures fewest { IfOk result (λ text. (other : List ℕ)
        → StandsFor order.now.names other (term_of cond.now) → parentheses (string_bytes text) ≤ parentheses other) }
    // With few enough terms no word has a fault: parse_cond gives the condition back.
    ensures back { IfOk result (λ text. term_count (term_of cond.now) ≤ MOST_TERMS
        → IsFaultless order.now.names (string_bytes text)) }
    // It is this text.
    ensures written { IfOk result (λ text. string_bytes text ≡ text_of order.now.names (term_of cond.now)) }
{
    // The count tells that the names are those of an order.
    let _count = order.count();
    let mut out = String::new(alloc);
    write_at(order, &mut out, Level::Condition, cond)?;
    Ok(out)
}
