//! Ranges between two names.

ghost use Rattle.std.specs.Prelude.{ℕ, ◌≡◌, IfSome, IfNone};
ghost use Rattle.std.specs.Option.{option_map};
ghost use Rattle.cond_text.specs.Ranges as ranges;
ghost use Rattle.cond_text.specs.Ranges.{IsNamedRange, spell_range, range_view, opening_in, closed_by, closing_in, range_in};

use crate::cuts::{cut, name_of};

/// A range whose ends are named.
#[derive(Clone, Copy)]
pub struct NamedRange<'a> {
    pub low: &'a str,
    pub high: &'a str,
    pub low_open: bool,
    pub high_open: bool,
}

/// Whether the range's low end is open, and what stands behind its bracket.
#[tactic(auto, unfolding(crate::specs::Ranges::opening_in))]
fn opening_of(text: &[u8]) -> Option<(bool, &[u8])>
    ensures { option_map (λ p. (p.0, p.1.now)) result ≡ opening_in text.now }
{
    match text {
        [] => None,
        [b'[', rest @ ..] => Some((false, rest)),
        [b'(', rest @ ..] => Some((true, rest)),
        [_, ..] => None,
    }
}

fn closed_end<'a>(is_open: bool, found: Option<(&'a [u8], &'a [u8])>) -> Option<(&'a [u8], bool)>
    ensures { option_map (λ p. (p.0.now, p.1)) result ≡ closed_by is_open (option_map (λ p. (p.0.now, p.1.now)) found.entry) }
{
    match found {
        Some((name, rest)) => if rest.is_empty() {
            Some((name, is_open))
        } else {
            None
        },
        None => None,
    }
}

/// The range's high end, and whether it is open.
#[tactic(auto, unfolding(crate::specs::Ranges::closing_in))]
fn closing_of(text: &[u8]) -> Option<(&[u8], bool)>
    ensures { option_map (λ p. (p.0.now, p.1)) result ≡ closing_in text.now }
{
    match cut(text, b']') {
        Some(found) => closed_end(false, Some(found)),
        None => closed_end(true, cut(text, b')')),
    }
}

/// The range between two names that the bytes are.
#[tactic(auto, unfolding(crate::specs::Ranges::range_in))]
pub fn range_of(text: &[u8]) -> Option<NamedRange>
    ensures { option_map range_view result ≡ range_in text.now }
{
    let (low_open, rest) = opening_of(text)?;
    let (low, rest) = cut(rest, b',')?;
    let low = name_of(low)?;
    let (high, high_open) = closing_of(rest)?;
    let high = name_of(high)?;
    Some(NamedRange {
        low,
        high,
        low_open,
        high_open,
    })
}

/// The range between two names that the text is. None exactly where it is no such range.
pub fn read_range(text: &str) -> Option<NamedRange>
    ensures found { IfSome result (λ range. IsNamedRange (range_view range)
        × (spell_range (range_view range) ≡ text.now)) }
    ensures none { IfNone result ((range : ranges.NamedRange) → IsNamedRange range
        → ¬ (spell_range range ≡ text.now)) }
{
    range_of(text.as_bytes())
}
