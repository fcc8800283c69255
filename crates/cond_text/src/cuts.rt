//! Pieces of a text: what stands before a byte and behind it, and names.

ghost use Rattle.std.specs.Prelude.{ℕ, ◌≡◌};
ghost use Rattle.std.specs.Option.{option_map};
ghost use Rattle.cond_text.specs.Cuts as cuts;

use role_order::is_name;

/// What stands before the first such byte, and what stands behind it.
#[tactic(auto, using(crate::proofs::CutLemmas::cut_found, crate::proofs::CutLemmas::cut_none))]
pub fn cut(bytes: &[u8], sign: u8) -> Option<(&[u8], &[u8])>
    ensures { option_map (λ p. (p.0.now, p.1.now)) result ≡ cuts.cut sign bytes.now }
{
    for (at, byte) in bytes.iter().enumerate() {
        if *byte == sign {
            return Some((&bytes[..at], &bytes[at + 1..]));
        }
    }
    None
}

/// The bytes as a name, if they are one.
#[tactic(auto, using(crate::proofs::NamedLemmas::name_given, crate::proofs::NamedLemmas::name_refused, crate::proofs::NamedLemmas::name_unread))]
pub fn name_of(bytes: &[u8]) -> Option<&str>
    ensures { option_map (λ text. text.now) result ≡ cuts.name_in bytes.now }
{
    match str::from_utf8(bytes) {
        Ok(text) => if is_name(text) { Some(text) } else { None },
        Err(_) => None,
    }
}
