//! Numbers as words write them.

ghost use Rattle.std.specs.Prelude.{ℕ, ◌≡◌, IfSome, IfNone};
ghost use Rattle.std.specs.List.{list_all};
ghost use Rattle.std.specs.Char.{is_ascii_digit};
ghost use Rattle.command_words.specs.Words.{IsNumber};

use crate::MOST_DIGITS;

fn are_digits(bytes: &[u8]) -> bool
    ensures { result ≡ list_all is_ascii_digit bytes.now }
{
    bytes.iter().all(|b| b.is_ascii_digit())
}

/// The number that the text writes in one to seven decimal digits, leading zeros among them.
pub fn number_in(text: &str) -> Option<u32>
    ensures found { IfSome result (λ number. IsNumber text.now number) }
    ensures none { IfNone result ((number : ℕ) → ¬ IsNumber text.now number) }
    ensures digits { MOST_DIGITS ≡ 7 }
{
    let bytes = text.as_bytes();
    if bytes.is_empty() || MOST_DIGITS < bytes.len() || !are_digits(bytes) {
        return None;
    }
    text.parse::<u32>().ok()
}
