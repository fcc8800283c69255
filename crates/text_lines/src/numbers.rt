//! Numbers in decimal digits.

ghost use Rattle.std.specs.Prelude.{ℕ, ◌≡◌, ◌<◌, ◌^◌, IfSome, IfNone};
ghost use Rattle.std.specs.List.{list_all};
ghost use Rattle.std.specs.Char.{is_ascii_digit};
ghost use Rattle.std.specs.Fmt.{decimal};
ghost use Rattle.text_lines.specs.Numbers as numbers;
ghost use Rattle.text_lines.specs.Numbers.{number_in};

fn are_digits(bytes: &[u8]) -> bool
    ensures { result ≡ list_all is_ascii_digit bytes.now }
{
    bytes.iter().all(|b| b.is_ascii_digit())
}

/// Whether the bytes are decimal digits without a leading zero.
#[tactic(auto, unfolding(crate::specs::Numbers::is_numeral))]
fn is_numeral(bytes: &[u8]) -> bool
    ensures { result ≡ numbers.is_numeral bytes.now }
{
    are_digits(bytes) && !bytes.is_empty() && (bytes[0] != b'0' || bytes.len() == 1)
}

#[tactic(auto, using(crate::proofs::NumberLemmas::number_refused, crate::proofs::NumberLemmas::numeral_text))]
fn read_number(bytes: &[u8]) -> Option<u32>
    ensures { result ≡ number_in bytes.now }
{
    if !is_numeral(bytes) {
        return None;
    }
    match str::from_utf8(bytes) {
        Ok(text) => text.parse::<u32>().ok(),
        Err(_) => None,
    }
}

/// The number below 2^32 that the bytes write in decimal digits, without a leading zero.
pub fn number_of(bytes: &[u8]) -> Option<u32>
    ensures number { result ≡ number_in bytes.now }
    // The bytes are its digits, and where there is none they are the digits of no number.
    ensures digits { IfSome result (λ number. decimal number ≡ bytes.now) }
    ensures none { IfNone result ((number : ℕ) → number < 2 ^ 32 → ¬ (decimal number ≡ bytes.now)) }
{
    read_number(bytes)
}
