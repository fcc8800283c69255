//! Names of roles, and where one stands among others.

ghost use Rattle.std.specs.Prelude.{◌≡◌, ◌<◌, length, position, IfSome, IfNone, not, false, Some};
ghost use Rattle.std.specs.List.{list_all};
ghost use Rattle.std.specs.Str.{bytes_eq};
ghost use Rattle.std.specs.String.{string_bytes};
ghost use Rattle.role_order.specs.Names as words;
ghost use Rattle.role_order.specs.Names.{texts, place_of};
ghost use Rattle.list_words.specs.Lists.{AreDifferent, IsFirst};
ghost use Rattle.role_order.specs.Refusals.{AreRoleNames, IsRepeated};

use crate::MOST_NAME_BYTES;

/// Whether the byte is one of `A-Z a-z 0-9 _ . -`.
pub fn is_name_byte(b: u8) -> bool
    ensures { result ≡ words.is_name_byte b }
{
    matches!(b, b'A'..=b'Z' | b'a'..=b'z' | b'0'..=b'9' | b'_' | b'.' | b'-')
}

fn are_name_bytes(bytes: &[u8]) -> bool
    ensures { result ≡ list_all words.is_name_byte bytes.now }
{
    bytes.iter().all(|b| is_name_byte(*b))
}

/// Whether the text is 1 to `MOST_NAME_BYTES` name bytes.
#[tactic(auto, unfolding(crate::specs::Names::is_name))]
pub fn is_name(text: &str) -> bool
    ensures { result ≡ words.is_name text.now }
{
    let bytes = text.as_bytes();
    1 <= bytes.len() && bytes.len() <= MOST_NAME_BYTES && are_name_bytes(bytes)
}

#[tactic(auto, unfolding(crate::specs::Names::is_reserved))]
fn is_reserved(text: &str) -> bool
    ensures { result ≡ words.is_reserved text.now }
{
    text == "any" || text == "not" || text == "and" || text == "or"
}

/// Whether the text is a name and none of the conditions' own words.
#[tactic(auto, unfolding(crate::specs::Names::is_role_name))]
fn is_role_name(text: &str) -> bool
    ensures { result ≡ words.is_role_name text.now }
{
    is_name(text) && !is_reserved(text)
}

fn position_in(names: &[String], bytes: &[u8]) -> Option<usize>
    ensures { result ≡ position (λ name. bytes_eq (string_bytes name) bytes.now) names.now }
{
    names.iter().position(|name| name.as_bytes() == bytes)
}

/// The place of the first name that has these bytes.
pub fn place_in(names: &[String], bytes: &[u8]) -> Option<usize>
    ensures within { IfSome result (λ at. at < length names.now) }
    ensures place { result ≡ place_of (texts names.now) bytes.now }
{
    position_in(names, bytes)
}

/// The place of the first text that is no role name.
pub fn first_bad(names: &[String]) -> Option<usize>
    ensures within { IfSome result (λ at. at < length names.now) }
    ensures found { IfSome result (IsFirst (λ name. words.is_role_name name ≡ false) (texts names.now)) }
    ensures none { IfNone result (AreRoleNames (texts names.now)) }
{
    for (at, name) in names.iter().enumerate() {
        if !is_role_name(name.as_str()) {
            return Some(at);
        }
    }
    None
}

/// The first name that stands before too, as the pair of both places.
pub fn first_repeated(names: &[String]) -> Option<(usize, usize)>
    ensures within { IfSome result (λ pair. (pair.0 < length names.now) × (pair.1 < length names.now)) }
    ensures found { IfSome result (λ pair. IsRepeated (texts names.now) pair.0 pair.1) }
    ensures none { IfNone result (AreDifferent (texts names.now)) }
{
    for at in 0..names.len() {
        if let Some(first) = place_in(&names[..at], names[at].as_bytes()) {
            return Some((first, at));
        }
    }
    None
}
