//! Names that are found by a table of their numbers, sorted by name.

ghost use Rattle.std.specs.Prelude.{ℕ, ◌≡◌, ◌<◌, ◌≤◌, length, All, Contains, IfOk, IfSome};
ghost use Rattle.list_words.specs.Lists.{AreDifferent};
ghost use Rattle.role_order.specs.Names as words;
ghost use Rattle.role_order.specs.Names.{texts, place_of, IsNameTable};

use crate::{MOST_ROLES, NoMemory};
use std::alloc::{AllocError, Global};

/// The bytes of the name with the number, and none where there is no such name.
fn name_at(names: &[String], role: u16) -> &[u8]
    ensures { result.now ≡ words.name_at (texts names.now) role }
{
    match names.get(role as usize) {
        Some(name) => name.as_bytes(),
        None => &[],
    }
}

/// So many numbers from 0 on.
fn numbers(alloc: Global, count: u16) -> Result<Vec<u16>, AllocError>
    ensures within { IfOk result (λ numbers. All (λ role. role < count) numbers.items) }
    ensures complete { IfOk result (λ numbers. (role : ℕ) → role < count → Contains numbers.items role) }
{
    let mut numbers = Vec::new(alloc);
    for number in 0..count {
        numbers.push(number)?;
    }
    Ok(numbers)
}

/// The numbers of the names, sorted by name.
pub fn sorted_by_name(alloc: Global, names: &[String]) -> Result<Vec<u16>, NoMemory>
    requires { length names.now ≤ MOST_ROLES }
    ensures { IfOk result (λ table. IsNameTable (texts names.now) table.items) }
{
    let mut table = numbers(alloc, names.len() as u16)?;
    table.sort_unstable_by(|a, b| name_at(names, *a).cmp(name_at(names, *b)));
    Ok(table)
}

/// The number of the name that has these bytes.
pub fn number_of(names: &[String], table: &[u16], bytes: &[u8]) -> Option<u16>
    requires table { IsNameTable (texts names.now) table.now }
    requires different { AreDifferent (texts names.now) }
    ensures within { IfSome result (λ role. role < length (texts names.now)) }
    ensures place { result ≡ place_of (texts names.now) bytes.now }
{
    match table.binary_search_by(|role| name_at(names, *role).cmp(bytes)) {
        Ok(at) => Some(table[at]),
        Err(_) => None,
    }
}
