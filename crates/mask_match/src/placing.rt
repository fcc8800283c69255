//! Placing items one by one, where those placed before may move to make room.

ghost use Rattle.std.specs.Prelude.{ℕ, ◌≡◌, ◌+◌, ◌<◌, ◌≤◌, ◌^◌, ◌⊎◌, ◌↔◌, length, MatchBool, IsTrue, IfSome, IfNone};
ghost use Rattle.std.specs.Int.{bit_at};
ghost use Rattle.mask_match.specs.Rows.{ArePlaced};
ghost use Rattle.mask_match.specs.Holding.{Holds, AreHeld, IsGiven, IsRowSeen, AreShut, IsOpen};
ghost use Rattle.mask_match.specs.declared.TheConstants.{MOST_PLACES};

use crate::MOST_PLACES;

/// Which item holds each place.
#[derive(Drop)]
struct Holders {
    items: [Option<u8>; MOST_PLACES],
    /// The places that nobody holds, as bits. They are tried first, which saves most moves; no answer depends on them.
    free: u128,
}

/// Nobody holds a place yet.
fn nobody() -> Holders
    ensures { (item : ℕ) → ¬ Holds result.items item }
{
    Holders {
        items: [None; MOST_PLACES],
        free: u128::MAX,
    }
}

/// The mask with this bit alone.
fn bit(place: u8) -> u128
    requires { place < MOST_PLACES }
    ensures { result ≡ 2 ^ place }
{
    1 << place
}

/// The mask with this bit too.
fn with_bit(mask: u128, place: u8) -> u128
    requires within { place < MOST_PLACES }
    requires unset { bit_at mask place ≡ 0 }
    ensures more { mask < result }
    ensures set { (k : ℕ) → bit_at result k ≡ 1 ↔ ((k ≡ place) ⊎ (bit_at mask k ≡ 1)) }
{
    mask | bit(place)
}

/// A place of the row that isn't seen; one that is free, if there is such a one.
fn open_place(row: u128, seen: u128, free: u128) -> Option<u8>
    ensures found { IfSome result (IsOpen row seen) }
    ensures none { IfNone result ((place : ℕ) → bit_at row place ≡ 1 → bit_at seen place ≡ 1) }
{
    let open = row & !seen;
    if open & free != 0 {
        return Some((open & free).trailing_zeros() as u8);
    }
    if open != 0 {
        return Some(open.trailing_zeros() as u8);
    }
    None
}

/// Gives the item a place that isn't seen. Others may move for it, each to another place that isn't seen. Where that fails,
/// all keep their places, and those that were tried are seen.
fn find_place(rows: &[u128], holders: &mut Holders, seen: &mut u128, item: u8) -> bool
    requires item { item < length rows.now }
    requires held { AreHeld rows.now holders.old.items }
    requires placeless { ¬ Holds holders.old.items item }
    ensures seen { seen.old ≤ seen.new }
    ensures outcome { MatchBool result
        (IsGiven rows.now holders.old.items holders.new.items item)
        (AreShut rows.now holders.old.items seen.old seen.new) }
    ensures none { MatchBool result (Unit {0}) (IsRowSeen rows.now seen.new item) }
    ensures unmoved { MatchBool result (Unit {0}) (holders.new.items ≡ holders.old.items) }
{
    let row = rows[item as usize];
    while let Some(place) = open_place(row, *seen, holders.free) {
        *seen = with_bit(*seen, place);
        // It is taken at once, so that nobody holds two places while the other looks for one.
        let before = holders.items[place as usize];
        holders.items[place as usize] = Some(item);
        match before {
            None => {
                holders.free = holders.free & !bit(place);
                return true;
            }
            Some(other) => {
                if find_place(rows, holders, seen, other) {
                    return true;
                }
            }
        }
        holders.items[place as usize] = before;
    }
    false
}

/// Whether each item can be given a place of its own: one of those whose bits its row has. For each item every place is tried
/// once at most, so the time is polynomial.
pub fn all_placed(rows: &[u128]) -> bool
    ensures { IsTrue result ↔ ArePlaced rows.now }
{
    if rows.len() > MOST_PLACES {
        return false;
    }
    let mut holders = nobody();
    for item in 0..rows.len() {
        let mut seen = 0;
        if !find_place(rows, &mut holders, &mut seen, item as u8) {
            return false;
        }
    }
    true
}
