//! Single bits of masks.

ghost use Rattle.std.specs.Prelude.{ℕ, ◌≡◌, ◌≤◌, ◌<◌, ◌^◌, false, IfSome, IfNone};
ghost use Rattle.role_order.specs.Masks as masks;
ghost use Rattle.role_order.specs.Masks.{IsNextBit};

use crate::MASK_BITS;

/// The mask with this bit alone.
pub fn bit(place: u16) -> u128
    requires { place < MASK_BITS }
    ensures { result ≡ 2 ^ place }
{
    1 << place
}

/// Whether the bit at the place is set.
pub fn has_bit(mask: u128, place: u16) -> bool
    ensures { result ≡ masks.has_bit mask place }
{
    place < MASK_BITS && mask & bit(place) != 0
}

/// The first set bit from the place on.
pub fn next_bit(mask: u128, from: u16) -> Option<u16>
    ensures found { IfSome result (IsNextBit mask from) }
    ensures none { IfNone result ((k : ℕ) → from ≤ k → masks.has_bit mask k ≡ false) }
{
    if from >= MASK_BITS {
        return None;
    }
    let left = mask >> from;
    if left == 0 {
        return None;
    }
    Some(from + left.trailing_zeros() as u16)
}
