//! Hashes. What they propose is tested in full, so a bad one only costs time.

use role_order::RoleSet;

/// An odd number whose bits look random, by which words are multiplied.
const FACTOR: u64 = 0x9e37_79b9_7f4a_7c15;

/// The hash of nothing. It isn't 0, so that words of 0 count.
pub const NOTHING: u64 = 0x2545_f491_4f6c_dd1d;

/// The hash of what was hashed, and of one word more.
pub fn and_word(hash: u64, word: u64) -> u64 {
    (hash.rotate_left(23) ^ word).wrapping_mul(FACTOR)
}

/// The hash of what was hashed, and of a set more.
pub fn and_set(hash: u64, set: &RoleSet) -> u64 {
    let mut hash = and_word(hash, u64::from(set.len()));
    for role in set.roles() {
        hash = and_word(hash, u64::from(role));
    }
    hash
}
