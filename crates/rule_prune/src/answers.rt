//! What the calls answer.

/// The places of the rules that can matter for a goal, from 0, both lists rising.
#[derive(Debug, Drop)]
pub struct Slice {
    /// Rules of `can_assign`.
    pub assign: Vec<u32>,
    /// Rules of `can_revoke`.
    pub revoke: Vec<u32>,
}

/// Why a goal has no slice.
#[derive(Clone, Copy, Debug, PartialEq, Eq)]
pub enum SliceError {
    /// The goal has more than `MOST_CONJUNCTS` combinations of one conjunct of each condition; so many
    /// up to the first condition at which that is so.
    TooWide { count: u128 },
    /// Memory ran out.
    Memory,
}
