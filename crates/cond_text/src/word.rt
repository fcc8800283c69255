//! Words of a condition's text.

/// A word of a condition's text.
#[derive(Clone, Copy)]
pub enum Word {
    Any,
    /// The role of a name, or the number of roles for a name that is no role's.
    Name(u16),
    Not,
    And,
    Or,
    Open,
    Close,
    /// A byte that stands nowhere in a condition.
    Stray,
}

/// A word and the place of its first byte.
#[derive(Clone, Copy)]
pub struct Placed {
    pub place: u32,
    pub word: Word,
}
