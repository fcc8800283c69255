//! Acts of administrators.

/// What an act does with its role.
#[derive(Clone, Copy, Debug, PartialEq, Eq)]
pub enum ActKind {
    /// The target gains the role.
    Assign,
    /// The target loses the role.
    Weak,
    /// The target loses the role and what it holds explicitly in its reach.
    Strong,
}

/// An act: administrator and target by place, from 0, and the role by number.
#[derive(Clone, Copy, Debug, PartialEq, Eq)]
pub struct Act {
    pub kind: ActKind,
    pub admin: u32,
    pub target: u32,
    pub role: u16,
}
