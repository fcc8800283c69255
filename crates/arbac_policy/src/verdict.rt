//! Why an act is refused.

/// Whose place isn't there.
#[derive(Clone, Copy, Debug, PartialEq, Eq)]
pub enum Side {
    Admin,
    Target,
}

/// The first part of an act that fails, in this order (the order is this project's own).
#[derive(Clone, Copy, Debug, PartialEq, Eq)]
pub enum Part {
    /// The administrator's place, or else the target's, is outside its list.
    NoUser { side: Side, place: u32 },
    /// The number is no role.
    NoRole { role: u16 },
    /// No rule's range has the role.
    NoRange { role: u16 },
    /// The administrator has the administrative role of no such rule; the first such rule.
    NoAdmin { role: u16, rule: u32 },
    /// No rule that is left has a condition that is true of the target; the first such rule.
    NoCondition { role: u16, rule: u32 },
    /// An exclusive pair blocks the role for the target; the first such pair.
    Exclusive { role: u16, pair: u32 },
}
