//! Obligations: acts after which a requirement may be met.

/// Who the administrator of an act is, among the users of a requirement.
#[derive(Clone, Copy, Debug, PartialEq, Eq)]
pub enum Pick {
    /// The target.
    Itself,
    /// The user at another place.
    Other(u32),
    /// A new user.
    Fresh,
}

/// An act by places: a rule, a role of its range, a user of the requirement and an administrator.
#[derive(Clone, Copy, Debug, PartialEq, Eq)]
pub enum Obligation {
    /// The role is assigned by a rule of `can_assign`, whose condition is met by this conjunct.
    Assign {
        rule: u32,
        conjunct: u32,
        role: u16,
        target: u32,
        admin: Pick,
    },
    /// The role is revoked weakly by a rule of `can_revoke`.
    Weak {
        rule: u32,
        role: u16,
        target: u32,
        admin: Pick,
    },
}
