//! Certificates.

use arbac_policy::Act;
pub use arbac_policy::Conjunct as NeedUser;

/// Users, each of whom must have a role of each of its hits and none of its lacks.
#[derive(Drop)]
pub struct Need {
    pub users: Vec<NeedUser>,
}

/// The administrator of an act after which a requirement may be met.
#[derive(Clone, Copy, Debug, PartialEq, Eq)]
pub enum Who {
    /// The target.
    Itself,
    /// The user of the requirement at the place.
    Other(u32),
    /// A user that the requirement doesn't name.
    Fresh,
}

/// Where a recorded requirement comes from. Rules, conjuncts, users and steps by place from 0, roles by number.
#[derive(Clone, Copy, Debug, PartialEq, Eq)]
pub enum StepFrom {
    /// The goal requirement of this number.
    Goal {
        place: u32,
    },
    /// What must be met before an assignment, so that the parent is met after it.
    Assign {
        parent: u32,
        rule: u32,
        conjunct: u32,
        role: u16,
        target: u32,
        admin: Who,
    },
    /// The same before a weak revocation.
    Weak {
        parent: u32,
        rule: u32,
        role: u16,
        target: u32,
        admin: Who,
    },
}

/// A requirement with its origin.
#[derive(Drop)]
pub struct Step {
    pub origin: StepFrom,
    pub need: Need,
}

/// What shows how a question stands.
#[derive(Drop)]
pub enum Cert {
    /// The profiles of the users at the start, and acts that lead them to the goal.
    Reachable {
        start: Vec<u32>,
        acts: Vec<Act>,
    },
    /// Requirements, one of which is met wherever the goal can still be reached, and none at the start.
    Unreachable {
        needs: Vec<Need>,
    },
    /// As many recorded requirements as the limit, and one more.
    Undecided {
        limit: u32,
        recorded: Vec<Step>,
        next: Step,
    },
}
