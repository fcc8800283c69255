//! What the checker answers.

use arbac_policy::Part;

/// Why a certificate is refused: the first condition that fails. Places and numbers count from 0.
#[derive(Drop)]
pub enum Why {
    /// The first user of the start for whom no profile is left.
    NotDrawn { user: u32 },
    /// The first act that is refused, and its first part that fails.
    StepRefused { place: u32, part: Part },
    /// The users at the end don't meet the goal.
    GoalNotMet,
    /// The first possible goal requirement that no need covers.
    GoalUncovered { goal: u32 },
    /// The first need with an obligation whose pre-image is possible and covered by no need, and the first such obligation.
    Open { need: u32, obligation: u128 },
    /// The first need or step that users who can be drawn meet, and the least choice of their profiles.
    StartsMet { need: u32, choice: Vec<u32> },
    /// The first step that isn't what its origin names.
    NotDerived { place: u32 },
    /// The first step that an earlier one covers, and the first such one.
    Repeated { place: u32, earlier: u32 },
    /// The number of recorded steps, which isn't the limit.
    WrongCount { count: u32 },
}

/// What the checker answers.
#[derive(Drop)]
pub enum Judgement {
    Accepted,
    Refused(Why),
}
