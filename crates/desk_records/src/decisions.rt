//! What became of a request.

ghost use Rattle.std.specs.Prelude.{◌≡◌, IfOk};

use arbac_policy::Side;
use profile_set::{Name, NoMemory};
use std::alloc::Global;

/// The first part of a request that fails, as a verdict's part but with names. Rules and pairs count
/// from 0 in their table.
#[derive(Drop)]
pub enum Told {
    /// The caller is no kept user, or else the target isn't kept.
    NoUser { side: Side, name: Name },
    /// No role has the name.
    NoRole { role: Name },
    /// No rule's range has the role.
    NoRange { role: Name },
    /// The caller has the administrative role of no such rule; the first such rule.
    NoAdmin { role: Name, rule: u32 },
    /// No rule that is left has a condition that is true of the target; the first such rule.
    NoCondition { role: Name, rule: u32 },
    /// An exclusive pair blocks the role for the target; the first such pair.
    Exclusive { role: Name, pair: u32 },
}

impl Told {
    /// A second value of the same part.
    pub fn copy(&self, alloc: Global) -> Result<Told, NoMemory>
        ensures { IfOk result (λ new. new ≡ self.now) }
    {
        Ok(match self {
            Told::NoUser { side, name } => Told::NoUser {
                side: *side,
                name: name.copy(alloc)?,
            },
            Told::NoRole { role } => Told::NoRole {
                role: role.copy(alloc)?,
            },
            Told::NoRange { role } => Told::NoRange {
                role: role.copy(alloc)?,
            },
            Told::NoAdmin { role, rule } => Told::NoAdmin {
                role: role.copy(alloc)?,
                rule: *rule,
            },
            Told::NoCondition { role, rule } => Told::NoCondition {
                role: role.copy(alloc)?,
                rule: *rule,
            },
            Told::Exclusive { role, pair } => Told::Exclusive {
                role: role.copy(alloc)?,
                pair: *pair,
            },
        })
    }
}

/// What was decided on a request.
#[derive(Drop)]
pub enum Decision {
    /// It was carried out.
    Granted,
    /// It was refused.
    Denied(Told),
}

impl Decision {
    /// A second value of the same decision.
    pub fn copy(&self, alloc: Global) -> Result<Decision, NoMemory>
        ensures { IfOk result (λ new. new ≡ self.now) }
    {
        Ok(match self {
            Decision::Granted => Decision::Granted,
            Decision::Denied(told) => Decision::Denied(told.copy(alloc)?),
        })
    }
}
