//! Requests to change who holds what.

ghost use Rattle.std.specs.Prelude.{◌≡◌, ◌↔◌, IsTrue, IfOk};

use profile_set::{Name, NoMemory, On};
use std::alloc::Global;

/// What a request asks for, in the words of URA97 and PRA97.
#[derive(Clone, Copy, Debug, PartialEq, Eq)]
pub enum Deed {
    Assign,
    Weak,
    Strong,
}

/// What a caller asks for. The names are taken as they are given.
#[derive(Drop)]
pub struct Request {
    /// Who asks, the name of a user.
    pub caller: Name,
    /// The caller's own number of the request, from 1 to `MOST_NUMBER`.
    pub number: u64,
    pub on: On,
    pub deed: Deed,
    /// Whose roles are to change.
    pub target: Name,
    pub role: Name,
}

impl Request {
    /// A second value of the same request.
    pub fn copy(&self, alloc: Global) -> Result<Request, NoMemory>
        ensures { IfOk result (λ new. new ≡ self.now) }
    {
        Ok(Request {
            caller: self.caller.copy(alloc)?,
            number: self.number,
            on: self.on,
            deed: self.deed,
            target: self.target.copy(alloc)?,
            role: self.role.copy(alloc)?,
        })
    }

    /// Whether both are one request, word for word.
    pub fn is_same(&self, other: &Request) -> bool
        ensures { IsTrue result ↔ (self.now ≡ other.now) }
    {
        self.number == other.number
            && self.on == other.on
            && self.deed == other.deed
            && self.caller == other.caller
            && self.target == other.target
            && self.role == other.role
    }
}
