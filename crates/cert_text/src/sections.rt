//! What the lines behind that of the kind say, kind by kind.

ghost use Rattle.std.specs.Prelude.{ℕ, ◌≡◌, List, IfSome, IfNone, option_and_then};
ghost use Rattle.cert_text.specs.Certificates.{plain_of};
ghost use Rattle.cert_text.specs.Drafts.{Draft, IsWhole, MayEnd};
ghost use Rattle.cert_text.specs.Steps.{Takes, kind_in};

mod needs;
mod plan;
mod steps;

use crate::cert::Cert;
use crate::cert_error::CertError;
use crate::line::Line;
pub use needs::Needs;
pub use plan::Plan;
use std::alloc::Global;
pub use steps::Steps;

/// The kind of a certificate.
pub enum Kind {
    Reachable,
    Unreachable,
    /// With the limit.
    Undecided(u32),
}

/// The kind that the line names, if it names one.
pub fn kind_of(line: Option<Line>) -> Option<Kind>
    ensures { result ≡ option_and_then kind_in line }
{
    match line? {
        Line::Reachable => Some(Kind::Reachable),
        Line::Unreachable => Some(Kind::Unreachable),
        Line::Undecided(limit) => Some(Kind::Undecided(limit)),
        Line::Start(_)
        | Line::Act(_)
        | Line::Need
        | Line::Step(_)
        | Line::Next(_)
        | Line::User(_) => None,
    }
}

/// What the lines of a certificate of one kind say, as far as they were read.
pub trait Section: Drop {
    /// The draft that they make.
    ghost draft: { Self → Draft };

    /// Adds what a line says.
    fn add(&mut self, alloc: Global, line: Line, number: u32) -> Result<(), CertError>
        ensures { (names : List (List ℕ)) → Takes names (draft self.old) line number (draft self.new) result };

    /// The certificate, if it is whole.
    fn finish(self) -> Option<Cert>
        ensures whole { IfSome result (λ cert. IsWhole (draft self) (plain_of cert)) }
        ensures part { IfNone result (¬ MayEnd (draft self)) };
}
