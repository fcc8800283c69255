//! Recorded steps, and the one after them.

ghost use Rattle.std.specs.Prelude.{ℕ, ◌≡◌, List, []};
ghost use Rattle.cert_text.specs.Certificates.{entry_of, origin_of};
ghost use Rattle.cert_text.specs.Drafts as drafts;
ghost use Rattle.cert_text.specs.Drafts.{new_step};
ghost use Rattle.cert_text.specs.LineForms.{WrittenOrigin, a_step, a_next, a_user};
ghost use Rattle.cert_text.specs.Steps.{steps_draft, TakesForm};
ghost use Rattle.cert_text.specs.Views.{TellsOrigin, TellsUser};

use crate::cert::{Cert, Need, NeedUser, Step, StepFrom};
use crate::cert_error::CertError;
use crate::line::Line;
use crate::sections::Section;
use crate::sections::needs::push_user;
use std::alloc::Global;

/// The limit, the recorded steps, and the step after them once its line was read.
#[derive(Drop)]
pub struct Steps {
    pub limit: u32,
    pub recorded: Vec<Step>,
    pub next: Option<Step>,
}

/// A step without users yet.
fn step_from(alloc: Global, origin: StepFrom) -> Step
    ensures { entry_of result ≡ new_step (origin_of origin) }
{
    Step {
        origin,
        need: Need {
            users: Vec::new(alloc),
        },
    }
}

impl Steps {
    /// No line behind that of the kind was read yet.
    pub fn new(alloc: Global, limit: u32) -> Steps
        ensures { steps_draft result ≡ drafts.steps limit [] }
    {
        Steps {
            limit,
            recorded: Vec::new(alloc),
            next: None,
        }
    }

    fn add_step(
        &mut self,
        alloc: Global,
        origin: Option<StepFrom>,
        number: u32,
    ) -> Result<(), CertError>
        ensures { (names : List (List ℕ)) (written : WrittenOrigin) → TellsOrigin names origin written →
            TakesForm names (steps_draft self.old) (a_step written) number (steps_draft self.new) result }
    {
        if self.next.is_some() {
            return Err(CertError::BadLine { line: number });
        }
        let Some(origin) = origin else {
            return Err(CertError::UnknownRole { line: number });
        };
        self.recorded.push(step_from(alloc, origin))?;
        Ok(())
    }

    fn add_next(
        &mut self,
        alloc: Global,
        origin: Option<StepFrom>,
        number: u32,
    ) -> Result<(), CertError>
        ensures { (names : List (List ℕ)) (written : WrittenOrigin) → TellsOrigin names origin written →
            TakesForm names (steps_draft self.old) (a_next written) number (steps_draft self.new) result }
    {
        if self.next.is_some() || self.recorded.is_empty() {
            return Err(CertError::BadLine { line: number });
        }
        let Some(origin) = origin else {
            return Err(CertError::UnknownRole { line: number });
        };
        self.next = Some(step_from(alloc, origin));
        Ok(())
    }

    fn add_user(&mut self, user: Option<NeedUser>, number: u32) -> Result<(), CertError>
        ensures { (names : List (List ℕ)) (hits : List (List (List ℕ))) (lacks : List (List ℕ)) → TellsUser names user hits lacks →
            TakesForm names (steps_draft self.old) (a_user hits lacks) number (steps_draft self.new) result }
    {
        let count = self.recorded.len();
        if self.next.is_none() && count == 0 {
            return Err(CertError::BadLine { line: number });
        }
        let Some(user) = user else {
            return Err(CertError::UnknownRole { line: number });
        };
        match &mut self.next {
            Some(next) => push_user(&mut next.need, user)?,
            None => push_user(&mut self.recorded[count - 1].need, user)?,
        }
        Ok(())
    }
}

impl Section for Steps {
    ghost draft = { steps_draft };

    fn add(&mut self, alloc: Global, line: Line, number: u32) -> Result<(), CertError> {
        match line {
            Line::Step(origin) => self.add_step(alloc, origin, number),
            Line::Next(origin) => self.add_next(alloc, origin, number),
            Line::User(user) => self.add_user(user, number),
            Line::Reachable
            | Line::Unreachable
            | Line::Undecided(_)
            | Line::Start(_)
            | Line::Act(_)
            | Line::Need => Err(CertError::BadLine { line: number }),
        }
    }

    fn finish(self) -> Option<Cert> {
        let Steps {
            limit,
            recorded,
            next,
        } = self;
        let next = next?;
        Some(Cert::Undecided {
            limit,
            recorded,
            next,
        })
    }
}
