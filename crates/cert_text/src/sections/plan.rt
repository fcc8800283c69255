//! Users and acts.

ghost use Rattle.std.specs.Prelude.{ℕ, ◌≡◌, List, []};
ghost use Rattle.text_lines.specs.Acts.{WrittenAct};
ghost use Rattle.cert_text.specs.Drafts as drafts;
ghost use Rattle.cert_text.specs.LineForms.{a_start, an_act};
ghost use Rattle.cert_text.specs.Steps.{plan_draft, TakesForm};
ghost use Rattle.cert_text.specs.Views.{TellsAct};

use crate::cert::Cert;
use crate::cert_error::CertError;
use crate::line::Line;
use crate::sections::Section;
use arbac_policy::Act;
use std::alloc::Global;

/// The profiles of the users at the start, and the acts.
#[derive(Drop)]
pub struct Plan {
    pub start: Vec<u32>,
    pub acts: Vec<Act>,
}

impl Plan {
    /// No line was read yet.
    pub fn new(alloc: Global) -> Plan
        ensures { plan_draft result ≡ drafts.plan [] [] }
    {
        Plan {
            start: Vec::new(alloc),
            acts: Vec::new(alloc),
        }
    }

    fn add_start(&mut self, profile: u32, number: u32) -> Result<(), CertError>
        ensures { (names : List (List ℕ)) → TakesForm names (plan_draft self.old) (a_start profile) number (plan_draft self.new) result }
    {
        if !self.acts.is_empty() {
            return Err(CertError::BadLine { line: number });
        }
        self.start.push(profile)?;
        Ok(())
    }

    fn add_act(&mut self, act: Option<Act>, number: u32) -> Result<(), CertError>
        ensures { (names : List (List ℕ)) (written : WrittenAct) → TellsAct names act written →
            TakesForm names (plan_draft self.old) (an_act written) number (plan_draft self.new) result }
    {
        let Some(act) = act else {
            return Err(CertError::UnknownRole { line: number });
        };
        self.acts.push(act)?;
        Ok(())
    }
}

impl Section for Plan {
    ghost draft = { plan_draft };

    fn add(&mut self, _alloc: Global, line: Line, number: u32) -> Result<(), CertError> {
        match line {
            Line::Start(profile) => self.add_start(profile, number),
            Line::Act(act) => self.add_act(act, number),
            Line::Reachable
            | Line::Unreachable
            | Line::Undecided(_)
            | Line::Need
            | Line::Step(_)
            | Line::Next(_)
            | Line::User(_) => Err(CertError::BadLine { line: number }),
        }
    }

    fn finish(self) -> Option<Cert> {
        let Plan { start, acts } = self;
        Some(Cert::Reachable { start, acts })
    }
}
