//! Requirements.

ghost use Rattle.std.specs.Prelude.{ℕ, ◌≡◌, ◌∷◌, ◌++◌, List, [], OnOk, IfErr};
ghost use Rattle.arbac_laws.specs.Views.{need_of};
ghost use Rattle.cert_text.specs.declared.cert_error.CertError.TheVariants.{Memory};
ghost use Rattle.cert_text.specs.Certificates.{users_of};
ghost use Rattle.cert_text.specs.Drafts as drafts;
ghost use Rattle.cert_text.specs.LineForms.{a_need, a_user};
ghost use Rattle.cert_text.specs.Steps.{needs_draft, TakesForm};
ghost use Rattle.cert_text.specs.Views.{TellsUser};

use crate::cert::{Cert, Need, NeedUser};
use crate::cert_error::CertError;
use crate::line::Line;
use crate::sections::Section;
use std::alloc::Global;

/// The requirements.
#[derive(Drop)]
pub struct Needs {
    pub needs: Vec<Need>,
}

/// One more user of the requirement.
pub fn push_user(need: &mut Need, user: NeedUser) -> Result<(), CertError>
    ensures users { OnOk result (users_of need.new ≡ users_of need.old ++ need_of user ∷ []) }
    ensures memory { IfErr result (λ error. error ≡ Memory) }
{
    // Most requirements have few users, and a push makes room for four.
    if need.users.len() < 4 {
        need.users.reserve_exact(1)?;
    }
    need.users.push(user)?;
    Ok(())
}

impl Needs {
    /// No line was read yet.
    pub fn new(alloc: Global) -> Needs
        ensures { needs_draft result ≡ drafts.list [] }
    {
        Needs {
            needs: Vec::new(alloc),
        }
    }

    fn add_need(&mut self, alloc: Global, number: u32) -> Result<(), CertError>
        ensures { (names : List (List ℕ)) → TakesForm names (needs_draft self.old) a_need number (needs_draft self.new) result }
    {
        self.needs.push(Need {
            users: Vec::new(alloc),
        })?;
        Ok(())
    }

    fn add_user(&mut self, user: Option<NeedUser>, number: u32) -> Result<(), CertError>
        ensures { (names : List (List ℕ)) (hits : List (List (List ℕ))) (lacks : List (List ℕ)) → TellsUser names user hits lacks →
            TakesForm names (needs_draft self.old) (a_user hits lacks) number (needs_draft self.new) result }
    {
        let count = self.needs.len();
        if count == 0 {
            return Err(CertError::BadLine { line: number });
        }
        let Some(user) = user else {
            return Err(CertError::UnknownRole { line: number });
        };
        push_user(&mut self.needs[count - 1], user)?;
        Ok(())
    }
}

impl Section for Needs {
    ghost draft = { needs_draft };

    fn add(&mut self, alloc: Global, line: Line, number: u32) -> Result<(), CertError> {
        match line {
            Line::Need => self.add_need(alloc, number),
            Line::User(user) => self.add_user(user, number),
            Line::Reachable
            | Line::Unreachable
            | Line::Undecided(_)
            | Line::Start(_)
            | Line::Act(_)
            | Line::Step(_)
            | Line::Next(_) => Err(CertError::BadLine { line: number }),
        }
    }

    fn finish(self) -> Option<Cert> {
        let Needs { needs } = self;
        Some(Cert::Unreachable { needs })
    }
}
