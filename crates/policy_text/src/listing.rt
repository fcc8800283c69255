//! The lines of a run text that tell the role order.

ghost use Rattle.std.specs.Prelude.{ℕ, ◌≡◌, ◌<◌, ◌≤◌, ◌+◌, ◌^◌, true, false, Some, length, vec_len, IfOk, IfErr, IfSome, IfNone};
ghost use Rattle.std.specs.Prelude.{OnOk};
ghost use Rattle.role_order.specs.Names.{texts};
ghost use Rattle.cond_text.specs.Cuts as cuts;
ghost use Rattle.policy_text.specs.Lines as lines;
ghost use Rattle.text_lines.specs.Lines.{split};
ghost use Rattle.policy_text.specs.LineForms.{a_role, an_edge, tells_order};
ghost use Rattle.policy_text.specs.Views.{form_of_line};
ghost use Rattle.policy_text.specs.Runs.{nothing, Adds};
ghost use Rattle.policy_text.specs.Faults.{IsLineFault, EndsOrder};
ghost use Rattle.policy_text.specs.Steps.{listing_view, IsFormFault, AddsLine, Passes, StopsAt, Told};

use crate::line::{Line, read_line};
use crate::lines::is_order_line;
use crate::run_error::RunError;
use arbac_policy::MOST_EDGES;
use cond_text::cut;
use role_order::{MOST_ROLES, place_in};
use std::alloc::Global;

/// The names of the roles and the edges, as far as they were read.
#[derive(Drop)]
pub struct Listing {
    pub names: Vec<String>,
    pub edges: Vec<(u16, u16)>,
}

impl Listing {
    #[tactic(auto, using(role_order::proofs::NameLemmas::length_texts))]
    fn add_role(&mut self, alloc: Global, name: &str, line: u32) -> Result<(), RunError>
        ensures added { OnOk result (Adds (listing_view self.old) (a_role name.now) (listing_view self.new)) }
        ensures fault { IfErr result (IsFormFault (listing_view self.old) (a_role name.now) line) }
    {
        if !self.edges.is_empty() {
            return Err(RunError::BadLine { line });
        }
        if self.names.len() >= MOST_ROLES {
            return Err(RunError::TooMany { line });
        }
        self.names.push(String::from_str(alloc, name)?)?;
        Ok(())
    }

    #[tactic(auto, using(role_order::proofs::NameLemmas::length_texts))]
    fn add_edge(&mut self, senior: &str, junior: &str, line: u32) -> Result<(), RunError>
        requires { length (texts self.old.names.items) ≤ MOST_ROLES }
        ensures added { OnOk result (Adds (listing_view self.old) (an_edge senior.now junior.now) (listing_view self.new)) }
        ensures fault { IfErr result (IsFormFault (listing_view self.old) (an_edge senior.now junior.now) line) }
    {
        if self.names.is_empty() {
            return Err(RunError::BadLine { line });
        }
        if self.edges.len() >= MOST_EDGES {
            return Err(RunError::TooMany { line });
        }
        let Some(senior) = place_in(&self.names, senior.as_bytes()) else {
            return Err(RunError::UnknownRole { line });
        };
        let Some(junior) = place_in(&self.names, junior.as_bytes()) else {
            return Err(RunError::UnknownRole { line });
        };
        self.edges.push((senior as u16, junior as u16))?;
        Ok(())
    }

    fn add_form(&mut self, alloc: Global, form: &Line, number: u32) -> Result<(), RunError>
        requires few { length (texts self.old.names.items) ≤ MOST_ROLES }
        requires kind { tells_order (form_of_line form.now) ≡ true }
        ensures added { OnOk result (Adds (listing_view self.old) (form_of_line form.now) (listing_view self.new)) }
        ensures fault { IfErr result (IsFormFault (listing_view self.old) (form_of_line form.now) number) }
    {
        match form {
            Line::Role(name) => self.add_role(alloc, name, number),
            Line::Edge { senior, junior } => self.add_edge(senior, junior, number),
            Line::Assign { .. } => unreachable!(),
            Line::Revoke { .. } => unreachable!(),
            Line::User(_) => unreachable!(),
            Line::Act(_) => unreachable!(),
            Line::Goal(_) => unreachable!(),
        }
    }

    /// Adds what a line says whose first word is `role` or `edge`.
    fn add_line(&mut self, alloc: Global, line: &[u8], number: u32) -> Result<(), RunError>
        requires few { length (texts self.old.names.items) ≤ MOST_ROLES }
        requires kind { lines.is_order_line line.now ≡ true }
        ensures added { OnOk result (AddsLine (listing_view self.old) line.now (listing_view self.new)) }
        ensures fault { IfErr result (IsLineFault (listing_view self.old) line.now number) }
    {
        let Some(form) = read_line(alloc, line)? else {
            return Err(RunError::BadLine { line: number });
        };
        self.add_form(alloc, &form, number)
    }
}

/// The next whole line, if its first word is `role` or `edge`, and the bytes behind its line feed.
fn next_line(bytes: &[u8]) -> Option<(&[u8], &[u8])>
    ensures found { IfSome result (λ p. (cuts.cut 10 bytes.now ≡ Some (p.0.now, p.1.now)) × (lines.is_order_line p.0.now ≡ true)) }
    ensures none { IfNone result (EndsOrder (split bytes.now).0) }
{
    match cut(bytes, b'\n') {
        Some((line, rest)) => if is_order_line(line) {
            Some((line, rest))
        } else {
            None
        },
        None => None,
    }
}

/// What the lines of the role order say, the bytes behind them, and the number of the next line.
pub struct Listed<'a> {
    pub listing: Listing,
    pub rest: &'a [u8],
    pub number: u32,
}

/// Reads the lines behind the first one whose first words are `role` or `edge`.
pub fn read_listing(alloc: Global, text: &[u8]) -> Result<Listed, RunError>
    requires { length text.now + 3 < 2 ^ 32 }
    ensures read { IfOk result (λ listed. Passes nothing text.now 2 (listing_view listed.listing) listed.rest.now listed.number) }
    ensures room { IfOk result (λ listed. listed.number + length listed.rest.now ≤ 2 + length text.now) }
    ensures ends { IfOk result (λ listed. EndsOrder (split listed.rest.now).0) }
    ensures fault { IfErr result (λ e. Told e (StopsAt nothing text.now 2 e)) }
{
    let mut listing = Listing {
        names: Vec::new(alloc),
        edges: Vec::new(alloc),
    };
    let mut rest = text;
    let mut number = 2u32;
    while let Some((line, after)) = next_line(rest) {
        listing.add_line(alloc, line, number)?;
        rest = after;
        number += 1;
    }
    Ok(Listed {
        listing,
        rest,
        number,
    })
}
