//! The lines of a run text behind those of the role order.

ghost use Rattle.std.specs.Prelude.{ℕ, ◌≡◌, ◌<◌, ◌≤◌, ◌^◌, ◌↔◌, ◌+◌, ◌&&◌, ◌==◌, not, true, codes, IsTrue, length};
ghost use Rattle.std.specs.Prelude.{map, IfOk, IfErr, IfSome, IfNone, OnOk};
ghost use Rattle.std.specs.Str.{bytes_eq};
ghost use Rattle.arbac_policy.specs.Truth.{term_of};
ghost use Rattle.cond_text.specs.Ranges.{range_view};
ghost use Rattle.text_lines.specs.Lines.{split};
ghost use Rattle.text_lines.specs.Acts.{act_view};
ghost use Rattle.policy_text.specs.Views.{form_of_line};
ghost use Rattle.policy_text.specs.Lines.{is_order_line};
ghost use Rattle.policy_text.specs.LineForms.{an_assign, a_revoke, a_user, an_act, a_goal, tells_order, condition_of};
ghost use Rattle.cond_text.specs.Named.{ReadsAs, NamesRange, NamesSet, HasUnknownEnd, IsUnknown};
ghost use Rattle.policy_text.specs.Runs.{Adds, behind_edges, behind_assigns, behind_revokes, behind_users, behind_acts};
ghost use Rattle.policy_text.specs.Faults.{IsLineFault, EndsOrder};
ghost use Rattle.policy_text.specs.Steps.{body_view, run_view, order_view, IsFormFault, IsTextFault, AddsLine, EndsWith, IsBodyFault};
ghost use Rattle.list_words.specs.Lists.{Some_of};
ghost use Rattle.role_order.specs.Refusals.{IsOrder};

use crate::line::{Line, read_line};
use crate::run_error::RunError;
use crate::{MOST_ACTS, MOST_USERS};
use arbac_policy::{Act, CanAssign, CanRevoke, Cond, MOST_GOALS, MOST_RULES};
use cond_text::{CondError, NamedRange, cut, parse_cond};
use role_order::{Order, Range, RoleSet};
use std::alloc::Global;
use text_lines::{ActLine, is};

/// What the lines behind the role order say, as far as they were read.
#[derive(Drop)]
pub struct Body {
    pub assign: Vec<CanAssign>,
    pub revoke: Vec<CanRevoke>,
    pub start: Vec<RoleSet>,
    pub acts: Vec<Act>,
    pub goal: Vec<Cond>,
}

/// The range whose ends have these names.
fn range_of(order: &Order, named: &NamedRange) -> Option<Range>
    ensures some { IfSome result (NamesRange order.now.names (range_view named.now)) }
    ensures none { IfNone result (HasUnknownEnd order.now.names (range_view named.now)) }
{
    let Some(low) = order.role_named(named.low) else {
        return None;
    };
    let Some(high) = order.role_named(named.high) else {
        return None;
    };
    Some(Range {
        low,
        high,
        low_open: named.low_open,
        high_open: named.high_open,
    })
}

/// The condition of a line.
fn read_cond(alloc: Global, order: &Order, text: &str, line: u32) -> Result<Cond, RunError>
    requires { length text.now < 2 ^ 32 }
    ensures says { IfOk result (λ cond. ReadsAs order.now.names text.now (term_of cond)) }
    ensures fault { IfErr result (IsTextFault order.now.names text.now line) }
{
    match parse_cond(alloc, order, text) {
        Ok(cond) => Ok(cond),
        Err(CondError::Memory) => Err(RunError::Memory),
        Err(error) => Err(RunError::Cond { line, error }),
    }
}

/// The set of the roles that have these names.
fn set_named(order: &Order, names: &[&str]) -> Option<RoleSet>
    requires { IsOrder order.now.names order.now.edges }
    ensures some { IfSome result (NamesSet order.now.names (map (λ name. name.now) names.now)) }
    ensures none { IfNone result (Some_of (IsUnknown order.now.names) (map (λ name. name.now) names.now)) }
{
    let mut set = RoleSet::empty();
    for name in names {
        let Some(role) = order.role_named(name) else {
            return None;
        };
        set = set.with(role);
    }
    Some(set)
}

impl Body {
    fn ends_with_acts(&self) -> bool
        ensures { IsTrue result ↔ (behind_acts (body_view self.now) ≡ 0) }
    {
        self.goal.is_empty()
    }

    fn ends_with_users(&self) -> bool
        ensures { IsTrue result ↔ (behind_users (body_view self.now) ≡ 0) }
    {
        self.acts.is_empty() && self.ends_with_acts()
    }

    fn ends_with_revokes(&self) -> bool
        ensures { IsTrue result ↔ (behind_revokes (body_view self.now) ≡ 0) }
    {
        self.start.is_empty() && self.ends_with_users()
    }

    fn ends_with_assigns(&self) -> bool
        ensures { IsTrue result ↔ (behind_assigns (body_view self.now) ≡ 0) }
    {
        self.revoke.is_empty() && self.ends_with_revokes()
    }

    fn add_assign(
        &mut self,
        alloc: Global,
        order: &Order,
        admin: &str,
        range: &NamedRange,
        condition: &str,
        line: u32,
    ) -> Result<(), RunError>
        requires { length condition.now < 2 ^ 32 }
        ensures added { OnOk result (Adds (run_view order.now self.old) (an_assign admin.now (range_view range.now) condition.now) (run_view order.now self.new)) }
        ensures fault { IfErr result (IsFormFault (run_view order.now self.old) (an_assign admin.now (range_view range.now) condition.now) line) }
    {
        if !self.ends_with_assigns() {
            return Err(RunError::BadLine { line });
        }
        if self.assign.len() >= MOST_RULES {
            return Err(RunError::TooMany { line });
        }
        let Some(admin) = order.role_named(admin) else {
            return Err(RunError::UnknownRole { line });
        };
        let Some(range) = range_of(order, range) else {
            return Err(RunError::UnknownRole { line });
        };
        let cond = read_cond(alloc, order, condition, line)?;
        self.assign.push(CanAssign { admin, cond, range })?;
        Ok(())
    }

    fn add_revoke(
        &mut self,
        order: &Order,
        admin: &str,
        range: &NamedRange,
        line: u32,
    ) -> Result<(), RunError>
        ensures added { OnOk result (Adds (run_view order.now self.old) (a_revoke admin.now (range_view range.now)) (run_view order.now self.new)) }
        ensures fault { IfErr result (IsFormFault (run_view order.now self.old) (a_revoke admin.now (range_view range.now)) line) }
    {
        if !self.ends_with_revokes() {
            return Err(RunError::BadLine { line });
        }
        if self.revoke.len() >= MOST_RULES {
            return Err(RunError::TooMany { line });
        }
        let Some(admin) = order.role_named(admin) else {
            return Err(RunError::UnknownRole { line });
        };
        let Some(range) = range_of(order, range) else {
            return Err(RunError::UnknownRole { line });
        };
        self.revoke.push(CanRevoke { admin, range })?;
        Ok(())
    }

    fn add_user(&mut self, order: &Order, names: &[&str], line: u32) -> Result<(), RunError>
        requires { IsOrder order.now.names order.now.edges }
        ensures added { OnOk result (Adds (run_view order.now self.old) (a_user (map (λ name. name.now) names.now)) (run_view order.now self.new)) }
        ensures fault { IfErr result (IsFormFault (run_view order.now self.old) (a_user (map (λ name. name.now) names.now)) line) }
    {
        if !self.ends_with_users() {
            return Err(RunError::BadLine { line });
        }
        if self.start.len() >= MOST_USERS {
            return Err(RunError::TooMany { line });
        }
        let Some(set) = set_named(order, names) else {
            return Err(RunError::UnknownRole { line });
        };
        self.start.push(set)?;
        Ok(())
    }

    fn add_act(&mut self, order: &Order, act: &ActLine, line: u32) -> Result<(), RunError>
        ensures added { OnOk result (Adds (run_view order.now self.old) (an_act (act_view act.now)) (run_view order.now self.new)) }
        ensures fault { IfErr result (IsFormFault (run_view order.now self.old) (an_act (act_view act.now)) line) }
    {
        if !self.ends_with_acts() {
            return Err(RunError::BadLine { line });
        }
        if self.acts.len() >= MOST_ACTS {
            return Err(RunError::TooMany { line });
        }
        let Some(role) = order.role_named(act.role) else {
            return Err(RunError::UnknownRole { line });
        };
        self.acts.push(Act {
            kind: act.kind,
            admin: act.admin,
            target: act.target,
            role,
        })?;
        Ok(())
    }

    fn add_goal(
        &mut self,
        alloc: Global,
        order: &Order,
        condition: &str,
        line: u32,
    ) -> Result<(), RunError>
        requires { length condition.now < 2 ^ 32 }
        ensures added { OnOk result (Adds (run_view order.now self.old) (a_goal condition.now) (run_view order.now self.new)) }
        ensures fault { IfErr result (IsFormFault (run_view order.now self.old) (a_goal condition.now) line) }
    {
        if self.goal.len() >= MOST_GOALS {
            return Err(RunError::TooMany { line });
        }
        let cond = read_cond(alloc, order, condition, line)?;
        self.goal.push(cond)?;
        Ok(())
    }

    fn add_form(
        &mut self,
        alloc: Global,
        order: &Order,
        form: &Line,
        line: u32,
    ) -> Result<(), RunError>
        requires short { length (condition_of (form_of_line form.now)) < 2 ^ 32 }
        requires order { IsOrder order.now.names order.now.edges }
        requires late { tells_order (form_of_line form.now) ≡ true → ¬ (behind_edges (body_view self.old) ≡ 0) }
        ensures added { OnOk result (Adds (run_view order.now self.old) (form_of_line form.now) (run_view order.now self.new)) }
        ensures fault { IfErr result (IsFormFault (run_view order.now self.old) (form_of_line form.now) line) }
    {
        match form {
            Line::Role(_) => Err(RunError::BadLine { line }),
            Line::Edge { .. } => Err(RunError::BadLine { line }),
            Line::Assign {
                admin,
                range,
                condition,
            } => self.add_assign(alloc, order, admin, range, condition, line),
            Line::Revoke { admin, range } => self.add_revoke(order, admin, range, line),
            Line::User(names) => self.add_user(order, names, line),
            Line::Act(act) => self.add_act(order, act, line),
            Line::Goal(condition) => self.add_goal(alloc, order, condition, line),
        }
    }

    /// Whether the line is the last one: `end`, behind a goal.
    fn ends(&self, line: &[u8]) -> bool
        ensures { result ≡ (bytes_eq line.now (codes "end") && not (behind_acts (body_view self.now) == 0)) }
    {
        is(line, "end") && !self.goal.is_empty()
    }

    /// Adds what a line says.
    fn add_line(
        &mut self,
        alloc: Global,
        order: &Order,
        line: &[u8],
        number: u32,
    ) -> Result<(), RunError>
        requires short { length line.now < 2 ^ 32 }
        requires order { IsOrder order.now.names order.now.edges }
        requires late { is_order_line line.now ≡ true → ¬ (behind_edges (body_view self.old) ≡ 0) }
        requires unended { line.now ≡ codes "end" → behind_acts (body_view self.old) ≡ 0 }
        ensures added { OnOk result (AddsLine (run_view order.now self.old) line.now (run_view order.now self.new)) }
        ensures fault { IfErr result (IsLineFault (run_view order.now self.old) line.now number) }
    {
        let Some(form) = read_line(alloc, line)? else {
            return Err(RunError::BadLine { line: number });
        };
        self.add_form(alloc, order, &form, number)
    }
}

/// Reads the lines behind those of the role order, of which the first has the number.
pub fn read_body(alloc: Global, order: &Order, text: &[u8], first: u32) -> Result<Body, RunError>
    requires short { length text.now + first + 1 < 2 ^ 32 }
    requires order { IsOrder order.now.names order.now.edges }
    requires ends { EndsOrder (split text.now).0 }
    ensures read { IfOk result (λ body. EndsWith (order_view order.now) text.now first (run_view order.now body)) }
    ensures fault { IfErr result (IsBodyFault (order_view order.now) text.now first) }
{
    let mut body = Body {
        assign: Vec::new(alloc),
        revoke: Vec::new(alloc),
        start: Vec::new(alloc),
        acts: Vec::new(alloc),
        goal: Vec::new(alloc),
    };
    let mut rest = text;
    let mut number = first;
    while let Some((line, after)) = cut(rest, b'\n') {
        if body.ends(line) {
            if after.is_empty() {
                return Ok(body);
            }
            return Err(RunError::BadLine { line: number + 1 });
        }
        body.add_line(alloc, order, line, number)?;
        rest = after;
        number += 1;
    }
    Err(RunError::Unended)
}
