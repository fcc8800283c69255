//! The candidates of the first round.

ghost use Rattle.std.specs.Prelude.{◌≡◌, ◌≤◌, map, length, OnOk, IfOk};
ghost use Rattle.list_words.specs.Lists.{Each};
ghost use Rattle.arbac_policy.specs.Truth.{term_of, IsKnown};
ghost use Rattle.arbac_laws.specs.Goals.{goal_requirements};
ghost use Rattle.arbac_laws.specs.NormalForms.{normal_form};
ghost use Rattle.arbac_laws.specs.Recorded.{of_goal};
ghost use Rattle.cond_text.specs.Grammar.{term_count};
ghost use Rattle.cond_text.specs.declared.TheConstants.{MOST_TERMS};
ghost use Rattle.req_core.specs.Answers.{form_in};
ghost use Rattle.search_laws.specs.Candidates.{as_candidate, goal_candidates};
ghost use Rattle.search_rounds.specs.Keeping.{Gathers};

use crate::NoMemory;
use crate::candidate::Origin;
use crate::gathering::Gathering;
use arbac_policy::Cond;
use hall_match::small;
use req_core::Normal;
use req_pre::{Prepared, goals};
use role_order::Order;
use shared_reqs::SharedReq;
use std::alloc::{AllocError, Global};

/// The goal requirements by number.
fn forms(alloc: Global, prepared: &Prepared, goal: &[Cond]) -> Result<Vec<Option<Normal>>, NoMemory>
    requires terms { Each (λ cond. term_count (term_of cond) ≤ MOST_TERMS) goal.now }
    requires known { Each (λ cond. IsKnown (length prepared.now.order.names) (term_of cond)) goal.now }
    ensures { IfOk result (λ list. map form_in list.items
        ≡ map normal_form (goal_requirements prepared.now.order (map term_of goal.now))) }
{
    match goals(alloc, prepared, goal) {
        Ok(list) => Ok(list),
        Err(_) => Err(AllocError),
    }
}

/// The candidate of the goal requirement of the number, if it is possible.
fn gather_form(
    alloc: Global,
    order: &Order,
    gathering: &mut Gathering,
    number: u32,
    form: &Option<Normal>,
) -> Result<(), NoMemory>
    requires { gathering.old.order ≡ order.now }
    ensures { OnOk result (Gathers gathering.old gathering.new (as_candidate (of_goal number) (form_in form.now))) }
{
    if let Some(normal) = form {
        let req = SharedReq::of(alloc, order, &normal.req)?;
        gathering.add(alloc, req, Origin::Goal(number))?;
    }
    Ok(())
}

/// The candidates of the goal. The error is want of memory, or that the goal is too wide.
pub fn gather_goals(
    alloc: Global,
    prepared: &Prepared,
    gathering: &mut Gathering,
    goal: &[Cond],
) -> Result<(), NoMemory>
    requires terms { Each (λ cond. term_count (term_of cond) ≤ MOST_TERMS) goal.now }
    requires known { Each (λ cond. IsKnown (length prepared.now.order.names) (term_of cond)) goal.now }
    requires order { gathering.old.order ≡ prepared.now.order }
    ensures { OnOk result (Gathers gathering.old gathering.new (goal_candidates prepared.now (map term_of goal.now))) }
{
    let order = prepared.policy().order();
    let forms = forms(alloc, prepared, goal)?;
    for (number, form) in forms.iter().enumerate() {
        gather_form(alloc, order, gathering, small(number)?, form)?;
    }
    Ok(())
}
