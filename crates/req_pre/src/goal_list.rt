//! Goal requirements.

ghost use Rattle.std.specs.Prelude.{◌≡◌, ◌≤◌, ◌++◌, [], ◌∷◌, length, map, None, IfOk, IfErr, OnOk};
ghost use Rattle.list_words.specs.Lists.{Each};
ghost use Rattle.arbac_policy.specs.Truth.{term_of, IsKnown};
ghost use Rattle.cond_text.specs.Grammar.{term_count};
ghost use Rattle.arbac_laws.specs.Conjuncts as conjunct_laws;
ghost use Rattle.arbac_laws.specs.Goals as goal_laws;
ghost use Rattle.arbac_laws.specs.Goals.{goal_requirements};
ghost use Rattle.arbac_laws.specs.NormalForms.{normal_form};
ghost use Rattle.req_core.specs.Answers.{form_in};
ghost use Rattle.arbac_laws.specs.Views.{need_of, needs_of};
ghost use Rattle.req_pre.specs.Combining.{IsTooMany};
ghost use Rattle.req_pre.specs.Views.{lists_of};
ghost use Rattle.req_pre.specs.Answers.{AreGoalPlaces};

use crate::prepared::Prepared;
use crate::raw::raw_user;
use arbac_policy::Cond;
use arbac_rules::{Conjunct, MOST_CONJUNCTS, WideError, conjuncts, too_many};
use cond_text::MOST_TERMS;
use req_core::{Normal, RawUser, normal};
use role_order::Order;
use std::alloc::{AllocError, Global};

/// A user who meets the conjunct, before the others.
fn with_first(alloc: Global, first: &Conjunct, tail: &[RawUser]) -> Result<Vec<RawUser>, AllocError>
    ensures { IfOk result (λ raw. needs_of raw.items ≡ need_of first.now ∷ needs_of tail.now) }
{
    let mut raw = Vec::new(alloc);
    raw.push(raw_user(alloc, &first.hits, &first.lacks)?)?;
    for user in tail {
        raw.push(raw_user(alloc, &user.hits, &user.lacks)?)?;
    }
    Ok(raw)
}

/// Adds the conjunct before each of the others.
fn add_before(
    alloc: Global,
    all: &mut Vec<Vec<RawUser>>,
    first: &Conjunct,
    tails: &[Vec<RawUser>],
) -> Result<(), AllocError>
    ensures { OnOk result (lists_of all.new.items
        ≡ lists_of all.old.items ++ map (λ tail. need_of first.now ∷ tail) (lists_of tails.now)) }
{
    for tail in tails {
        all.push(with_first(alloc, first, tail)?)?;
    }
    Ok(())
}

/// Each of the conjuncts before each of the others, the conjuncts slowest.
fn before_each(
    alloc: Global,
    firsts: &[Conjunct],
    tails: &[Vec<RawUser>],
) -> Result<Vec<Vec<RawUser>>, AllocError>
    ensures { IfOk result (λ all. lists_of all.items ≡ goal_laws.before_each (needs_of firsts.now) (lists_of tails.now)) }
{
    let mut all = Vec::new(alloc);
    for first in firsts {
        add_before(alloc, &mut all, first, tails)?;
    }
    Ok(all)
}

/// The conjuncts of a condition; where a goal isn't too wide, none of its conditions is.
fn few_conjuncts(alloc: Global, order: &Order, cond: &Cond) -> Result<Vec<Conjunct>, AllocError>
    requires terms { term_count (term_of cond.now) ≤ MOST_TERMS }
    requires known { IsKnown (length order.now.names) (term_of cond.now) }
    ensures { IfOk result (λ list. needs_of list.items ≡ conjunct_laws.conjuncts order.now (term_of cond.now)) }
{
    match conjuncts(alloc, order, cond) {
        Ok(list) => Ok(list),
        Err(_) => Err(AllocError),
    }
}

/// A list of one requirement, on no user.
fn no_users(alloc: Global) -> Result<Vec<Vec<RawUser>>, AllocError>
    ensures { IfOk result (λ all. lists_of all.items ≡ [] ∷ []) }
{
    let mut all = Vec::new(alloc);
    all.push(Vec::new(alloc))?;
    Ok(all)
}

/// All combinations of one conjunct of each condition, the first condition slowest.
fn combinations(
    alloc: Global,
    order: &Order,
    goal: &[Cond],
) -> Result<Vec<Vec<RawUser>>, AllocError>
    requires terms { Each (λ cond. term_count (term_of cond) ≤ MOST_TERMS) goal.now }
    requires known { Each (λ cond. IsKnown (length order.now.names) (term_of cond)) goal.now }
    ensures { IfOk result (λ all. lists_of all.items ≡ goal_requirements order.now (map term_of goal.now)) }
{
    let mut all = no_users(alloc)?;
    for at in (0..goal.len()).rev() {
        let firsts = few_conjuncts(alloc, order, &goal[at])?;
        all = before_each(alloc, &firsts, &all)?;
    }
    Ok(all)
}

/// The normal form of each requirement.
fn forms(alloc: Global, raws: &[Vec<RawUser>]) -> Result<Vec<Option<Normal>>, AllocError>
    ensures list { IfOk result (λ list. map form_in list.items ≡ map normal_form (lists_of raws.now)) }
    ensures places { IfOk result (λ list. AreGoalPlaces (lists_of raws.now) list.items) }
{
    let mut list = Vec::new(alloc);
    for raw in raws {
        list.push(normal(alloc, raw)?)?;
    }
    Ok(list)
}

/// The goal requirements, however many.
fn all_goals(alloc: Global, order: &Order, goal: &[Cond]) -> Result<Vec<Option<Normal>>, AllocError>
    requires terms { Each (λ cond. term_count (term_of cond) ≤ MOST_TERMS) goal.now }
    requires known { Each (λ cond. IsKnown (length order.now.names) (term_of cond)) goal.now }
    ensures list { IfOk result (λ list. map form_in list.items
        ≡ map normal_form (goal_requirements order.now (map term_of goal.now))) }
    ensures places { IfOk result (λ list. AreGoalPlaces (goal_requirements order.now (map term_of goal.now)) list.items) }
{
    let raws = combinations(alloc, order, goal)?;
    let list = forms(alloc, &raws)?;
    Ok(list)
}

/// The goal requirements by number, each in normal form; none for one that is impossible.
pub fn goals(
    alloc: Global,
    prepared: &Prepared,
    goal: &[Cond],
) -> Result<Vec<Option<Normal>>, WideError>
    requires terms { Each (λ cond. term_count (term_of cond) ≤ MOST_TERMS) goal.now }
    requires known { Each (λ cond. IsKnown (length prepared.now.order.names) (term_of cond)) goal.now }
    ensures list { IfOk result (λ list. map form_in list.items
        ≡ map normal_form (goal_requirements prepared.now.order (map term_of goal.now))) }
    ensures places { IfOk result (λ list. AreGoalPlaces (goal_requirements prepared.now.order (map term_of goal.now)) list.items) }
    ensures few { IfOk result (λ list. length list.items ≤ MOST_CONJUNCTS) }
    ensures wide { IfErr result (IsTooMany (map term_of goal.now)) }
{
    if let Some(count) = too_many(goal) {
        return Err(WideError::TooWide { count });
    }
    match all_goals(alloc, prepared.policy().order(), goal) {
        Ok(list) => Ok(list),
        Err(_) => Err(WideError::Memory),
    }
}
