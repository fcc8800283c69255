//! Goal requirements.

ghost use Rattle.std.specs.Prelude.{◌≡◌, ◌≤◌, ◌++◌, [], ◌∷◌, length, map, IfOk, OnOk};
ghost use Rattle.list_words.specs.Lists.{Each};
ghost use Rattle.arbac_policy.specs.Truth.{term_of, IsKnown};
ghost use Rattle.cond_text.specs.Grammar.{term_count};
ghost use Rattle.cond_text.specs.declared.TheConstants.{MOST_TERMS};
ghost use Rattle.arbac_rules.specs.declared.TheConstants.{MOST_CONJUNCTS};
ghost use Rattle.arbac_rules.specs.Widths.{goal_width};
ghost use Rattle.arbac_laws.specs.Views.{need_of, needs_of};
ghost use Rattle.arbac_laws.specs.Goals as laws;
ghost use Rattle.cert_check.specs.Rulebooks.{lists_of};

use crate::NoMemory;
use crate::rulebook::few_conjuncts;
use arbac_policy::Cond;
use cert_needs::NeedUser;
use role_order::Order;
use std::alloc::Global;

/// The same user requirement, in lists of its own.
fn copy_of(alloc: Global, user: &NeedUser) -> Result<NeedUser, NoMemory>
    ensures { IfOk result (λ copy. need_of copy ≡ need_of user.now) }
{
    Ok(NeedUser {
        hits: Vec::from_slice(alloc, &user.hits)?,
        lacks: user.lacks,
    })
}

/// A user who meets the conjunct, before the others.
fn with_first(alloc: Global, first: &NeedUser, tail: &[NeedUser]) -> Result<Vec<NeedUser>, NoMemory>
    ensures { IfOk result (λ users. needs_of users.items ≡ need_of first.now ∷ needs_of tail.now) }
{
    let mut users = Vec::new(alloc);
    users.push(copy_of(alloc, first)?)?;
    for user in tail {
        users.push(copy_of(alloc, user)?)?;
    }
    Ok(users)
}

/// Adds the conjunct before each of the others.
fn add_before(
    alloc: Global,
    all: &mut Vec<Vec<NeedUser>>,
    first: &NeedUser,
    tails: &[Vec<NeedUser>],
) -> Result<(), NoMemory>
    ensures { OnOk result (lists_of (λ users. users.items) all.new.items
        ≡ lists_of (λ users. users.items) all.old.items ++ map (λ tail. need_of first.now ∷ tail) (lists_of (λ users. users.items) tails.now)) }
{
    for tail in tails {
        all.push(with_first(alloc, first, tail)?)?;
    }
    Ok(())
}

/// Each of the conjuncts before each of the others, the conjuncts slowest.
fn before_each(
    alloc: Global,
    firsts: &[NeedUser],
    tails: &[Vec<NeedUser>],
) -> Result<Vec<Vec<NeedUser>>, NoMemory>
    ensures { IfOk result (λ all. lists_of (λ users. users.items) all.items
        ≡ laws.before_each (needs_of firsts.now) (lists_of (λ users. users.items) tails.now)) }
{
    let mut all = Vec::new(alloc);
    for first in firsts {
        add_before(alloc, &mut all, first, tails)?;
    }
    Ok(all)
}

/// A list of one requirement, on no user.
fn no_users(alloc: Global) -> Result<Vec<Vec<NeedUser>>, NoMemory>
    ensures { IfOk result (λ all. lists_of (λ users. users.items) all.items ≡ [] ∷ []) }
{
    let mut all = Vec::new(alloc);
    all.push(Vec::new(alloc))?;
    Ok(all)
}

/// The goal requirements by number, as they stand: all combinations of one conjunct of each condition, the first condition
/// slowest.
pub fn goal_requirements(
    alloc: Global,
    order: &Order,
    goal: &[Cond],
) -> Result<Vec<Vec<NeedUser>>, NoMemory>
    requires terms { Each (λ cond. term_count (term_of cond) ≤ MOST_TERMS) goal.now }
    requires known { Each (λ cond. IsKnown (length order.now.names) (term_of cond)) goal.now }
    requires narrow { goal_width (map term_of goal.now) ≤ MOST_CONJUNCTS }
    ensures { IfOk result (λ all. lists_of (λ users. users.items) all.items ≡ laws.goal_requirements order.now (map term_of goal.now)) }
{
    let mut all = no_users(alloc)?;
    for at in (0..goal.len()).rev() {
        let firsts = few_conjuncts(alloc, order, &goal[at])?;
        all = before_each(alloc, &firsts, &all)?;
    }
    Ok(all)
}
