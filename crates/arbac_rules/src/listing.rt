//! The conjuncts of a condition.

ghost use Rattle.std.specs.Prelude.{◌≡◌, ◌≤◌, ◌<◌, length, IfOk, IfErr};
ghost use Rattle.arbac_policy.specs.Truth.{term_of, IsKnown};
ghost use Rattle.cond_text.specs.Grammar.{term_count};
ghost use Rattle.arbac_laws.specs.Conjuncts as laws;
ghost use Rattle.arbac_laws.specs.Views.{needs_of};
ghost use Rattle.arbac_rules.specs.Widths.{IsTooWide};

use crate::MOST_CONJUNCTS;
use crate::conjunct::{added_lists, joined_lists, list_of, of_any, of_has, of_lacks};
use crate::width::width_of;
use arbac_policy::{Cond, Conjunct};
use cond_text::MOST_TERMS;
use role_order::Order;
use std::alloc::{AllocError, Global};

/// Why the conjuncts of a condition are not listed.
#[derive(Clone, Copy, Debug, PartialEq, Eq)]
pub enum WideError {
    /// The list would have this many, more than `MOST_CONJUNCTS`.
    TooWide { count: u128 },
    /// Memory ran out.
    Memory,
}

/// The list of conjuncts, however long.
fn list_all(alloc: Global, order: &Order, cond: &Cond) -> Result<Vec<Conjunct>, AllocError>
    requires { IsKnown (length order.now.names) (term_of cond.now) }
    ensures { IfOk result (λ list. needs_of list.items
        ≡ laws.conjuncts order.now (term_of cond.now)) }
{
    match cond {
        Cond::Any => Ok(list_of(alloc, of_any(alloc))?),
        Cond::Has(role) => Ok(list_of(alloc, of_has(alloc, order.seniors(*role))?)?),
        Cond::Lacks(role) => Ok(list_of(alloc, of_lacks(alloc, order.seniors(*role)))?),
        Cond::And(left, right) => {
            let lefts = list_all(alloc, order, left.get())?;
            let rights = list_all(alloc, order, right.get())?;
            Ok(joined_lists(alloc, &lefts, &rights)?)
        }
        Cond::Or(left, right) => {
            let lefts = list_all(alloc, order, left.get())?;
            let rights = list_all(alloc, order, right.get())?;
            Ok(added_lists(lefts, rights)?)
        }
    }
}

/// The conjuncts of a condition: a user's set satisfies it exactly where it meets one of them.
///
/// The number of them is found first, without the list.
pub fn conjuncts(alloc: Global, order: &Order, cond: &Cond) -> Result<Vec<Conjunct>, WideError>
    requires terms { term_count (term_of cond.now) ≤ MOST_TERMS }
    requires known { IsKnown (length order.now.names) (term_of cond.now) }
    ensures list { IfOk result (λ list. needs_of list.items
        ≡ laws.conjuncts order.now (term_of cond.now)) }
    ensures few { IfOk result (λ _. length (laws.conjuncts order.now (term_of cond.now))
        ≤ MOST_CONJUNCTS) }
    ensures wide { IfErr result (IsTooWide (laws.conjuncts order.now (term_of cond.now))) }
    ensures limit { MOST_CONJUNCTS ≡ 1024 }
{
    let count = width_of(cond);
    if count > MOST_CONJUNCTS as u128 {
        return Err(WideError::TooWide { count });
    }
    match list_all(alloc, order, cond) {
        Ok(list) => Ok(list),
        Err(_) => Err(WideError::Memory),
    }
}
