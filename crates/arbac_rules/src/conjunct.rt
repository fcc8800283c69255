//! Lists of conjuncts.

ghost use Rattle.std.specs.Prelude.{◌≡◌, ◌++◌, [], ◌∷◌, IfOk, OnOk};
ghost use Rattle.arbac_laws.specs.Conjuncts.{join_needs, join_with, join_all};
ghost use Rattle.arbac_laws.specs.Views.{need_of, needs_of};

use crate::NoMemory;
use arbac_policy::Conjunct;
use role_order::RoleSet;
use std::alloc::{AllocError, Global};

/// The conjunct of `any`, that each set meets.
pub fn of_any(alloc: Global) -> Conjunct
    ensures { need_of result ≡ record { hits = []; lacks = [] } }
{
    Conjunct {
        hits: Vec::new(alloc),
        lacks: RoleSet::empty(),
    }
}

/// The conjunct that wants a role of the set.
pub fn of_has(alloc: Global, hit: RoleSet) -> Result<Conjunct, NoMemory>
    ensures { IfOk result (λ one. need_of one ≡ record { hits = hit ∷ []; lacks = [] }) }
{
    let mut hits = Vec::new(alloc);
    hits.push(hit)?;
    Ok(Conjunct {
        hits,
        lacks: RoleSet::empty(),
    })
}

/// The conjunct that bars the roles of the set.
pub fn of_lacks(alloc: Global, lacks: RoleSet) -> Conjunct
    ensures { need_of result ≡ record { hits = []; lacks = lacks } }
{
    Conjunct {
        hits: Vec::new(alloc),
        lacks,
    }
}

/// The hits and the lacks of both.
fn joined(alloc: Global, first: &Conjunct, second: &Conjunct) -> Result<Conjunct, AllocError>
    ensures { IfOk result (λ both. need_of both
        ≡ join_needs (need_of first.now) (need_of second.now)) }
{
    let mut hits = Vec::new(alloc);
    hits.extend_from_slice(&first.hits)?;
    hits.extend_from_slice(&second.hits)?;
    let lacks = first.lacks.join(&second.lacks);
    Ok(Conjunct { hits, lacks })
}

/// Adds the first with each of the others.
fn add_joined(
    alloc: Global,
    out: &mut Vec<Conjunct>,
    first: &Conjunct,
    others: &[Conjunct],
) -> Result<(), AllocError>
    ensures { OnOk result (needs_of out.new.items ≡ needs_of out.old.items
        ++ join_with (need_of first.now) (needs_of others.now)) }
{
    for other in others {
        out.push(joined(alloc, first, other)?)?;
    }
    Ok(())
}

/// Each of the left ones with each of the right ones.
pub fn joined_lists(
    alloc: Global,
    lefts: &[Conjunct],
    rights: &[Conjunct],
) -> Result<Vec<Conjunct>, NoMemory>
    ensures { IfOk result (λ all. needs_of all.items
        ≡ join_all (needs_of lefts.now) (needs_of rights.now)) }
{
    let mut all = Vec::new(alloc);
    for left in lefts {
        add_joined(alloc, &mut all, left, rights)?;
    }
    Ok(all)
}

/// The left ones, and behind them the right ones.
pub fn added_lists(lefts: Vec<Conjunct>, rights: Vec<Conjunct>) -> Result<Vec<Conjunct>, NoMemory>
    ensures { IfOk result (λ all. all.items ≡ lefts.items ++ rights.items) }
{
    let mut all = lefts;
    for right in rights {
        all.push(right)?;
    }
    Ok(all)
}

/// A list of one conjunct.
pub fn list_of(alloc: Global, one: Conjunct) -> Result<Vec<Conjunct>, NoMemory>
    ensures { IfOk result (λ all. needs_of all.items ≡ need_of one ∷ []) }
{
    let mut all = Vec::new(alloc);
    all.push(one)?;
    Ok(all)
}
