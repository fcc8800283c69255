//! Candidates in values of their own.

ghost use Rattle.std.specs.Prelude.{◌≡◌, ◌++◌, IfOk, OnOk};
ghost use Rattle.list_words.specs.Lists.{Each};
ghost use Rattle.arbac_laws.specs.NormalForms.{IsNormal};
ghost use Rattle.arbac_laws.specs.Recorded.{Entry as Recorded};
ghost use Rattle.search_laws.specs.Candidates.{needs_in};
ghost use Rattle.shared_reqs.specs.Shared.{AreOwnMarks};
ghost use Rattle.search_rounds.specs.Views.{entry_of, entries_of, HaveOwnMarks};
ghost use Rattle.back_search.specs.Answers.{entry_in, entries_in};

use crate::NoMemory;
use crate::outcome::Entry;
use req_core::Req;
use role_order::Order;
use search_rounds::Candidate;
use shared_reqs::SharedReq;
use std::alloc::Global;
use std::sync::Arc;

/// The candidate in a value of its own.
pub fn entry(alloc: Global, one: &Candidate) -> Result<Entry, NoMemory>
    ensures { IfOk result (λ made. entry_in made ≡ entry_of one.now) }
{
    let req = one.req.to_req(alloc)?;
    Ok(Entry {
        req,
        origin: one.origin,
    })
}

/// The candidates in values of their own. They are given up one by one.
pub fn entries(alloc: Global, list: Vec<Candidate>) -> Result<Vec<Entry>, NoMemory>
    ensures { IfOk result (λ made. entries_in made.items ≡ entries_of list.items) }
{
    let mut made = Vec::with_capacity(alloc, list.len())?;
    for one in list {
        made.push(entry(alloc, &one)?)?;
    }
    Ok(made)
}

/// Adds the requirements of the candidates, which are given up one by one.
pub fn add_needs(alloc: Global, needs: &mut Vec<Req>, list: Vec<Candidate>) -> Result<(), NoMemory>
    ensures { OnOk result (needs.new.items ≡ needs.old.items ++ needs_in (entries_of list.items)) }
{
    for one in list {
        needs.push(one.req.to_req(alloc)?)?;
    }
    Ok(())
}

/// The requirements in values of their own.
pub fn copies(alloc: Global, order: &Order, list: &[Req]) -> Result<Vec<Req>, NoMemory>
    ensures { IfOk result (λ made. made.items ≡ list.now) }
{
    let mut made = Vec::with_capacity(alloc, list.len())?;
    for req in list {
        made.push(SharedReq::of(alloc, order, req)?.to_req(alloc)?)?;
    }
    Ok(made)
}

/// The recorded entry as a candidate, its users marked by the role order.
pub fn candidate(alloc: Global, order: &Order, one: &Entry) -> Result<Candidate, NoMemory>
    ensures entry { IfOk result (λ made. entry_of made ≡ entry_in one.now) }
    ensures marks { IfOk result (λ made. AreOwnMarks order.now made.req.value) }
{
    let req = SharedReq::of(alloc, order, &one.req)?;
    Ok(Candidate {
        req: Arc::new(alloc, req)?,
        origin: one.origin,
    })
}

/// Says that the requirement is in normal form.
pub fn is_normal(one: &Entry)
    ensures { IsNormal (entry_in one.now).needs }
{
    let _ = one.req.users();
}

/// The recorded entries as candidates, their users marked by the role order.
pub fn candidates(alloc: Global, order: &Order, list: &[Entry]) -> Result<Vec<Candidate>, NoMemory>
    ensures entries { IfOk result (λ made. entries_of made.items ≡ entries_in list.now) }
    ensures marks { IfOk result (λ made. HaveOwnMarks order.now made.items) }
    ensures normal { IfOk result (λ made. Each (λ (entry : Recorded). IsNormal entry.needs) (entries_in list.now)) }
{
    let mut made = Vec::with_capacity(alloc, list.len())?;
    for one in list {
        is_normal(one);
        made.push(candidate(alloc, order, one)?)?;
    }
    Ok(made)
}
