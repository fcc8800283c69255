//! The unbeaten candidates, in the order of requirements.

ghost use Rattle.std.specs.Prelude.{◌≡◌, List, length, IfOk};
ghost use Rattle.std.specs.Ordering.{is_lt};
ghost use Rattle.list_words.specs.Lists.{Each};
ghost use Rattle.arbac_laws.specs.Needs.{Need, IsCovered};
ghost use Rattle.arbac_laws.specs.Recorded.{Entry};
ghost use Rattle.search_laws.specs.Beats.{AreUnbeaten};
ghost use Rattle.search_laws.specs.Candidates.{needs_in};
ghost use Rattle.search_rounds.specs.Views.{entries_of, HaveOwnMarks};
ghost use Rattle.search_rounds.specs.Ranking.{AreBest, candidate_before};

use crate::NoMemory;
use crate::candidate::Candidate;
use hall_match::small;
use role_order::Order;
use shared_reqs::Index;
use std::alloc::Global;
use std::cmp::Ordering;

/// The index of the candidates' requirements, in their order.
fn index_of<'a>(alloc: Global, order: &'a Order, kept: &[Candidate]) -> Result<Index<'a>, NoMemory>
    requires { HaveOwnMarks order.now kept.now }
    ensures order { IfOk result (λ index. index.order ≡ order.now) }
    ensures members { IfOk result (λ index. index.members ≡ needs_in (entries_of kept.now)) }
{
    let mut index = Index::new(alloc, order);
    for one in kept {
        index.add(alloc, one.req.clone()?)?;
    }
    Ok(index)
}

/// The candidates that no other one beats, in their order.
fn best(alloc: Global, order: &Order, kept: &[Candidate]) -> Result<Vec<Candidate>, NoMemory>
    requires { HaveOwnMarks order.now kept.now }
    ensures marks { IfOk result (λ list. HaveOwnMarks order.now list.items) }
    ensures best { IfOk result (λ list. AreBest (entries_of kept.now) (length kept.now) (entries_of list.items)) }
{
    let index = index_of(alloc, order, kept)?;
    let mut best = Vec::new(alloc);
    for (place, one) in kept.iter().enumerate() {
        let is_beaten = index.is_beaten(alloc, small(place)?, &one.req)?;
        if !is_beaten {
            best.push(Candidate {
                req: one.req.clone()?,
                origin: one.origin,
            })?;
        }
    }
    Ok(best)
}

/// The order of two candidates by their requirements.
fn compare(a: &Candidate, b: &Candidate) -> Ordering
    ensures { is_lt result ≡ candidate_before a.now b.now }
{
    if a.req.precedes(&b.req) {
        Ordering::Less
    } else if b.req.precedes(&a.req) {
        Ordering::Greater
    } else {
        Ordering::Equal
    }
}

/// Those of the candidates, which are in the order of their origins, that no other one beats, in the order of requirements.
pub fn unbeaten(
    alloc: Global,
    order: &Order,
    kept: Vec<Candidate>,
) -> Result<Vec<Candidate>, NoMemory>
    requires { HaveOwnMarks order.now kept.items }
    ensures marks { IfOk result (λ list. HaveOwnMarks order.now list.items) }
    ensures unbeaten { IfOk result (λ list. (known : List (List Need)) → Each (λ (entry : Entry). ¬ IsCovered known entry.needs) (entries_of kept.items)
        → AreUnbeaten known (entries_of kept.items) (entries_of list.items)) }
{
    let mut list = best(alloc, order, &kept)?;
    list.sort_unstable_by(|a, b| compare(a, b));
    Ok(list)
}
