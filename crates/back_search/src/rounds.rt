//! One round by itself.

ghost use Rattle.std.specs.Prelude.{◌≡◌, ◌<◌, ◌++◌, [], length, IfOk, OnOk};
ghost use Rattle.search_laws.specs.Candidates.{needs_in, next_candidates};
ghost use Rattle.search_laws.specs.Beats.{AreUnbeaten};
ghost use Rattle.search_rounds.specs.Views.{entries_of, HaveOwnMarks};
ghost use Rattle.back_search.specs.Answers.{entries_in};

use crate::NoMemory;
use crate::beginning::known;
use crate::copies::{candidates, entries};
use crate::outcome::{Entry, Gate, Round};
use req_core::Req;
use req_pre::Prepared;
use search_rounds::{Candidate, Gathering, gather_batch, unbeaten};
use std::alloc::Global;

/// The requirements of the list are known from now on.
fn know(alloc: Global, gathering: &mut Gathering, list: &[Candidate]) -> Result<(), NoMemory>
    requires { HaveOwnMarks gathering.old.order list.now }
    ensures { OnOk result (gathering.new ≡ record {
      order = gathering.old.order;
      known = gathering.old.known ++ needs_in (entries_of list.now);
      seen = gathering.old.seen;
      kept = gathering.old.kept;
    }) }
{
    for one in list {
        gathering.know(alloc, &one.req)?;
    }
    Ok(())
}

/// Each of so many workers passes the gate.
pub fn pass_all<G: Gate>(gate: &G, workers: u32) {
    for worker in 0..workers {
        gate.pass(worker);
    }
}

/// The unbeaten ones among the pre-images of the next recorded entries, from this number on. All work is done by the caller,
/// for whichever number of workers, each of whom passes the gate.
pub fn round<G: Gate>(
    alloc: Global,
    prepared: &Prepared,
    recorded: &[Entry],
    from: u32,
    barriers: &[Req],
    workers: u32,
    gate: &G,
) -> Result<Round, NoMemory>
    requires { from < length recorded.now }
    ensures unbeaten { IfOk result (λ round. AreUnbeaten (barriers.now ++ needs_in (entries_in recorded.now))
        (next_candidates prepared.now (entries_in recorded.now) from) (entries_in round.unbeaten.items)) }
    ensures placed { IfOk result (λ round. round.placed.items ≡ []) }
    ensures drops { IfOk result (λ round. round.drops.items ≡ []) }
{
    let order = prepared.policy().order();
    order.is_order();
    let parents = candidates(alloc, order, recorded)?;
    let mut gathering = known(alloc, order, barriers)?;
    know(alloc, &mut gathering, &parents)?;
    pass_all(gate, workers);
    gather_batch(alloc, prepared, &mut gathering, &parents, from as usize)?;
    let kept = gathering.take(alloc);
    let list = unbeaten(alloc, order, kept)?;
    Ok(Round {
        unbeaten: entries(alloc, list)?,
        placed: Vec::new(alloc),
        drops: Vec::new(alloc),
    })
}
