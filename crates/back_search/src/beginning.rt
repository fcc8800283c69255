//! What is known before a search.

ghost use Rattle.std.specs.Prelude.{◌≡◌, [], IfOk};
ghost use Rattle.search_rounds.specs.Keeping.{IsGathered};

use crate::NoMemory;
use req_core::Req;
use role_order::Order;
use search_rounds::Gathering;
use shared_reqs::SharedReq;
use std::alloc::Global;
use std::sync::Arc;

/// The barriers are known, and nothing was made.
pub fn known<'a>(
    alloc: Global,
    order: &'a Order,
    barriers: &[Req],
) -> Result<Gathering<'a>, NoMemory>
    ensures known { IfOk result (λ made. made ≡ record { order = order.now; known = barriers.now; seen = []; kept = [] }) }
    ensures gathered { IfOk result IsGathered }
{
    let mut gathering = Gathering::new(alloc, order);
    for barrier in barriers {
        let req = SharedReq::of(alloc, order, barrier)?;
        gathering.know(alloc, &Arc::new(alloc, req)?)?;
    }
    Ok(gathering)
}
