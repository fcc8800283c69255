//! Laws of the orders.

ghost use Rattle.role_order.specs.Orders.{set_before};
ghost use Rattle.list_words.specs.Orders.{IsTotalOrder};
ghost use Rattle.arbac_laws.specs.Orders.{hits_before, need_before, requirement_before};

/// Sets, lists of hits, user requirements and requirements are in a strict total order each.
pub fn order_laws()
    ensures sets { IsTotalOrder set_before }
    ensures hits { IsTotalOrder hits_before }
    ensures needs { IsTotalOrder need_before }
    ensures requirements { IsTotalOrder requirement_before }
{}
