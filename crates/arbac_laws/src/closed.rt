//! Laws of closed lists.

ghost use Rattle.std.specs.Prelude.{List, length};
ghost use Rattle.role_order.specs.Graph.{AreEdges};
ghost use Rattle.arbac_policy.specs.declared.profile.Profile.{Profile};
ghost use Rattle.arbac_policy.specs.Truth.{Term};
ghost use Rattle.arbac_policy.specs.Rules.{Rules};
ghost use Rattle.arbac_policy.specs.Goals.{IsReachable};
ghost use Rattle.arbac_laws.specs.Needs.{Need};
ghost use Rattle.arbac_laws.specs.Closed.{IsClosed, IsClosedList};

/// A closed list excludes each run, strong acts included, from a drawn population of any size to the
/// goal.
pub fn closed_laws()
    ensures list { (rules : Rules) → AreEdges (length rules.order.names) rules.order.edges →
        (profiles : List Profile) (goal : List Term) (list : List (List Need)) →
        IsClosedList rules profiles goal list → ¬ IsReachable rules profiles goal }
    ensures parts { (rules : Rules) → AreEdges (length rules.order.names) rules.order.edges →
        (profiles : List Profile) (goal : List Term) (list : List (List Need)) →
        IsClosed rules profiles goal list → ¬ IsReachable rules profiles goal }
{}
