//! What a checked certificate shows.

ghost use Rattle.std.specs.Prelude.{◌≡◌, List, length};
ghost use Rattle.role_order.specs.Graph.{AreEdges};
ghost use Rattle.arbac_policy.specs.Goals.{IsReachable};
ghost use Rattle.arbac_laws.specs.Needs.{Need};
ghost use Rattle.arbac_laws.specs.Closed.{IsClosedList};
ghost use Rattle.cert_text.specs.Certificates.{Certificate};
ghost use Rattle.cert_check.specs.Asked.{Asked, Reason, HasProperty, FailsFirst};

/// Where a list of requirements is closed for a question, the goal can't be reached: by no number of users who are drawn by its
/// profiles, and no list of acts, strong ones included.
pub fn closed_list_law()
    ensures { (asked : Asked) → AreEdges (length asked.rules.order.names) asked.rules.order.edges → (list : List (List Need)) →
        IsClosedList asked.rules asked.profiles asked.goal list → ¬ IsReachable asked.rules asked.profiles asked.goal }
{}

/// A certificate that has its property fails for no reason, and one that hasn't fails first for one reason at most.
pub fn judgement_laws()
    ensures none { (asked : Asked) (cert : Certificate) (reason : Reason) → HasProperty asked cert → ¬ FailsFirst asked cert reason }
    ensures one { (asked : Asked) (cert : Certificate) (first second : Reason) → FailsFirst asked cert first → FailsFirst asked cert second →
        first ≡ second }
{}
