//! The law of goal requirements.

ghost use Rattle.std.specs.Prelude.{ℕ, List, length, ◌↔◌};
ghost use Rattle.list_words.specs.Lists.{Some_of};
ghost use Rattle.role_order.specs.Graph.{Graph, AreEdges};
ghost use Rattle.arbac_policy.specs.Truth.{Term};
ghost use Rattle.arbac_policy.specs.Goals.{GoalMet};
ghost use Rattle.arbac_laws.specs.Needs.{Meets, IsPossible};
ghost use Rattle.arbac_laws.specs.Goals.{goal_requirements};

/// Goals as requirements: different users meet the conditions exactly where they meet one of the
/// possible combinations.
pub fn goal_laws()
    ensures { (order : Graph) → AreEdges (length order.names) order.edges → (goal : List Term) (users : List (List ℕ)) →
        GoalMet order.edges goal users ↔
        Some_of (λ needs. IsPossible needs × Meets users needs) (goal_requirements order goal) }
{}
