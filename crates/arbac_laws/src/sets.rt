//! Laws of hits and lacks as lists.

ghost use Rattle.std.specs.Prelude.{List, length, ◌≡◌, Some};
ghost use Rattle.list_words.specs.Lists.{Each, IsOneOf};
ghost use Rattle.role_order.specs.Graph.{Graph, AreEdges};
ghost use Rattle.arbac_policy.specs.Truth.{Term};
ghost use Rattle.arbac_policy.specs.Rules.{Rules};
ghost use Rattle.arbac_laws.specs.Needs.{Need};
ghost use Rattle.arbac_laws.specs.Conjuncts.{conjuncts};
ghost use Rattle.arbac_laws.specs.Goals.{goal_requirements};
ghost use Rattle.arbac_laws.specs.Obligations.{Obligation, obligations, pre_image};
ghost use Rattle.arbac_laws.specs.NormalForms.{AreSets};

/// Hits and lacks of conjuncts, goal requirements and pre-images are strictly rising lists.
pub fn set_laws()
    ensures conjuncts { (order : Graph) (cond : Term) → Each AreSets (conjuncts order cond) }
    ensures goals { (order : Graph) (goal : List Term) → Each (Each AreSets) (goal_requirements order goal) }
    ensures pre_images { (rules : Rules) → AreEdges (length rules.order.names) rules.order.edges →
        (needs : List Need) → Each AreSets needs → (ob : Obligation) → IsOneOf (obligations rules needs) ob →
        (before : List Need) → pre_image rules needs ob ≡ Some before → Each AreSets before }
{}
