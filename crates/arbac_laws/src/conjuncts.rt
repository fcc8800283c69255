//! The law of conjuncts.

ghost use Rattle.std.specs.Prelude.{ℕ, List, length, ◌↔◌};
ghost use Rattle.list_words.specs.Lists.{Some_of};
ghost use Rattle.role_order.specs.Graph.{Graph, AreEdges};
ghost use Rattle.arbac_policy.specs.Truth.{Term, user, Satisfies};
ghost use Rattle.arbac_laws.specs.Needs.{MeetsNeed};
ghost use Rattle.arbac_laws.specs.Conjuncts.{conjuncts};

/// Who satisfies a condition meets one of its conjuncts, and who meets one satisfies it.
pub fn conjunct_laws()
    ensures { (order : Graph) → AreEdges (length order.names) order.edges → (set : List ℕ) (cond : Term) →
        Satisfies user order.edges set cond ↔ Some_of (λ need. MeetsNeed need set) (conjuncts order cond) }
{}
