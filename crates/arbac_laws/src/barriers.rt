//! Laws of barriers.

ghost use Rattle.std.specs.Prelude.{ℕ, List, length, ◌≡◌, ◌↔◌, Some, true};
ghost use Rattle.list_words.specs.Lists.{IsOneOf, Some_of};
ghost use Rattle.role_order.specs.Roles.{IsWithin};
ghost use Rattle.role_order.specs.Graph.{Graph, AreEdges};
ghost use Rattle.arbac_policy.specs.declared.profile.Profile.{Profile};
ghost use Rattle.arbac_policy.specs.Truth.{Term};
ghost use Rattle.arbac_policy.specs.Rules.{Rules, IsPolicy};
ghost use Rattle.arbac_laws.specs.Needs.{Need, HasHits, IsCovered};
ghost use Rattle.arbac_laws.specs.Conjuncts.{conjuncts};
ghost use Rattle.arbac_laws.specs.Obligations.{Obligation, obligations, pre_image};
ghost use Rattle.arbac_laws.specs.Closed.{IsUnmet};
ghost use Rattle.arbac_laws.specs.Barriers.{HasGains, HasGivenRoles, may_hold, IsCeiling, barriers};

/// Outside any set that has what is drawn and what the rules give, so also outside the ceiling,
/// barriers are closed under pre-images up to cover, and no users that can be drawn meet one. Two ceilings
/// have the same roles.
pub fn barrier_laws()
    ensures closed { (rules : Rules) → AreEdges (length rules.order.names) rules.order.edges → IsPolicy rules →
        (profiles : List Profile) (set : List ℕ) → HasGains rules profiles set →
        (needs : List Need) → IsOneOf (barriers (length rules.order.names) set) needs →
        (ob : Obligation) → IsOneOf (obligations rules needs) ob →
        (before : List Need) → pre_image rules needs ob ≡ Some before →
        IsCovered (barriers (length rules.order.names) set) before }
    ensures ceiling { (rules : Rules) (profiles : List Profile) (a b : List ℕ) →
        IsCeiling rules profiles a → IsCeiling rules profiles b → IsWithin a b × IsWithin b a }
    ensures unmet { (rules : Rules) (profiles : List Profile) (set : List ℕ) → HasGains rules profiles set →
        (needs : List Need) → IsOneOf (barriers (length rules.order.names) set) needs → IsUnmet profiles needs }
{}

/// A condition may hold exactly where the set has a role of each hit of a conjunct, so that what the rules
/// give is computed without conjuncts.
pub fn gain_laws()
    ensures holds { (order : Graph) (set : List ℕ) (cond : Term) →
        (may_hold order set cond ≡ true) ↔ Some_of (λ conjunct. HasHits set conjunct.hits) (conjuncts order cond) }
    ensures gains { (rules : Rules) (profiles : List Profile) (set : List ℕ) →
        HasGains rules profiles set ↔ HasGivenRoles rules profiles set }
{}
