//! Laws of the list of obligations.

ghost use Rattle.std.specs.Prelude.{ℕ, List, length, slice_get, ◌≡◌, ◌<◌, ◌↔◌, Some, true};
ghost use Rattle.list_words.specs.Lists.{IsOneOf, AreDifferent};
ghost use Rattle.list_words.specs.Orders.{IsTotalOrder, AreRising};
ghost use Rattle.role_order.specs.Graph.{AreEdges};
ghost use Rattle.arbac_policy.specs.Rules.{Rules};
ghost use Rattle.arbac_laws.specs.Needs.{Need};
ghost use Rattle.arbac_laws.specs.Obligations.{Obligation, obligations};
ghost use Rattle.arbac_laws.specs.Listings.{IsObligation, obligation_before};

/// The list has each obligation of the requirement, no other, none twice, and an earlier one at a lesser
/// place.
pub fn listing_laws()
    ensures listed { (rules : Rules) → AreEdges (length rules.order.names) rules.order.edges → (needs : List Need) (ob : Obligation) →
        IsOneOf (obligations rules needs) ob ↔ IsObligation rules needs ob }
    ensures different { (rules : Rules) (needs : List Need) → AreDifferent (obligations rules needs) }
    ensures order { IsTotalOrder obligation_before }
    ensures rising { (rules : Rules) (needs : List Need) → AreRising obligation_before (obligations rules needs) }
    ensures places { (rules : Rules) (needs : List Need) (i j : ℕ) (a b : Obligation) →
        slice_get (obligations rules needs) i ≡ Some a → slice_get (obligations rules needs) j ≡ Some b →
        obligation_before a b ≡ true → i < j }
{}
