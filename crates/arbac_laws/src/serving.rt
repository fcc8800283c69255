//! Laws of profiles that serve requirements.

ghost use Rattle.std.specs.Prelude.{ℕ, List, ◌≡◌, ◌↔◌};
ghost use Rattle.arbac_policy.specs.declared.profile.Profile.{Profile};
ghost use Rattle.arbac_policy.specs.Goals.{IsDrawn};
ghost use Rattle.arbac_laws.specs.Needs.{Need, Meets};
ghost use Rattle.arbac_laws.specs.Closed.{IsUnmet};
ghost use Rattle.arbac_laws.specs.Serving.{Serves, ServesLeast, AreUnserved};

/// Users that can be drawn meet a requirement exactly where a choice of profiles serves it, and none do
/// where user requirements are more than the users who serve them. There is at most one least choice.
pub fn serving_laws()
    ensures drawn { (profiles : List Profile) (needs : List Need) →
        ((users : List (List ℕ)) × IsDrawn profiles users × Meets users needs) ↔ ((choice : List ℕ) × Serves profiles needs choice) }
    ensures unmet { (profiles : List Profile) (needs : List Need) →
        IsUnmet profiles needs ↔ ((choice : List ℕ) → ¬ Serves profiles needs choice) }
    ensures unserved { (profiles : List Profile) (needs : List Need) (items : List ℕ) →
        AreUnserved profiles needs items → IsUnmet profiles needs }
    ensures least { (profiles : List Profile) (needs : List Need) (first second : List ℕ) →
        ServesLeast profiles needs first → ServesLeast profiles needs second → first ≡ second }
{}
