//! Laws of maps as lists of places.

ghost use Rattle.std.specs.Prelude.{ℕ, List, ◌↔◌};
ghost use Rattle.arbac_laws.specs.Needs.{Need, MeetsNeed, Meets, CoversNeed, Covers};
ghost use Rattle.list_words.specs.Places.{ArePlaces, AreDeficient};

/// A population meets a requirement, or a requirement covers another, exactly where a list of places
/// says so.
pub fn place_laws()
    ensures meets { (users : List (List ℕ)) (needs : List Need) →
        Meets users needs ↔ ((places : List ℕ) × ArePlaces MeetsNeed needs users places) }
    ensures covers { (a b : List Need) → Covers a b ↔ ((places : List ℕ) × ArePlaces CoversNeed a b places) }
{}

/// User requirements that go with fewer users than they are aren't met together, and likewise for
/// cover.
pub fn deficient_laws()
    ensures meets { (users : List (List ℕ)) (needs : List Need) (items among : List ℕ) →
        AreDeficient MeetsNeed needs users items among → ¬ Meets users needs }
    ensures covers { (a b : List Need) (items among : List ℕ) → AreDeficient CoversNeed a b items among → ¬ Covers a b }
{}
