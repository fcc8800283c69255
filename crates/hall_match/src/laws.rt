//! What a deficient set and a least matching say.

ghost use Rattle.std.specs.Prelude.{ℕ, ◌≡◌, List, Option};
ghost use Rattle.hall_match.specs.Matchings.{IsMatching, IsLeast, IsDeficient};

/// The items of a deficient set can't all be given places: the easy half of Hall's theorem, with
/// capacities.
pub fn deficient_law()
    ensures { (left : ℕ) (capacities : List (Option ℕ)) (edges : List (ℕ × ℕ)) (items list : List ℕ) →
        IsDeficient left capacities edges items → ¬ IsMatching left capacities edges list }
{}

/// There is at most one least matching.
pub fn least_law()
    ensures { (left : ℕ) (capacities : List (Option ℕ)) (edges : List (ℕ × ℕ)) (first second : List ℕ) →
        IsLeast left capacities edges first → IsLeast left capacities edges second → first ≡ second }
{}
