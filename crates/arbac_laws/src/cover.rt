//! Laws of cover.

ghost use Rattle.std.specs.Prelude.{ℕ, List};
ghost use Rattle.list_words.specs.Lists.{Some_of};
ghost use Rattle.arbac_laws.specs.Needs.{Need, Meets, Covers, IsCovered, IsPossible};

/// Cover is reflexive and transitive; where something covered is met, so is what covers it; what a
/// population meets is possible.
pub fn cover_laws()
    ensures itself { (needs : List Need) → Covers needs needs }
    ensures transitive { (a b c : List Need) → Covers a b → Covers b c → Covers a c }
    ensures met { (users : List (List ℕ)) (a b : List Need) → Covers a b → Meets users b → Meets users a }
    ensures list { (users : List (List ℕ)) (list : List (List Need)) (needs : List Need) →
        IsCovered list needs → Meets users needs → Some_of (λ one. Meets users one) list }
    ensures possible { (users : List (List ℕ)) (needs : List Need) → Meets users needs → IsPossible needs }
{}
