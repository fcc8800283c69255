//! Laws of normal forms.

ghost use Rattle.std.specs.Prelude.{ℕ, List, get_or, ◌≡◌, ◌↔◌, ◌⊎◌, Some, None};
ghost use Rattle.list_words.specs.Lists.{Each};
ghost use Rattle.arbac_laws.specs.Orders.{need_before};
ghost use Rattle.arbac_laws.specs.Needs.{Need, Meets, MeetsBy, Covers, IsCovered, IsPossible};
ghost use Rattle.arbac_laws.specs.NormalForms.{normal_form, normal_need, IsNormal, AreSets, AreFormPlaces};
ghost use Rattle.list_words.specs.Orders.{AreSorted};
ghost use Rattle.list_words.specs.Places.{ArePlaces};

/// The normal form of a requirement covers it and is covered by it, and is its own normal form; there
/// is none exactly where the requirement is impossible, which is decided, and where there is one both
/// are possible; a list covers the one exactly where it covers the other; cover in both directions
/// makes two normal forms equal. Where places say to which users of the normal form those of the
/// requirement went, a population that meets the form meets the requirement by these places.
pub fn normal_laws()
    ensures covers { (needs form : List Need) → normal_form needs ≡ Some form → Covers needs form × Covers form needs }
    ensures none { (needs : List Need) → (normal_form needs ≡ None) ↔ ¬ IsPossible needs }
    ensures decided { (needs : List Need) → IsPossible needs ⊎ ¬ IsPossible needs }
    ensures possible { (needs form : List Need) → normal_form needs ≡ Some form → IsPossible needs × IsPossible form }
    ensures normal { (needs form : List Need) → Each AreSets needs → normal_form needs ≡ Some form → IsNormal form }
    ensures fixed { (form : List Need) → IsNormal form → normal_form form ≡ Some form }
    ensures covered { (list : List (List Need)) (needs form : List Need) → normal_form needs ≡ Some form →
        IsCovered list needs ↔ IsCovered list form }
    ensures placed { (users : List (List ℕ)) (needs form : List Need) (places : List ℕ) →
        ArePlaces (λ need one. normal_need need ≡ one) needs form places →
        (met : Meets users form) → MeetsBy users needs (λ i. met.to (get_or places i 0)) }
    ensures same { (a b : List Need) → IsNormal a → IsNormal b → Covers a b → Covers b a → a ≡ b }
{}

/// Each possible requirement has places in its normal form, and these alone; a sorted list in which it
/// has such places is its normal form.
pub fn form_place_laws()
    ensures some { (needs form : List Need) → normal_form needs ≡ Some form →
        (places : List ℕ) × AreFormPlaces needs form places }
    ensures one { (needs form : List Need) (a b : List ℕ) → AreFormPlaces needs form a → AreFormPlaces needs form b → a ≡ b }
    ensures sorted { (needs form : List Need) (places : List ℕ) → IsPossible needs → AreSorted need_before form →
        AreFormPlaces needs form places → normal_form needs ≡ Some form }
{}
