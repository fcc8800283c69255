//! Laws of beating.

ghost use Rattle.std.specs.Prelude.{ℕ, ◌≡◌, ◌↔◌, List, slice_get, Some};
ghost use Rattle.list_words.specs.Lists.{Each};
ghost use Rattle.arbac_laws.specs.Needs.{Need, Covers, IsCovered};
ghost use Rattle.arbac_laws.specs.NormalForms.{IsNormal};
ghost use Rattle.arbac_laws.specs.Recorded.{Entry};
ghost use Rattle.search_laws.specs.Beats.{Beats, IsUnbeaten, AreUnbeaten, ArePart, MayLeaveOut};

/// Beating is a strict order on the candidates of a round that are in normal form; each new candidate
/// is covered by one that is new and unbeaten; there is one list of the unbeaten ones.
pub fn beats_laws()
    ensures never { (candidates : List Entry) (i : ℕ) → ¬ Beats candidates i i }
    ensures through { (candidates : List Entry) → Each (λ (entry : Entry). IsNormal entry.needs) candidates →
        (i j k : ℕ) → Beats candidates i j → Beats candidates j k → Beats candidates i k }
    ensures covered { (known : List (List Need)) (candidates : List Entry) → Each (λ (entry : Entry). IsNormal entry.needs) candidates →
        (place : ℕ) (entry : Entry) → slice_get candidates place ≡ Some entry → ¬ IsCovered known entry.needs →
        (by : Entry) × (at : ℕ) × IsUnbeaten known candidates at by × Covers by.needs entry.needs }
    ensures one { (known : List (List Need)) (candidates first second : List Entry) →
        AreUnbeaten known candidates first → AreUnbeaten known candidates second → first ≡ second }
{}

/// Where only covered and beaten candidates are left out, the unbeaten ones stay the same.
pub fn part_laws()
    ensures { (known : List (List Need)) (candidates some list : List Entry) → Each (λ (entry : Entry). IsNormal entry.needs) candidates →
        (part : ArePart some candidates) → MayLeaveOut known candidates some part →
        AreUnbeaten known some list ↔ AreUnbeaten known candidates list }
{}
