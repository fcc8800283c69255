//! Laws of recorded lists.

ghost use Rattle.std.specs.Prelude.{ℕ, List, length, take, slice_get, ◌≡◌, ◌<◌, Some};
ghost use Rattle.role_order.specs.Graph.{AreEdges};
ghost use Rattle.arbac_policy.specs.declared.profile.Profile.{Profile};
ghost use Rattle.arbac_policy.specs.Truth.{Term};
ghost use Rattle.arbac_policy.specs.Rules.{Rules};
ghost use Rattle.arbac_laws.specs.Needs.{Covers};
ghost use Rattle.arbac_laws.specs.NormalForms.{IsNormal};
ghost use Rattle.arbac_laws.specs.Recorded.{Entry, IsRecordedList};

/// Each entry of a recorded list is in normal form, none covers a later one, no requirement is
/// recorded twice, and what is recorded first is a recorded list.
pub fn recorded_laws()
    ensures normal { (rules : Rules) → AreEdges (length rules.order.names) rules.order.edges →
        (profiles : List Profile) (goal : List Term) (list : List Entry) → IsRecordedList rules profiles goal list →
        (place : ℕ) (entry : Entry) → slice_get list place ≡ Some entry → IsNormal entry.needs }
    ensures uncovered { (rules : Rules) (profiles : List Profile) (goal : List Term) (list : List Entry) →
        IsRecordedList rules profiles goal list → (i j : ℕ) (a b : Entry) →
        slice_get list i ≡ Some a → slice_get list j ≡ Some b → i < j → ¬ Covers a.needs b.needs }
    ensures different { (rules : Rules) (profiles : List Profile) (goal : List Term) (list : List Entry) →
        IsRecordedList rules profiles goal list → (i j : ℕ) (a b : Entry) →
        slice_get list i ≡ Some a → slice_get list j ≡ Some b → a.needs ≡ b.needs → i ≡ j }
    ensures front { (rules : Rules) (profiles : List Profile) (goal : List Term) (list : List Entry) (n : ℕ) →
        IsRecordedList rules profiles goal list → IsRecordedList rules profiles goal (take n list) }
{}
