//! What each outcome of a search shows.

ghost use Rattle.std.specs.Prelude.{ℕ, ◌≡◌, ◌++◌, [], ◌∷◌, List, length, Some};
ghost use Rattle.list_words.specs.Lists.{IsOneOf};
ghost use Rattle.role_order.specs.Graph.{AreEdges};
ghost use Rattle.arbac_policy.specs.declared.act.Act.{Act};
ghost use Rattle.arbac_policy.specs.Steps.{Run};
ghost use Rattle.arbac_policy.specs.Goals.{IsReachable, GoalMet};
ghost use Rattle.arbac_laws.specs.Needs.{Need, IsCovered, IsPossible, MeetsBy};
ghost use Rattle.arbac_laws.specs.Closed.{IsClosedList, IsUnmet};
ghost use Rattle.arbac_laws.specs.Obligations.{Obligation, obligations, pre_image};
ghost use Rattle.arbac_laws.specs.Recorded.{Entry, IsRecordedList};
ghost use Rattle.search_laws.specs.Candidates.{needs_in};
ghost use Rattle.search_laws.specs.Plans.{Plans};
ghost use Rattle.search_laws.specs.Rounds.{Search, found, full, closed, IsOutcome};

/// A closed search: barriers that are closed under pre-images and met by none, with the recorded
/// requirements, are a closed list, so no run from a drawn population of any size meets the goal.
pub fn closed_outcome_laws()
    ensures list { (s : Search) → AreEdges (length s.rules.order.names) s.rules.order.edges →
        ((needs : List Need) → IsOneOf s.barriers needs → (ob : Obligation) → IsOneOf (obligations s.rules needs) ob →
        (before : List Need) → pre_image s.rules needs ob ≡ Some before → IsPossible before → IsCovered s.barriers before) →
        ((needs : List Need) → IsOneOf s.barriers needs → IsUnmet s.profiles needs) →
        (recorded : List Entry) → IsOutcome s (closed recorded) →
        IsClosedList s.rules s.profiles s.goal (s.barriers ++ needs_in recorded) }
    ensures unreachable { (s : Search) → AreEdges (length s.rules.order.names) s.rules.order.edges →
        ((needs : List Need) → IsOneOf s.barriers needs → (ob : Obligation) → IsOneOf (obligations s.rules needs) ob →
        (before : List Need) → pre_image s.rules needs ob ≡ Some before → IsPossible before → IsCovered s.barriers before) →
        ((needs : List Need) → IsOneOf s.barriers needs → IsUnmet s.profiles needs) →
        (recorded : List Entry) → IsOutcome s (closed recorded) → ¬ IsReachable s.rules s.profiles s.goal }
{}

/// A full search: as many entries as the limit were recorded, and with the next one they are a recorded
/// list, so that no requirement stands in it twice.
pub fn full_outcome_laws()
    ensures limit { (s : Search) (recorded : List Entry) (next : Entry) → IsOutcome s (full recorded next) → length recorded ≡ s.limit }
    ensures list { (s : Search) → AreEdges (length s.rules.order.names) s.rules.order.edges →
        (recorded : List Entry) (next : Entry) → IsOutcome s (full recorded next) →
        IsRecordedList s.rules s.profiles s.goal (recorded ++ next ∷ []) }
{}

/// A found entry: its origins back to the goal give a plan for users who meet it where they stand, and
/// the plan is a run to users who meet the goal.
pub fn found_outcome_laws()
    ensures plan { (s : Search) → AreEdges (length s.rules.order.names) s.rules.order.edges →
        (recorded : List Entry) (entry : Entry) → IsOutcome s (found recorded entry) →
        (to : ℕ → ℕ) → (acts : List Act) × Plans s.rules recorded entry to acts }
    ensures one { (s : Search) (recorded : List Entry) (entry : Entry) (to : ℕ → ℕ) (first second : List Act) →
        Plans s.rules recorded entry to first → Plans s.rules recorded entry to second → first ≡ second }
    ensures run { (s : Search) → AreEdges (length s.rules.order.names) s.rules.order.edges →
        (recorded : List Entry) (entry : Entry) → IsOutcome s (found recorded entry) →
        (users : List (List ℕ)) (to : ℕ → ℕ) → MeetsBy users entry.needs to →
        (acts : List Act) → Plans s.rules recorded entry to acts →
        (end : List (List ℕ)) × Run s.rules users acts end × GoalMet s.rules.order.edges s.goal end }
    ensures reachable { (s : Search) → AreEdges (length s.rules.order.names) s.rules.order.edges →
        (recorded : List Entry) (entry : Entry) → IsOutcome s (found recorded entry) → IsReachable s.rules s.profiles s.goal }
{}
