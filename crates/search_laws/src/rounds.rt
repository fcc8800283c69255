//! Laws of rounds.

ghost use Rattle.std.specs.Prelude.{ℕ, ◌≡◌, ◌+◌, ◌<◌, ◌≤◌, ◌++◌, List, length, min};
ghost use Rattle.list_words.specs.Lists.{Each};
ghost use Rattle.role_order.specs.Graph.{AreEdges};
ghost use Rattle.arbac_policy.specs.Rules.{Rules};
ghost use Rattle.arbac_policy.specs.Truth.{Term};
ghost use Rattle.arbac_laws.specs.Needs.{IsCovered};
ghost use Rattle.arbac_laws.specs.NormalForms.{IsNormal};
ghost use Rattle.arbac_laws.specs.Recorded.{Entry};
ghost use Rattle.search_laws.specs.Candidates.{goal_candidates, next_candidates, needs_in, batch};
ghost use Rattle.search_laws.specs.Rounds.{Search, Outcome, goes_on, Walks, Round, IsOutcome};

/// Candidates are in normal form; after a round that goes on each of its candidates is covered by a
/// barrier or a recorded entry; a round keeps what is recorded, within the limit, and takes some that
/// weren't taken; a search has one outcome at most.
pub fn round_laws()
    ensures goals { (rules : Rules) (goal : List Term) → Each (λ (entry : Entry). IsNormal entry.needs) (goal_candidates rules goal) }
    ensures pre_images { (rules : Rules) → AreEdges (length rules.order.names) rules.order.edges → (recorded : List Entry) (taken : ℕ) →
        Each (λ (entry : Entry). IsNormal entry.needs) recorded →
        Each (λ (entry : Entry). IsNormal entry.needs) (next_candidates rules recorded taken) }
    ensures covered { (s : Search) (recorded candidates more : List Entry) → Each (λ (entry : Entry). IsNormal entry.needs) candidates →
        Round s recorded candidates (goes_on more) → Each (λ (entry : Entry). IsCovered (s.barriers ++ needs_in more) entry.needs) candidates }
    ensures kept { (s : Search) (recorded entries more : List Entry) → Walks s recorded entries (goes_on more) → more ≡ recorded ++ entries }
    ensures within { (s : Search) (recorded entries more : List Entry) → length recorded ≤ s.limit → Walks s recorded entries (goes_on more) → length more ≤ s.limit }
    ensures further { (recorded : List Entry) (taken : ℕ) → taken < length recorded → taken < min (taken + batch) (length recorded) }
    ensures one { (s : Search) (first second : Outcome) → IsOutcome s first → IsOutcome s second → first ≡ second }
{}
