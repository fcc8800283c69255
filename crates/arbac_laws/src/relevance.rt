//! Laws of what can matter for a goal.

ghost use Rattle.std.specs.Prelude.{List, length};
ghost use Rattle.list_words.specs.Lists.{Each, IsOneOf};
ghost use Rattle.role_order.specs.Graph.{AreEdges};
ghost use Rattle.arbac_policy.specs.Truth.{Term};
ghost use Rattle.arbac_policy.specs.Rules.{Rules};
ghost use Rattle.arbac_laws.specs.Needs.{Need};
ghost use Rattle.arbac_laws.specs.Obligations.{Obligation, obligations};
ghost use Rattle.arbac_laws.specs.Relevance.{Slice, HasNeed, IsClosedSlice, IsRelevance, IsPart, IsRelevant, IsDerived};

/// Whatever is derived from a goal wants and bars roles of its slice alone, and each of its obligations
/// names a rule of the slice. Two least slices have the same roles and rules.
pub fn relevance_laws()
    ensures needs { (rules : Rules) → AreEdges (length rules.order.names) rules.order.edges →
        (goal : List Term) (slice : Slice) → IsClosedSlice rules goal slice →
        (needs : List Need) → IsDerived rules goal needs → Each (HasNeed slice) needs }
    ensures obligations { (rules : Rules) → AreEdges (length rules.order.names) rules.order.edges →
        (goal : List Term) (slice : Slice) → IsClosedSlice rules goal slice →
        (needs : List Need) → IsDerived rules goal needs →
        (ob : Obligation) → IsOneOf (obligations rules needs) ob → IsRelevant slice ob }
    ensures one { (rules : Rules) (goal : List Term) (a b : Slice) →
        IsRelevance rules goal a → IsRelevance rules goal b → IsPart a b × IsPart b a }
{}
