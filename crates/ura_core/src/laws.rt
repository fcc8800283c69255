//! Laws on steps.

ghost use Rattle.std.specs.Prelude.{ℕ, ◌≡◌, ◌↔◌, List, length, slice_get, slice_set, Some};
ghost use Rattle.role_order.specs.Graph.{Leads, AreEdges};
ghost use Rattle.role_order.specs.Roles.{IsIn};
ghost use Rattle.arbac_policy.specs.Truth.{user};
ghost use Rattle.arbac_policy.specs.Rules.{Rules};
ghost use Rattle.arbac_policy.specs.Steps.{StrongStep};

/// A strong revocation leaves the target the roles that aren't the named one or above it, and all others as
/// they were.
pub fn strong_revocation_law()
    ensures { (rules : Rules) (old new : List (List ℕ)) (admin target role : ℕ) → AreEdges (length rules.order.names) rules.order.edges →
        (step : StrongStep user rules old old admin target role new) →
        (left : List ℕ) × (new ≡ slice_set old target left)
        × ((held : ℕ) → IsIn left held ↔ (IsIn step.set held × ¬ Leads rules.order.edges held role)) }
{}
