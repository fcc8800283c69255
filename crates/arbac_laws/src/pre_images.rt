//! Laws of pre-images: they are exact both ways.

ghost use Rattle.std.specs.Prelude.{ℕ, List, ◌≡◌, ◌⊎◌, length, Some};
ghost use Rattle.list_words.specs.Lists.{IsOneOf};
ghost use Rattle.role_order.specs.Graph.{AreEdges};
ghost use Rattle.arbac_policy.specs.Truth.{user};
ghost use Rattle.arbac_policy.specs.Rules.{Rules};
ghost use Rattle.arbac_policy.specs.Steps.{AssignStep, WeakStep, Step};
ghost use Rattle.arbac_laws.specs.Needs.{Need, Meets, MeetsBy};
ghost use Rattle.arbac_laws.specs.PreImages.{AssignObligation, WeakObligation, assign_pre_image, weak_pre_image, admin_place};
ghost use Rattle.arbac_laws.specs.Obligations.{Obligation, obligations, pre_image, act_of, MeetsPreImage};

/// Where a pre-image is met, the obligation's act can be done, and after it the requirement is met, by
/// users that stand where those of the pre-image stood.
pub fn forward_laws()
    ensures assign { (rules : Rules) → AreEdges (length rules.order.names) rules.order.edges →
        (users : List (List ℕ)) (needs : List Need) (ob : AssignObligation rules needs) (before : Meets users (assign_pre_image ob)) →
        (new : List (List ℕ)) ×
        AssignStep user rules users users (before.to (admin_place ob.pick ob.target (length needs))) (before.to ob.target) ob.role new ×
        MeetsBy new needs before.to }
    ensures weak { (rules : Rules) → AreEdges (length rules.order.names) rules.order.edges →
        (users : List (List ℕ)) (needs : List Need) (ob : WeakObligation rules needs) (before : Meets users (weak_pre_image ob)) →
        (new : List (List ℕ)) ×
        WeakStep user rules users users (before.to (admin_place ob.pick ob.target (length needs))) (before.to ob.target) ob.role new ×
        MeetsBy new needs before.to }
{}

/// A step to a population that meets a requirement starts from one that meets it too, or that meets
/// the pre-image of an obligation.
pub fn backward_laws()
    ensures assign { (rules : Rules) → AreEdges (length rules.order.names) rules.order.edges →
        (old new : List (List ℕ)) (admin target role : ℕ) (needs : List Need) →
        AssignStep user rules old old admin target role new → Meets new needs →
        Meets old needs ⊎ ((ob : AssignObligation rules needs) × Meets old (assign_pre_image ob)) }
    ensures weak { (rules : Rules) → AreEdges (length rules.order.names) rules.order.edges →
        (old new : List (List ℕ)) (admin target role : ℕ) (needs : List Need) →
        WeakStep user rules old old admin target role new → Meets new needs →
        Meets old needs ⊎ ((ob : WeakObligation rules needs) × Meets old (weak_pre_image ob)) }
{}

/// The same of the ordered list of obligations.
pub fn obligation_laws()
    ensures forward { (rules : Rules) → AreEdges (length rules.order.names) rules.order.edges →
        (users : List (List ℕ)) (needs : List Need) (ob : Obligation) → IsOneOf (obligations rules needs) ob →
        (before : List Need) → pre_image rules needs ob ≡ Some before → (old : Meets users before) →
        (new : List (List ℕ)) × Step rules users (act_of ob (length needs) old.to) new × MeetsBy new needs old.to }
    ensures assign { (rules : Rules) → AreEdges (length rules.order.names) rules.order.edges →
        (old new : List (List ℕ)) (admin target role : ℕ) (needs : List Need) →
        AssignStep user rules old old admin target role new → Meets new needs → Meets old needs ⊎ MeetsPreImage rules old needs }
    ensures weak { (rules : Rules) → AreEdges (length rules.order.names) rules.order.edges →
        (old new : List (List ℕ)) (admin target role : ℕ) (needs : List Need) →
        WeakStep user rules old old admin target role new → Meets new needs → Meets old needs ⊎ MeetsPreImage rules old needs }
{}
