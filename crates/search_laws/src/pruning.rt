//! Laws of the pre-images that needn't be made.

ghost use Rattle.std.specs.Prelude.{ℕ, ◌≡◌, ◌<◌, ◌≤◌, ◌⊎◌, ◌++◌, [], ◌∷◌, List, length, slice_get, slice_set, Some};
ghost use Rattle.list_words.specs.Lists.{Each, Some_of};
ghost use Rattle.role_order.specs.Roles.{IsIn, IsWithin, less_roles};
ghost use Rattle.arbac_policy.specs.Rules.{Rules};
ghost use Rattle.arbac_laws.specs.Needs.{Need, CoversNeed, Covers, IsCovered, IsPossible};
ghost use Rattle.arbac_laws.specs.NormalForms.{AreSets, normal_form};
ghost use Rattle.arbac_laws.specs.PreImages.{Pick, IsPick, before_assign, with_admin, itself, other, fresh};
ghost use Rattle.arbac_laws.specs.Recorded.{Entry};
ghost use Rattle.arbac_laws.specs.Rows.{adm, hits, anyone};
ghost use Rattle.search_laws.specs.Candidates.{needs_in};
ghost use Rattle.search_laws.specs.Beats.{Beats};
ghost use Rattle.search_laws.specs.Pruning.{HasHitWithin, IsFree, changed_place, changed_pick};

/// What covers carries over to normal forms: what covers a possible requirement is possible, and its form
/// covers the other's; requirements that cover each other have one form.
pub fn form_cover_laws()
    ensures possible { (a b : List Need) → Covers a b → IsPossible b → IsPossible a }
    ensures forms { (a b form : List Need) → Covers a b → normal_form b ≡ Some form →
        (covering : List Need) × (normal_form a ≡ Some covering) × Covers covering form }
    ensures one { (a b first second : List Need) → Each AreSets a → Each AreSets b → Covers a b → Covers b a →
        normal_form a ≡ Some first → normal_form b ≡ Some second → first ≡ second }
{}

/// Of two acts on one target by one administrator, the one that wants less of both has the pre-image that covers
/// the other's. A target who covers what is wanted of it before makes the parent cover the pre-image. An
/// assignment wants less where it takes all hits that the other takes, and its conjunct and lacks are wanted anyway.
pub fn monotony_laws()
    ensures acts { (needs : List Need) (target : ℕ) (pick : Pick) (first second : Need) (hit less : List ℕ) →
        CoversNeed first second → IsWithin less hit →
        Covers (with_admin pick target hit (slice_set needs target first)) (with_admin pick target less (slice_set needs target second)) }
    ensures parent { (needs : List Need) (target : ℕ) (pick : Pick) (need before : Need) (hit : List ℕ) →
        slice_get needs target ≡ Some need → CoversNeed need before → Covers needs (with_admin pick target hit (slice_set needs target before)) }
    ensures assign { (rules : Rules) (need a b first second : Need) (given role : ℕ) →
        before_assign rules a given need ≡ Some first → before_assign rules b role need ≡ Some second →
        Each (λ hit. IsIn hit role → IsIn hit given) need.hits →
        Each (λ hit. Some_of (λ other. IsWithin (less_roles other second.lacks) hit) second.hits) a.hits →
        IsWithin first.lacks second.lacks → CoversNeed first second }
{}

/// A user who has a hit within the administrator's already is as good an administrator as any: its pre-image
/// covers those of all others, and isn't covered by that of one who has none.
pub fn admin_laws()
    ensures free { (needs : List Need) (target : ℕ) (hit : List ℕ) (free pick : Pick) → IsFree hit free target needs →
        Covers (with_admin free target hit needs) (with_admin pick target hit needs) }
    ensures apart { (needs : List Need) (target : ℕ) (hit : List ℕ) (free pick : Pick) → IsFree hit free target needs →
        target < length needs → IsPick pick target (length needs) → ¬ IsFree hit pick target needs →
        ¬ Covers (with_admin pick target hit needs) (with_admin free target hit needs) }
{}

/// Equal users as targets, or as other administrators, have pre-images that cover each other.
pub fn alike_laws()
    ensures targets { (needs : List Need) (i j : ℕ) (need before : Need) (hit : List ℕ) (pick : Pick) →
        slice_get needs i ≡ Some need → slice_get needs j ≡ Some need →
        Covers (with_admin pick i hit (slice_set needs i before)) (with_admin (changed_pick i j pick) j hit (slice_set needs j before)) }
    ensures admins { (needs : List Need) (target i j : ℕ) (need : Need) (hit : List ℕ) →
        slice_get needs i ≡ Some need → slice_get needs j ≡ Some need →
        Covers (with_admin (other i) target hit needs) (with_admin (other j) target hit needs) }
{}

/// What was covered before a round stays covered, so that a candidate of an earlier round may be left out. A
/// pre-image that covers another of the round has the form that beats the other's, where it isn't covered by it
/// or stands before it.
pub fn left_out_laws()
    ensures seen { (barriers : List (List Need)) (recorded more : List Entry) (needs : List Need) →
        IsCovered (barriers ++ needs_in recorded) needs → IsCovered (barriers ++ needs_in (recorded ++ more)) needs }
    ensures beaten { (candidates : List Entry) (i j : ℕ) (by entry : Entry) (a b : List Need) →
        slice_get candidates i ≡ Some by → slice_get candidates j ≡ Some entry →
        normal_form a ≡ Some by.needs → normal_form b ≡ Some entry.needs → Covers a b → ¬ Covers b a ⊎ (i < j) → Beats candidates i j }
{}

/// What a cover test may ask first: a hit within a set, a lack and a user have their like in whatever is covered,
/// which has at least as many users.
pub fn mark_laws()
    ensures hits { (set : List ℕ) (a b : Need) → CoversNeed a b → HasHitWithin set a → HasHitWithin set b }
    ensures lacks { (role : ℕ) (a b : Need) → CoversNeed a b → IsIn a.lacks role → IsIn b.lacks role }
    ensures some_hits { (set : List ℕ) (a b : List Need) → Covers a b →
        Some_of (λ need. HasHitWithin set need) a → Some_of (λ need. HasHitWithin set need) b }
    ensures some_lacks { (role : ℕ) (a b : List Need) → Covers a b →
        Some_of (λ (need : Need). IsIn need.lacks role) a → Some_of (λ (need : Need). IsIn need.lacks role) b }
    ensures users { (a b : List Need) → Covers a b → Each (λ need. Some_of (CoversNeed need) b) a }
    ensures fewer { (a b : List Need) → Covers a b → length a ≤ length b }
{}

/// Beside a user with adm no other administrator is needed; who has no such hit, or is new, isn't one already.
pub fn free_rows()
    ensures free { IsFree (adm ∷ []) (other 1) 0 (anyone ∷ hits adm ∷ []) }
    ensures target { ¬ IsFree (adm ∷ []) itself 0 (anyone ∷ hits adm ∷ []) }
    ensures newcomer { ¬ IsFree (adm ∷ []) fresh 0 (anyone ∷ hits adm ∷ []) }
    ensures changed { changed_place 0 1 0 ≡ 1 }
    ensures back { changed_place 0 1 1 ≡ 0 }
    ensures still { changed_place 0 1 2 ≡ 2 }
{}
