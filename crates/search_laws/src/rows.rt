//! The small policy, searched, and smaller ones.

ghost use Rattle.std.specs.Prelude.{ℕ, List, [], ◌∷◌, ◌≡◌};
ghost use Rattle.arbac_policy.specs.Truth.{any, has, both};
ghost use Rattle.arbac_policy.specs.declared.act.Act.{Act};
ghost use Rattle.arbac_policy.specs.declared.act.ActKind.TheVariants.{Assign, Weak};
ghost use Rattle.arbac_laws.specs.Barriers.{barriers};
ghost use Rattle.arbac_laws.specs.Rows.{mix, adm, c, d, hits, hits_both, hits_either, anyone, one_admin, two_admins, mix_needs, mix_entries, pair_policy};
ghost use Rattle.arbac_laws.specs.Serving.{Serves, ServesLeast};
ghost use Rattle.search_laws.specs.Candidates.{batch, goal_candidates, next_candidates, needs_in};
ghost use Rattle.search_laws.specs.Beats.{Beats, AreUnbeaten, ArePart, MayLeaveOut};
ghost use Rattle.search_laws.specs.Plans.{Plans};
ghost use Rattle.search_laws.specs.Rounds.{Walks, ComesTo, IsOutcome, found, full, closed, goes_on};
ghost use Rattle.search_laws.specs.Rows.{mix_search, goal_entry, given_entry, taken_entry, third_round, three_entries, again_entry, adm_entry};
ghost use Rattle.search_laws.specs.Rows.{search_of, goal_of, takes, gift_policy, own_gift, a, b, one_role, two_roles, no_user, one_user, any_number};
ghost use Rattle.search_laws.specs.Rows.{three_users, three_needs, free_policy, both_entries, both_gift};

/// The candidates of each round, which takes at most 64 parents.
pub fn candidate_rows()
    ensures first { goal_candidates mix (has c ∷ []) ≡ goal_entry ∷ [] }
    ensures second { next_candidates mix (goal_entry ∷ []) 0 ≡ given_entry ∷ [] }
    ensures third { next_candidates mix mix_entries 1 ≡ third_round }
    ensures fourth { next_candidates mix three_entries 2 ≡ [] }
    ensures all_taken { next_candidates mix mix_entries 2 ≡ [] }
    ensures so_many { batch ≡ 64 }
{}

/// Of the third round the requirement with fewer wants covers the two others, which don't cover it; of two that
/// are one the earlier stays; what is known covers is none of them; and the list goes by the order of requirements.
pub fn beat_rows()
    ensures own { Beats third_round 1 0 }
    ensures third { Beats third_round 1 2 }
    ensures back { ¬ Beats third_round 0 1 }
    ensures itself { ¬ Beats third_round 1 1 }
    ensures earlier { Beats (goal_entry ∷ again_entry ∷ []) 0 1 }
    ensures later { ¬ Beats (goal_entry ∷ again_entry ∷ []) 1 0 }
    ensures one { AreUnbeaten [] third_round (taken_entry ∷ []) }
    ensures none { ¬ AreUnbeaten [] third_round [] }
    ensures known { ¬ AreUnbeaten ((anyone ∷ hits adm ∷ []) ∷ []) third_round (taken_entry ∷ []) }
    ensures sorted { AreUnbeaten [] (goal_entry ∷ adm_entry ∷ []) (adm_entry ∷ goal_entry ∷ []) }
    ensures unsorted { ¬ AreUnbeaten [] (goal_entry ∷ adm_entry ∷ []) (goal_entry ∷ adm_entry ∷ []) }
    ensures left_out { (part : ArePart [] (goal_entry ∷ [])) → ¬ MayLeaveOut [] (goal_entry ∷ []) [] part }
{}

/// With two users of adm to start from, the third requirement is met, and its plan takes adm away from the one,
/// to whom the other gives c; a plan isn't shorter. While something is left to take, nothing is closed.
pub fn found_rows()
    ensures found { IsOutcome (mix_search two_admins 4096) (found mix_entries taken_entry) }
    ensures plan { (to : ℕ → ℕ) → Plans mix mix_entries taken_entry to (
        record { kind = Weak; admin = to 1; target = to 0; role = adm } ∷
        record { kind = Assign; admin = to 1; target = to 0; role = c } ∷ []) }
    ensures shorter { (to : ℕ → ℕ) → ¬ Plans mix mix_entries taken_entry to [] }
    ensures not_closed { ¬ ComesTo (mix_search two_admins 4096) 0 mix_entries 1 (closed mix_entries) }
    ensures not_recorded { ¬ IsOutcome (mix_search two_admins 4096) (closed three_entries) }
{}

/// With one user of adm to start from, none of them is met, and the search is closed.
pub fn closed_rows()
    ensures closed { IsOutcome (mix_search one_admin 4096) (closed three_entries) }
    ensures needs { needs_in three_entries ≡ mix_needs }
    ensures not_found { ¬ IsOutcome (mix_search one_admin 4096) (found mix_entries taken_entry) }
{}

/// Where one entry may be recorded, the search is full with the second requirement, which isn't recorded.
pub fn full_rows()
    ensures full { IsOutcome (mix_search two_admins 1) (full (goal_entry ∷ []) given_entry) }
    ensures not_recorded { ¬ Walks (mix_search two_admins 1) (goal_entry ∷ []) (given_entry ∷ []) (goes_on mix_entries) }
{}

/// Without profiles the barrier has all roles, so that it covers the goal: the search is closed with nothing recorded.
pub fn no_profile_rows()
    ensures barrier { barriers 2 [] ≡ (hits_either adm c ∷ []) ∷ [] }
    ensures closed { IsOutcome (search_of gift_policy [] (has c ∷ []) ((hits_either adm c ∷ []) ∷ [])) (closed []) }
    ensures not_recorded { ¬ IsOutcome (search_of gift_policy [] (has c ∷ []) ((hits_either adm c ∷ []) ∷ [])) (closed (goal_entry ∷ [])) }
{}

/// From a profile of no user not even anyone at all is drawn; the barrier doesn't cover that goal, which is recorded.
pub fn no_user_rows()
    ensures barrier { barriers 1 [] ≡ (hits a ∷ []) ∷ [] }
    ensures closed { IsOutcome (search_of one_role no_user (any ∷ []) ((hits a ∷ []) ∷ [])) (closed (goal_of (anyone ∷ []) ∷ [])) }
    ensures not_empty { ¬ IsOutcome (search_of one_role no_user (any ∷ []) ((hits a ∷ []) ∷ [])) (closed []) }
{}

/// From a profile of any number of users the goal is met at once, and its plan has no act.
pub fn any_number_rows()
    ensures found { IsOutcome (search_of one_role any_number (has a ∷ []) []) (found [] (goal_of (hits a ∷ []))) }
    ensures plan { (to : ℕ → ℕ) → Plans one_role [] (goal_of (hits a ∷ [])) to [] }
    ensures longer { (to : ℕ → ℕ) (act : Act) (acts : List Act) → ¬ Plans one_role [] (goal_of (hits a ∷ [])) to (act ∷ acts) }
    ensures not_closed { ¬ IsOutcome (search_of one_role any_number (has a ∷ []) []) (closed (goal_of (hits a ∷ []) ∷ [])) }
{}

/// The one user with adm gives himself c: this covers the gift by a new user, and is one act.
pub fn own_gift_rows()
    ensures found { IsOutcome (search_of gift_policy one_admin (has c ∷ []) []) (found (goal_entry ∷ []) own_gift) }
    ensures plan { Plans gift_policy (goal_entry ∷ []) own_gift (λ user. user) (takes c ∷ []) }
    ensures shorter { ¬ Plans gift_policy (goal_entry ∷ []) own_gift (λ user. user) [] }
    ensures not_closed { ¬ IsOutcome (search_of gift_policy one_admin (has c ∷ []) []) (closed (goal_entry ∷ [])) }
{}

/// One user doesn't meet two goals: their requirement of two users is recorded, and no rule gives a role.
pub fn two_goal_rows()
    ensures closed { IsOutcome (search_of one_role one_user (has a ∷ has a ∷ []) []) (closed (goal_of (hits a ∷ hits a ∷ []) ∷ [])) }
    ensures not_empty { ¬ IsOutcome (search_of one_role one_user (has a ∷ has a ∷ []) []) (closed []) }
    ensures not_found { ¬ IsOutcome (search_of one_role one_user (has a ∷ has a ∷ []) []) (found [] (goal_of (hits a ∷ hits a ∷ []))) }
{}

/// Three goals, in whatever order, are one requirement; its last user wants the profile of both roles, so that the others have the second.
pub fn least_choice_rows()
    ensures found { IsOutcome (search_of two_roles three_users (has a ∷ has a ∷ has b ∷ []) []) (found [] (goal_of three_needs)) }
    ensures sorted { IsOutcome (search_of two_roles three_users (has b ∷ has a ∷ has a ∷ []) []) (found [] (goal_of three_needs)) }
    ensures least { ServesLeast three_users three_needs (1 ∷ 1 ∷ 0 ∷ []) }
    ensures unserved { ¬ Serves three_users three_needs (0 ∷ 1 ∷ 1 ∷ []) }
    ensures too_many { ¬ Serves three_users three_needs (0 ∷ 1 ∷ 0 ∷ []) }
    ensures not_closed { ¬ IsOutcome (search_of two_roles three_users (has a ∷ has a ∷ has b ∷ []) []) (closed (goal_of three_needs ∷ [])) }
{}

/// Where c and d exclude each other, nothing will do before a user has both.
pub fn excluded_rows()
    ensures closed { IsOutcome (search_of pair_policy one_admin (both (has c) (has d) ∷ []) []) (closed (goal_of (hits_both c d ∷ []) ∷ [])) }
    ensures none_before { next_candidates pair_policy (goal_of (hits_both c d ∷ []) ∷ []) 0 ≡ [] }
    ensures not_found { ¬ IsOutcome (search_of pair_policy one_admin (both (has c) (has d) ∷ []) []) (found both_entries both_gift) }
{}

/// Where they don't, the user with adm gives himself c and then d: of equal requirements the first stays.
pub fn two_act_rows()
    ensures found { IsOutcome (search_of free_policy one_admin (both (has c) (has d) ∷ []) []) (found both_entries both_gift) }
    ensures plan { Plans free_policy both_entries both_gift (λ user. user) (takes c ∷ takes d ∷ []) }
    ensures turned { ¬ Plans free_policy both_entries both_gift (λ user. user) (takes d ∷ takes c ∷ []) }
    ensures not_closed { ¬ IsOutcome (search_of free_policy one_admin (both (has c) (has d) ∷ []) []) (closed both_entries) }
{}
