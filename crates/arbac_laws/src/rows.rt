//! Small policies, worked.

ghost use Rattle.std.specs.Prelude.{[], ◌∷◌, ◌≡◌, length, Some, None, true, false};
ghost use Rattle.list_words.specs.Lists.{Each};
ghost use Rattle.arbac_policy.specs.Truth.{has, lacks, both, either};
ghost use Rattle.arbac_policy.specs.Goals.{IsReachable};
ghost use Rattle.arbac_laws.specs.Needs.{Meets, Covers};
ghost use Rattle.arbac_laws.specs.Conjuncts.{conjuncts};
ghost use Rattle.arbac_laws.specs.Goals.{goal_requirements};
ghost use Rattle.arbac_laws.specs.PreImages.{itself, other, fresh};
ghost use Rattle.arbac_laws.specs.Obligations.{assigns, revokes, obligations, pre_image};
ghost use Rattle.arbac_laws.specs.Listings.{IsObligation, obligation_before};
ghost use Rattle.arbac_laws.specs.NormalForms.{normal_form, pre_form, AreFormPlaces};
ghost use Rattle.arbac_laws.specs.Closed.{IsClosedList};
ghost use Rattle.arbac_laws.specs.Serving.{IsServed, Serves, ServesLeast, counts, AreServing, AreUnserved};
ghost use Rattle.arbac_laws.specs.Recorded.{IsRecordedList};
ghost use Rattle.arbac_laws.specs.Relevance.{HasNeed, HasAssign, HasRevoke, IsClosedSlice, IsPart, IsRelevance, IsRelevant, IsDerived};
ghost use Rattle.arbac_laws.specs.Barriers.{IsCeiling, HasGivenRoles, may_hold, may_give, barriers};
ghost use Rattle.arbac_laws.specs.Rows.{mix, mix_rule, mix_apart, pair_policy, giver_policy, senior_policy, adm, c, d, one_admin, two_admins, many_admins};
ghost use Rattle.arbac_laws.specs.Rows.{mix_needs, mix_entries, mix_revoke, mix_slice, adm_slice};
ghost use Rattle.arbac_laws.specs.Rows.{hits, hits_either, hits_both, hits_without, without, anyone, untidy};

/// The goal c of a policy where members of adm give c to those without adm, and take adm away: its
/// requirement, its obligations, and the normal forms of their pre-images.
#[tactic(auto, unfolding(role_order::specs::Reach::seniors_of))]
pub fn worked_rows()
    ensures goal { goal_requirements mix.order (has c ∷ []) ≡ (hits c ∷ []) ∷ [] }
    ensures first { obligations mix (hits c ∷ []) ≡ assigns 0 0 c 0 itself ∷ assigns 0 0 c 0 fresh ∷ [] }
    ensures itself { pre_form mix (hits c ∷ []) (assigns 0 0 c 0 itself) ≡ None }
    ensures fresh { pre_form mix (hits c ∷ []) (assigns 0 0 c 0 fresh) ≡
        Some (without adm ∷ hits adm ∷ []) }
    ensures second { obligations mix (without adm ∷ hits adm ∷ []) ≡
        revokes 0 adm 0 itself ∷ revokes 0 adm 0 (other 1) ∷ revokes 0 adm 0 fresh ∷ [] }
    ensures second_itself { pre_form mix (without adm ∷ hits adm ∷ []) (revokes 0 adm 0 itself) ≡
        Some (hits adm ∷ hits adm ∷ []) }
    ensures second_other { pre_form mix (without adm ∷ hits adm ∷ []) (revokes 0 adm 0 (other 1)) ≡
        Some (anyone ∷ hits adm ∷ []) }
    ensures second_fresh { pre_form mix (without adm ∷ hits adm ∷ []) (revokes 0 adm 0 fresh) ≡
        Some (anyone ∷ hits adm ∷ hits adm ∷ []) }
    ensures third { obligations mix (anyone ∷ hits adm ∷ []) ≡ [] }
    ensures impossible { normal_form (record { hits = (c ∷ []) ∷ []; lacks = c ∷ [] } ∷ []) ≡ None }
{}

/// What exclusive pairs make of the pre-image: d is barred where it excludes c, and nothing will do
/// where c is both roles of a pair.
pub fn pair_rows()
    ensures barred { pre_form (mix_apart ((c, d) ∷ [])) (hits c ∷ []) (assigns 0 0 c 0 fresh) ≡
        Some (record { hits = []; lacks = adm ∷ d ∷ [] } ∷ hits adm ∷ []) }
    ensures second { pre_form (mix_apart ((d, c) ∷ [])) (hits c ∷ []) (assigns 0 0 c 0 fresh) ≡
        Some (record { hits = []; lacks = adm ∷ d ∷ [] } ∷ hits adm ∷ []) }
    ensures none { pre_image (mix_apart ((c, c) ∷ [])) (hits c ∷ []) (assigns 0 0 c 0 fresh) ≡ None }
    ensures other { pre_form (mix_apart ((adm, d) ∷ [])) (hits c ∷ []) (assigns 0 0 c 0 fresh) ≡
        Some (without adm ∷ hits adm ∷ []) }
{}

/// Nobody can be given both roles of a pair: no obligation has a possible pre-image, so that no run leads
/// there.
pub fn exclusive_rows()
    ensures four { obligations pair_policy (hits_both c d ∷ []) ≡
        assigns 0 0 c 0 itself ∷ assigns 0 0 c 0 fresh ∷ assigns 1 0 d 0 itself ∷ assigns 1 0 d 0 fresh ∷ [] }
    ensures none { Each (λ ob. pre_form pair_policy (hits_both c d ∷ []) ob ≡ None) (obligations pair_policy (hits_both c d ∷ [])) }
    ensures closed { IsClosedList pair_policy one_admin (both (has c) (has d) ∷ []) ((hits_both c d ∷ []) ∷ []) }
    ensures unreachable { ¬ IsReachable pair_policy one_admin (both (has c) (has d) ∷ []) }
{}

/// Obligations go by rule, conjunct, role, target and administrator, and those to revoke come last.
pub fn listing_rows()
    ensures all { obligations giver_policy (hits_without c d ∷ hits c ∷ []) ≡
        assigns 0 0 c 0 itself ∷ assigns 0 0 c 0 (other 1) ∷ assigns 0 0 c 0 fresh ∷
        assigns 0 0 c 1 itself ∷ assigns 0 0 c 1 (other 0) ∷ assigns 0 0 c 1 fresh ∷
        assigns 0 1 c 0 itself ∷ assigns 0 1 c 0 (other 1) ∷ assigns 0 1 c 0 fresh ∷
        assigns 0 1 c 1 itself ∷ assigns 0 1 c 1 (other 0) ∷ assigns 0 1 c 1 fresh ∷
        assigns 1 0 c 0 itself ∷ assigns 1 0 c 0 (other 1) ∷ assigns 1 0 c 0 fresh ∷
        assigns 1 0 c 1 itself ∷ assigns 1 0 c 1 (other 0) ∷ assigns 1 0 c 1 fresh ∷
        revokes 0 d 0 itself ∷ revokes 0 d 0 (other 1) ∷ revokes 0 d 0 fresh ∷ [] }
{}

/// The first of two users may have to give c to the second, and nobody is another user to itself; d is
/// taken from whose lacks have it alone. Assignments come first, and a new administrator last.
pub fn obligation_rows()
    ensures assigned { IsObligation giver_policy (hits_without c d ∷ hits c ∷ []) (assigns 0 1 c 1 (other 0)) }
    ensures itself { ¬ IsObligation giver_policy (hits_without c d ∷ hits c ∷ []) (assigns 0 1 c 1 (other 1)) }
    ensures revoked { IsObligation giver_policy (hits_without c d ∷ hits c ∷ []) (revokes 0 d 0 fresh) }
    ensures not_barred { ¬ IsObligation giver_policy (hits_without c d ∷ hits c ∷ []) (revokes 0 d 1 fresh) }
    ensures first { obligation_before (assigns 1 0 c 1 fresh) (revokes 0 d 0 itself) ≡ true }
    ensures last { obligation_before (assigns 0 0 c 0 fresh) (assigns 0 0 c 0 (other 1)) ≡ false }
{}

/// Who is above a role counts for it: in a goal, where it is barred, in a range, in a condition and as
/// administrator.
pub fn senior_rows()
    ensures goal { goal_requirements senior_policy.order (has d ∷ []) ≡ (hits_either adm d ∷ []) ∷ [] }
    ensures barred { conjuncts senior_policy.order (lacks d) ≡ record { hits = []; lacks = adm ∷ d ∷ [] } ∷ [] }
    ensures range { obligations senior_policy (hits_either adm d ∷ []) ≡
        assigns 0 0 adm 0 itself ∷ assigns 0 0 adm 0 fresh ∷ assigns 0 0 d 0 itself ∷ assigns 0 0 d 0 fresh ∷ [] }
    ensures before { pre_form senior_policy (hits_either adm d ∷ []) (assigns 0 0 d 0 fresh) ≡
        Some (hits_either adm d ∷ hits_either adm d ∷ []) }
{}

/// The lack d leaves the hit with it, the hit that contains the other is left out, and users change
/// places; users who become equal keep their order, so that a new administrator stands last of them.
pub fn form_rows()
    ensures form { normal_form (untidy ∷ hits adm ∷ hits_without c d ∷ []) ≡
        Some (hits adm ∷ hits_without c d ∷ hits_without c d ∷ []) }
    ensures moved { AreFormPlaces (untidy ∷ hits adm ∷ hits_without c d ∷ [])
        (hits adm ∷ hits_without c d ∷ hits_without c d ∷ []) (1 ∷ 0 ∷ 2 ∷ []) }
    ensures empty { normal_form (record { hits = [] ∷ []; lacks = [] } ∷ []) ≡ None }
    ensures before { pre_image mix (without adm ∷ hits adm ∷ []) (revokes 0 adm 0 fresh) ≡
        Some (anyone ∷ hits adm ∷ hits adm ∷ []) }
    ensures kept { AreFormPlaces (anyone ∷ hits adm ∷ hits adm ∷ []) (anyone ∷ hits adm ∷ hits adm ∷ []) (0 ∷ 1 ∷ 2 ∷ []) }
    ensures turned { ¬ AreFormPlaces (anyone ∷ hits adm ∷ hits adm ∷ []) (anyone ∷ hits adm ∷ hits adm ∷ []) (0 ∷ 2 ∷ 1 ∷ []) }
{}

/// One user isn't two, and two cover no single one; who lacks a role covers nobody who may have it; a
/// hit covers a lesser one, and not the other way round.
pub fn cover_rows()
    ensures two { ¬ Meets ([] ∷ []) (anyone ∷ anyone ∷ []) }
    ensures one { ¬ Covers (anyone ∷ anyone ∷ []) (anyone ∷ []) }
    ensures third { Covers (anyone ∷ hits adm ∷ []) (hits adm ∷ hits adm ∷ []) }
    ensures third_first { ¬ Covers (anyone ∷ hits adm ∷ []) (hits c ∷ []) }
    ensures lacks { ¬ Covers (without c ∷ []) (anyone ∷ []) }
    ensures hit { Covers (hits_either adm c ∷ []) (hits c ∷ []) }
    ensures lesser { ¬ Covers (hits c ∷ []) (hits_either adm c ∷ []) }
    ensures lacking { Covers (hits c ∷ []) (record { hits = (adm ∷ c ∷ []) ∷ []; lacks = adm ∷ [] } ∷ []) }
{}

/// With one user of adm to start from, these requirements are closed for the goal c, so that no run
/// reaches it.
pub fn closed_row()
    ensures closed { IsClosedList mix one_admin (has c ∷ []) mix_needs }
    ensures unreachable { ¬ IsReachable mix one_admin (has c ∷ []) }
{}

/// Who has adm may have what `adm` wants, and who has nothing what `not adm` wants; by the rule of adm only
/// members of adm give. With a user of adm, adm alone isn't all that is given.
pub fn gain_rows()
    ensures held { may_hold mix.order (adm ∷ []) (both (has adm) (lacks c)) ≡ true }
    ensures not_held { may_hold mix.order (c ∷ []) (either (has adm) (both (lacks c) (has adm))) ≡ false }
    ensures gives { may_give mix.order (adm ∷ []) mix_rule ≡ true }
    ensures not_given { may_give mix.order (c ∷ []) mix_rule ≡ false }
    ensures all { HasGivenRoles mix one_admin (adm ∷ c ∷ []) }
    ensures not_all { ¬ HasGivenRoles mix one_admin (adm ∷ []) }
{}

/// From two users of adm a run reaches the goal: one of them takes adm from the other and gives it c.
pub fn reached_row()
    ensures { IsReachable mix two_admins (has c ∷ []) }
{}

/// For c both rules matter, adm is wanted of who gives it and barred from who gets it; for adm no rule does.
/// Where c excludes d, d has to be barred too.
pub fn relevance_rows()
    ensures need { HasNeed mix_slice (hits c) }
    ensures no_need { ¬ HasNeed mix_slice (without c) }
    ensures assign { HasAssign mix mix_slice 0 mix_rule c }
    ensures no_assign { ¬ HasAssign mix adm_slice 0 mix_rule c }
    ensures apart { ¬ HasAssign (mix_apart ((c, d) ∷ [])) mix_slice 0 mix_rule c }
    ensures revoke { HasRevoke mix mix_slice 0 mix_revoke }
    ensures no_revoke { ¬ HasRevoke mix adm_slice 0 mix_revoke }
    ensures closed { IsClosedSlice mix (has c ∷ []) mix_slice }
    ensures not_closed { ¬ IsClosedSlice mix (has c ∷ []) adm_slice }
    ensures part { IsPart adm_slice mix_slice }
    ensures no_part { ¬ IsPart mix_slice adm_slice }
    ensures least { IsRelevance mix (has c ∷ []) mix_slice }
    ensures least_of_adm { IsRelevance mix (has adm ∷ []) adm_slice }
    ensures not_least { ¬ IsRelevance mix (has adm ∷ []) mix_slice }
    ensures rule { IsRelevant mix_slice (assigns 0 0 c 0 fresh) }
    ensures no_rule { ¬ IsRelevant adm_slice (assigns 0 0 c 0 fresh) }
    ensures derived { IsDerived mix (has c ∷ []) (without adm ∷ hits adm ∷ []) }
    ensures not_derived { ¬ IsDerived mix (has adm ∷ []) (hits c ∷ []) }
{}

/// One user of adm serves a need for adm, but not two, nor one for c; of two ways to serve, the one with the
/// lesser profile is the least; and two users are unserved where there is one.
pub fn serving_rows()
    ensures served { IsServed one_admin (hits adm) 0 }
    ensures not_served { ¬ IsServed one_admin (hits c) 0 }
    ensures once { Serves one_admin (hits adm ∷ []) (0 ∷ []) }
    ensures not_twice { ¬ Serves one_admin (hits adm ∷ hits adm ∷ []) (0 ∷ 0 ∷ []) }
    ensures least { ServesLeast many_admins (hits adm ∷ []) (0 ∷ []) }
    ensures not_least { ¬ ServesLeast many_admins (hits adm ∷ []) (1 ∷ []) }
    ensures limited { counts many_admins ≡ Some 1 ∷ None ∷ [] }
    ensures pairs { AreServing one_admin (hits adm ∷ hits c ∷ []) ((0, 0) ∷ []) }
    ensures no_pairs { ¬ AreServing one_admin (hits adm ∷ []) [] }
    ensures unserved { AreUnserved one_admin (hits adm ∷ hits adm ∷ []) (0 ∷ 1 ∷ []) }
    ensures not_unserved { ¬ AreUnserved one_admin (hits adm ∷ []) (0 ∷ []) }
{}

/// What two users of adm don't meet at first, recorded with its origins.
pub fn recorded_row()
    ensures { IsRecordedList mix two_admins (has c ∷ []) mix_entries }
{}

/// With a user of adm to start from, adm and c may be had, and a third role not; with nobody, none may.
pub fn barrier_rows()
    ensures both { IsCeiling mix one_admin (adm ∷ c ∷ []) }
    ensures no_barrier { barriers (length mix.order.names) (adm ∷ c ∷ []) ≡ [] }
    ensures two_of_three { IsCeiling (mix_apart []) one_admin (adm ∷ c ∷ []) }
    ensures third { barriers (length (mix_apart []).order.names) (adm ∷ c ∷ []) ≡ (hits d ∷ []) ∷ [] }
    ensures neither { IsCeiling mix [] [] }
    ensures barrier { barriers (length mix.order.names) [] ≡ (hits_either adm c ∷ []) ∷ [] }
{}
