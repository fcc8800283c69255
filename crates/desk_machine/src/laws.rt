//! Laws over lists of requests.

ghost use Rattle.std.specs.Prelude.{ℕ, ◌≡◌, ◌<◌, List, slice_get, Some};
ghost use Rattle.list_words.specs.Lists.{Each, AreDifferent};
ghost use Rattle.arbac_policy.specs.Rules.{Rules};
ghost use Rattle.desk_records.specs.declared.requests.Request.{Request};
ghost use Rattle.desk_records.specs.declared.decisions.Decision.{Decision};
ghost use Rattle.desk_records.specs.declared.tables.Change.TheVariants.{Policy};
ghost use Rattle.desk_records.specs.Records.{Kept, IsKept};
ghost use Rattle.desk_records.specs.Changes.{changed};
ghost use Rattle.profile_set.specs.declared.member_row.MemberRow.{MemberRow};
ghost use Rattle.desk_machine.specs.declared.reply.Reply.{Reply};
ghost use Rattle.desk_machine.specs.declared.reply.Reply.TheVariants as replies;
ghost use Rattle.desk_machine.specs.Machine.{IsAnswer, Answers};
ghost use Rattle.desk_machine.specs.Imports.{imported, AreKnown, IsFew};
ghost use Rattle.desk_machine.specs.Repeats.{IsDecided, Decides, AreCounted, IsOfOther};
ghost use Rattle.desk_records.specs.Records.{empty_kept};

/// Whatever callers send, tables stay of their form; so they do after an import that leaves few enough
/// entities, and after a load. Names of roles differ, as those of each order do.
pub fn keeps_form()
    ensures requests { (rules : Rules) (before after : Kept) (requests : List Request) (answers : List Reply) →
        AreDifferent rules.order.names → IsKept before → Answers rules before requests answers after → IsKept after }
    ensures import { (names : List (List ℕ)) (before : Kept) (rows : List MemberRow) → AreDifferent names → IsKept before →
        AreKnown names rows → IsFew (imported names before rows) → IsKept (imported names before rows) }
    ensures load { (before : Kept) (document : List ℕ) → IsKept before → IsKept (changed before (Policy document)) }
{}

/// Each caller's rows of the journal carry the numbers 1, 2, 3 and so on, each once, and his last row is
/// the greatest of them. That holds of empty tables, and requests, imports and loads keep it.
pub fn counts_on()
    ensures empty { AreCounted empty_kept }
    ensures requests { (rules : Rules) (before after : Kept) (requests : List Request) (answers : List Reply) →
        AreCounted before → Answers rules before requests answers after → AreCounted after }
    ensures import { (names : List (List ℕ)) (before : Kept) (rows : List MemberRow) → AreCounted before → AreCounted (imported names before rows) }
    ensures load { (before : Kept) (document : List ℕ) → AreCounted before → AreCounted (changed before (Policy document)) }
{}

/// A caller's number is decided once: of two requests of one caller with one number at most one is
/// carried out or refused, whatever stands between them.
pub fn acts_once()
    ensures { (rules : Rules) (before after : Kept) (requests : List Request) (answers : List Reply) → Answers rules before requests answers after →
        (i j : ℕ) (first second : Request) (one other : Reply) → i < j →
        slice_get requests i ≡ Some first → slice_get requests j ≡ Some second →
        slice_get answers i ≡ Some one → slice_get answers j ≡ Some other →
        first.caller ≡ second.caller → first.number ≡ second.number → IsDecided one → ¬ IsDecided other }
{}

/// Who sends again what was not acknowledged acts once: where a request was decided, and only other
/// callers sent something since, the same request is answered with the kept decision, and nothing changes.
pub fn sent_again()
    ensures { (rules : Rules) (before then after last : Kept) (request : Request) (others : List Request) (answers : List Reply)
        (first again : Reply) (decision : Decision) →
        IsAnswer rules before request first then → Decides first decision →
        Each (IsOfOther request) others → Answers rules then others answers after →
        IsAnswer rules after request again last → (again ≡ replies.Repeat decision) × (last ≡ after) }
{}
