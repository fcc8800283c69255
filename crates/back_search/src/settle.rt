//! The end of a round: what it gathered is ranked and walked.

ghost use Rattle.std.specs.Prelude.{◌≡◌, ◌++◌, List, IfOk, OnOk};
ghost use Rattle.list_words.specs.Lists.{Each};
ghost use Rattle.arbac_laws.specs.NormalForms.{IsNormal};
ghost use Rattle.arbac_laws.specs.Recorded.{Entry};
ghost use Rattle.search_laws.specs.Candidates.{needs_in};
ghost use Rattle.search_laws.specs.Rounds.{Search, Round};
ghost use Rattle.search_rounds.specs.Keeping.{Keeps, IsGathered};
ghost use Rattle.search_rounds.specs.Views.{entries_of, HaveOwnMarks};
ghost use Rattle.back_search.specs.Stops.{walk_of, IsServed, IfGoesOn, IsBetween};

use crate::NoMemory;
use crate::walk::{Stop, walk};
use arbac_policy::Profile;
use search_rounds::{Candidate, Gathering, unbeaten};
use std::alloc::Global;

/// Ranks and walks what the round gathered, of whichever candidates.
pub fn settle(
    alloc: Global,
    gathering: &mut Gathering,
    recorded: &mut Vec<Candidate>,
    profiles: &[Profile],
    limit: u32,
) -> Result<Option<Stop>, NoMemory>
    requires recorded { HaveOwnMarks gathering.old.order recorded.old.items }
    requires gathered { IsGathered gathering.old }
    ensures round { (s : Search) (all : List Entry) → s.profiles ≡ profiles.now → s.limit ≡ limit
        → gathering.old.known ≡ s.barriers ++ needs_in (entries_of recorded.old.items)
        → Each (λ (entry : Entry). IsNormal entry.needs) all → Keeps gathering.old.known all gathering.old.kept
        → IfOk result (λ stop. Round s (entries_of recorded.old.items) all (walk_of stop (entries_of recorded.new.items))) }
    ensures between { (s : Search) (all : List Entry) → s.profiles ≡ profiles.now → s.limit ≡ limit → gathering.old.order ≡ s.rules.order
        → gathering.old.known ≡ s.barriers ++ needs_in (entries_of recorded.old.items)
        → Each (λ (entry : Entry). IsNormal entry.needs) all → Keeps gathering.old.known all gathering.old.kept
        → IfOk result (λ stop. IfGoesOn stop (IsBetween s gathering.new (entries_of recorded.new.items))) }
    ensures served { IfOk result (IsServed profiles.now) }
    ensures marks { OnOk result (HaveOwnMarks gathering.old.order recorded.new.items) }
    ensures order { OnOk result (gathering.new.order ≡ gathering.old.order) }
{
    let kept = gathering.take(alloc);
    let list = unbeaten(alloc, gathering.order(), kept)?;
    let stop = walk(alloc, gathering, recorded, list, profiles, limit)?;
    Ok(stop)
}
