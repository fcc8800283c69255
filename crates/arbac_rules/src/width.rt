//! How many conjuncts a condition has, and how many combinations of them a goal has.

ghost use Rattle.std.specs.Prelude.{◌≡◌, ◌≤◌, ◌<◌, List, length, map, IfSome, IfNone};
ghost use Rattle.list_words.specs.Lists.{Each};
ghost use Rattle.role_order.specs.Graph.{Graph};
ghost use Rattle.arbac_policy.specs.Truth.{Term, term_of};
ghost use Rattle.cond_text.specs.Grammar.{term_count};
ghost use Rattle.arbac_laws.specs.Conjuncts.{conjuncts};
ghost use Rattle.arbac_laws.specs.Goals.{goal_requirements};
ghost use Rattle.arbac_rules.specs.Widths as widths;
ghost use Rattle.arbac_rules.specs.Widths.{width};

use crate::MOST_CONJUNCTS;
use arbac_policy::Cond;
use cond_text::MOST_TERMS;

/// The number of conjuncts, without the list.
pub fn width_of(cond: &Cond) -> u128
    requires { term_count (term_of cond.now) ≤ MOST_TERMS }
    ensures { result ≡ width (term_of cond.now) }
{
    match cond {
        Cond::Any => 1,
        Cond::Has(_) => 1,
        Cond::Lacks(_) => 1,
        Cond::And(left, right) => width_of(left.get()) * width_of(right.get()),
        Cond::Or(left, right) => width_of(left.get()) + width_of(right.get()),
    }
}

/// The count at the first condition at which there are too many combinations.
fn count_of_many(goal: &[Cond]) -> Option<u128>
    requires { Each (λ cond. term_count (term_of cond) ≤ MOST_TERMS) goal.now }
    ensures { result ≡ widths.too_many (map term_of goal.now) }
{
    let mut combinations = 1;
    for cond in goal {
        combinations *= width_of(cond);
        if combinations > MOST_CONJUNCTS as u128 {
            return Some(combinations);
        }
    }
    None
}

/// How many combinations of one conjunct of each condition a goal has, up to the first condition at
/// which they are more than `MOST_CONJUNCTS`; none where they never are.
pub fn too_many(goal: &[Cond]) -> Option<u128>
    requires { Each (λ cond. term_count (term_of cond) ≤ MOST_TERMS) goal.now }
    ensures count { result ≡ widths.too_many (map term_of goal.now) }
    // Where they never are, the goal has so few requirements under each order.
    ensures few { IfNone result ((order : Graph)
        → length (goal_requirements order (map term_of goal.now)) ≤ MOST_CONJUNCTS) }
    // A count that is told is above the limit, and the goal has at least so many requirements.
    ensures many { IfSome result (λ count. (MOST_CONJUNCTS < count) × ((order : Graph)
        → count ≤ length (goal_requirements order (map term_of goal.now)))) }
    // A width is how many conjuncts there are.
    ensures lists { (order : Graph) (cond : Term) → length (conjuncts order cond) ≡ width cond }
    ensures limit { MOST_CONJUNCTS ≡ 1024 }
{
    count_of_many(goal)
}
