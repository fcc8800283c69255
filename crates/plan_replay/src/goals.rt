//! Which users meet a goal.

ghost use Rattle.std.specs.Prelude.{◌≡◌, ◌<◌, ◌^◌, length, map, IfOk, IfSome, IfNone};
ghost use Rattle.list_words.specs.Lists.{Each};
ghost use Rattle.arbac_policy.specs.Truth.{term_of, user, IsKnown, Satisfies};
ghost use Rattle.arbac_policy.specs.Goals.{GoalMet};
ghost use Rattle.hall_match.specs.Joined.{JoinsAt};
ghost use Rattle.plan_replay.specs.GoalLists.{AreLeast, AreKnown, AreKnown-prop};

use crate::NoMemory;
use arbac_policy::{Cond, Policy, holds};
use hall_match::{Edges, least_transversal};
use role_order::{Order, RoleSet};
use std::alloc::Global;

/// Conditions, and users who may meet them.
#[derive(Drop)]
struct Meeting<'a> {
    order: &'a Order,
    goal: &'a [Cond],
    population: &'a [RoleSet],
    ghost known: { AreKnown (length order.now.names) goal.now } by { AreKnown-prop (length order.now.names) goal.now },
}

impl<'a> Edges for Meeting<'a> {
    ghost joins = { λ s. JoinsAt (λ cond set. Satisfies user s.order.now.edges set cond) (map term_of s.goal.now) s.population.now };

    fn has(&self, item: u32, place: u32) -> bool {
        match (
            self.goal.get(item as usize),
            self.population.get(place as usize),
        ) {
            (Some(cond), Some(set)) => holds(self.order, cond, set),
            _ => false,
        }
    }
}

/// The least list of different users, by place, who meet the conditions in order; none exactly where
/// there is no such list.
pub fn goal_met(
    alloc: Global,
    policy: &Policy,
    population: &[RoleSet],
    goal: &[Cond],
) -> Result<Option<Vec<u32>>, NoMemory>
    requires known { Each (λ cond. IsKnown (length policy.now.order.names) (term_of cond)) goal.now }
    requires users { length population.now < 2 ^ 32 }
    requires conditions { length goal.now < 2 ^ 32 }
    ensures met { IfOk result (λ met. IfSome met (λ users.
        AreLeast policy.now.order.edges (map term_of goal.now) population.now users.items)) }
    ensures unmet { IfOk result (λ met. IfNone met (¬ GoalMet policy.now.order.edges (map term_of goal.now) population.now)) }
{
    let meeting = Meeting {
        order: policy.order(),
        goal,
        population,
    };
    let users = least_transversal(alloc, goal.len(), population.len(), &meeting)?;
    Ok(users)
}
