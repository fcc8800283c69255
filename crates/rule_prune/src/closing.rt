//! All roles that can matter for a goal.

ghost use Rattle.std.specs.Prelude.{◌<◌, ◌≤◌, ◌*◌, length, map, IfOk, IfSome, IfNone};
ghost use Rattle.list_words.specs.Lists.{Each};
ghost use Rattle.arbac_policy.specs.Truth.{term_of, IsKnown};
ghost use Rattle.rule_prune.specs.Steps.{IsStep, IsClosure, ByEach};
ghost use Rattle.rule_prune.specs.Relevant.{AreAmong, AreLeast, LeadsOn, count_of};

use crate::links::{Link, all_links};
use crate::relevance::{Relevance, goal_roles, have_grown, have_met, joined};
use arbac_policy::{Cond, Policy};
use role_order::MOST_ROLES;
use std::alloc::{AllocError, Global};

/// With what the link leads to, if it starts from one of the roles.
fn with_link(roles: &Relevance, link: &Link) -> Relevance
    ensures { IsStep AreAmong (LeadsOn link.now) roles.now result }
{
    if have_met(&link.from, roles) {
        joined(roles, &link.to)
    } else {
        *roles
    }
}

/// With what the links lead to, one after another.
fn with_links(links: &[Link], roles: &Relevance) -> Relevance
    ensures { IsStep AreAmong (ByEach LeadsOn links.now) roles.now result }
{
    let mut more = *roles;
    for link in links {
        more = with_link(&more, link);
    }
    more
}

/// With what the links lead to; none where that is there already.
fn following(links: &[Link], roles: &Relevance) -> Option<Relevance>
    ensures step { IfSome result (IsStep AreAmong (ByEach LeadsOn links.now) roles.now) }
    ensures grown { IfSome result (λ more. count_of roles.now < count_of more) }
    ensures few { IfSome result (λ more. count_of more ≤ 2 * MOST_ROLES) }
    ensures none { IfNone result (ByEach LeadsOn links.now roles.now roles.now) }
{
    let more = with_links(links, roles);
    if have_grown(roles, &more) {
        Some(more)
    } else {
        None
    }
}

/// The least roles that have these and all that the links lead to from them.
fn closed_roles(links: &[Link], start: &Relevance) -> Relevance
    ensures { IsClosure AreAmong (ByEach LeadsOn links.now) start.now result }
{
    let mut roles = *start;
    while let Some(more) = following(links, &roles) {
        roles = more;
    }
    roles
}

/// The roles that can matter for the goal.
pub fn relevant_roles(
    alloc: Global,
    policy: &Policy,
    goal: &[Cond],
) -> Result<Relevance, AllocError>
    requires { Each (λ cond. IsKnown (length policy.now.order.names) (term_of cond)) goal.now }
    ensures { IfOk result (AreLeast policy.now (map term_of goal.now)) }
{
    let start = goal_roles(policy.order(), goal);
    let links = all_links(alloc, policy)?;
    Ok(closed_roles(&links, &start))
}
