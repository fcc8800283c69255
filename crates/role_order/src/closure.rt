//! Which role is above which, made once from the edges.

ghost use Rattle.std.specs.Prelude.{ℕ, ◌≡◌, ◌<◌, ◌≤◌, ◌↔◌, length, [], IfOk, IfSome, IfNone, Some};
ghost use Rattle.role_order.specs.Graph.{AreEdges, IsEdge, IsCycle, AreAcyclic};
ghost use Rattle.list_words.specs.Lists.{IsFirst};
ghost use Rattle.role_order.specs.Closures.{AreAbove, HasAt, AreTurned, IfTable, IfCycle, raised, raised_set};
ghost use Rattle.role_order.specs.Roles.{IsIn, Rises};

use crate::role_set::RoleSet;
use crate::{MOST_ROLES, NoMemory};
use std::alloc::{AllocError, Global};

/// What comes of taking up edges one after another.
#[derive(Drop)]
pub enum Closure {
    /// For each role the set of those that are above it, or it.
    Table(Vec<RoleSet>),
    /// The place of the first edge whose junior is already above its senior.
    Cycle(usize),
}

/// The place of the first edge with an end that isn't below the count.
pub fn first_outside(count: u16, edges: &[(u16, u16)]) -> Option<usize>
    ensures within { IfSome result (λ at. at < length edges.now) }
    ensures found { IfSome result (IsFirst (λ edge. ¬ IsEdge count edge) edges.now) }
    ensures none { IfNone result (AreEdges count edges.now) }
{
    for (at, &(senior, junior)) in edges.iter().enumerate() {
        if senior >= count || junior >= count {
            return Some(at);
        }
    }
    None
}

/// Each role alone in its set.
fn lone_roles(alloc: Global, count: u16) -> Result<Vec<RoleSet>, AllocError>
    requires { count ≤ MOST_ROLES }
    ensures { IfOk result (λ above. AreAbove count [] above.items) }
{
    let mut above = Vec::new(alloc);
    for role in 0..count {
        above.push(RoleSet::empty().with(role))?;
    }
    Ok(above)
}

/// Puts what is above the senior into the set, where it has the junior and not yet the senior.
fn raise(set: &mut RoleSet, seniors: &RoleSet, senior: u16, junior: u16)
    ensures { set.new ≡ raised_set seniors.now senior junior set.old }
{
    if set.has(junior) && !set.has(senior) {
        *set = set.join(seniors);
    }
}

/// Puts the edge's senior, and all above it, above its junior and all below that.
fn add_edge(above: &mut Vec<RoleSet>, senior: u16, junior: u16)
    requires { senior < length above.old.items }
    ensures { above.new.items ≡ raised above.old.items senior junior }
{
    let seniors = above[senior as usize];
    for set in above.iter_mut() {
        raise(set, &seniors, senior, junior);
    }
}

/// The sets of the roles above each role by these edges, or the first edge that closes a cycle.
pub fn close(alloc: Global, count: u16, edges: &[(u16, u16)]) -> Result<Closure, NoMemory>
    requires count { count ≤ MOST_ROLES }
    requires ends { AreEdges count edges.now }
    ensures table { IfOk result (λ closure. IfTable closure (λ above. AreAbove count edges.now above × AreAcyclic edges.now)) }
    ensures cycle { IfOk result (λ closure. IfCycle closure (λ place. (place < length edges.now) × IsCycle edges.now place)) }
{
    let mut above = lone_roles(alloc, count)?;
    for (place, &(senior, junior)) in edges.iter().enumerate() {
        if above[senior as usize].has(junior) {
            return Ok(Closure::Cycle(place));
        }
        // An edge that the others lead along too adds nothing.
        if !above[junior as usize].has(senior) {
            add_edge(&mut above, senior, junior);
        }
    }
    Ok(Closure::Table(above))
}

/// The roles whose sets have the senior.
fn juniors_in(above: &[RoleSet], senior: u16) -> RoleSet
    requires { length above.now ≤ MOST_ROLES }
    ensures rises { Rises result }
    ensures each { (junior : ℕ) → IsIn result junior ↔ HasAt above.now junior senior }
{
    let mut juniors = RoleSet::empty();
    for (junior, set) in above.iter().enumerate() {
        if set.has(senior) {
            juniors = juniors.with(junior as u16);
        }
    }
    juniors
}

/// The sets of the roles below each role, of those of the roles above each.
pub fn turn_sets(alloc: Global, above: &[RoleSet]) -> Result<Vec<RoleSet>, NoMemory>
    requires { length above.now ≤ MOST_ROLES }
    ensures { IfOk result (λ below. AreTurned above.now (length above.now) below.items) }
{
    let mut below = Vec::new(alloc);
    for senior in 0..above.len() as u16 {
        below.push(juniors_in(above, senior))?;
    }
    Ok(below)
}
