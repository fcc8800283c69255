//! Role orders.

ghost use Rattle.std.specs.Prelude.{ℕ, true, ◌≡◌, ◌^◌, ◌<◌, ◌≤◌, List, ◌↔◌, IsTrue, length, vec_len, IfOk, IfErr, IfSome, Some};
ghost use Rattle.std.specs.Prelude.{None, slice_get, map};
ghost use Rattle.role_order.specs.Names.{texts, place_of};
ghost use Rattle.role_order.specs.Graph.{Leads, turned};
ghost use Rattle.role_order.specs.Refusals.{AreNames, IsOrder, IsRefused};
ghost use Rattle.role_order.specs.Reach.{seniors_of, juniors_of};
ghost use Rattle.role_order.specs.Ranges.{IsInRange};
ghost use Rattle.role_order.specs.Closures.{AreAbove};
ghost use Rattle.role_order.specs.Roles.{IsIn, Rises, IsRoleSet};

use crate::closure::{Closure, close, first_outside, turn_sets};
use crate::name_table::{number_of, sorted_by_name};
use crate::names::{first_bad, first_repeated};
use crate::range::Range;
use crate::role_set::RoleSet;
use crate::{MOST_NAME_BYTES, MOST_ROLES, NoMemory};
use std::alloc::{AllocError, Global};
use std::marker::Model;

/// Why names and edges are no role order: the first of these that fits. Places count from 0.
#[derive(Clone, Copy, Debug, PartialEq, Eq)]
pub enum OrderError {
    /// The list of names is empty.
    NoRoles,
    /// There are more than `MOST_ROLES` names.
    TooManyRoles { count: u32 },
    /// The first name that can't be a role's.
    BadName { place: u32 },
    /// The first name that repeats an earlier one (`second`), and the first place where it stands (`first`).
    SameName { first: u32, second: u32 },
    /// The first edge from or to a number without a name.
    EdgeOutOfRange { place: u32 },
    /// The first edge that closes a circle with those in front of it.
    Cycle { place: u32 },
    /// Want of memory.
    Memory,
}

impl From<AllocError> for OrderError {
    ghost use Rattle.std.specs.Prelude.{◌≡◌};
    ghost use Rattle.role_order.specs.declared.order.OrderError.TheVariants as refusals;

    ghost from_gives = { λ _ e. e ≡ refusals.Memory };

    fn from(_e: AllocError) -> OrderError {
        OrderError::Memory
    }
}

/// Roles by number, and which of them stand above which (URA97).
#[derive(Drop)]
pub struct Order {
    names: Vec<String>,
    edges: Vec<(u16, u16)>,
    /// For each role those above it, or it.
    above: Vec<RoleSet>,
    /// For each role those below it, or it.
    below: Vec<RoleSet>,
    /// The roles, sorted by name.
    by_name: Vec<u16>,
}

impl Model for Order {
    ghost use Rattle.role_order.specs.Graph.{Graph};
    ghost use Rattle.role_order.specs.Names.{texts};
    ghost use Rattle.role_order.specs.Kept.{IsKept};

    ghost Value = { Graph };

    ghost view = { λ o. record { names = texts o.names.items; edges = o.edges.items } };

    ghost invariant = { λ o. IsKept (texts o.names.items) o.edges.items o.above.items o.below.items o.by_name.items };
}

#[tactic(auto, using(crate::proofs::NameLemmas::length_texts))]
fn check_names(names: &[String]) -> Result<(), OrderError>
    requires { length names.now < 2 ^ 32 }
    ensures ok { IfOk result (λ _. AreNames (texts names.now)) }
    ensures err { IfErr result (λ e. (edges : List (ℕ × ℕ)) → IsRefused (texts names.now) edges e) }
{
    if names.is_empty() {
        return Err(OrderError::NoRoles);
    }
    if names.len() > MOST_ROLES {
        return Err(OrderError::TooManyRoles {
            count: names.len() as u32,
        });
    }
    if let Some(place) = first_bad(names) {
        return Err(OrderError::BadName {
            place: place as u32,
        });
    }
    if let Some((first, second)) = first_repeated(names) {
        return Err(OrderError::SameName {
            first: first as u32,
            second: second as u32,
        });
    }
    Ok(())
}

/// How many names there are.
#[tactic(auto, using(crate::proofs::NameLemmas::length_texts))]
fn count_of(names: &[String]) -> u16
    requires { length (texts names.now) ≤ MOST_ROLES }
    ensures { result ≡ length (texts names.now) }
{
    names.len() as u16
}

/// The same names, in strings of their own.
fn copy_names(alloc: Global, names: &[String]) -> Result<Vec<String>, AllocError>
    ensures { IfOk result (λ copy. texts copy.items ≡ texts names.now) }
{
    let mut copy = Vec::new(alloc);
    for name in names {
        copy.push(String::from_str(alloc, name.as_str())?)?;
    }
    Ok(copy)
}

/// The edges, each turned round.
fn turn(alloc: Global, edges: &[(u16, u16)]) -> Result<Vec<(u16, u16)>, AllocError>
    ensures { IfOk result (λ back. back.items ≡ map turned edges.now) }
{
    let mut back = Vec::new(alloc);
    for &(senior, junior) in edges {
        back.push((junior, senior))?;
    }
    Ok(back)
}

/// The order of names and edges that are known to be one, with the roles above each.
fn order_with(
    alloc: Global,
    names: Vec<String>,
    edges: Vec<(u16, u16)>,
    above: Vec<RoleSet>,
) -> Result<Order, AllocError>
    requires order { IsOrder (texts names.items) edges.items }
    requires above { AreAbove (length (texts names.items)) edges.items above.items }
    ensures names { IfOk result (λ o. o.names ≡ texts names.items) }
    ensures edges { IfOk result (λ o. o.edges ≡ edges.items) }
{
    let below = turn_sets(alloc, &above)?;
    let by_name = sorted_by_name(alloc, &names)?;
    Ok(Order {
        names,
        edges,
        above,
        below,
        by_name,
    })
}

/// The set, without the end where it is open.
fn without_open(set: &RoleSet, end: u16, is_open: bool) -> RoleSet
    ensures { (role : ℕ) → IsIn result role ↔ (IsIn set.now role × (is_open ≡ true → ¬ (role ≡ end))) }
{
    if is_open { set.without(end) } else { *set }
}

impl Order {
    /// The order of these names and edges, an edge being a pair (senior, junior).
    pub fn new(
        alloc: Global,
        names: Vec<String>,
        edges: Vec<(u16, u16)>,
    ) -> Result<Order, OrderError>
        requires names { vec_len names < 2 ^ 32 }
        requires edges { vec_len edges < 2 ^ 32 }
        ensures names { IfOk result (λ o. o.names ≡ texts names.items) }
        ensures edges { IfOk result (λ o. o.edges ≡ edges.items) }
        ensures ok { IfOk result (λ _. IsOrder (texts names.items) edges.items) }
        ensures err { IfErr result (IsRefused (texts names.items) edges.items) }
        ensures limits { (MOST_ROLES ≡ 250) × (MOST_NAME_BYTES ≡ 64) }
    {
        if let Err(e) = check_names(&names) {
            return Err(e);
        }
        if let Some(place) = first_outside(count_of(&names), &edges) {
            return Err(OrderError::EdgeOutOfRange {
                place: place as u32,
            });
        }
        match close(alloc, count_of(&names), &edges)? {
            Closure::Table(above) => Ok(order_with(alloc, names, edges, above)?),
            Closure::Cycle(place) => Err(OrderError::Cycle {
                place: place as u32,
            }),
        }
    }

    /// How many roles there are; they are the numbers below.
    pub fn count(&self) -> u16
        ensures count { result ≡ length self.now.names }
        ensures order { IsOrder self.now.names self.now.edges }
    {
        count_of(&self.names)
    }

    /// The edges as they were handed in.
    pub fn edges(&self) -> &[(u16, u16)]
        ensures { result.now ≡ self.now.edges }
    {
        &self.edges
    }

    /// The name of the role.
    pub fn name(&self, role: u16) -> &str
        requires { role < length self.now.names }
        ensures { Some result.now ≡ slice_get self.now.names role }
    {
        self.names[role as usize].as_str()
    }

    /// The role with this name, if a role has it.
    pub fn role_named(&self, text: &str) -> Option<u16>
        ensures role { IfSome result (λ role. role < length self.now.names) }
        ensures place { result ≡ place_of self.now.names text.now }
    {
        self.role_of_bytes(text.as_bytes())
    }

    /// The role of the name that has these bytes, and none exactly where no name has them.
    pub fn role_of_bytes(&self, bytes: &[u8]) -> Option<u16>
        ensures role { IfSome result (λ role. role < length self.now.names) }
        ensures place { result ≡ place_of self.now.names bytes.now }
    {
        number_of(&self.names, &self.by_name, bytes)
    }

    /// Says that the names and edges are an order: 1 to `MOST_ROLES` role names, all different, and
    /// edges between them that close no circle.
    pub fn is_order(&self)
        ensures { IsOrder self.now.names self.now.edges }
    {
        let _ = &self.names;
    }

    /// The role and all roles above it, as they are kept.
    fn above(&self, role: u16) -> &RoleSet
        requires { role < length self.now.names }
        ensures order { IsOrder self.now.names self.now.edges }
        ensures rises { Rises result.now }
        ensures each { (senior : ℕ) → IsIn result.now senior ↔ Leads self.now.edges senior role }
    {
        &self.above[role as usize]
    }

    /// The role and all roles below it, as they are kept.
    fn below(&self, role: u16) -> &RoleSet
        requires { role < length self.now.names }
        ensures order { IsOrder self.now.names self.now.edges }
        ensures rises { Rises result.now }
        ensures each { (junior : ℕ) → IsIn result.now junior ↔ Leads self.now.edges role junior }
    {
        &self.below[role as usize]
    }

    /// Whether `x` is `y` or stands above it.
    pub fn geq(&self, x: u16, y: u16) -> bool
        requires x { x < length self.now.names }
        requires y { y < length self.now.names }
        ensures { IsTrue result ↔ Leads self.now.edges x y }
    {
        self.above(y).has(x)
    }

    /// The role and all roles above it.
    pub fn seniors(&self, role: u16) -> RoleSet
        requires { role < length self.now.names }
        ensures seniors { result ≡ seniors_of self.now role }
        ensures each { (senior : ℕ) → IsIn result senior ↔ Leads self.now.edges senior role }
    {
        *self.above(role)
    }

    /// The role and all roles below it.
    pub fn juniors(&self, role: u16) -> RoleSet
        requires { role < length self.now.names }
        ensures juniors { result ≡ juniors_of self.now role }
        ensures each { (junior : ℕ) → IsIn result junior ↔ Leads self.now.edges role junior }
    {
        *self.below(role)
    }

    /// Whether the role stands between the range's ends and is no end that is open.
    pub fn in_range(&self, range: &Range, role: u16) -> bool
        requires low { range.now.low < length self.now.names }
        requires high { range.now.high < length self.now.names }
        requires role { role < length self.now.names }
        ensures { IsTrue result ↔ IsInRange self.now range.now role }
    {
        self.geq(role, range.low)
            && self.geq(range.high, role)
            && !(range.low_open && role == range.low)
            && !(range.high_open && role == range.high)
    }

    /// The roles between the range's ends, without an end that is open.
    pub fn roles_of(&self, range: &Range) -> RoleSet
        requires low { range.now.low < length self.now.names }
        requires high { range.now.high < length self.now.names }
        ensures roles { (role : ℕ) → IsIn result role ↔ IsInRange self.now range.now role }
        ensures set { IsRoleSet result }
    {
        let between = self.above(range.low).common(self.below(range.high));
        let from_low = without_open(&between, range.low, range.low_open);
        let roles = without_open(&from_low, range.high, range.high_open);
        roles.is_role_set();
        roles
    }

    /// The dual order: the same names, and each edge turned round.
    pub fn reversed(&self, alloc: Global) -> Result<Order, NoMemory>
        ensures names { IfOk result (λ o. o.names ≡ self.now.names) }
        ensures edges { IfOk result (λ o. o.edges ≡ map turned self.now.edges) }
        ensures geq { IfOk result (λ o. (x y : ℕ) → Leads o.edges x y ↔ Leads self.now.edges y x) }
    {
        Ok(Order {
            names: copy_names(alloc, &self.names)?,
            edges: turn(alloc, &self.edges)?,
            above: Vec::from_slice(alloc, &self.below)?,
            below: Vec::from_slice(alloc, &self.above)?,
            by_name: Vec::from_slice(alloc, &self.by_name)?,
        })
    }
}
