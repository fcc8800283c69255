//! The lists of roles, edges and pairs of a document.

ghost use Rattle.std.specs.Prelude.{◌≡◌, ◌<◌, ◌≤◌, ◌^◌, ◌↔◌, IsTrue, option_map, ◌&&◌, ◌||◌, not, [], length, position};
ghost use Rattle.std.specs.Prelude.{codes, string_bytes, IfOk};
ghost use Rattle.toml.specs.View.{table_view, array_view, view};
ghost use Rattle.role_order.specs.Names.{texts};
ghost use Rattle.role_order.specs.Refusals.{IsOrder};
ghost use Rattle.question_text.specs.Keys.{entries, list_of, as_two_different_texts};
ghost use Rattle.question_text.specs.declared.TheConstants.{MOST_PAIRS};
ghost use Rattle.question_text.specs.Roles.{a_text, a_role, an_edge, a_pair, is_order, roles_in, listed_roles};
ghost use Rattle.question_text.specs.Roles as role_lists;
ghost use Rattle.question_text.specs.Answers.{Answers};
ghost use Rattle.question_text.specs.Views.{entries_of};

use crate::MOST_PAIRS;
use crate::entries::{ReadEntry, each_entry};
use crate::keys::{
    at_most, entry_path, of_kind, optional_list, required_list, two_texts, value_at,
};
use crate::question_error::QuestionError;
use arbac_policy::MOST_EDGES;
use role_order::{MOST_ROLES, Order, OrderError, RoleSet};
use std::alloc::{AllocError, Global};
use toml::value::Array;
use toml::{Table, Value};

/// The role of the name that stands at the path.
pub fn role_named(
    alloc: Global,
    order: &Order,
    path: &str,
    name: &str,
) -> Result<u16, QuestionError>
    ensures role { Answers (λ role. role) (role_lists.role_named order.now.names path.now name.now) result }
    ensures known { IfOk result (λ role. role < length order.now.names) }
{
    match order.role_named(name) {
        Some(role) => Ok(role),
        None => Err(QuestionError::UnknownRole {
            key: String::from_str(alloc, path)?,
        }),
    }
}

/// The role that the text at the path names.
fn role_of(alloc: Global, order: &Order, path: &str, value: &Value) -> Result<u16, QuestionError>
    ensures role { Answers (λ role. role) (a_role order.now.names path.now (view value.now)) result }
    ensures known { IfOk result (λ role. role < length order.now.names) }
{
    let name = of_kind(alloc, value.as_str(), path)?;
    role_named(alloc, order, path, name)
}

/// The set of the roles that the texts of the list at the path name.
pub fn role_set(
    alloc: Global,
    order: &Order,
    path: &str,
    list: &Array,
) -> Result<RoleSet, QuestionError>
    ensures { Answers (λ set. set) (role_lists.role_set order.now.names path.now (list_of (array_view list.now))) result }
{
    // The roles of an order are few enough for a set.
    let count = order.count() as usize;
    prove!(count <= MOST_ROLES);
    let mut set = RoleSet::empty();
    for (place, value) in list.iter().enumerate() {
        let at = entry_path(alloc, path, place)?;
        let role = role_of(alloc, order, at.as_str(), value)?;
        set = set.with(role);
    }
    Ok(set)
}

/// The text at the path.
fn text_of(alloc: Global, path: &str, value: &Value) -> Result<String, QuestionError>
    ensures { Answers string_bytes (a_text path.now (view value.now)) result }
{
    let text = of_kind(alloc, value.as_str(), path)?;
    Ok(String::from_str(alloc, text)?)
}

/// The texts of the list at the path.
fn texts_of(alloc: Global, path: &str, list: &Array) -> Result<Vec<String>, QuestionError>
    ensures { Answers (λ names. texts names.items) (entries a_text path.now (list_of (array_view list.now))) result }
{
    let mut names = Vec::new(alloc);
    for (place, value) in list.iter().enumerate() {
        let at = entry_path(alloc, path, place)?;
        let name = text_of(alloc, at.as_str(), value)?;
        names.push(name)?;
    }
    Ok(names)
}

/// Whether there are so many that a place among them needs more than 32 bits.
fn is_beyond(count: usize) -> bool
    ensures { IsTrue result ↔ (2 ^ 32 ≤ count) }
{
    u32::try_from(count).is_err()
}

/// The order of the names and edges.
fn order_of(
    alloc: Global,
    names: Vec<String>,
    edges: Vec<(u16, u16)>,
) -> Result<Order, QuestionError>
    ensures answer { Answers (λ _. tt) (is_order (texts names.items) edges.items) result }
    ensures names { IfOk result (λ order. order.names ≡ texts names.items) }
    ensures edges { IfOk result (λ order. order.edges ≡ edges.items) }
{
    // An order counts both in 32 bits, and no memory holds more.
    if is_beyond(names.len()) || is_beyond(edges.len()) {
        return Err(QuestionError::Memory);
    }
    match Order::new(alloc, names, edges) {
        Ok(order) => Ok(order),
        Err(OrderError::Memory) => Err(QuestionError::Memory),
        Err(error) => Err(QuestionError::Order(error)),
    }
}

/// The order of the roles that a document names, without edges yet.
pub fn role_names(alloc: Global, table: &Table) -> Result<Order, QuestionError>
    ensures names { Answers (λ order. order.names) (role_lists.role_names (table_view table.now)) result }
    ensures edges { IfOk result (λ order. order.edges ≡ []) }
{
    let list = required_list(alloc, table, "", "roles")?;
    let names = texts_of(alloc, "roles", list)?;
    order_of(alloc, names, Vec::new(alloc))
}

/// The list of administrative roles, which must be there where they are kept separate.
fn admin_list<'t>(
    alloc: Global,
    separate: bool,
    table: &'t Table,
) -> Result<Option<&'t Array>, QuestionError>
    ensures { Answers entries_of (role_lists.admin_list separate (table_view table.now)) result }
{
    if separate {
        Ok(Some(required_list(alloc, table, "", "admin_roles")?))
    } else {
        optional_list(alloc, table, "", "admin_roles")
    }
}

/// The administrative roles that a document names.
pub fn admin_roles(
    alloc: Global,
    order: &Order,
    separate: bool,
    table: &Table,
) -> Result<RoleSet, QuestionError>
    ensures { Answers (λ set. set) (role_lists.admin_roles separate order.now.names (table_view table.now)) result }
{
    match admin_list(alloc, separate, table)? {
        Some(list) => role_set(alloc, order, "admin_roles", list),
        None => Ok(RoleSet::empty()),
    }
}

/// The roles of both names.
fn both_roles(
    alloc: Global,
    order: &Order,
    path: &str,
    texts: (&str, &str),
) -> Result<(u16, u16), QuestionError>
    ensures { Answers (λ roles. roles) (role_lists.both_roles order.now.names path.now (texts.entry.0.now, texts.entry.1.now)) result }
{
    let (first, second) = texts;
    let first = role_named(alloc, order, path, first)?;
    let second = role_named(alloc, order, path, second)?;
    Ok((first, second))
}

/// The texts of a list of exactly two that differ.
fn different_texts(value: &Value) -> Option<(&str, &str)>
    ensures { option_map (λ texts. (texts.0.now, texts.1.now)) result ≡ as_two_different_texts (view value.now) }
{
    match two_texts(value) {
        Some((first, second)) if first != second => Some((first, second)),
        _ => None,
    }
}

/// The roles that two texts name, if there are two of the kind that is wanted.
fn roles_of(
    alloc: Global,
    order: &Order,
    path: &str,
    texts: Option<(&str, &str)>,
) -> Result<(u16, u16), QuestionError>
    ensures { Answers (λ roles. roles) (roles_in order.now.names path.now (option_map (λ texts. (texts.0.now, texts.1.now)) texts.entry)) result }
{
    let texts = of_kind(alloc, texts, path)?;
    both_roles(alloc, order, path, texts)
}

/// Reads edges.
#[derive(Clone, Copy)]
struct EdgeReader<'o> {
    order: &'o Order,
}

impl<'o> ReadEntry for EdgeReader<'o> {
    type Entry = (u16, u16);

    ghost reads = { λ by path d. an_edge by.order.now.names path d };

    fn read(&self, alloc: Global, path: &str, value: &Value) -> Result<(u16, u16), QuestionError> {
        roles_of(alloc, self.order, path, two_texts(value))
    }
}

/// Reads exclusive pairs.
#[derive(Clone, Copy)]
struct PairReader<'o> {
    order: &'o Order,
}

impl<'o> ReadEntry for PairReader<'o> {
    type Entry = (u16, u16);

    ghost reads = { λ by path d. a_pair by.order.now.names path d };

    fn read(&self, alloc: Global, path: &str, value: &Value) -> Result<(u16, u16), QuestionError> {
        roles_of(alloc, self.order, path, different_texts(value))
    }
}

/// Whether one of the roles is administrative and the other isn't.
fn is_mixed(admins: &RoleSet, roles: (u16, u16)) -> bool
    ensures { result ≡ role_lists.is_mixed admins.now roles }
{
    let (first, second) = roles;
    (admins.has(first) && !admins.has(second)) || (admins.has(second) && !admins.has(first))
}

/// The place of the first two roles of which one is administrative and the other isn't.
fn first_mixed(admins: &RoleSet, list: &[(u16, u16)]) -> Option<usize>
    ensures { result ≡ position (role_lists.is_mixed admins.now) list.now }
{
    list.iter().position(|roles| is_mixed(admins, *roles))
}

/// Where administrative roles are kept separate, refuses the list at the path for its first two
/// roles of which one is administrative and the other isn't.
fn not_mixed(
    alloc: Global,
    separate: bool,
    admins: &RoleSet,
    path: &str,
    list: &[(u16, u16)],
) -> Result<(), QuestionError>
    ensures { Answers (λ _. tt) (role_lists.not_mixed separate admins.now path.now list.now) result }
{
    if !separate {
        return Ok(());
    }
    match first_mixed(admins, list) {
        None => Ok(()),
        Some(place) => Err(QuestionError::MixedRole {
            key: entry_path(alloc, path, place)?,
        }),
    }
}

/// The pairs of roles that the list under the key says, each read alike.
fn roles_listed<R: ReadEntry<Entry = (u16, u16)>>(
    alloc: Global,
    reader: &R,
    most: usize,
    separate: bool,
    admins: &RoleSet,
    key: &str,
    table: &Table,
) -> Result<Vec<(u16, u16)>, QuestionError>
    ensures { Answers (λ roles. roles.items) (listed_roles most (R.reads reader.now) separate admins.now key.now (table_view table.now)) result }
{
    let Some(list) = optional_list(alloc, table, "", key)? else {
        return Ok(Vec::new(alloc));
    };
    at_most(alloc, most, key, list)?;
    let roles = each_entry(alloc, reader, key, list)?;
    not_mixed(alloc, separate, admins, key, roles.as_slice())?;
    Ok(roles)
}

/// The names of the order, in strings of their own.
fn copied_names(alloc: Global, order: &Order) -> Result<Vec<String>, AllocError>
    ensures { IfOk result (λ names. texts names.items ≡ order.now.names) }
{
    let mut names = Vec::new(alloc);
    for role in 0..order.count() {
        names.push(String::from_str(alloc, order.name(role))?)?;
    }
    Ok(names)
}

/// The order of the same roles with the edges that a document lists.
pub fn role_edges(
    alloc: Global,
    order: &Order,
    separate: bool,
    admins: &RoleSet,
    table: &Table,
) -> Result<Order, QuestionError>
    ensures edges { Answers (λ next. next.edges) (role_lists.role_edges separate admins.now order.now.names (table_view table.now)) result }
    ensures names { IfOk result (λ next. next.names ≡ order.now.names) }
{
    let reader = EdgeReader { order };
    let edges = roles_listed(alloc, &reader, MOST_EDGES, separate, admins, "edges", table)?;
    let names = copied_names(alloc, order)?;
    order_of(alloc, names, edges)
}

/// The exclusive pairs of a document; a document of the first version has none.
pub fn exclusive_pairs(
    alloc: Global,
    order: &Order,
    version: u32,
    separate: bool,
    admins: &RoleSet,
    table: &Table,
) -> Result<Vec<(u16, u16)>, QuestionError>
    ensures { Answers (λ pairs. pairs.items) (role_lists.exclusive_pairs version separate admins.now order.now.names (table_view table.now)) result }
{
    if version == 1 && value_at(table, "exclusive").is_some() {
        return Err(QuestionError::WrongKind {
            key: String::from_str(alloc, "exclusive")?,
        });
    }
    let reader = PairReader { order };
    roles_listed(
        alloc,
        &reader,
        MOST_PAIRS,
        separate,
        admins,
        "exclusive",
        table,
    )
}
