//! Reading lists of members.

ghost use Rattle.std.specs.Prelude.{ℕ, ◌≡◌, ◌<◌, ◌≤◌, ◌+◌, ◌^◌, ◌↔◌, [], ◌∷◌, List, length, Some, None, Ok, IsTrue};
ghost use Rattle.std.specs.Prelude.{IfOk, IfErr, IfSome, IfNone};
ghost use Rattle.csv.specs.Reading.{error_kind, stops_reader};
ghost use Rattle.csv.specs.Records.{AllText, fields_of};
ghost use Rattle.role_order.specs.Names.{place_of};
ghost use Rattle.arbac_policy.specs.declared.holder.On.{On};
ghost use Rattle.profile_set.specs.declared.member_row.MemberRow.{MemberRow};
ghost use Rattle.profile_set.specs.declared.members_error.MembersError.{MembersError};
ghost use Rattle.profile_set.specs.declared.members_error.MembersError.TheVariants as refusals;
ghost use Rattle.profile_set.specs.Members.{header, kind_text, Gives, IsRow, IsMembers, IsFirstFault, IsRefused, Tells, Reads};
ghost use Rattle.profile_set.specs.Reader.{HasRead};
ghost use Rattle.profile_set.specs.Rows.{IsRowRefused, IsToldFor};

use crate::member_row::MemberRow;
use crate::members_error::MembersError;
use crate::name::Name;
use arbac_policy::On;
use csv::{ErrorKind, ReaderBuilder, StringRecord, StringRecordsIntoIter};
use role_order::Order;
use std::alloc::Global;

/// The fields of a record that has three.
#[derive(Clone, Copy)]
struct Three<'r> {
    kind: &'r str,
    name: &'r str,
    role: &'r str,
}

fn three_of(fields: &StringRecord) -> Option<Three<'_>>
    ensures some { IfSome result (λ t. fields_of fields.now ≡ t.kind.now ∷ t.name.now ∷ t.role.now ∷ []) }
    ensures none { IfNone result ((kind name role : List ℕ) → ¬ (fields_of fields.now ≡ kind ∷ name ∷ role ∷ [])) }
{
    if fields.len() != 3 {
        return None;
    }
    Some(Three {
        kind: fields.get(0)?,
        name: fields.get(1)?,
        role: fields.get(2)?,
    })
}

fn is_header(fields: &StringRecord) -> bool
    ensures { IsTrue result ↔ (fields_of fields.now ≡ header) }
{
    match three_of(fields) {
        Some(first) => first.kind == "kind" && first.name == "name" && first.role == "role",
        None => false,
    }
}

/// Whose kind the text tells.
fn on_of(kind: &str) -> Option<On>
    ensures some { IfSome result (λ on. kind.now ≡ kind_text on) }
    ensures none { IfNone result ((on : On) → ¬ (kind.now ≡ kind_text on)) }
{
    match kind {
        "user" => Some(On::User),
        "permission" => Some(On::Permission),
        _ => None,
    }
}

/// The role that the text gives, if it gives one.
fn role_of(order: &Order, text: &str, number: u32) -> Result<Option<u16>, MembersError>
    ensures role { IfOk result (Gives order.now.names text.now) }
    ensures unknown { IfErr result (λ error. (error ≡ refusals.UnknownRole number) × (¬ (text.now ≡ [])) × (place_of order.now.names text.now ≡ None)) }
{
    if text.is_empty() {
        return Ok(None);
    }
    match order.role_named(text) {
        Some(role) => Ok(Some(role)),
        None => Err(MembersError::UnknownRole { number }),
    }
}

/// The row that the record stands for, or the record's fault.
fn row_of(
    alloc: Global,
    order: &Order,
    fields: &StringRecord,
    number: u32,
) -> Result<MemberRow, MembersError>
    requires { AllText (fields_of fields.now) }
    ensures row { IfOk result (IsRow order.now.names (fields_of fields.now)) }
    ensures fault { IfErr result (IsRowRefused order.now.names (fields_of fields.now) number) }
{
    let Some(Three { kind, name, role }) = three_of(fields) else {
        return Err(MembersError::BadRow { number });
    };
    let Some(on) = on_of(kind) else {
        return Err(MembersError::BadRow { number });
    };
    let Some(name) = Name::new(alloc, name)? else {
        return Err(MembersError::BadRow { number });
    };
    let role = role_of(order, role, number)?;
    Ok(MemberRow { on, name, role })
}

/// Whether the error is want of memory. Over bytes in memory no reading fails, so an error of
/// reading counts as such.
fn is_want(error: &csv::Error) -> bool
    ensures { result ≡ stops_reader (error_kind error.now) }
{
    matches!(error.kind(), ErrorKind::OutOfMemory | ErrorKind::Io(_))
}

/// The record, or what its refusal by `csv` is told as.
fn taken(given: Result<StringRecord, csv::Error>, number: u32) -> Result<StringRecord, MembersError>
    ensures ok { IfOk result (λ fields. given ≡ Ok fields) }
    ensures err { IfErr result (IsToldFor given number) }
{
    match given {
        Ok(fields) => Ok(fields),
        Err(error) if is_want(&error) => Err(MembersError::Memory),
        Err(_) => Err(MembersError::BadRow { number }),
    }
}

/// The records of the bytes. Records of each length are taken, since what a record has is asked
/// of it later.
fn records_of(alloc: Global, bytes: &[u8]) -> StringRecordsIntoIter<&[u8]>
    ensures { HasRead (λ s. Some s.now) bytes.now result [] }
{
    ReaderBuilder::new()
        .has_headers(false)
        .flexible(true)
        .from_reader(alloc, bytes)
        .into_records()
}

fn read(alloc: Global, order: &Order, bytes: &[u8]) -> Result<Vec<MemberRow>, MembersError>
    requires { length bytes.now < 2 ^ 32 }
    ensures rows { IfOk result (λ rows. IsMembers order.now.names bytes.now rows.items) }
    ensures fault { IfErr result (IsRefused order.now.names bytes.now) }
{
    let mut records = records_of(alloc, bytes);
    let Some(first) = records.next() else {
        return Err(MembersError::BadRow { number: 1 });
    };
    if !is_header(&taken(first, 1)?) {
        return Err(MembersError::BadRow { number: 1 });
    }
    let mut rows = Vec::new(alloc);
    for given in records {
        let number = rows.len() as u32 + 2;
        let fields = taken(given, number)?;
        rows.push(row_of(alloc, order, &fields, number)?)?;
    }
    Ok(rows)
}

/// The rows of a list of members, or its first fault.
///
/// They are records of CSV, with the header `kind,name,role`. Below it each record says whether
/// it is of a `user` or of a `permission`, whose name follows, and which role of the order is
/// given; an empty third field gives none. A byte order mark in front is no part of them.
pub fn read_members(
    alloc: Global,
    order: &Order,
    bytes: &[u8],
) -> Result<Vec<MemberRow>, MembersError>
    // What is read is what the text stands for.
    ensures rows { IfOk result (λ rows. IsMembers order.now.names bytes.now rows.items) }
    // A text that stands for rows is read as those rows.
    ensures only { (rows : List MemberRow) → IsMembers order.now.names bytes.now rows → Reads result rows }
    // An error is the first fault.
    ensures first { IfErr result (IsRefused order.now.names bytes.now) }
    // A text that has a first fault is refused with it.
    ensures told { (fault : MembersError) → IsFirstFault order.now.names bytes.now fault → Tells result fault }
    // A text stands for one list of rows at most.
    ensures one { (left right : List MemberRow) → IsMembers order.now.names bytes.now left → IsMembers order.now.names bytes.now right → left ≡ right }
{
    // Records are counted in 32 bits; where bytes may have more, this counts as want of memory.
    if u32::try_from(bytes.len()).is_err() {
        return Err(MembersError::Memory);
    }
    read(alloc, order, bytes)
}
