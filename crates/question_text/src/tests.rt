//! Documents that are read, or their first fault. What they are read as is tested where they are written, too.

mod answers;

use crate::{QuestionError, read_question};
use answers::{
    ADMINS, APART, BEGUN, BEGUN_2, BEGUN_APART, GOALS, KEYS, LISTS_OF_ROLES, PAIRS, PROFILES,
    RULES, TABLES, TEXTS, WIDE,
};
use cond_text::CondError;
use role_order::OrderError;
use std::alloc::{AllocError, Global};
use std::process::Abort;
use std::test::Fail;

/// The lists with a limit, and their limits.
const LISTS: [(&str, usize); 8] = [
    ("edges", 10_000),
    ("exclusive", 1_000),
    ("can_assign", 1_000),
    ("can_revoke", 1_000),
    ("can_assignp", 1_000),
    ("can_revokep", 1_000),
    ("profile", 1_000),
    ("goal", 8),
];

fn order_line(alloc: Global, error: &OrderError) -> Result<String, AllocError> {
    match error {
        OrderError::NoRoles => String::from_str(alloc, "NoRoles"),
        OrderError::TooManyRoles { count } => format!(in alloc; "TooManyRoles {count}"),
        OrderError::BadName { place } => format!(in alloc; "BadName {place}"),
        OrderError::SameName { first, second } => format!(in alloc; "SameName {first} {second}"),
        OrderError::EdgeOutOfRange { place } => format!(in alloc; "EdgeOutOfRange {place}"),
        OrderError::Cycle { place } => format!(in alloc; "Cycle {place}"),
        OrderError::Memory => String::from_str(alloc, "Memory"),
    }
}

fn cond_line(alloc: Global, key: &str, error: &CondError) -> Result<String, AllocError> {
    match error {
        CondError::Unexpected { place } => format!(in alloc; "Cond {key} Unexpected {place}"),
        CondError::UnknownRole { place } => format!(in alloc; "Cond {key} UnknownRole {place}"),
        CondError::TooDeep { place } => format!(in alloc; "Cond {key} TooDeep {place}"),
        CondError::Memory => String::from_str(alloc, "Memory"),
    }
}

fn error_line(alloc: Global, error: &QuestionError) -> Result<String, AllocError> {
    match error {
        QuestionError::NotToml => String::from_str(alloc, "NotToml"),
        QuestionError::Missing { key } => format!(in alloc; "Missing {key}"),
        QuestionError::WrongKind { key } => format!(in alloc; "WrongKind {key}"),
        QuestionError::UnknownRole { key } => format!(in alloc; "UnknownRole {key}"),
        QuestionError::Order(error) => order_line(alloc, error),
        QuestionError::Cond { key, error } => cond_line(alloc, key.as_str(), error),
        QuestionError::MixedRole { key } => format!(in alloc; "MixedRole {key}"),
        QuestionError::TooMany { key, count } => format!(in alloc; "TooMany {key} {count}"),
        QuestionError::TooWide { key, count } => format!(in alloc; "TooWide {key} {count}"),
        QuestionError::UnknownKey { key } => format!(in alloc; "UnknownKey {key}"),
        QuestionError::Memory => String::from_str(alloc, "Memory"),
    }
}

/// The answer to a document, as a line.
fn answer(alloc: Global, text: &[u8], need_goal: bool) -> Result<String, AllocError> {
    match read_question(alloc, text, need_goal) {
        Ok(_) => String::from_str(alloc, "read"),
        Err(error) => error_line(alloc, &error),
    }
}

/// Behind the beginning, each row's text has its answer.
fn each_answered(rt: &impl Abort, alloc: Global, begun: &str, rows: &str) -> Result<(), Fail> {
    for row in rows.split(";\n") {
        let (rest, told) = row.split_once(" => ").ok_or("a row has no answer")?;
        let text = format!(in alloc; "{begun}{rest}")?;
        let line = answer(alloc, text.as_bytes(), false)?;
        assert_eq!(rt; line.as_str(), told, "{rest}");
    }
    Ok(())
}

#[test]
fn a_document_is_read_or_its_first_fault_is_told(rt: HostRuntime) -> Result<(), Fail> {
    let alloc = rt.alloc();
    for rows in [TEXTS, KEYS, ADMINS] {
        each_answered(&rt, alloc, "", rows)?;
    }
    for rows in [LISTS_OF_ROLES, RULES, PROFILES, GOALS, TABLES] {
        each_answered(&rt, alloc, BEGUN, rows)?;
    }
    each_answered(&rt, alloc, BEGUN_2, PAIRS)?;
    each_answered(&rt, alloc, BEGUN_APART, APART)?;
    let empty_key = answer(alloc, b"\"\" = 1\n", false)?;
    assert_eq!(rt; empty_key.as_str(), "UnknownKey ");
    let not_utf8 = answer(alloc, b"version = 1 # \xff\n", false)?;
    assert_eq!(rt; not_utf8.as_str(), "NotToml");
    let marked = answer(alloc, b"\xef\xbb\xbfversion = 1\n", false)?;
    assert_eq!(rt; marked.as_str(), "Missing separate");
    Ok(())
}

#[test]
fn a_goal_is_missed_where_one_is_needed_alone(rt: HostRuntime) -> Result<(), Fail> {
    let alloc = rt.alloc();
    for (text, told) in [
        (BEGUN, "Missing goal"),
        ("version = 3\n", "WrongKind version"),
    ] {
        let line = answer(alloc, text.as_bytes(), true)?;
        assert_eq!(rt; line.as_str(), told, "{text}");
    }
    let whole = format!(in alloc; "{BEGUN}goal = [\"a\"]")?;
    let line = answer(alloc, whole.as_bytes(), true)?;
    assert_eq!(rt; line.as_str(), "read");
    let faulty = format!(in alloc; "{BEGUN}profile = 1")?;
    let line = answer(alloc, faulty.as_bytes(), true)?;
    assert_eq!(rt; line.as_str(), "WrongKind profile");
    let empty = format!(in alloc; "{BEGUN}goal = []")?;
    let line = answer(alloc, empty.as_bytes(), true)?;
    assert_eq!(rt; line.as_str(), "WrongKind goal");
    Ok(())
}

/// The key's list with so many entries, none of them right.
fn list_of(alloc: Global, key: &str, count: usize) -> Result<String, AllocError> {
    let mut text = format!(in alloc; "{BEGUN_2}{key} = [")?;
    for _ in 0..count {
        text.push_str("1,")?;
    }
    text.push_str("]\n")?;
    Ok(text)
}

#[test]
fn a_list_is_counted_before_its_entries_are_read(rt: HostRuntime) -> Result<(), Fail> {
    let alloc = rt.alloc();
    for (key, most) in LISTS {
        let text = list_of(alloc, key, most)?;
        let line = answer(alloc, text.as_bytes(), false)?;
        let told = format!(in alloc; "WrongKind {key}.0")?;
        assert_eq!(rt; line, told);
        assert!(rt; most < 1_000_000);
        let count = most + 1;
        let text = list_of(alloc, key, count)?;
        let line = answer(alloc, text.as_bytes(), false)?;
        let told = format!(in alloc; "TooMany {key} {count}")?;
        assert_eq!(rt; line, told);
    }
    Ok(())
}

/// A document with so many roles, and behind them this entry.
fn with_roles(alloc: Global, count: usize, last: &str) -> Result<String, AllocError> {
    let mut text = String::from_str(alloc, "version = 1\nseparate = false\nroles = [")?;
    for role in 0..count {
        text.push_str(format!(in alloc; "\"r{role}\", ")?.as_str())?;
    }
    text.push_str(last)?;
    text.push_str("]\n")?;
    Ok(text)
}

#[test]
fn the_251st_role_is_too_many(rt: HostRuntime) -> Result<(), Fail> {
    let alloc = rt.alloc();
    for (last, told) in [
        ("", "read"),
        ("\"a\"", "TooManyRoles 251"),
        ("1", "WrongKind roles.250"),
    ] {
        let text = with_roles(alloc, 250, last)?;
        let line = answer(alloc, text.as_bytes(), false)?;
        assert_eq!(rt; line.as_str(), told);
    }
    Ok(())
}

#[test]
fn a_condition_may_have_1024_conjuncts(rt: HostRuntime) -> Result<(), Fail> {
    let alloc = rt.alloc();
    for (key, more, range, told) in [
        ("can_assign", "", "\"[a,a]\"", "read"),
        (
            "can_assign",
            " and (a or b)",
            "\"[a,a]\"",
            "TooWide can_assign.0 2048",
        ),
        (
            "can_assignp",
            " and (a or b)",
            "\"[a,a]\"",
            "TooWide can_assignp.0 2048",
        ),
        (
            "can_assign",
            " and (a or b)",
            "1",
            "WrongKind can_assign.0.range",
        ),
    ] {
        let text = format!(in alloc;
            "{BEGUN}{key} = [{{ admin = \"a\", condition = \"{WIDE}{more}\", range = {range} }}]"
        )?;
        let line = answer(alloc, text.as_bytes(), false)?;
        assert_eq!(rt; line.as_str(), told);
    }
    Ok(())
}
