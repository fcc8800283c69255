//! Second values of rows, and requests that differ in one word.
use crate::{Decision, Deed, JournalRow, Name, On, Request, Told};
use std::alloc::Global;
use std::test::Fail;

/// Caller, number, target and role of requests, and whether each is the first one.
const REQUESTS: [(&str, u64, &str, &str, bool); 5] = [
    ("sam", 7, "bob", "PE1", true),
    ("ann", 7, "bob", "PE1", false),
    ("sam", 8, "bob", "PE1", false),
    ("sam", 7, "ann", "PE1", false),
    ("sam", 7, "bob", "PE", false),
];

fn named(alloc: Global, text: &str) -> Result<Name, Fail> {
    Ok(Name::new(alloc, text)?.ok_or("no name")?)
}

fn request(
    alloc: Global,
    caller: &str,
    number: u64,
    target: &str,
    role: &str,
) -> Result<Request, Fail> {
    Ok(Request {
        caller: named(alloc, caller)?,
        number,
        on: On::User,
        deed: Deed::Weak,
        target: named(alloc, target)?,
        role: named(alloc, role)?,
    })
}

fn row(alloc: Global) -> Result<JournalRow, Fail> {
    let role = named(alloc, "PE1")?;
    Ok(JournalRow {
        seq: 3,
        request: request(alloc, "sam", 7, "bob", "PE1")?,
        decision: Decision::Denied(Told::NoAdmin { role, rule: 2 }),
        edition: 1,
    })
}

#[test]
fn requests_are_one_word_for_word(rt: HostRuntime) -> Result<(), Fail> {
    let alloc = rt.alloc();
    let first = request(alloc, "sam", 7, "bob", "PE1")?;
    for (caller, number, target, role, is_first) in REQUESTS {
        let other = request(alloc, caller, number, target, role)?;
        assert_eq!(rt;
            first.is_same(&other),
            is_first,
            "{caller} {number} {target} {role}"
        );
    }
    Ok(())
}

#[test]
fn second_values_are_equal(rt: HostRuntime) -> Result<(), Fail> {
    let alloc = rt.alloc();
    let row = row(alloc)?;
    let copy = row.copy(alloc)?;
    assert!(rt; copy.seq == 3 && copy.edition == 1 && copy.request.is_same(&row.request));
    let last = copy.as_last(alloc)?.copy(alloc)?;
    assert!(rt; last.request.is_same(&row.request));
    match &last.decision {
        Decision::Denied(Told::NoAdmin { role, rule }) => {
            assert!(rt; role.as_str() == "PE1" && *rule == 2);
        }
        _ => assert!(rt; false, "another decision"),
    }
    Ok(())
}
