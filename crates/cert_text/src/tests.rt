//! Certificate texts, each read and written again, and texts that are none with their first fault.

use crate::{CertError, read_cert, write_cert};
use role_order::{MOST_ROLES, Order};
use std::alloc::{AllocError, Global};
use std::process::Abort;
use std::test::Fail;

const PLAN: &[u8] =
    b"arbac certificate 1\nreachable\nstart 0\nstart 0\nact weak 1 0 adm\nact assign 1 0 c\nend\n";

const CLOSED: &[u8] =
    b"arbac certificate 1\nunreachable\nneed\nuser hit c\nneed\nuser lack adm\nuser hit adm\nneed\nuser\nuser hit adm\nend\n";

const RECORDED: &[u8] =
    b"arbac certificate 1\nundecided 1\nneed goal 0\nuser hit c\nnext pre 0 assign 0 0 c 0 new\nuser lack adm\nuser hit adm\nend\n";

/// Texts that stand for certificates, each with the text that is written of what was read.
const RIGHT: [(&[u8], &[u8]); 10] = [
    (PLAN, PLAN),
    (CLOSED, CLOSED),
    (RECORDED, RECORDED),
    (
        b"arbac certificate 1\nreachable\nend\n",
        b"arbac certificate 1\nreachable\nend\n",
    ),
    (
        b"arbac certificate 1\nunreachable\nend\n",
        b"arbac certificate 1\nunreachable\nend\n",
    ),
    (
        b"arbac certificate 1\nunreachable\nneed\nneed\nend\n",
        b"arbac certificate 1\nunreachable\nneed\nneed\nend\n",
    ),
    (
        b"arbac certificate 1\nunreachable\nneed\nuser hit a hit b\nend\n",
        b"arbac certificate 1\nunreachable\nneed\nuser hit a hit b\nend\n",
    ),
    (
        b"arbac certificate 1\nunreachable\nneed\nuser hit E,DIR,DSO,PSO1,PSO2\nend\n",
        b"arbac certificate 1\nunreachable\nneed\nuser hit E,DIR,DSO,PSO1,PSO2\nend\n",
    ),
    // The order of needs, of users and of hits stays, the order of names in a list doesn't.
    (
        b"arbac certificate 1\nunreachable\nneed\nuser hit end,c hit adm\nuser hit c lack hit,adm,hit\nneed\nuser hit adm\nend\n",
        b"arbac certificate 1\nunreachable\nneed\nuser hit c,end hit adm\nuser hit c lack adm,hit\nneed\nuser hit adm\nend\n",
    ),
    (
        b"arbac certificate 1\nundecided 2\nneed goal 0\nneed pre 7 weak 1 hit 0 0\nuser hit hit,c\nnext goal 1\nend\n",
        b"arbac certificate 1\nundecided 2\nneed goal 0\nneed pre 7 weak 1 hit 0 0\nuser hit c,hit\nnext goal 1\nend\n",
    ),
];

/// Texts that stand for none, each with its first fault.
const WRONG: [(&[u8], CertError); 34] = [
    (b"", CertError::Unended),
    (b"\n", CertError::BadLine { line: 1 }),
    (b"reachable\nend\n", CertError::BadLine { line: 1 }),
    (
        b"arbac certificate 2\nreachable\nend\n",
        CertError::BadLine { line: 1 },
    ),
    (
        b"arbac certificate 1 \nreachable\nend\n",
        CertError::BadLine { line: 1 },
    ),
    (
        b"\xef\xbb\xbfarbac certificate 1\nreachable\nend\n",
        CertError::BadLine { line: 1 },
    ),
    (
        b"arbac certificate 1\r\nreachable\r\nend\r\n",
        CertError::BadLine { line: 1 },
    ),
    // What isn't the line of a kind.
    (
        b"arbac certificate 1\nend\n",
        CertError::BadLine { line: 2 },
    ),
    (
        b"arbac certificate 1\n\nreachable\nend\n",
        CertError::BadLine { line: 2 },
    ),
    (
        b"arbac certificate 1\narbac certificate 1\n",
        CertError::BadLine { line: 2 },
    ),
    (
        b"arbac certificate 1\nstart 0\nend\n",
        CertError::BadLine { line: 2 },
    ),
    (
        b"arbac certificate 1\nreachable\r\nend\n",
        CertError::BadLine { line: 2 },
    ),
    // Lines out of place.
    (
        b"arbac certificate 1\nreachable\nreachable\nend\n",
        CertError::BadLine { line: 3 },
    ),
    (
        b"arbac certificate 1\nreachable\nunreachable\nend\n",
        CertError::BadLine { line: 3 },
    ),
    (
        b"arbac certificate 1\nreachable\nact weak 0 0 c\nstart 0\nend\n",
        CertError::BadLine { line: 4 },
    ),
    (
        b"arbac certificate 1\nreachable\nneed\nend\n",
        CertError::BadLine { line: 3 },
    ),
    (
        b"arbac certificate 1\nunreachable\nuser\nneed\nend\n",
        CertError::BadLine { line: 3 },
    ),
    (
        b"arbac certificate 1\nunreachable\nuser hit d\nneed\nend\n",
        CertError::BadLine { line: 3 },
    ),
    (
        b"arbac certificate 1\nunreachable\nneed goal 0\nend\n",
        CertError::BadLine { line: 3 },
    ),
    (
        b"arbac certificate 1\nundecided 1\nneed\nnext goal 0\nend\n",
        CertError::BadLine { line: 3 },
    ),
    (
        b"arbac certificate 1\nundecided 1\nuser\nneed goal 0\n",
        CertError::BadLine { line: 3 },
    ),
    (
        b"arbac certificate 1\nundecided 1\nnext goal 0\nend\n",
        CertError::BadLine { line: 3 },
    ),
    (
        b"arbac certificate 1\nundecided 1\nneed goal 0\nnext goal 0\nnext goal 0\nend\n",
        CertError::BadLine { line: 5 },
    ),
    (
        b"arbac certificate 1\nundecided 1\nneed goal 0\nnext goal 0\nneed goal 0\nend\n",
        CertError::BadLine { line: 5 },
    ),
    (
        b"arbac certificate 1\nundecided 1\nend\n",
        CertError::BadLine { line: 3 },
    ),
    (
        b"arbac certificate 1\nundecided 1\nneed goal 0\nend\n",
        CertError::BadLine { line: 4 },
    ),
    // The end.
    (
        b"arbac certificate 1\nreachable\nend\n\n",
        CertError::BadLine { line: 4 },
    ),
    (
        b"arbac certificate 1\nreachable\nend\nx",
        CertError::BadLine { line: 4 },
    ),
    (
        b"arbac certificate 1\nreachable\nend\nend\n",
        CertError::BadLine { line: 4 },
    ),
    (
        b"arbac certificate 1\nreachable\nend \n",
        CertError::BadLine { line: 3 },
    ),
    // A last part of a line isn't judged.
    (b"arbac certificate 1\nreachable\n\xff", CertError::Unended),
    (
        b"arbac certificate 1\nundecided 1\nneed goal 0\nuser hit c\nnext pre 0 assign 0 0 c 0 new\nuser lack adm\nuser hit adm\n",
        CertError::Unended,
    ),
    // The earlier of two faults.
    (
        b"arbac certificate 1\nunreachable\nneed\nuser hit d\nuser hit\nend\n",
        CertError::UnknownRole { line: 4 },
    ),
    (
        b"arbac certificate 1\nunreachable\nneed\nuser hit\nuser hit d\nend\n",
        CertError::BadLine { line: 4 },
    ),
];

/// What stands before a line and behind it, so that it is in its place, and its number.
#[derive(Clone, Copy)]
struct Place {
    head: &'static [u8],
    tail: &'static [u8],
    line: u32,
}

const KIND: Place = Place {
    head: b"arbac certificate 1\n",
    tail: b"\nneed goal 0\nnext goal 0\nend\n",
    line: 2,
};

const OF_PLAN: Place = Place {
    head: b"arbac certificate 1\nreachable\n",
    tail: b"\nend\n",
    line: 3,
};

const STEP: Place = Place {
    head: b"arbac certificate 1\nundecided 1\n",
    tail: b"\nnext goal 0\nend\n",
    line: 3,
};

const NEXT: Place = Place {
    head: b"arbac certificate 1\nundecided 1\nneed goal 0\n",
    tail: b"\nend\n",
    line: 4,
};

const USER: Place = Place {
    head: b"arbac certificate 1\nunreachable\nneed\n",
    tail: b"\nend\n",
    line: 4,
};

/// What becomes of a line.
#[derive(Clone, Copy)]
enum Outcome {
    Same,
    /// It is written so.
    As(&'static [u8]),
    Bad,
    Unknown,
}

/// Lines in their places.
const LINES: [(Place, &[u8], Outcome); 50] = [
    (KIND, b"undecided 65536", Outcome::Same),
    (KIND, b"undecided 0", Outcome::Bad),
    (KIND, b"undecided 65537", Outcome::Bad),
    (KIND, b"undecided 01", Outcome::Bad),
    (KIND, b"undecided", Outcome::Bad),
    (OF_PLAN, b"start 4294967295", Outcome::Same),
    (OF_PLAN, b"start 4294967296", Outcome::Bad),
    (OF_PLAN, b"start 0 ", Outcome::Bad),
    (OF_PLAN, b"start", Outcome::Bad),
    (OF_PLAN, b"act strong 4294967295 0 end", Outcome::Same),
    (OF_PLAN, b"act assign 0 1 any", Outcome::Unknown),
    (OF_PLAN, b"act grant 0 1 d", Outcome::Bad),
    (OF_PLAN, b"act assign 0 1", Outcome::Bad),
    (STEP, b"need ", Outcome::Bad),
    (STEP, b"need goal 4294967295", Outcome::Same),
    (STEP, b"need goal 07", Outcome::Bad),
    (STEP, b"need pre 4 assign 5 6 c 7 self", Outcome::Same),
    (STEP, b"need pre 4 assign 5 6 c 7 new", Outcome::Same),
    (STEP, b"need pre 4 assign 5 6 c 7 8", Outcome::Same),
    (STEP, b"need pre 4 weak 5 hit 7 new", Outcome::Same),
    (STEP, b"need pre 4 assign 5 c 7 new", Outcome::Bad),
    (STEP, b"need pre 4 weak 5 6 c 7 new", Outcome::Bad),
    (STEP, b"need pre 4 strong 5 c 7 new", Outcome::Bad),
    (STEP, b"need pre 4 weak 5 d 7 new", Outcome::Unknown),
    (STEP, b"need pre 4 weak 5 d 7 old", Outcome::Bad),
    (STEP, b"need pre 4 weak 5 c 7 4294967296", Outcome::Bad),
    (STEP, b"need pre 4294967296 weak 5 c 7 new", Outcome::Bad),
    (NEXT, b"next", Outcome::Bad),
    (NEXT, b"next goal 7", Outcome::Same),
    (NEXT, b"next pre 4 assign 5 6 d 7 new", Outcome::Unknown),
    (USER, b"user", Outcome::Same),
    (USER, b"user ", Outcome::Bad),
    (USER, b"user hit c,adm,c", Outcome::As(b"user hit adm,c")),
    (
        USER,
        b"user hit adm hit hit,c lack end",
        Outcome::As(b"user hit adm hit c,hit lack end"),
    ),
    (USER, b"user lack c,adm", Outcome::As(b"user lack adm,c")),
    (USER, b"user lack adm lack c", Outcome::Bad),
    (USER, b"user lack adm hit c", Outcome::Bad),
    (USER, b"user hit", Outcome::Bad),
    (USER, b"user hit adm,", Outcome::Bad),
    (USER, b"user hit adm,,c", Outcome::Bad),
    (USER, b"user hit adm c", Outcome::Bad),
    (
        USER,
        b"user hit d lack x123456789_123456789_123456789_123456789_123456789_123456789_123",
        Outcome::Unknown,
    ),
    (
        USER,
        b"user hit d lack x123456789_123456789_123456789_123456789_123456789_123456789_1234",
        Outcome::Bad,
    ),
    (USER, b"user hit d hit adm+c", Outcome::Bad),
    (USER, b"user hit adm lack not", Outcome::Unknown),
    (USER, b"user  hit adm", Outcome::Bad),
    (USER, b"user hit adm\r", Outcome::Bad),
    (USER, b"user hit \xff", Outcome::Bad),
    (USER, b"User", Outcome::Bad),
    (USER, b"", Outcome::Bad),
];

fn order_of(rt: &impl Abort, alloc: Global) -> Result<Order, Fail> {
    let mut names = Vec::new(alloc);
    for name in [
        "adm", "c", "hit", "end", "a", "b", "E", "DIR", "DSO", "PSO1", "PSO2",
    ] {
        names.push(String::from_str(alloc, name)?)?;
    }
    assert!(rt; names.len() == 11);
    Ok(Order::new(alloc, names, Vec::new(alloc))?)
}

/// The text that is written of the certificate that was read.
fn again(alloc: Global, order: &Order, text: &[u8]) -> Result<Vec<u8>, CertError> {
    let cert = read_cert(alloc, order, text)?;
    Ok(write_cert(alloc, order, &cert)?)
}

/// The line in its place.
fn placed(alloc: Global, place: Place, line: &[u8]) -> Result<Vec<u8>, AllocError> {
    let mut text = Vec::from_slice(alloc, place.head)?;
    text.extend_from_slice(line)?;
    text.extend_from_slice(place.tail)?;
    Ok(text)
}

/// What is to come of the line in its place.
fn wanted(
    alloc: Global,
    place: Place,
    line: &[u8],
    outcome: Outcome,
) -> Result<Vec<u8>, CertError> {
    match outcome {
        Outcome::Same => Ok(placed(alloc, place, line)?),
        Outcome::As(other) => Ok(placed(alloc, place, other)?),
        Outcome::Bad => Err(CertError::BadLine { line: place.line }),
        Outcome::Unknown => Err(CertError::UnknownRole { line: place.line }),
    }
}

#[test]
fn texts_are_read_and_written(rt: HostRuntime) -> Result<(), Fail> {
    let alloc = rt.alloc();
    let order = order_of(&rt, alloc)?;
    for (text, written) in RIGHT.as_slice() {
        let found = again(alloc, &order, text);
        assert_eq!(rt; found.as_deref(), Ok(*written), "{text:?}");
    }
    Ok(())
}

#[test]
fn the_first_fault_is_told(rt: HostRuntime) -> Result<(), Fail> {
    let alloc = rt.alloc();
    let order = order_of(&rt, alloc)?;
    for (text, fault) in WRONG.as_slice() {
        assert_eq!(rt; again(alloc, &order, text).err(), Some(*fault), "{text:?}");
    }
    Ok(())
}

fn each_line(
    rt: &impl Abort,
    alloc: Global,
    order: &Order,
    lines: &[(Place, &[u8], Outcome)],
) -> Result<(), Fail> {
    for (place, line, outcome) in lines {
        let found = again(alloc, order, &placed(alloc, *place, line)?);
        assert_eq!(rt; found, wanted(alloc, *place, line, *outcome), "{line:?}");
    }
    Ok(())
}

#[test]
fn lines_are_read_and_written(rt: HostRuntime) -> Result<(), Fail> {
    let alloc = rt.alloc();
    let order = order_of(&rt, alloc)?;
    each_line(&rt, alloc, &order, &LINES)
}

#[test]
fn a_text_that_breaks_off_is_unended(rt: HostRuntime) -> Result<(), Fail> {
    let alloc = rt.alloc();
    let order = order_of(&rt, alloc)?;
    for text in [PLAN, CLOSED, RECORDED] {
        for end in 0..text.len() {
            let found = again(alloc, &order, &text[..end]).err();
            assert_eq!(rt; found, Some(CertError::Unended), "{end}");
        }
    }
    Ok(())
}

/// Whatever is read is read again from what is written of it.
#[test]
fn a_text_with_a_changed_byte_is_read_or_refused(rt: HostRuntime) -> Result<(), Fail> {
    let alloc = rt.alloc();
    let order = order_of(&rt, alloc)?;
    for text in [PLAN, CLOSED, RECORDED] {
        for at in 0..text.len() {
            for byte in b"\n ,012ht\xff" {
                let mut changed = Vec::from_slice(alloc, &text[..at])?;
                changed.push(*byte)?;
                changed.extend_from_slice(&text[at + 1..])?;
                if let Ok(written) = again(alloc, &order, &changed) {
                    let twice = again(alloc, &order, &written);
                    assert_eq!(rt; twice.as_deref(), Ok(written.as_slice()), "{changed:?}");
                }
            }
        }
    }
    Ok(())
}

/// An order of as many roles as there may be, and the names of all with commas between them.
fn wide_order(rt: &impl Abort, alloc: Global) -> Result<(Order, Vec<u8>), Fail> {
    let mut names = Vec::new(alloc);
    let mut list = Vec::new(alloc);
    for role in 0..MOST_ROLES {
        let name = format!(in alloc; "r{role}")?;
        if role > 0 {
            list.push(b',')?;
        }
        list.extend_from_slice(name.as_bytes())?;
        names.push(name)?;
    }
    assert!(rt; names.len() == MOST_ROLES);
    Ok((Order::new(alloc, names, Vec::new(alloc))?, list))
}

#[test]
fn long_lists_are_read(rt: HostRuntime) -> Result<(), Fail> {
    let alloc = rt.alloc();
    let (order, list) = wide_order(&rt, alloc)?;
    let mut text = Vec::from_slice(alloc, b"arbac certificate 1\nunreachable\nneed\n")?;
    for _ in 0..1_000 {
        text.extend_from_slice(b"user hit ")?;
        text.extend_from_slice(&list)?;
        text.extend_from_slice(b" lack ")?;
        text.extend_from_slice(&list)?;
        text.push(b'\n')?;
    }
    text.extend_from_slice(b"end\n")?;
    let found = again(alloc, &order, &text);
    assert!(rt; found.as_deref() == Ok(text.as_slice()));
    Ok(())
}
