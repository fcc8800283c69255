//! Run texts with what they stand for, or their first fault.

use crate::{MOST_ACTS, MOST_USERS, Run, RunError, read_run};
use arbac_policy::{Act, ActKind, CanRevoke, Cond, MOST_EDGES, MOST_GOALS, MOST_RULES};
use cond_text::CondError;
use role_order::{MOST_ROLES, OrderError, Range};
use std::alloc::{AllocError, Global};
use std::test::Fail;

const MIXED: &[u8] =
    b"run 1\nrole adm\nrole c\nassign adm [c,c] not adm\nrevoke adm [adm,adm]\nuser adm\nuser adm\nact weak 1 0 adm\nact assign 1 0 c\ngoal c\nend\n";

/// Texts that stand for runs.
const RIGHT: [&[u8]; 5] = [
    MIXED,
    b"run 1\nrole a\ngoal any\nend\n",
    b"run 1\nrole a\nrole b\nedge a b\nedge a b\nassign b (b,a] any\nuser\nuser b a b\ngoal \t(a)or not b \nend\n",
    b"run 1\nrole -._\nrole end\nrevoke end [-._,-._)\nact strong 4294967295 0 end\ngoal end\nend\n",
    b"run 1\nrole a123456789_123456789_123456789_123456789_123456789_123456789_123\nuser\nact weak 0 10 a123456789_123456789_123456789_123456789_123456789_123456789_123\ngoal any\ngoal any\nend\n",
];

/// Texts that stand for none, each with its first fault.
const WRONG: [(&[u8], RunError); 85] = [
    (b"", RunError::Order(OrderError::NoRoles)),
    (b"run 1", RunError::Order(OrderError::NoRoles)),
    (b"run 2", RunError::Order(OrderError::NoRoles)),
    (b"\n", RunError::BadLine { line: 1 }),
    (b"run 2\nrole a\n", RunError::BadLine { line: 1 }),
    (b" run 1\n", RunError::BadLine { line: 1 }),
    (b"run 1 \n", RunError::BadLine { line: 1 }),
    (b"run 1\r\nrole a\r\n", RunError::BadLine { line: 1 }),
    (b"role a\ngoal any\nend\n", RunError::BadLine { line: 1 }),
    // The order's refusal, or the line's own fault.
    (b"run 1\n", RunError::Order(OrderError::NoRoles)),
    (b"run 1\nrun 1\n", RunError::Order(OrderError::NoRoles)),
    (b"run 1\n\n", RunError::Order(OrderError::NoRoles)),
    (b"run 1\n role a\n", RunError::Order(OrderError::NoRoles)),
    (b"run 1\n\xff\n", RunError::Order(OrderError::NoRoles)),
    (b"run 1\nend\n", RunError::Order(OrderError::NoRoles)),
    (b"run 1\nroles a\n", RunError::Order(OrderError::NoRoles)),
    (b"run 1\nrole any", RunError::Order(OrderError::NoRoles)),
    (b"run 1\nedge a b\n", RunError::BadLine { line: 2 }),
    (b"run 1\nrole\n", RunError::BadLine { line: 2 }),
    (b"run 1\nrole \n", RunError::BadLine { line: 2 }),
    (b"run 1\nrole a \n", RunError::BadLine { line: 2 }),
    (b"run 1\nrole  a\n", RunError::BadLine { line: 2 }),
    (b"run 1\nrole a\r\n", RunError::BadLine { line: 2 }),
    (b"run 1\nrole \xc3\xa9\n", RunError::BadLine { line: 2 }),
    (
        b"run 1\nrole a123456789_123456789_123456789_123456789_123456789_123456789_1234\n",
        RunError::BadLine { line: 2 },
    ),
    (
        b"run 1\nrole any\n",
        RunError::Order(OrderError::BadName { place: 0 }),
    ),
    (
        b"run 1\nrole a\nrole or\nuser \xff\n",
        RunError::Order(OrderError::BadName { place: 1 }),
    ),
    (
        b"run 1\nrole any\nrole \xff\n",
        RunError::BadLine { line: 3 },
    ),
    (
        b"run 1\nrole a\nrole b\nrole a\nnothing\n",
        RunError::Order(OrderError::SameName {
            first: 0,
            second: 2,
        }),
    ),
    (b"run 1\nrole a\nedge a\n", RunError::BadLine { line: 3 }),
    (
        b"run 1\nrole a\nedge a b\n",
        RunError::UnknownRole { line: 3 },
    ),
    (
        b"run 1\nrole a\nedge b a\nedge a\n",
        RunError::UnknownRole { line: 3 },
    ),
    (
        b"run 1\nrole any\nedge any b\n",
        RunError::UnknownRole { line: 3 },
    ),
    (
        b"run 1\nrole any\nedge any any\ngoal any\nend\n",
        RunError::Order(OrderError::BadName { place: 0 }),
    ),
    (
        b"run 1\nrole a\nrole b\nedge a b\nedge b a\nassign\n",
        RunError::Order(OrderError::Cycle { place: 1 }),
    ),
    (
        b"run 1\nrole a\nedge a a\nedge a a\n",
        RunError::Order(OrderError::Cycle { place: 0 }),
    ),
    // Sections out of order.
    (
        b"run 1\nrole a\nrole b\nedge a b\nrole c\n",
        RunError::BadLine { line: 5 },
    ),
    (
        b"run 1\nrole a\nuser\nrole any\n",
        RunError::BadLine { line: 4 },
    ),
    (
        b"run 1\nrole a\nuser\nedge a a\n",
        RunError::BadLine { line: 4 },
    ),
    (
        b"run 1\nrole a\nrevoke a [a,a]\nassign z [a,a] (\n",
        RunError::BadLine { line: 4 },
    ),
    (
        b"run 1\nrole a\nuser\nrevoke a [a,a]\n",
        RunError::BadLine { line: 4 },
    ),
    (
        b"run 1\nrole a\nact weak 0 0 a\nuser\n",
        RunError::BadLine { line: 4 },
    ),
    (
        b"run 1\nrole a\ngoal a\nact weak 0 0 a\n",
        RunError::BadLine { line: 4 },
    ),
    (
        b"run 1\nrole a\ngoal a\nrun 1\n",
        RunError::BadLine { line: 4 },
    ),
    (b"run 1\nrole a\nend\n", RunError::BadLine { line: 3 }),
    (
        b"run 1\nrole a\nuser a\nend\n",
        RunError::BadLine { line: 4 },
    ),
    (
        b"run 1\nrole a\ngoal a\nend\n\n",
        RunError::BadLine { line: 5 },
    ),
    (
        b"run 1\nrole a\ngoal a\nend\nend\n",
        RunError::BadLine { line: 5 },
    ),
    (
        b"run 1\nrole a\ngoal a\nend\nx",
        RunError::BadLine { line: 5 },
    ),
    (
        b"run 1\nrole a\ngoal a\nend \n",
        RunError::BadLine { line: 4 },
    ),
    // Lines without a form.
    (
        b"run 1\nrole a\nassign a [a,a]\n",
        RunError::BadLine { line: 3 },
    ),
    (
        b"run 1\nrole a\nassign a  [a,a] any\n",
        RunError::BadLine { line: 3 },
    ),
    (
        b"run 1\nrole a\nassign a [a,a any\n",
        RunError::BadLine { line: 3 },
    ),
    (
        b"run 1\nrole a\nassign a [a;a] any\n",
        RunError::BadLine { line: 3 },
    ),
    (
        b"run 1\nrole a\nassign a [,a] any\n",
        RunError::BadLine { line: 3 },
    ),
    (
        b"run 1\nrole a\nassign a [a,a,a] any\n",
        RunError::BadLine { line: 3 },
    ),
    (
        b"run 1\nrole a\nassign a [a,a] \xff\n",
        RunError::BadLine { line: 3 },
    ),
    (
        b"run 1\nrole a\nrevoke a {a,a}\n",
        RunError::BadLine { line: 3 },
    ),
    (
        b"run 1\nrole a\nrevoke a [a,a] \n",
        RunError::BadLine { line: 3 },
    ),
    (b"run 1\nrole a\nuser \n", RunError::BadLine { line: 3 }),
    (b"run 1\nrole a\nuser a  a\n", RunError::BadLine { line: 3 }),
    (b"run 1\nrole a\nuser z a!\n", RunError::BadLine { line: 3 }),
    (
        b"run 1\nrole a\nact Weak 0 0 a\n",
        RunError::BadLine { line: 3 },
    ),
    (
        b"run 1\nrole a\nact weak 0 0\n",
        RunError::BadLine { line: 3 },
    ),
    (
        b"run 1\nrole a\nact weak 00 0 a\n",
        RunError::BadLine { line: 3 },
    ),
    (
        b"run 1\nrole a\nact weak 0 +1 z\n",
        RunError::BadLine { line: 3 },
    ),
    (
        b"run 1\nrole a\nact weak 4294967296 0 a\n",
        RunError::BadLine { line: 3 },
    ),
    (
        b"run 1\nrole a\nact weak 0 10000000000 z\n",
        RunError::BadLine { line: 3 },
    ),
    (b"run 1\nrole a\ngoal\n", RunError::BadLine { line: 3 }),
    (b"run 1\nrole a\ngoals a\n", RunError::BadLine { line: 3 }),
    // Names of no role, and then conditions.
    (
        b"run 1\nrole a\nassign z [a,a] (\n",
        RunError::UnknownRole { line: 3 },
    ),
    (
        b"run 1\nrole a\nassign a [z,a] (\n",
        RunError::UnknownRole { line: 3 },
    ),
    (
        b"run 1\nrole a\nrevoke a (a,any)\n",
        RunError::UnknownRole { line: 3 },
    ),
    (
        b"run 1\nrole a\nuser a z\ngoal (\n",
        RunError::UnknownRole { line: 3 },
    ),
    (
        b"run 1\nrole a\nact weak 0 0 z\n",
        RunError::UnknownRole { line: 3 },
    ),
    (
        b"run 1\nrole a\nassign a [a,a] \n",
        RunError::Cond {
            line: 3,
            error: CondError::Unexpected { place: 0 },
        },
    ),
    (
        b"run 1\nrole a\nassign a [a,a] not\n",
        RunError::Cond {
            line: 3,
            error: CondError::Unexpected { place: 3 },
        },
    ),
    (
        b"run 1\nrole a\ngoal \n",
        RunError::Cond {
            line: 3,
            error: CondError::Unexpected { place: 0 },
        },
    ),
    (
        b"run 1\nrole a\ngoal a\r\n",
        RunError::Cond {
            line: 3,
            error: CondError::Unexpected { place: 1 },
        },
    ),
    (
        b"run 1\nrole a\ngoal a\ngoal a or z\n",
        RunError::Cond {
            line: 4,
            error: CondError::UnknownRole { place: 5 },
        },
    ),
    // Right lines alone.
    (b"run 1\nrole a\n", RunError::Unended),
    (b"run 1\nrole a\nuser a\ngoal a\n", RunError::Unended),
    (b"run 1\nrole a\ngoal a\nend", RunError::Unended),
    (b"run 1\nrole a\ngoal a\n\xff", RunError::Unended),
    (b"run 1\nrole a\nedge", RunError::Unended),
];

/// For each kind of line but `role` what stands before it, the line, and how many of it there may be.
const KINDS: [(&[u8], &[u8], usize); 6] = [
    (b"run 1\nrole a\nrole b\n", b"edge a b\n", MOST_EDGES),
    (b"run 1\nrole a\n", b"assign a [a,a] any\n", MOST_RULES),
    (
        b"run 1\nrole a\nassign a [a,a] any\n",
        b"revoke a [a,a)\n",
        MOST_RULES,
    ),
    (b"run 1\nrole a\n", b"user a\n", MOST_USERS),
    (b"run 1\nrole a\n", b"act weak 0 0 a\n", MOST_ACTS),
    (b"run 1\nrole a\n", b"goal a\n", MOST_GOALS),
];

#[test]
fn a_right_text_is_read(rt: HostRuntime) -> Result<(), Fail> {
    for text in &RIGHT {
        let read = read_run(rt.alloc(), text);
        assert_eq!(rt; read.err(), None, "{text:?}");
    }
    Ok(())
}

#[test]
fn a_wrong_text_is_refused_with_its_first_fault(rt: HostRuntime) -> Result<(), Fail> {
    for (text, fault) in &WRONG {
        let read = read_run(rt.alloc(), text);
        assert_eq!(rt; read.err(), Some(*fault), "{text:?}");
    }
    Ok(())
}

/// The head, then the line so many times, then one more line and the end.
fn text_of(
    alloc: Global,
    head: &[u8],
    line: &[u8],
    count: usize,
    more: &[u8],
) -> Result<Vec<u8>, AllocError> {
    let mut text = Vec::from_slice(alloc, head)?;
    for _ in 0..count {
        text.extend_from_slice(line)?;
    }
    text.extend_from_slice(more)?;
    Ok(text)
}

#[test]
fn a_kind_of_line_is_used_up(rt: HostRuntime) -> Result<(), Fail> {
    let alloc = rt.alloc();
    for (head, line, most) in &KINDS {
        let lines = head.iter().filter(|b| **b == b'\n').count();
        assert!(rt; lines < 10 && *most < 1_000_000);
        let text = text_of(alloc, head, line, *most, b"goal a\nend\n")?;
        let goal = *most == MOST_GOALS;
        let used_up = RunError::TooMany {
            line: (lines + most + 1) as u32,
        };
        let read = read_run(alloc, &text).err();
        assert_eq!(rt; read, if goal { Some(used_up) } else { None }, "{line:?}");
        let text = text_of(alloc, head, line, most + 1, b"goal (\nend\n")?;
        assert_eq!(rt; read_run(alloc, &text).err(), Some(used_up), "{line:?}");
    }
    Ok(())
}

#[test]
fn the_251st_role_is_too_many(rt: HostRuntime) -> Result<(), Fail> {
    let alloc = rt.alloc();
    let mut text = Vec::from_slice(alloc, b"run 1\n")?;
    for role in 0..MOST_ROLES {
        text.extend_from_slice(format!(in alloc; "role r{role}\n")?.as_bytes())?;
    }
    assert_eq!(rt; read_run(alloc, &text).err(), Some(RunError::Unended));
    text.extend_from_slice(b"role any\nrole \n")?;
    assert_eq!(rt;
        read_run(alloc, &text).err(),
        Some(RunError::TooMany { line: 252 })
    );
    Ok(())
}

#[test]
fn what_is_read_is_what_the_text_says(rt: HostRuntime) -> Result<(), Fail> {
    let run = read_run(rt.alloc(), MIXED)?;
    let order = run.policy.order();
    assert_eq!(rt; order.count(), 2);
    assert_eq!(rt; order.name(0), "adm");
    assert_eq!(rt; order.name(1), "c");
    assert_eq!(rt; order.edges().len(), 0);
    let assign = run.policy.assign();
    assert_eq!(rt; assign.len(), 1);
    assert_eq!(rt; assign[0].admin, 0);
    assert!(rt; matches!(assign[0].cond, Cond::Lacks(0)));
    let both = Range {
        low: 1,
        high: 1,
        low_open: false,
        high_open: false,
    };
    assert_eq!(rt; assign[0].range, both);
    let own = CanRevoke {
        admin: 0,
        range: Range {
            low: 0,
            high: 0,
            low_open: false,
            high_open: false,
        },
    };
    assert_eq!(rt; run.policy.revoke(), [own].as_slice());
    assert_eq!(rt; run.start.len(), 2);
    assert!(rt; run.start.iter().all(|set| set.has(0) && !set.has(1)));
    let acts = [
        Act {
            kind: ActKind::Weak,
            admin: 1,
            target: 0,
            role: 0,
        },
        Act {
            kind: ActKind::Assign,
            admin: 1,
            target: 0,
            role: 1,
        },
    ];
    assert_eq!(rt; run.acts.as_slice(), acts.as_slice());
    assert_eq!(rt; run.goal.len(), 1);
    assert!(rt; matches!(run.goal[0], Cond::Has(1)));
    Ok(())
}
