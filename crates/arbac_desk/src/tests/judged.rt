//! `check` over a shelf and a sink in memory: certificates of small questions, other texts, and calls that fail.

use super::{text_of, words_of};
use crate::{MOST_QUESTION_BYTES, arbac_desk};
use desk_ports::{MemShelf, MemSink};
use std::alloc::{AllocError, Global};
use std::process::Abort;
use std::test::Fail;

/// Who has `adm` may give `c` to those who haven't `adm`, and take `adm`; behind it stands how many start with `adm`.
const MIXED: &str = r#"version = 1
separate = false
roles = ["adm", "c"]
goal = ["c"]
[[can_assign]]
admin = "adm"
condition = "not adm"
range = "[c,c]"
[[can_revoke]]
admin = "adm"
range = "[adm,adm]"
[[profile]]
roles = ["adm"]
most = "#;

/// Who has `adm` may give `a` to those who have it already.
const GIVEN_TWICE: &str = r#"version = 1
separate = false
roles = ["adm", "a"]
goal = ["a"]
[[can_assign]]
admin = "adm"
condition = "a"
range = "[a,a]"
[[profile]]
roles = ["adm"]
"#;

/// Who has `adm` may give `a` to those who have `d`, which nobody is given.
const OUT_OF_REACH: &str = r#"version = 1
separate = false
roles = ["adm", "a", "b", "d"]
goal = ["b"]
[[can_assign]]
admin = "adm"
condition = "d"
range = "[a,a]"
[[profile]]
roles = ["adm"]
"#;

/// Behind the first line of a certificate text, one user with `adm`: texts with the status and what is written.
const OF_ONE: &str = r#"unreachable
need
user hit c
need
user lack adm
user hit adm
need
user
user hit adm
end
 => 0
accepted unreachable
;
unreachable
need
end
 => 21
refused StartsMet need 0 choice -
;
unreachable
need
user lack adm
user hit adm
need
user
user hit adm
end
 => 21
refused GoalUncovered goal 0
;
unreachable
need
user hit c
need
user lack adm
user hit adm
end
 => 21
refused Open need 1 obligation 0
;
reachable
start 0
start 0
act weak 1 0 adm
act assign 1 0 c
end
 => 21
refused NotDrawn user 1
"#;

/// The same with two such users.
const OF_TWO: &str = r#"reachable
start 0
start 0
act weak 1 0 adm
act assign 1 0 c
end
 => 0
accepted reachable
;
reachable
start 0
start 0
act weak 1 0 adm
end
 => 21
refused GoalNotMet
;
undecided 1
need goal 0
user hit c
next pre 0 assign 0 0 c 0 new
user lack adm
user hit adm
end
 => 0
accepted undecided
;
undecided 2
need goal 0
user hit c
next pre 0 assign 0 0 c 0 new
user lack adm
user hit adm
end
 => 21
refused WrongCount 1
;
undecided 1
need goal 0
user hit adm
next pre 0 assign 0 0 c 0 new
user lack adm
user hit adm
end
 => 21
refused NotDerived need 0
;
undecided 1
need goal 0
user hit c
next goal 0
user hit c
end
 => 21
refused Repeated need 1 by 0
;
undecided 1
need goal 0
user hit c
next pre 0 assign 0 0 c 0 new
user lack adm
user hit adm
 => 3
malformed c.txt: Unended
;
reachable
act weak 0 0 d
end
 => 3
malformed c.txt: UnknownRole 3
"#;

/// The same with the role that is given twice.
const OF_GIVEN_TWICE: &str = r#"reachable
start 0
act assign 0 0 a
end
 => 21
refused StepRefused act 0 NoCondition a rule 0
"#;

/// The same with the role out of reach: what is met before an act of a third user isn't in the list.
const OF_OUT_OF_REACH: &str = r#"unreachable
need
user hit b
need
user hit a
user hit d
need
user hit adm hit d
user hit d
end
 => 21
refused Open need 1 obligation 2
"#;

const WORDS: &str = "check q.toml c.txt";

/// The status of these words over the two texts, and behind a line feed what is written.
fn answer_to(
    alloc: Global,
    words: &str,
    question: Vec<u8>,
    cert: Vec<u8>,
    shelf_fails: u64,
) -> Result<Vec<u8>, AllocError> {
    let files = vec![in alloc;
        (String::from_str(alloc, "q.toml")?, question),
        (String::from_str(alloc, "c.txt")?, cert),
    ]?;
    let mut shelf = MemShelf::new(alloc, files, vec![in alloc; shelf_fails]?);
    let mut sink = MemSink::new(alloc, Vec::new(alloc));
    let status = arbac_desk(alloc, &words_of(alloc, words)?, &mut shelf, &mut sink);
    let mut answer = Vec::from_slice(alloc, format!(in alloc; "{status}\n")?.as_bytes())?;
    answer.extend_from_slice(sink.taken())?;
    Ok(answer)
}

/// Under the question, each row's certificate has its answer.
fn each_judged(
    rt: &impl Abort,
    alloc: Global,
    question: &str,
    most: &str,
    rows: &str,
) -> Result<(), Fail> {
    for row in rows.split(";\n") {
        let (rest, told) = row.split_once(" => ").ok_or("a row has no answer")?;
        let question = text_of(alloc, question, most.as_bytes())?;
        let cert = text_of(alloc, "arbac certificate 1\n", rest.as_bytes())?;
        let answer = answer_to(alloc, WORDS, question, cert, 0)?;
        assert_eq!(rt; answer.as_slice(), told.as_bytes(), "{rest}");
    }
    Ok(())
}

#[test]
fn each_certificate_has_its_answer(rt: HostRuntime) -> Result<(), Fail> {
    let alloc = rt.alloc();
    for (question, most, rows) in [
        (MIXED, "1\n", OF_ONE),
        (MIXED, "2\n", OF_TWO),
        (GIVEN_TWICE, "", OF_GIVEN_TWICE),
        (OUT_OF_REACH, "", OF_OUT_OF_REACH),
    ] {
        each_judged(&rt, alloc, question, most, rows)?;
    }
    Ok(())
}

/// A question beside an empty certificate, the number of the fetch that fails, and the answer.
const OTHERS: [(&str, u64, &str); 6] = [
    (MIXED, 0, "3\nmalformed q.toml: NotToml\n"),
    (
        "version = 1\nseparate = false\nroles = [\"a\"]\n",
        0,
        "3\nmalformed q.toml: Missing goal\n",
    ),
    (GIVEN_TWICE, 0, "3\nmalformed c.txt: Unended\n"),
    (GIVEN_TWICE, 1, "4\nread fault: q.toml\n"),
    (GIVEN_TWICE, 2, "4\nread fault: c.txt\n"),
    ("goal = []", 2, "3\nmalformed q.toml: Missing version\n"),
];

#[test]
fn texts_that_arent_read_are_told(rt: HostRuntime) -> Result<(), Fail> {
    let alloc = rt.alloc();
    for (question, shelf_fails, told) in OTHERS {
        let question = text_of(alloc, question, b"")?;
        let answer = answer_to(alloc, WORDS, question, Vec::new(alloc), shelf_fails)?;
        assert_eq!(rt; answer.as_slice(), told.as_bytes(), "at {told}");
    }
    Ok(())
}

#[test]
fn a_question_that_is_too_long_is_malformed(rt: HostRuntime) -> Result<(), Fail> {
    let alloc = rt.alloc();
    let question = vec![in alloc; b' '; MOST_QUESTION_BYTES + 1]?;
    let answer = answer_to(alloc, WORDS, question, Vec::new(alloc), 0)?;
    assert_eq!(rt;
        answer.as_slice(),
        "3\nmalformed q.toml: TooLong\n".as_bytes()
    );
    Ok(())
}
