//! Questions as documents, each with the text of its certificate.

use crate::{Kind, answer_question};
use back_search::NoGate;
use cert_text::MOST_LIMIT;
use question_text::read_question;
use std::alloc::Global;
use std::process::Abort;
use std::test::Fail;

/// Administrators give `c` to whoever is none of them, and take `adm`. The profile's greatest number is left out.
const MIX: &str = r#"version = 1
separate = false
roles = ["adm", "c"]
goal = ["c"]
[[can_assign]]
admin = "adm"
condition = "not adm"
range = "[c,c]"
[[can_revoke]]
admin = "adm"
range = "[adm,adm]"
[[profile]]
roles = ["adm"]
"#;

/// Administrators give `a` to everybody, and there are none.
const NOBODY: &str = r#"version = 1
separate = false
roles = ["adm", "a"]
goal = ["a"]
[[can_assign]]
admin = "adm"
condition = "any"
range = "[a,a]"
"#;

/// The same with an administrator, where two users are to have `a`.
const BOTH: &str = r#"version = 1
separate = false
roles = ["adm", "a"]
goal = ["a", "a"]
[[can_assign]]
admin = "adm"
condition = "any"
range = "[a,a]"
[[profile]]
roles = ["adm"]
"#;

/// A question, the greatest number of its last profile, the limit, and the certificate.
#[derive(Clone, Copy)]
struct Case {
    question: &'static str,
    most: &'static str,
    limit: u32,
    kind: Kind,
    want: &'static str,
}

const CASES: [Case; 6] = [
    Case {
        question: MIX,
        most: "most = 1\n",
        limit: 4_096,
        kind: Kind::Unreachable,
        want: r#"arbac certificate 1
unreachable
need
user hit c
need
user lack adm
user hit adm
need
user
user hit adm
end
"#,
    },
    Case {
        question: MIX,
        most: "most = 2\n",
        limit: 4_096,
        kind: Kind::Reachable,
        want: r#"arbac certificate 1
reachable
start 0
start 0
act weak 1 0 adm
act assign 1 0 c
end
"#,
    },
    Case {
        question: MIX,
        most: "most = 2\n",
        limit: 1,
        kind: Kind::Undecided,
        want: r#"arbac certificate 1
undecided 1
need goal 0
user hit c
next pre 0 assign 0 0 c 0 new
user lack adm
user hit adm
end
"#,
    },
    Case {
        question: MIX,
        most: "most = 1\n",
        limit: 2,
        kind: Kind::Undecided,
        want: r#"arbac certificate 1
undecided 2
need goal 0
user hit c
need pre 0 assign 0 0 c 0 new
user lack adm
user hit adm
next pre 1 weak 0 adm 0 1
user
user hit adm
end
"#,
    },
    Case {
        question: BOTH,
        most: "most = 1\n",
        limit: 2,
        kind: Kind::Undecided,
        want: r#"arbac certificate 1
undecided 2
need goal 0
user hit a
user hit a
need pre 0 assign 0 0 a 0 1
user
user hit adm hit a
next pre 0 assign 0 0 a 0 self
user hit adm
user hit a
end
"#,
    },
    Case {
        question: NOBODY,
        most: "",
        limit: 4_096,
        kind: Kind::Unreachable,
        want: r#"arbac certificate 1
unreachable
need
user hit adm,a
end
"#,
    },
];

/// What is answered to the question, by so many workers.
fn answered(rt: &impl Abort, alloc: Global, case: &Case, workers: u32) -> Result<(), Fail> {
    let text = format!(in alloc; "{}{}", case.question, case.most)?;
    let Ok(question) = read_question(alloc, text.as_bytes(), true) else {
        return Err("the question can't be read".into());
    };
    assert!(rt; 1 <= case.limit && case.limit <= MOST_LIMIT);
    let answer = answer_question(alloc, question, case.limit, workers, &NoGate)?;
    assert_eq!(rt; str::from_utf8(&answer.text)?, case.want);
    assert_eq!(rt; answer.kind, case.kind);
    Ok(())
}

#[test]
fn each_question_has_its_certificate(rt: HostRuntime) -> Result<(), Fail> {
    let alloc = rt.alloc();
    for case in &CASES {
        answered(&rt, alloc, case, 1)?;
    }
    answered(&rt, alloc, &CASES[0], 4)
}
