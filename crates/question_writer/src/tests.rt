//! Questions that are read, and the texts that are written for them.
//!
//! `;` with the end of its line stands between the entries of a list, which is one text, since the check reads a list of
//! texts entry by entry.

mod lines;

use crate::write_question;
use lines::lines_of;
use question_text::{QuestionError, read_question};
use std::alloc::{AllocError, Global};
use std::process::Abort;
use std::test::Fail;

/// Texts that are written for their own questions, each with the lines of its question: `TEXT => LINES`. The second is an
/// engineering department of two projects, with its security officers.
const WRITTEN: &str = r#"version = 1
separate = false
roles = ["adm", "c"]
admin_roles = []
edges = []
goal = ["c"]
[[can_assign]]
admin = "adm"
condition = "not adm"
range = "[c,c]"
[[can_revoke]]
admin = "adm"
range = "[adm,adm]"
[[profile]]
roles = ["adm"]
most = 1
 => separate false
admins:
role adm
role c
assign 0 lacks 0 1 1 false false
revoke 0 0 0 false false
profile 1: 0
goal has 1
;
version = 1
separate = true
roles = ["E", "ED", "E1", "PE1", "QE1", "PL1", "E2", "PE2", "QE2", "PL2", "DIR", "SSO", "DSO", "PSO1", "PSO2"]
admin_roles = ["SSO", "DSO", "PSO1", "PSO2"]
edges = [["DIR", "PL1"], ["DIR", "PL2"], ["PL1", "PE1"], ["PL1", "QE1"], ["PE1", "E1"], ["QE1", "E1"], ["PL2", "PE2"], ["PL2", "QE2"], ["PE2", "E2"], ["QE2", "E2"], ["E1", "ED"], ["E2", "ED"], ["ED", "E"], ["SSO", "DSO"], ["DSO", "PSO1"], ["DSO", "PSO2"]]
goal = ["PL1"]
[[can_assign]]
admin = "SSO"
condition = "E"
range = "[ED,ED]"
[[can_assign]]
admin = "PSO1"
condition = "ED"
range = "[E1,E1]"
[[can_assign]]
admin = "PSO1"
condition = "E1 and not QE1"
range = "[PE1,PE1]"
[[can_assign]]
admin = "PSO1"
condition = "E1 and not PE1"
range = "[QE1,QE1]"
[[can_assign]]
admin = "PSO1"
condition = "PE1 and QE1"
range = "[PL1,PL1]"
[[can_assign]]
admin = "PSO2"
condition = "ED"
range = "[E2,E2]"
[[can_assign]]
admin = "PSO2"
condition = "E2 and not QE2"
range = "[PE2,PE2]"
[[can_assign]]
admin = "PSO2"
condition = "E2 and not PE2"
range = "[QE2,QE2]"
[[can_assign]]
admin = "PSO2"
condition = "PE2 and QE2"
range = "[PL2,PL2]"
[[can_revoke]]
admin = "PSO1"
range = "[E1,PL1)"
[[can_revoke]]
admin = "PSO2"
range = "[E2,PL2)"
[[can_assignp]]
admin = "PSO1"
condition = "E1"
range = "[PE1,PL1]"
[[can_revokep]]
admin = "PSO1"
range = "[E1,PL1]"
[[profile]]
roles = ["E"]
most = "any"
[[profile]]
roles = ["SSO"]
most = 1
 => separate true
admins: 11 12 13 14
role E
role ED
role E1
role PE1
role QE1
role PL1
role E2
role PE2
role QE2
role PL2
role DIR
role SSO
role DSO
role PSO1
role PSO2
edge 10 5
edge 10 9
edge 5 3
edge 5 4
edge 3 2
edge 4 2
edge 9 7
edge 9 8
edge 7 6
edge 8 6
edge 2 1
edge 6 1
edge 1 0
edge 11 12
edge 12 13
edge 12 14
assign 11 has 0 1 1 false false
assign 13 has 1 2 2 false false
assign 13 and 3 3 false false
assign 13 and 4 4 false false
assign 13 and 5 5 false false
assign 14 has 1 6 6 false false
assign 14 and 7 7 false false
assign 14 and 8 8 false false
assign 14 and 9 9 false false
revoke 13 2 5 false true
revoke 14 6 9 false true
assignp 13 has 2 3 5 false false
revokep 13 2 5 false false
profile any: 0
profile 1: 11
goal has 5
;
version = 1
separate = true
roles = ["E", "SSO", "PL1", "DSO"]
admin_roles = ["SSO", "DSO"]
edges = [["PL1", "E"], ["SSO", "DSO"]]
goal = ["PL1", "(E or PL1) and not E"]
[[can_assign]]
admin = "SSO"
condition = "any"
range = "(E,PL1]"
[[can_revoke]]
admin = "SSO"
range = "[E,PL1)"
[[can_assignp]]
admin = "DSO"
condition = "E or not PL1"
range = "[E,PL1]"
[[can_revokep]]
admin = "DSO"
range = "(E,PL1)"
[[profile]]
roles = ["E"]
most = "any"
[[profile]]
roles = []
most = 0
[[profile]]
roles = ["E", "SSO"]
most = 1000000
 => separate true
admins: 1 3
role E
role SSO
role PL1
role DSO
edge 2 0
edge 1 3
assign 1 any 0 2 true false
revoke 1 0 2 false true
assignp 3 or 0 2 false false
revokep 3 0 2 true true
profile any: 0
profile 0:
profile 1000000: 0 1
goal has 2
goal and
;
version = 1
separate = false
roles = ["a"]
admin_roles = []
edges = []
 => separate false
admins:
role a
"#;

/// What an administrator may do with two roles, and what both together are wanted for.
const TWO_ROLES: &str = r#"goal = ["a and b"]
[[can_assign]]
admin = "adm"
condition = "any"
range = "[a,a]"
[[can_assign]]
admin = "adm"
condition = "any"
range = "[b,b]"
[[profile]]
roles = ["adm"]
most = 1
"#;

/// Other texts, each with the one that is written for its question: `TEXT => WRITTEN`. In the second a set is listed out of
/// order, and the number of users is absent.
const REWRITTEN: &str = r#"version=2
separate=false
roles=['a']
exclusive=[]
 => version = 1
separate = false
roles = ["a"]
admin_roles = []
edges = []
;
# A set that is listed out of order, and no number of users.
goal = ['((a))']
version = 1
separate = false
roles = ['b', 'a']
admin_roles = ['a', 'b', 'a']
profile = [{roles = ['a', 'b', 'a']}]
 => version = 1
separate = false
roles = ["b", "a"]
admin_roles = ["b", "a"]
edges = []
goal = ["a"]
[[profile]]
roles = ["b", "a"]
most = "any"
;
version = 2
separate = false
roles = ['a', 'b', 'c']
exclusive = [['c', 'a'], ['a', 'b'], ['c', 'a']]
 => version = 2
separate = false
roles = ["a", "b", "c"]
admin_roles = []
edges = []
exclusive = [["c", "a"], ["a", "b"], ["c", "a"]]
"#;

/// The text of the two roles in a version, with these pairs.
fn two_roles(alloc: Global, version: u32, pairs: &str) -> Result<String, AllocError> {
    format!(in alloc;
        "version = {version}\nseparate = false\nroles = [\"adm\", \"a\", \"b\"]\nadmin_roles = []\nedges = []\n{pairs}{TWO_ROLES}"
    )
}

/// The lines of its question, with those of the pairs.
fn two_roles_lines(alloc: Global, pairs: &str) -> Result<String, AllocError> {
    format!(in alloc;
        "separate false\nadmins:\nrole adm\nrole a\nrole b\n{pairs}assign 0 any 1 1 false false\nassign 0 any 2 2 false false\nprofile 1: 0\ngoal and\n"
    )
}

/// The text that is written for the question that was read.
fn rewritten(alloc: Global, text: &str) -> Result<Vec<u8>, QuestionError> {
    let question = read_question(alloc, text.as_bytes(), false)?;
    let bytes = write_question(alloc, &question)?;
    Ok(bytes)
}

/// The text is read as a question of these lines, and is what is written for it.
fn read_and_written(rt: &impl Abort, alloc: Global, text: &str, lines: &str) -> Result<(), Fail> {
    let question = read_question(alloc, text.as_bytes(), false)?;
    let found = lines_of(alloc, &question)?;
    assert_eq!(rt; found.as_str(), lines, "{text}");
    let bytes = write_question(alloc, &question)?;
    assert_eq!(rt; bytes.as_slice(), text.as_bytes(), "{text}");
    Ok(())
}

#[test]
fn questions_are_read_and_written(rt: HostRuntime) -> Result<(), Fail> {
    let alloc = rt.alloc();
    for row in WRITTEN.split(";\n") {
        let (text, lines) = row.split_once(" => ").ok_or("a row has no lines")?;
        read_and_written(&rt, alloc, text, lines)?;
    }
    for (version, pairs, listed) in [
        (2, "exclusive = [[\"a\", \"b\"]]\n", "exclusive 1 2\n"),
        (1, "", ""),
    ] {
        let text = two_roles(alloc, version, pairs)?;
        let lines = two_roles_lines(alloc, listed)?;
        read_and_written(&rt, alloc, text.as_str(), lines.as_str())?;
    }
    Ok(())
}

#[test]
fn other_texts_are_written_anew(rt: HostRuntime) -> Result<(), Fail> {
    let alloc = rt.alloc();
    for row in REWRITTEN.split(";\n") {
        let (text, written) = row.split_once(" => ").ok_or("a row has no answer")?;
        let bytes = rewritten(alloc, text)?;
        assert_eq!(rt; bytes.as_slice(), written.as_bytes(), "{text}");
    }
    Ok(())
}
