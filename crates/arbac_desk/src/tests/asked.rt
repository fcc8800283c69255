//! `ask` and `make` over a shelf and a sink in memory, and `check` of what `ask` writes.

mod questions;

use super::{USAGE, words_of};
use crate::{arbac_desk, ask_document};
use back_search::NoGate;
use desk_ports::{Asked, MemShelf, MemSink};
use questions::{DEPARTMENT, LEAD, NO_LEAD, QUESTIONS};
use std::alloc::{AllocError, Global};
use std::process::Abort;
use std::test::Fail;

/// The status of the words over two texts, and behind a line feed what is written.
fn answer_to(
    alloc: Global,
    words: &str,
    question: &str,
    cert: &str,
) -> Result<Vec<u8>, AllocError> {
    let files = vec![in alloc;
        (
            String::from_str(alloc, "q")?,
            Vec::from_slice(alloc, question.as_bytes())?
        ),
        (
            String::from_str(alloc, "c")?,
            Vec::from_slice(alloc, cert.as_bytes())?
        ),
    ]?;
    let mut shelf = MemShelf::new(alloc, files, Vec::new(alloc));
    let mut sink = MemSink::new(alloc, Vec::new(alloc));
    let words = words_of(alloc, words)?;
    let status = arbac_desk(alloc, &words, &mut shelf, &mut sink);
    let mut answer = Vec::from_slice(alloc, format!(in alloc; "{status}\n")?.as_bytes())?;
    answer.extend_from_slice(sink.taken())?;
    Ok(answer)
}

/// The certificate's text and the word for it, behind the status of an answer.
fn cert_in(answer: &str) -> Option<(&str, &str)> {
    let (_, text) = answer.split_once('\n')?;
    let rest = text.strip_prefix("arbac certificate 1\n")?;
    let kind = rest.split(['\n', ' ']).next()?;
    Some((text, kind))
}

/// The words have their answer on the question and the certificate.
fn assert_told(
    rt: &impl Abort,
    alloc: Global,
    words: &str,
    question: &str,
    cert: &str,
    told: &str,
) -> Result<(), Fail> {
    let answer = answer_to(alloc, words, question, cert)?;
    assert_eq!(rt; answer.as_slice(), told.as_bytes(), "{words} of {question}");
    Ok(())
}

/// The checker accepts the certificate.
fn assert_accepted(
    rt: &impl Abort,
    alloc: Global,
    question: &str,
    cert: (&str, &str),
) -> Result<(), Fail> {
    let (text, kind) = cert;
    let told = format!(in alloc; "0\naccepted {kind}\n")?;
    assert_told(rt, alloc, "check q c", question, text, &told)
}

#[test]
fn each_question_has_its_answer(rt: HostRuntime) -> Result<(), Fail> {
    let alloc = rt.alloc();
    let mut question = String::new(alloc);
    let mut cert = String::new(alloc);
    for row in QUESTIONS.split(";\n") {
        let (document, rest) = row.split_once("=> ").ok_or("a row has no answer")?;
        let (words, told) = rest.split_once('\n').ok_or("an answer has no words")?;
        if !document.is_empty() {
            question = String::from_str(alloc, document)?;
        }
        assert_told(&rt, alloc, words, &question, &cert, told)?;
        if let Some(written) = cert_in(told) {
            cert = String::from_str(alloc, written.0)?;
            assert_accepted(&rt, alloc, &question, written)?;
        }
    }
    Ok(())
}

/// The department where one of the two roles is given to those of the other.
fn freer_department(alloc: Global) -> Result<String, Fail> {
    let (front, rest) = DEPARTMENT
        .split_once("E1 and not PE1")
        .ok_or("there is no such condition")?;
    Ok(format!(in alloc; "{front}E1{rest}")?)
}

#[test]
fn a_department_has_its_lead(rt: HostRuntime) -> Result<(), Fail> {
    let alloc = rt.alloc();
    assert_told(&rt, alloc, "ask q", DEPARTMENT, "", NO_LEAD)?;
    let freer = freer_department(alloc)?;
    assert_told(&rt, alloc, "ask q", &freer, "", LEAD)?;
    for (question, told) in [(DEPARTMENT, NO_LEAD), (&freer, LEAD)] {
        let cert = cert_in(told).ok_or("there is no certificate")?;
        assert_accepted(&rt, alloc, question, cert)?;
    }
    Ok(())
}

/// Words over no text, with the answer; `usage` stands for that of words of no written form.
const WORDS: [(&str, &str); 17] = [
    ("ask", "usage"),
    ("ask q c", "usage"),
    ("ask q --limit 0", "usage"),
    ("ask q --limit 1 --limit 1", "usage"),
    ("ask q --limit 65537", "usage"),
    ("ask q --workers 17", "usage"),
    ("ask q --workers 0", "usage"),
    ("ask q --port 80", "usage"),
    ("ask -- -q", "usage"),
    ("ask q --help", "usage"),
    ("check q c --limit 1", "usage"),
    ("replay q --workers 1", "usage"),
    ("make 0", "usage"),
    ("make 59", "usage"),
    ("make", "usage"),
    (
        "make 1",
        "0\nmake 1: roles 3, rules 2, recorded 3, reachable by 2 acts\n",
    ),
    ("ask q", "3\nmalformed q: Missing version\n"),
];

#[test]
fn each_list_of_words_has_its_answer(rt: HostRuntime) -> Result<(), Fail> {
    let alloc = rt.alloc();
    for (words, told) in WORDS {
        let answer = answer_to(alloc, words, "", "")?;
        if told == "usage" {
            let wanted = format!(in alloc; "2\n{USAGE}")?;
            assert_eq!(&rt; answer.as_slice(), wanted.as_bytes(), "{words}");
        } else {
            assert_eq!(&rt; answer.as_slice(), told.as_bytes(), "{words}");
        }
    }
    Ok(())
}

#[test]
fn a_sample_has_one_answer(rt: HostRuntime) -> Result<(), Fail> {
    let alloc = rt.alloc();
    let first = answer_to(alloc, "make 8 --limit 256", "", "")?;
    let again = answer_to(alloc, "make 8 --limit=256 --workers 16", "", "")?;
    assert_eq!(&rt; first.as_slice(), again.as_slice());
    assert!(rt; first.starts_with(b"0\nmake 8: roles 17, rules 16, recorded "));
    Ok(())
}

#[test]
fn a_document_is_asked_by_itself(rt: HostRuntime) -> Result<(), Fail> {
    let alloc = rt.alloc();
    let (_, text) = LEAD.split_once('\n').ok_or("an answer has no text")?;
    let freer = freer_department(alloc)?;
    match ask_document(alloc, freer.as_bytes(), 4_096, 2, &NoGate) {
        Asked::Answer(answer) => assert_eq!(&rt; answer.as_slice(), text.as_bytes()),
        _ => assert!(&rt; false, "a question has no answer"),
    }
    match ask_document(alloc, b"version = 3", 1, 1, &NoGate) {
        Asked::Malformed(fault) => assert_eq!(rt; fault.as_slice(), "WrongKind version".as_bytes()),
        _ => assert!(rt; false, "another version is answered"),
    }
    Ok(())
}
