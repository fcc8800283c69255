//! Questions and certificates as texts, each with the judgement as a line.

mod questions;
mod rows;

use crate::{Judgement, Why, check};
use cert_text::read_cert;
use question_text::read_question;
use questions::{BARRED, ENG, GIVERS, HEIRS, MANY, MIX, ONE, ORS, SELF, TWO};
use rows::{
    BEGUN, CLOSED, LACKS, OF_BARRED, OF_ENG, OF_GIVERS, OF_HEIRS, OF_MANY, OF_MIX_1, OF_MIX_2,
    OF_ONE, OF_ORS, OF_SELF, OF_TWO, PLANS_OF_MIX_2, STEPS_OF_GIVERS,
};
use std::alloc::{AllocError, Global};
use std::process::Abort;
use std::test::Fail;

fn why_line(alloc: Global, why: &Why) -> Result<String, AllocError> {
    match why {
        Why::NotDrawn { user } => format!(in alloc; "NotDrawn {user}"),
        Why::StepRefused { place, part } => format!(in alloc; "StepRefused {place} {part:?}"),
        Why::GoalNotMet => String::from_str(alloc, "GoalNotMet"),
        Why::GoalUncovered { goal } => format!(in alloc; "GoalUncovered {goal}"),
        Why::Open { need, obligation } => format!(in alloc; "Open {need} {obligation}"),
        Why::StartsMet { need, choice } => format!(in alloc; "StartsMet {need} {choice:?}"),
        Why::NotDerived { place } => format!(in alloc; "NotDerived {place}"),
        Why::Repeated { place, earlier } => format!(in alloc; "Repeated {place} {earlier}"),
        Why::WrongCount { count } => format!(in alloc; "WrongCount {count}"),
    }
}

/// The judgement of the certificate with these lines between its first and its last one.
fn judged(alloc: Global, question: &str, lines: &str) -> Result<String, Fail> {
    let Ok(question) = read_question(alloc, question.as_bytes(), true) else {
        return Err("the question can't be read".into());
    };
    let text = format!(in alloc; "arbac certificate 1\n{lines}end\n")?;
    let Ok(cert) = read_cert(alloc, question.policy.order(), text.as_bytes()) else {
        return Err("a certificate can't be read".into());
    };
    match check(alloc, &question, &cert)? {
        Judgement::Accepted => Ok(String::from_str(alloc, "accepted")?),
        Judgement::Refused(why) => Ok(why_line(alloc, &why)?),
    }
}

/// Each row's certificate has its judgement.
fn each_judged(rt: &impl Abort, alloc: Global, question: &str, rows: &str) -> Result<(), Fail> {
    for row in rows.split(";\n") {
        let (lines, told) = row.split_once(" => ").ok_or("a row has no judgement")?;
        let line = judged(alloc, question, lines)?;
        assert_eq!(rt; line.as_str(), told, "{lines}");
    }
    Ok(())
}

/// The question whose last profile has at most so many users.
fn with_most(alloc: Global, question: &str, most: u32) -> Result<String, AllocError> {
    format!(in alloc; "{question}most = {most}\n")
}

#[test]
fn plans_are_judged(rt: HostRuntime) -> Result<(), Fail> {
    let alloc = rt.alloc();
    let mix = with_most(alloc, MIX, 2)?;
    each_judged(&rt, alloc, &mix, PLANS_OF_MIX_2)?;
    each_judged(&rt, alloc, SELF, OF_SELF)?;
    each_judged(&rt, alloc, ONE, OF_ONE)?;
    each_judged(&rt, alloc, TWO, OF_TWO)
}

#[test]
fn needs_are_judged(rt: HostRuntime) -> Result<(), Fail> {
    let alloc = rt.alloc();
    let mix = with_most(alloc, MIX, 1)?;
    each_judged(&rt, alloc, &mix, OF_MIX_1)?;
    let many = with_most(alloc, MANY, 1)?;
    each_judged(&rt, alloc, &many, OF_MANY)?;
    let givers = with_most(alloc, GIVERS, 1)?;
    each_judged(&rt, alloc, &givers, OF_GIVERS)
}

#[test]
fn needs_of_other_policies_are_judged(rt: HostRuntime) -> Result<(), Fail> {
    let alloc = rt.alloc();
    each_judged(&rt, alloc, ORS, OF_ORS)?;
    each_judged(&rt, alloc, HEIRS, OF_HEIRS)?;
    each_judged(&rt, alloc, BARRED, OF_BARRED)?;
    each_judged(&rt, alloc, ENG, OF_ENG)
}

#[test]
fn steps_are_judged(rt: HostRuntime) -> Result<(), Fail> {
    let alloc = rt.alloc();
    let mix = with_most(alloc, MIX, 2)?;
    each_judged(&rt, alloc, &mix, OF_MIX_2)?;
    let givers = with_most(alloc, GIVERS, 0)?;
    each_judged(&rt, alloc, &givers, STEPS_OF_GIVERS)
}

/// More users are wanted than the test of the index takes.
#[test]
fn long_needs_are_judged(rt: HostRuntime) -> Result<(), Fail> {
    let alloc = rt.alloc();
    let mix = with_most(alloc, MIX, 1)?;
    let mut lacks = String::new(alloc);
    for _ in 0..129 {
        lacks.push_str(LACKS)?;
    }
    let open = format!(in alloc; "{BEGUN}{lacks}{LACKS}need\nuser hit c\n")?;
    let line = judged(alloc, &mix, &open)?;
    assert_eq!(rt; line.as_str(), "Open 0 0");
    let longer = format!(in alloc; "{open}need\n{lacks}user hit adm\n")?;
    let line = judged(alloc, &mix, &longer)?;
    assert_eq!(rt; line.as_str(), "Open 1 1");
    let closed = format!(in alloc; "{CLOSED}need\n{lacks}{LACKS}")?;
    let line = judged(alloc, &mix, &closed)?;
    assert_eq!(rt; line.as_str(), "accepted");
    Ok(())
}
