//! The text of the certificate of a question.

ghost use Rattle.std.specs.Prelude.{◌≤◌, IfOk};
ghost use Rattle.question_text.specs.Values.{plain_of};
ghost use Rattle.question_text.specs.Rules.{KeepsRules};
ghost use Rattle.cert_text.specs.declared.TheConstants.{MOST_LIMIT};
ghost use Rattle.cert_check.specs.Judgements.{asked_by};
ghost use Rattle.question_answer.specs.Answers.{IsAnswerText};

use crate::NoMemory;
use crate::certificates::{Kind, certificate, kind_of};
use crate::posed::{pose, search_posed};
use back_search::Gate;
use cert_text::write_cert;
use question_text::Question;
use std::alloc::Global;

/// A certificate's text, and what it says.
#[derive(Drop)]
pub struct Answer {
    pub kind: Kind,
    pub text: Vec<u8>,
}

/// Searches the question, with at most so many recorded requirements, by so many workers, and writes the certificate of the
/// outcome. The error is want of memory.
pub fn answer_question<G: Gate>(
    alloc: Global,
    question: Question,
    limit: u32,
    workers: u32,
    gate: &G,
) -> Result<Answer, NoMemory>
    requires rules { KeepsRules (plain_of question) }
    requires some { 1 ≤ limit }
    requires few { limit ≤ MOST_LIMIT }
    ensures { IfOk result (λ told. IsAnswerText (asked_by question) limit told.kind told.text.items) }
{
    let posed = pose(alloc, question)?;
    let outcome = search_posed(alloc, &posed, limit, workers, gate)?;
    let cert = certificate(alloc, outcome, limit)?;
    let text = write_cert(alloc, posed.prepared.policy().order(), &cert)?;
    Ok(Answer {
        kind: kind_of(&cert),
        text,
    })
}
