//! `check QUESTION CERT`: whether a certificate shows what it says of a question.

ghost use Rattle.std.specs.Prelude.{ℕ, ◌≡◌, ◌⊎◌, ◌<◌, ◌≤◌, true, length, IfOk, List, IsTrue, ◌↔◌, Ok};
ghost use Rattle.question_text.specs.Values as questions;
ghost use Rattle.question_text.specs.Rules.{KeepsRules};
ghost use Rattle.cert_text.specs.Certificates.{plain_of, IsCertificate};
ghost use Rattle.cert_text.specs.Drafts.{StandsFor};
ghost use Rattle.cert_text.specs.declared.cert_error.CertError.TheVariants as cert_errors;
ghost use Rattle.arbac_desk.specs.Statuses.{IsStatus};
ghost use Rattle.arbac_desk.specs.Answers.{TellsFaults, HasFetched, HasMissed};
ghost use Rattle.arbac_desk.specs.CheckAnswers.{IsCert, IsReplyToCert, IsReplyWith, IsReplyFor, IsCheckReply};
ghost use Rattle.arbac_desk.specs.CheckAnswers.{HasAskedBoth, IsCheckAnswer};

mod texts;

use crate::documents::is_memory;
use crate::reply::{Reply, reply_malformed, reply_unread, say_reply};
use crate::status::{DONE, REFUSED, Status};
use crate::{MOST_CERT_BYTES, MOST_QUESTION_BYTES};
use cert_check::{Judgement, check, closed_list_law, judgement_laws};
use cert_text::{Cert, CertError, read_cert};
use desk_ports::{Shelf, ShelfError, Sink};
use desk_texts::TooLong;
use question_text::{Question, read_question};
use std::alloc::{AllocError, Global};
use texts::{accepted, refused};

/// The reply to a certificate that was read from the bytes.
fn judge(alloc: Global, question: &Question, bytes: &[u8], cert: &Cert) -> Result<Reply, AllocError>
    requires keeps { KeepsRules (questions.plain_of question.now) }
    requires roles { IsCertificate (length question.now.policy.order.names) (plain_of cert.now) }
    requires is_cert { IsCert question.now bytes.now (plain_of cert.now) }
    ensures { IfOk result (λ reply. (name : List ℕ) → IsReplyToCert question.now name bytes.now reply.status reply.text.items) }
{
    closed_list_law();
    judgement_laws();
    match check(alloc, question, cert)? {
        Judgement::Accepted => {
            let text = accepted(alloc, cert)?;
            Ok(Reply { status: DONE, text })
        }
        Judgement::Refused(why) => {
            let text = refused(alloc, question.policy.order(), &why)?;
            Ok(Reply {
                status: REFUSED,
                text,
            })
        }
    }
}

fn is_cert_memory(error: CertError) -> bool
    ensures { IsTrue result ↔ (error ≡ cert_errors.Memory) }
{
    matches!(error, CertError::Memory)
}

/// The reply to the bytes of the certificate's file of this name.
fn reply_to_cert(
    alloc: Global,
    question: &Question,
    name: &str,
    bytes: &[u8],
) -> Result<Reply, AllocError>
    requires { KeepsRules (questions.plain_of question.now) }
    ensures { IfOk result (λ reply. IsReplyToCert question.now name.now bytes.now reply.status reply.text.items) }
{
    if bytes.len() > MOST_CERT_BYTES {
        return reply_malformed(alloc, name, &TooLong);
    }
    match read_cert(alloc, question.policy.order(), bytes) {
        Ok(cert) => judge(alloc, question, bytes, &cert),
        Err(error) => {
            if is_cert_memory(error) {
                return Err(AllocError);
            }
            reply_malformed(alloc, name, &error)
        }
    }
}

/// The reply to the certificate's file of this name.
fn reply_from_cert<H: Shelf>(
    alloc: Global,
    question: &Question,
    name: &str,
    shelf: &mut H,
) -> Result<Reply, AllocError>
    requires { KeepsRules (questions.plain_of question.now) }
    ensures asked { HasFetched (H.seen shelf.old) (H.seen shelf.new) ⊎ HasMissed (H.seen shelf.old) (H.seen shelf.new) name.now }
    ensures reply { IfOk result (λ reply. IsReplyWith question.now name.now (H.seen shelf.old) (H.seen shelf.new) reply.status reply.text.items) }
{
    match shelf.fetch(name, MOST_CERT_BYTES as u32) {
        Ok(bytes) => reply_to_cert(alloc, question, name, &bytes),
        Err(ShelfError::Failed) => reply_unread(alloc, name),
        Err(ShelfError::Memory) => Err(AllocError),
    }
}

/// The reply to the bytes of the question's file.
fn reply_to_question<H: Shelf>(
    alloc: Global,
    question: &str,
    bytes: &[u8],
    cert: &str,
    shelf: &mut H,
) -> Result<Reply, AllocError>
    ensures asked { HasFetched (H.seen shelf.old) (H.seen shelf.new) ⊎ HasMissed (H.seen shelf.old) (H.seen shelf.new) cert.now }
    ensures reply { IfOk result (λ reply.
        IsReplyFor question.now bytes.now cert.now (H.seen shelf.old) (H.seen shelf.new) reply.status reply.text.items) }
{
    if bytes.len() > MOST_QUESTION_BYTES {
        return reply_malformed(alloc, question, &TooLong);
    }
    match read_question(alloc, bytes, true) {
        Ok(asked) => reply_from_cert(alloc, &asked, cert, shelf),
        Err(error) => {
            if is_memory(&error) {
                return Err(AllocError);
            }
            reply_malformed(alloc, question, &error)
        }
    }
}

/// The reply to the two files of these names.
fn reply_from<H: Shelf>(
    alloc: Global,
    question: &str,
    cert: &str,
    shelf: &mut H,
) -> Result<Reply, AllocError>
    ensures asked { HasAskedBoth question.now cert.now (H.seen shelf.old) (H.seen shelf.new) }
    ensures reply { IfOk result (λ reply.
        IsCheckReply question.now cert.now (H.seen shelf.old) (H.seen shelf.new) reply.status reply.text.items) }
{
    match shelf.fetch(question, MOST_QUESTION_BYTES as u32) {
        Ok(bytes) => reply_to_question(alloc, question, &bytes, cert, shelf),
        Err(ShelfError::Failed) => reply_unread(alloc, question),
        Err(ShelfError::Memory) => Err(AllocError),
    }
}

/// Answers `check` over the files of these names.
pub fn answer<H: Shelf, O: Sink>(
    alloc: Global,
    question: &str,
    cert: &str,
    shelf: &mut H,
    out: &mut O,
) -> Status
    ensures answer { IsCheckAnswer question.now cert.now (H.seen shelf.old) (H.seen shelf.new) (O.seen out.old) (O.seen out.new) result }
    ensures faults { TellsFaults (H.seen shelf.old) (H.seen shelf.new) (O.seen out.old) (O.seen out.new) result }
    ensures known { IsStatus result }
{
    let reply = reply_from(alloc, question, cert, shelf);
    say_reply(out, reply)
}
