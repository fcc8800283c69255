//! `ask QUESTION`: whether users can ever come to meet a goal on their roles.

ghost use Rattle.std.specs.Prelude.{ℕ, ◌≡◌, ◌≢◌, ◌⊎◌, ◌≤◌, IfOk, IfErr, List};
ghost use Rattle.desk_texts.specs.Faults.{question_fault};
ghost use Rattle.question_text.specs.declared.question_error.QuestionError.TheVariants as question_errors;
ghost use Rattle.arbac_desk.specs.declared.TheConstants.{MOST_LIMIT, MOST_WORKERS};
ghost use Rattle.arbac_desk.specs.Statuses as statuses;
ghost use Rattle.arbac_desk.specs.Statuses.{IsStatus};
ghost use Rattle.arbac_desk.specs.Answers.{TellsFaults, HasFetched, HasMissed};
ghost use Rattle.arbac_desk.specs.Questions.{IsNoQuestion};
ghost use Rattle.arbac_desk.specs.AskAnswers.{IsAnswerFor, IsFaultAnswer, IsAskedText, IsReplyToDocument, IsAskReply, IsAskAnswer};

use crate::MOST_QUESTION_BYTES;
use crate::documents::is_memory;
use crate::reply::{Reply, reply_malformed, reply_unread, say_reply};
use crate::status::{REACHABLE, Status, UNDECIDED, UNREACHABLE};
use back_search::{Gate, NoGate};
use cert_check::closed_list_law;
use desk_ports::{Asked, Shelf, ShelfError, Sink};
use desk_texts::{TooLong, put_question_fault};
use question_answer::{Answer, Kind, answer_question};
use question_text::{QuestionError, read_question};
use std::alloc::{AllocError, Global};

/// The status that tells so.
fn status_of(kind: Kind) -> Status
    ensures { result ≡ statuses.status_of kind }
{
    match kind {
        Kind::Reachable => REACHABLE,
        Kind::Unreachable => UNREACHABLE,
        Kind::Undecided => UNDECIDED,
    }
}

/// The certificate of the document's question, searched with at most so many recorded requirements, by so many workers. The
/// error is the document's first fault, or want of memory.
fn answer_document<G: Gate>(
    alloc: Global,
    document: &[u8],
    limit: u32,
    workers: u32,
    gate: &G,
) -> Result<Answer, QuestionError>
    requires some { 1 ≤ limit }
    requires few { limit ≤ MOST_LIMIT }
    ensures answer { IfOk result (λ told. IsAnswerFor limit document.now told.kind told.text.items) }
    ensures fault { IfErr result (λ error. error ≢ question_errors.Memory → IsNoQuestion document.now error) }
{
    closed_list_law();
    let question = read_question(alloc, document, true)?;
    let told = answer_question(alloc, question, limit, workers, gate)?;
    Ok(told)
}

/// The text of the fault.
fn fault_text(alloc: Global, error: &QuestionError) -> Result<Vec<u8>, AllocError>
    ensures { IfOk result (λ text. text.items ≡ question_fault error.now) }
{
    let mut text = Vec::new(alloc);
    put_question_fault(alloc, &mut text, error)?;
    Ok(text)
}

/// The answer where a document has this first fault, or memory is wanted.
fn fault_answer(alloc: Global, error: &QuestionError) -> Asked
    ensures { IsFaultAnswer error.now result }
{
    if is_memory(error) {
        return Asked::Memory;
    }
    match fault_text(alloc, error) {
        Ok(text) => Asked::Malformed(text),
        Err(_) => Asked::Memory,
    }
}

/// The answer to a question document: the text of its certificate, searched with at most so many recorded requirements by so
/// many workers, each of whom passes the gate in each round; or the text of its first fault.
pub fn ask_document<G: Gate>(
    alloc: Global,
    document: &[u8],
    limit: u32,
    workers: u32,
    gate: &G,
) -> Asked
    requires some { 1 ≤ limit }
    requires few { limit ≤ MOST_LIMIT }
    requires worker { 1 ≤ workers }
    requires workers { workers ≤ MOST_WORKERS }
    ensures { IsAskedText limit document.now result }
{
    match answer_document(alloc, document, limit, workers, gate) {
        Ok(told) => Asked::Answer(told.text),
        Err(error) => fault_answer(alloc, &error),
    }
}

/// The reply to the bytes of the file of this name.
fn reply_to(
    alloc: Global,
    name: &str,
    bytes: &[u8],
    limit: u32,
    workers: u32,
) -> Result<Reply, AllocError>
    requires some { 1 ≤ limit }
    requires few { limit ≤ MOST_LIMIT }
    ensures { IfOk result (λ reply. IsReplyToDocument limit name.now bytes.now reply.status reply.text.items) }
{
    if bytes.len() > MOST_QUESTION_BYTES {
        return reply_malformed(alloc, name, &TooLong);
    }
    match answer_document(alloc, bytes, limit, workers, &NoGate) {
        Ok(told) => Ok(Reply {
            status: status_of(told.kind),
            text: told.text,
        }),
        Err(error) => {
            if is_memory(&error) {
                return Err(AllocError);
            }
            reply_malformed(alloc, name, &error)
        }
    }
}

/// The reply to the file of this name.
fn reply_from<H: Shelf>(
    alloc: Global,
    name: &str,
    limit: u32,
    workers: u32,
    shelf: &mut H,
) -> Result<Reply, AllocError>
    requires some { 1 ≤ limit }
    requires few { limit ≤ MOST_LIMIT }
    ensures asked { HasFetched (H.seen shelf.old) (H.seen shelf.new) ⊎ HasMissed (H.seen shelf.old) (H.seen shelf.new) name.now }
    ensures reply { IfOk result (λ reply. IsAskReply limit name.now (H.seen shelf.old) (H.seen shelf.new) reply.status reply.text.items) }
{
    match shelf.fetch(name, MOST_QUESTION_BYTES as u32) {
        Ok(bytes) => reply_to(alloc, name, &bytes, limit, workers),
        Err(ShelfError::Failed) => reply_unread(alloc, name),
        Err(ShelfError::Memory) => Err(AllocError),
    }
}

/// Answers `ask` over the file of this name.
pub fn answer<H: Shelf, O: Sink>(
    alloc: Global,
    question: &str,
    limit: u32,
    workers: u32,
    shelf: &mut H,
    out: &mut O,
) -> Status
    requires some { 1 ≤ limit }
    requires few { limit ≤ MOST_LIMIT }
    ensures answer { IsAskAnswer question.now limit (H.seen shelf.old) (H.seen shelf.new) (O.seen out.old) (O.seen out.new) result }
    ensures faults { TellsFaults (H.seen shelf.old) (H.seen shelf.new) (O.seen out.old) (O.seen out.new) result }
    ensures known { IsStatus result }
{
    let reply = reply_from(alloc, question, limit, workers, shelf);
    say_reply(out, reply)
}
