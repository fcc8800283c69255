//! `make N`: a sample question, searched.

ghost use Rattle.std.specs.Prelude.{◌≡◌, ◌≤◌, ◌++◌, IfOk, OnOk};
ghost use Rattle.sample_question.specs.declared.TheConstants.{MOST_SIZE};
ghost use Rattle.arbac_desk.specs.declared.TheConstants.{MOST_LIMIT};
ghost use Rattle.arbac_desk.specs.Statuses.{IsStatus};
ghost use Rattle.arbac_desk.specs.MakeAnswers.{end_text, made_line, IsMadeReply, IsMakeAnswer};

use crate::reply::{Reply, say_reply};
use crate::status::{DONE, Status};
use back_search::{NoGate, Outcome};
use desk_ports::Sink;
use question_answer::{pose, search_posed};
use sample_question::sample;
use std::alloc::{AllocError, Global};
use text_pieces::{put, put_count};

/// How the search ended, after so many recorded requirements.
fn put_end(alloc: Global, text: &mut Vec<u8>, outcome: &Outcome) -> Result<(), AllocError>
    ensures { OnOk result (text.new.items ≡ text.old.items ++ end_text outcome.now) }
{
    match outcome {
        Outcome::Found {
            choice: _,
            acts,
            recorded,
        } => {
            put_count(alloc, text, ", recorded ", *recorded as u64)?;
            put_count(alloc, text, ", reachable by ", acts.len() as u64)?;
            put(text, " acts\n")
        }
        Outcome::Closed { needs, recorded } => {
            put_count(alloc, text, ", recorded ", *recorded as u64)?;
            put_count(alloc, text, ", unreachable by ", needs.len() as u64)?;
            put(text, " needs\n")
        }
        Outcome::Limit { recorded, next: _ } => {
            put_count(alloc, text, ", recorded ", recorded.len() as u64)?;
            put(text, ", undecided\n")
        }
    }
}

/// The line of a sample of so many roles and rules whose search ended so.
fn line(
    alloc: Global,
    size: u32,
    roles: u16,
    rules: usize,
    outcome: &Outcome,
) -> Result<Vec<u8>, AllocError>
    ensures { IfOk result (λ text. text.items ≡ made_line size roles rules outcome.now) }
{
    let mut text = Vec::new(alloc);
    put_count(alloc, &mut text, "make ", size as u64)?;
    put_count(alloc, &mut text, ": roles ", roles as u64)?;
    put_count(alloc, &mut text, ", rules ", rules as u64)?;
    put_end(alloc, &mut text, outcome)?;
    Ok(text)
}

/// The reply of the sample's search.
fn reply_of(alloc: Global, size: u32, limit: u32, workers: u32) -> Result<Reply, AllocError>
    requires some { 1 ≤ size }
    requires few { size ≤ MOST_SIZE }
    ensures { IfOk result (λ reply. IsMadeReply size limit reply.status reply.text.items) }
{
    let question = sample(alloc, size)?;
    let roles = question.policy.order().count();
    let rules = question.policy.assign().len();
    let posed = pose(alloc, question)?;
    let outcome = search_posed(alloc, &posed, limit, workers, &NoGate)?;
    let text = line(alloc, size, roles, rules, &outcome)?;
    Ok(Reply { status: DONE, text })
}

/// Answers `make` for this size.
pub fn answer<O: Sink>(alloc: Global, size: u32, limit: u32, workers: u32, out: &mut O) -> Status
    requires some { 1 ≤ size }
    requires few { size ≤ MOST_SIZE }
    ensures answer { IsMakeAnswer size limit (O.seen out.old) (O.seen out.new) result }
    ensures known { IsStatus result }
{
    let reply = reply_of(alloc, size, limit, workers);
    say_reply(out, reply)
}
