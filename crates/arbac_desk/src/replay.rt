//! `replay RUN`: whether acts are steps, one by one, to a population that meets a goal.

ghost use Rattle.std.specs.Prelude.{ℕ, ◌≡◌, ◌⊎◌, ◌<◌, ◌≤◌, ◌^◌, length, IfOk, List, IsTrue, ◌↔◌};
ghost use Rattle.list_words.specs.Lists.{Each};
ghost use Rattle.arbac_policy.specs.Truth.{term_of, IsKnown};
ghost use Rattle.policy_text.specs.Runs.{StandsFor, plain_of, IsForUsers};
ghost use Rattle.policy_text.specs.declared.run_error.RunError.TheVariants as runs;
ghost use Rattle.arbac_desk.specs.Statuses.{IsStatus};
ghost use Rattle.arbac_desk.specs.Answers.{TellsFaults, HasFetched, HasMissed};
ghost use Rattle.arbac_desk.specs.ReplayAnswers.{EndsAt, IsReplyTo, IsReplayReply, IsReplayAnswer};

mod texts;

use crate::MOST_RUN_BYTES;
use crate::reply::{Reply, reply_malformed, reply_unread, say_reply};
use crate::status::{DONE, REFUSED, Status};
use desk_ports::{Shelf, ShelfError, Sink};
use desk_texts::TooLong;
use plan_replay::{Replayed, goal_met, replay};
use policy_text::{Run, RunError, read_run};
use role_order::RoleSet;
use std::alloc::{AllocError, Global};
use texts::{done, stopped, unmet};

/// The reply where all acts were accepted, and led to these sets.
fn reply_at_end(
    alloc: Global,
    bytes: &[u8],
    run: &Run,
    sets: &[RoleSet],
) -> Result<Reply, AllocError>
    requires known { Each (λ cond. IsKnown (length run.now.policy.order.names) (term_of cond)) run.now.goal.items }
    requires goals { length run.now.goal.items < 2 ^ 32 }
    requires users { length sets.now < 2 ^ 32 }
    requires ends { EndsAt bytes.now run.now sets.now }
    ensures { IfOk result (λ reply. (name : List ℕ) → IsReplyTo name bytes.now reply.status reply.text.items) }
{
    match goal_met(alloc, &run.policy, sets, &run.goal)? {
        Some(users) => {
            let text = done(alloc, run.policy.order(), sets, &users)?;
            Ok(Reply { status: DONE, text })
        }
        None => {
            let text = unmet(alloc, run.policy.order(), sets)?;
            Ok(Reply {
                status: REFUSED,
                text,
            })
        }
    }
}

/// The reply to a run that was read from the bytes.
fn reply_to_run(alloc: Global, bytes: &[u8], run: &Run) -> Result<Reply, AllocError>
    requires few { length bytes.now ≤ MOST_RUN_BYTES }
    requires known { Each (λ cond. IsKnown (length run.now.policy.order.names) (term_of cond)) run.now.goal.items }
    requires goals { length run.now.goal.items < 2 ^ 32 }
    requires acts { length run.now.acts.items < 2 ^ 32 }
    requires users { length run.now.start.items < 2 ^ 32 }
    requires stands { StandsFor bytes.now (plain_of run.now) }
    requires for_users { IsForUsers run.now.policy }
    ensures { IfOk result (λ reply. (name : List ℕ) → IsReplyTo name bytes.now reply.status reply.text.items) }
{
    match replay(alloc, &run.policy, &run.start, &run.acts)? {
        Replayed::Stopped { place, part } => {
            let text = stopped(alloc, run.policy.order(), place, part)?;
            Ok(Reply {
                status: REFUSED,
                text,
            })
        }
        Replayed::Ended(sets) => reply_at_end(alloc, bytes, run, &sets),
    }
}

fn is_memory(error: RunError) -> bool
    ensures { IsTrue result ↔ (error ≡ runs.Memory) }
{
    matches!(error, RunError::Memory)
}

/// The reply to the bytes of the file of this name.
fn reply_to(alloc: Global, name: &str, bytes: &[u8]) -> Result<Reply, AllocError>
    ensures { IfOk result (λ reply. IsReplyTo name.now bytes.now reply.status reply.text.items) }
{
    if bytes.len() > MOST_RUN_BYTES {
        return reply_malformed(alloc, name, &TooLong);
    }
    match read_run(alloc, bytes) {
        Ok(run) => reply_to_run(alloc, bytes, &run),
        Err(error) => {
            if is_memory(error) {
                return Err(AllocError);
            }
            reply_malformed(alloc, name, &error)
        }
    }
}

/// The reply to the file of this name.
fn reply_from<H: Shelf>(alloc: Global, name: &str, shelf: &mut H) -> Result<Reply, AllocError>
    ensures asked { HasFetched (H.seen shelf.old) (H.seen shelf.new) ⊎ HasMissed (H.seen shelf.old) (H.seen shelf.new) name.now }
    ensures reply { IfOk result (λ reply. IsReplayReply name.now (H.seen shelf.old) (H.seen shelf.new) reply.status reply.text.items) }
{
    match shelf.fetch(name, MOST_RUN_BYTES as u32) {
        Ok(bytes) => reply_to(alloc, name, &bytes),
        Err(ShelfError::Failed) => reply_unread(alloc, name),
        Err(ShelfError::Memory) => Err(AllocError),
    }
}

/// Answers `replay` over the file of this name.
pub fn answer<H: Shelf, O: Sink>(alloc: Global, run: &str, shelf: &mut H, out: &mut O) -> Status
    ensures answer { IsReplayAnswer run.now (H.seen shelf.old) (H.seen shelf.new) (O.seen out.old) (O.seen out.new) result }
    ensures faults { TellsFaults (H.seen shelf.old) (H.seen shelf.new) (O.seen out.old) (O.seen out.new) result }
    ensures known { IsStatus result }
{
    let reply = reply_from(alloc, run, shelf);
    say_reply(out, reply)
}
