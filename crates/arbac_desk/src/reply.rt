//! Replies, and how they are written.

ghost use Rattle.std.specs.Prelude.{ℕ, ◌≡◌, List, IfOk};
ghost use Rattle.desk_texts.specs.Lines.{malformed_line, read_fault_line};
ghost use Rattle.arbac_desk.specs.Answers.{Says, IsOf};

use crate::status::{MALFORMED, NO_MEMORY, READ_FAULT, Status, WRITE_FAULT};
use desk_ports::{Sink, SinkError};
use desk_texts::{Fault, malformed, read_fault};
use std::alloc::{AllocError, Global};

/// A text that is to be written, and the status that tells that it was.
#[derive(Drop)]
pub struct Reply {
    pub status: Status,
    pub text: Vec<u8>,
}

/// The reply where the text of the file of this name has this fault.
pub fn reply_malformed<F: Fault>(alloc: Global, name: &str, fault: &F) -> Result<Reply, AllocError>
    ensures status { IfOk result (λ reply. reply.status ≡ 3) }
    ensures text { IfOk result (λ reply. reply.text.items ≡ malformed_line name.now (F.written fault.now)) }
{
    let text = malformed(alloc, name, fault)?;
    Ok(Reply {
        status: MALFORMED,
        text,
    })
}

/// The reply where the file of this name couldn't be read.
pub fn reply_unread(alloc: Global, name: &str) -> Result<Reply, AllocError>
    ensures status { IfOk result (λ reply. reply.status ≡ 4) }
    ensures text { IfOk result (λ reply. reply.text.items ≡ read_fault_line name.now) }
{
    let text = read_fault(alloc, name)?;
    Ok(Reply {
        status: READ_FAULT,
        text,
    })
}

/// Writes the text, and gives the status where the sink took it all.
pub fn say<O: Sink>(out: &mut O, status: Status, text: &[u8]) -> Status
    ensures { Says (λ told all. (told ≡ status) × (all ≡ text.now)) (O.seen out.old) (O.seen out.new) result }
{
    match out.put(text) {
        Ok(()) => status,
        Err(SinkError::Failed) => WRITE_FAULT,
        Err(SinkError::Memory) => NO_MEMORY,
    }
}

/// Writes the reply, unless there was no memory for one.
pub fn say_reply<O: Sink>(out: &mut O, reply: Result<Reply, AllocError>) -> Status
    ensures { Says (IsOf reply) (O.seen out.old) (O.seen out.new) result }
{
    match reply {
        Ok(reply) => say(out, reply.status, &reply.text),
        Err(_) => NO_MEMORY,
    }
}
