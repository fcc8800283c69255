//! What the desk keeps, and changes of it.

ghost use Rattle.std.specs.Prelude.{◌≡◌, IfOk};
ghost use Rattle.desk_records.specs.Changes.{last_of_row};

use crate::decisions::Decision;
use crate::names::copy_names;
use crate::requests::Request;
use profile_set::{Name, NoMemory, On};
use sqlite_items::Items;
use std::alloc::Global;

/// A kept user or permission, and the roles that it holds explicitly.
#[derive(Drop)]
pub struct Entity {
    pub on: On,
    pub name: Name,
    pub roles: Items<Name>,
}

impl Entity {
    /// A second value of the same entity.
    pub fn copy(&self, alloc: Global) -> Result<Entity, NoMemory>
        ensures { IfOk result (λ new. new ≡ self.now) }
    {
        Ok(Entity {
            on: self.on,
            name: self.name.copy(alloc)?,
            roles: copy_names(alloc, self.roles.as_slice())?,
        })
    }
}

/// A request that was decided, with its number in the journal, from 1.
#[derive(Drop)]
pub struct JournalRow {
    pub seq: u64,
    pub request: Request,
    pub decision: Decision,
    /// The edition of the policy under which it was decided.
    pub edition: u32,
}

impl JournalRow {
    /// A second value of the same row.
    pub fn copy(&self, alloc: Global) -> Result<JournalRow, NoMemory>
        ensures { IfOk result (λ new. new ≡ self.now) }
    {
        Ok(JournalRow {
            seq: self.seq,
            request: self.request.copy(alloc)?,
            decision: self.decision.copy(alloc)?,
            edition: self.edition,
        })
    }

    /// The row as its caller's last.
    pub fn as_last(&self, alloc: Global) -> Result<LastRow, NoMemory>
        ensures { IfOk result (λ last. last ≡ last_of_row self.now) }
    {
        Ok(LastRow {
            request: self.request.copy(alloc)?,
            decision: self.decision.copy(alloc)?,
        })
    }
}

/// The last decided request of its caller.
#[derive(Drop)]
pub struct LastRow {
    pub request: Request,
    pub decision: Decision,
}

impl LastRow {
    /// A second value of the same row.
    pub fn copy(&self, alloc: Global) -> Result<LastRow, NoMemory>
        ensures { IfOk result (λ new. new ≡ self.now) }
    {
        Ok(LastRow {
            request: self.request.copy(alloc)?,
            decision: self.decision.copy(alloc)?,
        })
    }
}

/// What is kept, but for the journal, of which only the number of rows is here.
#[derive(Drop)]
pub struct Tables {
    /// The bytes of the question document whose policy is in force, and none before the first.
    pub policy: Items<u8>,
    /// How many documents were kept, up to the last value.
    pub edition: u32,
    /// By place of enrolment, as the permissions are.
    pub users: Items<Entity>,
    pub permissions: Items<Entity>,
    pub journal_count: u64,
    /// Each caller's last decided request, by the caller's name.
    pub last: Items<LastRow>,
}

/// A change of what is kept.
#[derive(Drop)]
pub enum Change {
    /// The entity's new roles where there is one, the next row of the journal, which becomes its
    /// caller's last.
    Decide {
        entity: Option<Entity>,
        row: JournalRow,
    },
    /// Each entity in its place, or a new one last.
    Import {
        entities: Items<Entity>,
    },
    /// Another document; the edition is one more, unless it stands at its last value.
    Policy {
        document: Items<u8>,
    },
}
