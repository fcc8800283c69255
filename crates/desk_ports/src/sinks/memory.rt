//! A sink in memory.
ghost use Rattle.std.specs.Prelude.{ℕ, ◌≡◌, [], ◌++◌, List, Some, IsErrOf, OnOk, OnErr};
ghost use Rattle.desk_ports.specs.Faults.{HasCause, fresh_plan, Fails, Goes};

use super::{Sink, SinkError};
use crate::fault_plan::FaultPlan;
use std::alloc::Global;
use std::marker::Model;

/// A sink that keeps the bytes in memory, some calls of which are to fail.
#[derive(Drop)]
pub struct MemSink {
    taken: Vec<u8>,
    plan: FaultPlan,
}

impl Model for MemSink {
    ghost use Rattle.desk_ports.specs.Sinks.{SinkState};

    ghost Value = { SinkState };

    ghost view = { λ s. record { taken = s.taken.items; plan = s.plan } };
}

impl MemSink {
    /// A sink that took nothing yet. `fail`: which calls fail, by number from 1.
    pub fn new(alloc: Global, fail: Vec<u64>) -> MemSink
        ensures taken { result.taken ≡ [] }
        ensures plan { result.plan ≡ fresh_plan fail.items }
    {
        MemSink {
            taken: Vec::new(alloc),
            plan: FaultPlan::new(fail),
        }
    }

    /// All the bytes that it took.
    pub fn taken(&self) -> &[u8]
        ensures { result.now ≡ self.now.taken }
    {
        &self.taken
    }
}

impl Sink for MemSink {
    ghost seen = { λ s. record { taken = Some s.taken; faults = s.plan.faults } };

    /// A call that finds no memory isn't counted.
    fn put(&mut self, bytes: &[u8]) -> Result<(), SinkError>
        ensures all { OnOk result (self.new.taken ≡ self.old.taken ++ bytes.now) }
        ensures none { OnErr result (self.new.taken ≡ self.old.taken) }
        ensures cause { HasCause self.old.plan.faults self.new.plan.faults
            (IsErrOf result SinkError.Failed) }

        // It fails exactly at the calls of its list.
        ensures fails { IsErrOf result SinkError.Failed → Fails self.old.plan self.new.plan }
        ensures goes { OnOk result (Goes self.old.plan self.new.plan) }
        ensures memory { IsErrOf result SinkError.Memory → self.new ≡ self.old }
    {
        self.taken.reserve(bytes.len())?;
        if self.plan.count_call() {
            return Err(SinkError::Failed);
        }
        self.taken.extend_from_slice(bytes)?;
        Ok(())
    }
}
