//! A sink: a place that takes bytes.
ghost use Rattle.std.specs.Prelude.{ℕ, ◌≡◌, List, Option, IsErrOf, OnOk, OnErr};
ghost use Rattle.desk_ports.specs.Faults.{HasCause};
ghost use Rattle.desk_ports.specs.Sinks.{SinkView, Took, TookFront};
ghost use Rattle.desk_ports.specs.declared.sinks.SinkError.TheVariants.{Memory};

mod memory;
mod output;
#[cfg(test)]
mod tests;

pub use memory::MemSink;
pub use output::OutSink;
use std::alloc::AllocError;

/// Why a sink did not take all the bytes.
#[derive(Clone, Copy, Debug, PartialEq, Eq)]
pub enum SinkError {
    /// The sink's count of faults rose in this call.
    Failed,
    /// No memory was left.
    Memory,
}

impl From<AllocError> for SinkError {
    ghost from_gives = { λ _ e. e ≡ Memory };

    fn from(_: AllocError) -> SinkError {
        SinkError::Memory
    }
}

/// A place that takes bytes, one after the other.
pub trait Sink {
    /// The bytes that it took, where it tells them (no call changes whether it does), and how often it failed.
    ghost seen: { Self → SinkView };

    /// Takes all the bytes, or after an error a prefix of them.
    fn put(&mut self, bytes: &[u8]) -> Result<(), SinkError>
        ensures all { OnOk result (Took (seen self.old).taken (seen self.new).taken bytes.now) }
        ensures front { OnErr result (TookFront (seen self.old).taken (seen self.new).taken bytes.now) }
        ensures cause { HasCause (seen self.old).faults (seen self.new).faults
            (IsErrOf result SinkError.Failed) };
}
