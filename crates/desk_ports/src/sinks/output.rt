//! A sink over a writer of the system, as standard output.
ghost use Rattle.std.specs.Prelude.{ℕ, ◌≡◌, List, take, Option, None, Err, OnOk, OnErr, IsErrOf, MatchBool};
ghost use Rattle.std.specs.Io.KnownBytes.{Appends};
ghost use Rattle.desk_ports.specs.Faults.{HasCause};
ghost use Rattle.desk_ports.specs.Sinks.{AppendsFront};

use super::{Sink, SinkError};
use std::io::Write;
use std::marker::Model;

/// Any writer. As a sink it tells nothing of what the writer took.
#[derive(Drop)]
pub struct OutSink<W: Write + Drop> {
    writer: W,
    faults: u64,
}

impl<W: Write + Drop> Model for OutSink<W> {
    ghost use Rattle.desk_ports.specs.Sinks.{OutState};

    ghost Value = { OutState };

    ghost view = { λ s. record { written = W.contents s.writer; faults = s.faults } };
}

impl<W: Write + Drop> OutSink<W> {
    /// A sink that hasn't failed yet.
    pub fn new(writer: W) -> OutSink<W>
        ensures written { result.written ≡ W.contents writer }
        ensures faults { result.faults ≡ 0 }
    {
        OutSink { writer, faults: 0 }
    }
}

/// Writes all the bytes, and answers whether the writer took them. A write that takes none ends it.
fn write_whole<W: Write>(writer: &mut W, bytes: &[u8]) -> bool
    ensures { MatchBool result (Appends (W.contents writer.old) (W.contents writer.new) bytes.now)
        (AppendsFront (W.contents writer.old) (W.contents writer.new) bytes.now) }
{
    let mut rest = bytes;
    while !rest.is_empty() {
        match writer.write(rest) {
            Ok(count) if count > 0 => rest = &rest[count..],
            _ => return false,
        }
    }
    true
}

impl<W: Write + Drop> Sink for OutSink<W> {
    ghost seen = { λ s. record { taken = None; faults = s.faults } };

    /// Each error of the writer is a fault, and so is a write that takes nothing.
    fn put(&mut self, bytes: &[u8]) -> Result<(), SinkError>
        ensures cause { HasCause self.old.faults self.new.faults
            (IsErrOf result SinkError.Failed) }

        // It takes no memory.
        ensures never { ¬ (result ≡ Err SinkError.Memory) }

        // Where the writer tells what it holds, it took the bytes, or after an error a prefix.
        ensures written { OnOk result (Appends self.old.written self.new.written bytes.now) }
        ensures front { OnErr result (AppendsFront self.old.written self.new.written bytes.now) }
    {
        if write_whole(&mut self.writer, bytes) {
            return Ok(());
        }
        self.faults = self.faults.saturating_add(1);
        Err(SinkError::Failed)
    }
}
