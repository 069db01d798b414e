//! A writer of std as a sink.
ghost use Rattle.std.specs.Prelude.{◌≡◌, ◌≤◌, IsErrOf, length, take};
ghost use Rattle.std.specs.Io.KnownBytes.{Appends};
ghost use Rattle.cny_base.specs.Flow.{sink_state, HasCause, GiveAppends, faults_after};

use crate::fault::FlowFault;
use crate::flow::Sink;
use std::io::{ErrorKind, Write};
use std::marker::Model;

/// A writer of std, with a count of its errors, each of which is a fault, but that a signal interrupts a write: it is made again
/// then. A write that takes nothing of a piece that isn't empty counts as an error. It tells what the writer tells, and never
/// flushes it.
#[derive(Drop)]
pub struct StdSink<W> {
    writer: W,
    faults: u64,
}

impl<W> Model for StdSink<W> {
    ghost use Rattle.cny_base.specs.Standard.{StdSinkState};

    ghost Value = { StdSinkState W };

    ghost view = { λ a. record { writer = a.writer; faults = a.faults } };
}

impl<W: Write> StdSink<W> {
    /// A sink over the writer that hasn't failed yet.
    pub fn new(writer: W) -> Self
        ensures made { result ≡ record { writer = writer; faults = 0 } }
        ensures tells { sink_state ⟦<StdSink<W> as Sink>⟧.sink result
            ≡ record { written = W.contents writer; faults = 0 } }
    {
        StdSink { writer, faults: 0 }
    }
}

impl<W: Write> Sink for StdSink<W> {
    ghost sink = { record { written = λ s. W.contents s.writer; faults = λ s. s.faults } };

    fn give(&mut self, bytes: &[u8]) -> Result<(), FlowFault>
        ensures given { GiveAppends (W.contents self.old.writer) (W.contents self.new.writer)
            result bytes.now }
        ensures cause { HasCause self.old.faults self.new.faults result }
        ensures no_memory { ¬ IsErrOf result FlowFault.Memory }
        ensures counted { self.new.faults ≡ faults_after result self.old.faults }
    {
        let mut rest = bytes;
        while !rest.is_empty() {
            let count = write_part(&mut self.writer, rest);
            if count == 0 {
                self.faults = self.faults.saturating_add(1);
                return Err(FlowFault::Failed);
            }
            rest = &rest[count..];
        }
        Ok(())
    }
}

// Writes some first part of the bytes, and answers how many: 0 after an error. A write that a signal interrupts has written
// nothing, and is made again.
fn write_part<W: Write>(writer: &mut W, bytes: &[u8]) -> usize
    ensures bound { result ≤ length bytes.now }
    ensures written { Appends (W.contents writer.old) (W.contents writer.new) (take result bytes.now) }
{
    for _ in 0..u64::MAX {
        match writer.write(bytes) {
            Ok(count) => return count,
            Err(e) if e.kind() == ErrorKind::Interrupted => {}
            Err(_) => break,
        }
    }
    0
}
