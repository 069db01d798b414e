//! A reader of std as a source.
ghost use Rattle.std.specs.Prelude.{◌≡◌, IsErrOf};
ghost use Rattle.std.specs.Io.{ReadsAtMost};
ghost use Rattle.std.specs.Io.KnownBytes.{ReadConsumes};
ghost use Rattle.cny_base.specs.Flow.{source_state, HasCause, KeepsRest, faults_after};

use crate::fault::FlowFault;
use crate::flow::Source;
use std::io::{Error, ErrorKind, Read};
use std::marker::Model;

/// The most bytes that are read at once.
const PIECE: usize = 65_536;

/// A reader of std, with a count of its errors, each of which is a fault, but that a signal interrupts a read: it is made again then.
/// It tells what the reader tells.
#[derive(Drop)]
pub struct StdSource<R> {
    reader: R,
    faults: u64,
}

impl<R> Model for StdSource<R> {
    ghost use Rattle.cny_base.specs.Standard.{StdSourceState};

    ghost Value = { StdSourceState R };

    ghost view = { λ a. record { reader = a.reader; faults = a.faults } };
}

impl<R: Read> StdSource<R> {
    /// A source of the reader's bytes that hasn't failed yet.
    pub fn new(reader: R) -> Self
        ensures made { result ≡ record { reader = reader; faults = 0 } }
        ensures tells { source_state ⟦<StdSource<R> as Source>⟧.source result
            ≡ record { left = R.remaining reader; faults = 0 } }
    {
        StdSource { reader, faults: 0 }
    }
}

impl<R: Read> Source for StdSource<R> {
    ghost source = { record { left = λ s. R.remaining s.reader; faults = λ s. s.faults } };

    fn take(&mut self, buf: &mut [u8]) -> Result<usize, FlowFault>
        ensures bound { ReadsAtMost result buf.new }
        ensures moved { ReadConsumes (R.remaining self.old.reader) (R.remaining self.new.reader)
            result buf.new }
        ensures rest { KeepsRest result buf.old buf.new }
        ensures cause { HasCause self.old.faults self.new.faults result }
        ensures no_memory { ¬ IsErrOf result FlowFault.Memory }
        ensures counted { self.new.faults ≡ faults_after result self.old.faults }
    {
        // A reader may write anywhere in the buffer that it is lent, so it isn't lent the caller's.
        let mut piece = [0; PIECE];
        let room = buf.len().min(piece.len());
        match read_some(&mut self.reader, &mut piece[..room]) {
            Ok(count) => {
                buf[..count].copy_from_slice(&piece[..count]);
                Ok(count)
            }
            Err(_) => {
                self.faults = self.faults.saturating_add(1);
                Err(FlowFault::Failed)
            }
        }
    }
}

// Reads some bytes. A read that a signal interrupts has read nothing, and is made again.
fn read_some<R: Read>(reader: &mut R, buf: &mut [u8]) -> Result<usize, Error>
    ensures bound { ReadsAtMost result buf.new }
    ensures moved { ReadConsumes (R.remaining reader.old) (R.remaining reader.new) result buf.new }
{
    for _ in 0..u64::MAX {
        match reader.read(buf) {
            Ok(count) => return Ok(count),
            Err(e) if e.kind() == ErrorKind::Interrupted => {}
            Err(e) => return Err(e),
        }
    }
    Err(Error::from(ErrorKind::Interrupted))
}
