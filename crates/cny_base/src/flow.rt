//! Where bytes come from and where they go to.
ghost use Rattle.std.specs.Io.{ReadsAtMost};
ghost use Rattle.std.specs.Io.KnownBytes.{ReadConsumes};
ghost use Rattle.cny_base.specs.Flow.{SourceModel, SinkModel, HasCause, KeepsRest, GiveAppends};

use crate::fault::FlowFault;

/// Where bytes come from. It may tell the bytes that are left, and it counts its faults.
pub trait Source {
    /// What the source means: the bytes that are left, where it tells them, and how often it failed.
    ghost source: { SourceModel Self };

    /// Moves the first of the bytes left to the front of `buf`, and answers how many. These are none only
    /// where nothing is left or `buf` is empty.
    ///
    /// `Failed` comes only where the count of faults rose. After an error nothing is moved.
    fn take(&mut self, buf: &mut [u8]) -> Result<usize, FlowFault>
        ensures bound { ReadsAtMost result buf.new }
        ensures moved { ReadConsumes (source.left self.old) (source.left self.new) result buf.new }
        ensures rest { KeepsRest result buf.old buf.new }
        ensures cause { HasCause (source.faults self.old) (source.faults self.new) result };
}

/// Where bytes go to. It may tell the bytes that were written, and it counts its faults.
pub trait Sink {
    /// What the sink means: the bytes that were written, where it tells them, and how often it failed.
    ghost sink: { SinkModel Self };

    /// Appends all bytes.
    ///
    /// `Failed` comes only where the count of faults rose, and then a first part of the bytes was appended.
    /// After `Memory` nothing was.
    fn give(&mut self, bytes: &[u8]) -> Result<(), FlowFault>
        ensures given { GiveAppends (sink.written self.old) (sink.written self.new) result bytes.now }
        ensures cause { HasCause (sink.faults self.old) (sink.faults self.new) result };
}
