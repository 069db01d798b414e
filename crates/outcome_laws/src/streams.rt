//! The streams of a call that is made: an input of given bytes, and outputs that keep what is written. No call of them fails.
ghost use Rattle.std.specs.Prelude.{◌≡◌, [], Some};
ghost use Rattle.std.specs.Io.{ReadsAtMost};
ghost use Rattle.std.specs.Io.KnownBytes.{ReadConsumes};
ghost use Rattle.cny_base.specs.Flow.{source_state, sink_state, HasCause, GiveAppends, KeepsRest};

use cny_base::{Bytes, Fails, FlowFault, MemorySink, MemorySource, Sink, Source};
use std::alloc::Global;
use std::marker::Model;

/// The input of a call: bytes that are taken from the front. It tells those that are left, and never fails.
#[derive(Drop)]
pub struct LineInput {
    source: MemorySource,
}

impl Model for LineInput {
    ghost use Rattle.std.specs.Prelude.{◌≡◌, ℕ, List, []};

    ghost Value = { List ℕ };

    ghost view = { λ a. a.source.left };

    ghost invariant = { λ a. a.source.fails ≡ [] };
}

impl LineInput {
    /// An input of these bytes.
    pub fn new(alloc: Global, bytes: Bytes) -> Self
        ensures { source_state ⟦<LineInput as Source>⟧.source result ≡ record { left = Some bytes; faults = 0 } }
    {
        let none_fail = Fails::new(Vec::new(alloc));
        LineInput {
            source: MemorySource::new(bytes, none_fail),
        }
    }
}

impl Source for LineInput {
    ghost source = { record { left = λ s. Some s; faults = λ s. 0 } };

    fn take(&mut self, buf: &mut [u8]) -> Result<usize, FlowFault>
        ensures bound { ReadsAtMost result buf.new }
        ensures moved { ReadConsumes (Some self.old) (Some self.new) result buf.new }
        ensures rest { KeepsRest result buf.old buf.new }
        ensures cause { HasCause 0 0 result }
    {
        self.source.take(buf)
    }
}

/// An output of a call: it keeps the bytes that are written, tells them, and never fails.
#[derive(Drop)]
pub struct KeptOutput {
    sink: MemorySink,
}

impl Model for KeptOutput {
    ghost use Rattle.std.specs.Prelude.{◌≡◌, ℕ, List, []};

    ghost Value = { List ℕ };

    ghost view = { λ a. a.sink.written };

    ghost invariant = { λ a. a.sink.fails ≡ [] };
}

impl KeptOutput {
    /// An output to which nothing was written yet.
    pub fn new(alloc: Global) -> Self
        ensures { sink_state ⟦<KeptOutput as Sink>⟧.sink result ≡ record { written = Some []; faults = 0 } }
    {
        KeptOutput {
            sink: MemorySink::new(alloc, Fails::new(Vec::new(alloc))),
        }
    }
}

impl Sink for KeptOutput {
    ghost sink = { record { written = λ s. Some s; faults = λ s. 0 } };

    fn give(&mut self, bytes: &[u8]) -> Result<(), FlowFault>
        ensures given { GiveAppends (Some self.old) (Some self.new) result bytes.now }
        ensures cause { HasCause 0 0 result }
    {
        self.sink.give(bytes)
    }
}
