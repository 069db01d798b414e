// Standard output, written to in large pieces.
ghost use Rattle.std.specs.Prelude.{None};
ghost use Rattle.cny_pack.specs.cny-base.Flow.{HasCause};

use cny_pack::cny_base::{FlowFault, Sink, StdSink};
use std::alloc::Global;
use std::io::Write;
use std::marker::Model;

// Once so many bytes are gathered they are written.
const GATHERED: usize = 131_072;

/// A writer of std as a sink that tells nothing. What is given to it is gathered, and written once it is long enough.
#[derive(Drop)]
pub(crate) struct HostOut<W> {
    out: StdSink<W>,
    gathered: Vec<u8>,
}

impl<W> Model for HostOut<W> {
    ghost use Rattle.std.specs.Prelude.{ℕ};

    ghost Value = { ℕ };

    ghost view = { λ a. a.out.faults };
}

impl<W: Write> HostOut<W> {
    pub(crate) fn new(alloc: Global, writer: W) -> Self {
        HostOut {
            out: StdSink::new(writer),
            gathered: Vec::new(alloc),
        }
    }

    /// Writes what is gathered still.
    pub(crate) fn finish(&mut self) -> Result<(), FlowFault>
        ensures { HasCause self.old self.new result }
    {
        let given = self.out.give(self.gathered.as_slice());
        self.gathered.clear();
        given
    }
}

impl<W: Write> Sink for HostOut<W> {
    ghost sink = { record { written = λ faults. None; faults = λ faults. faults } };

    fn give(&mut self, bytes: &[u8]) -> Result<(), FlowFault> {
        self.gathered.extend_from_slice(bytes)?;
        if self.gathered.len() < GATHERED {
            return Ok(());
        }
        self.finish()
    }
}
