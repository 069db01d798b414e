//! Memory as a sink.
ghost use Rattle.std.specs.Prelude.{◌≡◌, [], ◌++◌, ◌↔◌, OnOk, OnErr, IsErrOf, IsTrue, Some};
ghost use Rattle.cny_base.specs.Count.{next};
ghost use Rattle.cny_base.specs.Schedule.{is_listed};
ghost use Rattle.cny_base.specs.Flow.{sink_state, HasCause, GiveAppends, faults_after};

use crate::fault::FlowFault;
use crate::flow::Sink;
use crate::{Fails, Schedule};
use std::alloc::Global;
use std::marker::Model;

/// Bytes that were written into memory. It tells them, and listed calls fail.
#[derive(Drop)]
pub struct MemorySink {
    bytes: Vec<u8>,
    schedule: Schedule,
}

impl Model for MemorySink {
    ghost use Rattle.cny_base.specs.Memory.{MemorySinkState};

    ghost Value = { MemorySinkState };

    ghost view = { λ a. record {
      written = a.bytes.items;
      fails = a.schedule.fails;
      calls = a.schedule.calls;
      faults = a.schedule.faults;
    } };
}

impl MemorySink {
    /// A sink that holds nothing yet. Its calls are numbered from 1, and those whose number is in `fails` fail.
    pub fn new(alloc: Global, fails: Fails) -> Self
        ensures made { result ≡ record { written = []; fails = fails; calls = 0; faults = 0 } }
        ensures tells { sink_state ⟦<MemorySink as Sink>⟧.sink result
            ≡ record { written = Some []; faults = 0 } }
    {
        MemorySink {
            bytes: Vec::new(alloc),
            schedule: Schedule::new(fails),
        }
    }

    /// The bytes that were written.
    pub fn bytes(&self) -> &[u8]
        ensures { result.now ≡ self.now.written }
    {
        self.bytes.as_slice()
    }
}

impl Sink for MemorySink {
    ghost sink = { record { written = λ s. Some s.written; faults = λ s. s.faults } };

    fn give(&mut self, bytes: &[u8]) -> Result<(), FlowFault>
        ensures given { GiveAppends (Some self.old.written) (Some self.new.written) result bytes.now }
        ensures cause { HasCause self.old.faults self.new.faults result }

        // After an error, `Failed` too, nothing was appended.
        ensures ok { OnOk result (self.new.written ≡ self.old.written ++ bytes.now) }
        ensures err { OnErr result (self.new.written ≡ self.old.written) }

        // A call fails, and the count rises, exactly where its number is listed.
        ensures fails { IsErrOf result FlowFault.Failed ↔ IsTrue (is_listed self.old.fails self.new.calls) }
        ensures calls { self.new.calls ≡ next self.old.calls }
        ensures counted { self.new.faults ≡ faults_after result self.old.faults }
        ensures same { self.new.fails ≡ self.old.fails }
    {
        if self.schedule.fails_next() {
            return Err(FlowFault::Failed);
        }
        self.bytes.extend_from_slice(bytes)?;
        Ok(())
    }
}
