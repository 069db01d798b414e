//! Bytes in memory as a source.
ghost use Rattle.std.specs.Prelude.{◌≡◌, ◌≤◌, ◌+◌, ◌-◌, ◌++◌, ◌↔◌, IfOk, IsErrOf, IsTrue, Some, min, take, drop, length};
ghost use Rattle.std.specs.Io.{ReadsAtMost};
ghost use Rattle.std.specs.Io.KnownBytes.{ReadConsumes};
ghost use Rattle.cny_base.specs.Count.{next};
ghost use Rattle.cny_base.specs.Schedule.{is_listed};
ghost use Rattle.cny_base.specs.Flow.{source_state, HasCause, KeepsRest, faults_after};

use crate::fault::FlowFault;
use crate::flow::Source;
use crate::{Bytes, Fails, Schedule};
use std::marker::Model;

/// Bytes in memory that are taken from the front. It tells them, and listed calls fail.
#[derive(Drop)]
pub struct MemorySource {
    bytes: Bytes,
    at: usize,
    schedule: Schedule,
}

impl Model for MemorySource {
    ghost use Rattle.std.specs.Prelude.{◌≤◌, drop, length};
    ghost use Rattle.cny_base.specs.Memory.{MemorySourceState};

    ghost Value = { MemorySourceState };

    ghost view = { λ a. record {
      left = drop a.at a.bytes;
      fails = a.schedule.fails;
      calls = a.schedule.calls;
      faults = a.schedule.faults;
    } };

    ghost invariant = { λ a. a.at ≤ length a.bytes };
}

impl MemorySource {
    /// A source of these bytes. Its calls are numbered from 1, and those whose number is in `fails` fail.
    pub fn new(bytes: Bytes, fails: Fails) -> Self
        ensures made { result ≡ record { left = bytes; fails = fails; calls = 0; faults = 0 } }
        ensures tells { source_state ⟦<MemorySource as Source>⟧.source result
            ≡ record { left = Some bytes; faults = 0 } }
    {
        MemorySource {
            bytes,
            at: 0,
            schedule: Schedule::new(fails),
        }
    }
}

impl Source for MemorySource {
    ghost source = { record { left = λ s. Some s.left; faults = λ s. s.faults } };

    fn take(&mut self, buf: &mut [u8]) -> Result<usize, FlowFault>
        ensures bound { ReadsAtMost result buf.new }
        ensures moved { ReadConsumes (Some self.old.left) (Some self.new.left) result buf.new }
        ensures rest { KeepsRest result buf.old buf.new }
        ensures cause { HasCause self.old.faults self.new.faults result }

        // As many bytes are moved as fit, and no memory is taken.
        ensures fits { IfOk result (λ count. count ≡ min (length self.old.left) (length buf.old)) }
        ensures no_memory { ¬ IsErrOf result FlowFault.Memory }

        // A call fails, and the count rises, exactly where its number is listed.
        ensures fails { IsErrOf result FlowFault.Failed ↔ IsTrue (is_listed self.old.fails self.new.calls) }
        ensures calls { self.new.calls ≡ next self.old.calls }
        ensures counted { self.new.faults ≡ faults_after result self.old.faults }
        ensures same { self.new.fails ≡ self.old.fails }
    {
        if self.schedule.fails_next() {
            return Err(FlowFault::Failed);
        }
        let count = copy_from(self.bytes.get(), self.at, buf);
        self.at += count;
        Ok(count)
    }
}

// Copies as many bytes from a place on as fit, and answers how many.
fn copy_from(bytes: &[u8], at: usize, buf: &mut [u8]) -> usize
    requires { at ≤ length bytes.now }
    ensures count { result ≡ min (length bytes.now - at) (length buf.old) }
    ensures copied { drop at bytes.now ≡ take result buf.new ++ drop (at + result) bytes.now }
    ensures rest { drop result buf.new ≡ drop result buf.old }
{
    let count = (bytes.len() - at).min(buf.len());
    buf[..count].copy_from_slice(&bytes[at..at + count]);
    count
}
