//! What a command answers, written.
ghost use Rattle.repo_load.specs.cny-base.Flow.{sink_state};
ghost use Rattle.cli_call.specs.Line.{WritesAnswer};

use cny_laws::Failure;
use cny_laws::system_core::cny_base::Bytes;
use repo_load::cny_base::{FlowFault, Sink};

/// Writes what a command answered, by one call of the sink; where that is no byte, or the command failed, by none.
pub fn write_answer<O: Sink>(answered: Result<Bytes, Failure>, out: &mut O) -> Result<(), Failure>
    ensures { WritesAnswer answered (sink_state O.sink out.old) (sink_state O.sink out.new) result }
{
    let bytes = match answered {
        Ok(bytes) => bytes,
        Err(failure) => return Err(failure),
    };
    if bytes.get().is_empty() {
        return Ok(());
    }
    match out.give(bytes.get()) {
        Ok(()) => Ok(()),
        Err(FlowFault::Failed) => Err(Failure::OutputFault),
        Err(FlowFault::Memory) => Err(Failure::Memory),
    }
}
