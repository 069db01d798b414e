//! The status and the line that a call ends with.
ghost use Rattle.std.specs.Prelude.{◌≡◌, ◌⊎◌, ◌++◌, IfOk, MatchBool, string_bytes, ◌∷◌, []};
ghost use Rattle.std.specs.Io.KnownBytes.{Appends, Keeps};
ghost use Rattle.cny_laws.specs.system-core.cny-base.Count.{Rose};
ghost use Rattle.repo_load.specs.cny-base.Flow.{sink_state};
ghost use Rattle.cny_laws.specs.Report.{failure_text, status_of, MustBeTold, Reports};

use crate::texts::joined;
use cny_laws::Failure;
use cny_laws::system_core::cny_base::{OutOfMemory, Text};
use cny_report::refusal_text;
use repo_load::cny_base::{FlowFault, Sink};
use std::alloc::Global;

fn text_of_failure(alloc: Global, failure: &Failure) -> Result<Text, OutOfMemory>
    ensures { IfOk result (λ text. text ≡ failure_text failure.now) }
{
    match failure {
        Failure::Usage => Text::new(alloc, "usage: conary [--disk ROOT REPO] COMMAND [WORD...]"),
        Failure::Refused(refusal) => {
            let text = refusal_text(alloc, refusal)?;
            joined(alloc, "conary: ", text.get())
        }
        Failure::InputFault => Text::new(alloc, "conary: input fault"),
        Failure::OutputFault => Text::new(alloc, "conary: output fault"),
        Failure::RootFault => Text::new(alloc, "conary: root fault"),
        Failure::RepositoryFault => Text::new(alloc, "conary: repository fault"),
        Failure::Memory => Text::new(alloc, "conary: out of memory"),
        Failure::Damaged { path } => joined(alloc, "conary: damaged ", path.text()),
    }
}

fn line_of_failure(alloc: Global, failure: &Failure) -> Result<String, OutOfMemory>
    ensures { IfOk result (λ line. string_bytes line ≡ failure_text failure.now ++ 10 ∷ []) }
{
    let mut line = text_of_failure(alloc, failure)?.into_string();
    line.push_str("\n")?;
    Ok(line)
}

fn status(failure: &Failure) -> u8
    ensures { result ≡ status_of (Err failure.now) }
{
    match failure {
        Failure::Refused(_) => 1,
        Failure::Usage => 2,
        Failure::InputFault => 3,
        Failure::OutputFault => 4,
        Failure::RootFault => 5,
        Failure::RepositoryFault => 6,
        Failure::Memory => 7,
        Failure::Damaged { .. } => 8,
    }
}

// Whether the line may not be missing: that of a refusal or a usage error.
fn is_answer(failure: &Failure) -> bool
    ensures { MatchBool result (MustBeTold failure.now) (MustBeTold failure.now → ⊥) }
{
    matches!(failure, Failure::Refused(_) | Failure::Usage)
}

// Writes a line, and answers whether it was written or the sink failed. Else the sink has nothing of it.
fn give_line<E: Sink>(line: &str, err: &mut E) -> bool
    ensures { MatchBool result
        (Rose (E.sink.faults err.old) (E.sink.faults err.new) ⊎ Appends (E.sink.written err.old) (E.sink.written err.new) line.now)
        (Keeps (E.sink.written err.old) (E.sink.written err.new)) }
{
    match err.give(line.as_bytes()) {
        Ok(()) | Err(FlowFault::Failed) => true,
        Err(FlowFault::Memory) => false,
    }
}

fn tell<E: Sink>(alloc: Global, failure: &Failure, err: &mut E) -> u8
    ensures { Reports (Err failure.now) (sink_state E.sink err.old) (sink_state E.sink err.new) result }
{
    let Ok(line) = line_of_failure(alloc, failure) else {
        return if is_answer(failure) {
            let _ = give_line("conary: out of memory\n", err);
            7
        } else {
            status(failure)
        };
    };
    if give_line(line.as_str(), err) || !is_answer(failure) {
        status(failure)
    } else {
        7
    }
}

/// Writes the line of an end, and answers its status.
pub fn report<E: Sink>(alloc: Global, end: &Result<(), Failure>, err: &mut E) -> u8
    ensures { Reports end.now (sink_state E.sink err.old) (sink_state E.sink err.new) result }
{
    match end {
        Ok(()) => 0,
        Err(failure) => tell(alloc, failure, err),
    }
}
