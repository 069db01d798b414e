//! A line by itself.
ghost use Rattle.std.specs.Prelude.{List, Ok, Result, ℕ};
ghost use Rattle.cny_version.specs.cny-base.Flow.{sink_state};
ghost use Rattle.root_commands.specs.cli-call.cny-laws.declared.failure.Failure.{Failure};
ghost use Rattle.cli_words.specs.declared.words.Command.{Command};
ghost use Rattle.conary_cli.specs.Commands.{RunsWords};
ghost use Rattle.conary_cli.specs.Program.{IsLineCall, IsLineCallOf, RunsAlone, line_state, told_source};
ghost use Rattle.cli_words.specs.Words.{AreWords};

use crate::lines::run_given;
use cli_words::{Command, read_words};
use cny_batch::Line;
use cny_version::cny_base::Sink;
use root_commands::cli_call::tree_disk::TreeDisk;
use root_commands::cli_call::{Failure, open_disks, report, store_laws};
use std::alloc::Global;

// Opens both disks, and performs a command with what it is given of a line's input.
fn run_opened<O: Sink, T: TreeDisk, P: TreeDisk>(
    alloc: Global,
    command: &Command,
    line: &Line,
    out: &mut O,
    repo: &mut P,
    root: &mut T,
) -> Result<(), Failure>
    ensures { (rest : List ℕ) × RunsWords T.disk P.disk (Ok command.now) (line_state (told_source line.now.input) root.old repo.old (sink_state O.sink out.old))
        (line_state (told_source rest) root.new repo.new (sink_state O.sink out.new)) result }
{
    let mut opened = open_disks(alloc, repo, root)?;
    run_given(alloc, command, line, &mut opened, out, repo, root)
}

// Reads the words of a line, and calls the command that they are with its input.
fn run_alone<O: Sink, T: TreeDisk, P: TreeDisk>(
    alloc: Global,
    line: &Line,
    out: &mut O,
    repo: &mut P,
    root: &mut T,
) -> Result<(), Failure>
    ensures { (rest : List ℕ) × RunsAlone T.disk P.disk line.now.words (line_state (told_source line.now.input) root.old repo.old (sink_state O.sink out.old))
        (line_state (told_source rest) root.new repo.new (sink_state O.sink out.new)) result }
{
    let command = read_words(alloc, line.words.get())?;
    run_opened(alloc, &command, line, out, repo, root)
}

/// Runs one line on the two disks, and answers its status: the call of its command with just its input. `batch` and `demo` are no
/// commands of a line, and so a faulty command line.
pub fn run_line<O: Sink, E: Sink, P: TreeDisk, T: TreeDisk>(
    alloc: Global,
    line: &Line,
    out: &mut O,
    err: &mut E,
    repo: &mut P,
    root: &mut T,
) -> u8
    // The words are something, and the call keeps all that one of it promises; or memory ran out before they were read, and nothing was
    // done.
    ensures some { IsLineCall T.disk P.disk line.now root.old repo.old (sink_state O.sink out.old) root.new repo.new (sink_state O.sink out.new) (sink_state E.sink err.old) (sink_state E.sink err.new) result }
    // All that a call promises, by what the words are.
    ensures call { (expected : Result Command Failure) → AreWords line.now.words expected → IsLineCallOf T.disk P.disk expected line.now root.old repo.old (sink_state O.sink out.old) root.new repo.new (sink_state O.sink out.new)
        (sink_state E.sink err.old) (sink_state E.sink err.new) result }
{
    // What the disks store is told by the names that count.
    store_laws();
    let end = run_alone(alloc, line, out, repo, root);
    report(alloc, &end, err)
}
