//! A whole call of the program.
ghost use Rattle.std.specs.Prelude.{◌≡◌, string_bytes, map, true, IsTrue, OnOk, Result};
ghost use Rattle.root_commands.specs.cli-call.cny-laws.declared.failure.Failure.{Failure};
ghost use Rattle.cli_words.specs.declared.call_words.Call.{Call};
ghost use Rattle.cny_version.specs.cny-base.Flow.{sink_state, source_state};
ghost use Rattle.root_commands.specs.cli-call.cny-laws.Call.{call_state};
ghost use Rattle.root_commands.specs.cli-call.Runs.{RunsCall, RunsOpen};
ghost use Rattle.root_commands.specs.cli-call.Command.{disks, AreReady};
ghost use Rattle.root_commands.specs.cli-call.Line.{moment, RunsLine};
ghost use Rattle.cli_words.specs.Calls.{AreCall};
ghost use Rattle.conary_cli.specs.Commands.{is_of_root, meaning, scope_of};
ghost use Rattle.conary_cli.specs.Program.{IsProgramCall, IsSomething, RunsProgram, RunsSomething};
ghost use Rattle.conary_cli.specs.Records.{EndsOpened, EndsWhole};

use crate::commands::{perform, takes_input, works_on_root};
use crate::several::{run_batch, run_demo};
use cli_words::{Call, Command, read_call};
use cny_version::cny_base::{Sink, Source};
use root_commands::cli_call::tree_disk::TreeDisk;
use root_commands::cli_call::{
    Failure, NoDisk, Opened, open_disks, open_for_root, read_given, report, store_laws,
    write_answer,
};
use std::alloc::Global;

/// Performs a command over two disks that are open, and writes what it answers.
pub(crate) fn run_command<O: Sink, T: TreeDisk, P: TreeDisk>(
    alloc: Global,
    command: &Command,
    input: &[u8],
    opened: &mut Opened,
    out: &mut O,
    repo: &mut P,
    root: &mut T,
) -> Result<(), Failure>
    requires { AreReady T.disk P.disk (disks root.old repo.old opened.old) }
    ensures line { RunsLine T.disk P.disk (scope_of command.now) (meaning command.now) input.now (moment O.sink root.old repo.old opened.old out.old) (moment O.sink root.new repo.new opened.new out.new) result }
    // Where it is done, a further command may begin.
    ensures again { OnOk result (AreReady T.disk P.disk (disks root.new repo.new opened.new)) }
    ensures records { IsTrue T.disk.tells → EndsWhole command.now (T.disk.reads root.old) opened.old.db result }
{
    let answered = perform(alloc, command, input, opened, repo, root);
    write_answer(answered, out)
}

// Reads what the command is given, and performs it over two disks that are open.
fn run_open<I: Source, O: Sink, T: TreeDisk, P: TreeDisk>(
    alloc: Global,
    command: &Command,
    input: &mut I,
    opened: &mut Opened,
    out: &mut O,
    repo: &mut P,
    root: &mut T,
) -> Result<(), Failure>
    requires { AreReady T.disk P.disk (disks root.old repo.old opened.old) }
    ensures runs { RunsOpen T.disk P.disk (scope_of command.now) (meaning command.now) (source_state I.source input.old) (source_state I.source input.new)
        (moment O.sink root.old repo.old opened.old out.old) (moment O.sink root.new repo.new opened.new out.new) result }
    ensures records { IsTrue T.disk.tells → EndsWhole command.now (T.disk.reads root.old) opened.old.db result }
{
    let bytes = read_given(alloc, takes_input(command), input)?;
    run_command(alloc, command, bytes.get(), opened, out, repo, root)
}

// Opens both disks, and performs a command that works on the root alone: it is given no repository.
fn run_for_root<I: Source, O: Sink, T: TreeDisk, P: TreeDisk>(
    alloc: Global,
    command: &Command,
    input: &mut I,
    out: &mut O,
    repo: &mut P,
    root: &mut T,
) -> Result<(), Failure>
    requires { is_of_root command.now ≡ true }
    ensures runs { RunsCall T.disk P.disk (scope_of command.now) (meaning command.now) (call_state I.source O.sink input.old out.old root.old repo.old)
        (call_state I.source O.sink input.new out.new root.new repo.new) result }
    ensures records { EndsOpened T.disk P.disk command.now (call_state I.source O.sink input.old out.old root.old repo.old)
        (call_state I.source O.sink input.new out.new root.new repo.new) result }
{
    store_laws();
    let mut opened = open_for_root(alloc, repo, root)?;
    let mut none = NoDisk;
    run_open(alloc, command, input, &mut opened, out, &mut none, root)
}

// Opens both disks, and performs a command.
fn run_call<I: Source, O: Sink, T: TreeDisk, P: TreeDisk>(
    alloc: Global,
    command: &Command,
    input: &mut I,
    out: &mut O,
    repo: &mut P,
    root: &mut T,
) -> Result<(), Failure>
    ensures runs { RunsCall T.disk P.disk (scope_of command.now) (meaning command.now) (call_state I.source O.sink input.old out.old root.old repo.old)
        (call_state I.source O.sink input.new out.new root.new repo.new) result }
    ensures records { EndsOpened T.disk P.disk command.now (call_state I.source O.sink input.old out.old root.old repo.old)
        (call_state I.source O.sink input.new out.new root.new repo.new) result }
{
    if works_on_root(command) {
        return run_for_root(alloc, command, input, out, repo, root);
    }
    let mut opened = open_disks(alloc, repo, root)?;
    run_open(alloc, command, input, &mut opened, out, repo, root)
}

fn run_words<I: Source, O: Sink, T: TreeDisk, P: TreeDisk>(
    alloc: Global,
    words: &[String],
    input: &mut I,
    out: &mut O,
    repo: &mut P,
    root: &mut T,
) -> Result<(), Failure>
    ensures some { RunsSomething T.disk P.disk (map string_bytes words.now) (call_state I.source O.sink input.old out.old root.old repo.old)
        (call_state I.source O.sink input.new out.new root.new repo.new) result }
    ensures each { (expected : Result Call Failure) → AreCall (map string_bytes words.now) expected → RunsProgram T.disk P.disk expected (call_state I.source O.sink input.old out.old root.old repo.old)
        (call_state I.source O.sink input.new out.new root.new repo.new) result }
{
    match read_call(alloc, words)? {
        Call::Single { command } => run_call(alloc, &command, input, out, repo, root),
        Call::Batch => run_batch(alloc, input, out, repo, root),
        Call::Demo { packages } => run_demo(alloc, packages, out, repo, root),
    }
}

/// Does all that the program does, and answers its status.
pub fn run<I: Source, O: Sink, E: Sink, P: TreeDisk, T: TreeDisk>(
    alloc: Global,
    words: &[String],
    input: &mut I,
    out: &mut O,
    err: &mut E,
    repo: &mut P,
    root: &mut T,
) -> u8
    // The words call something, and the call keeps all that one of it promises; or memory ran out before they were read, and nothing
    // was done.
    ensures some { IsSomething T.disk P.disk (map string_bytes words.now) (call_state I.source O.sink input.old out.old root.old repo.old)
        (call_state I.source O.sink input.new out.new root.new repo.new) (sink_state E.sink err.old) (sink_state E.sink err.new) result }
    // All that a call promises, by what the words call.
    ensures call { (expected : Result Call Failure) → AreCall (map string_bytes words.now) expected → IsProgramCall T.disk P.disk expected
        (call_state I.source O.sink input.old out.old root.old repo.old) (call_state I.source O.sink input.new out.new root.new repo.new)
        (sink_state E.sink err.old) (sink_state E.sink err.new) result }
{
    // What the disks store is told by the names that count.
    store_laws();
    let end = run_words(alloc, words, input, out, repo, root);
    report(alloc, &end, err)
}
