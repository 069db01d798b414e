//! Lines over two disks that are open, one after the other.
ghost use Rattle.std.specs.Prelude.{◌≤◌, true, false, Ok, Err, IfOk, IfErr};
ghost use Rattle.cny_version.specs.cny-base.Flow.{SinkState};
ghost use Rattle.root_commands.specs.cli-call.Command.{disks, AreReady};
ghost use Rattle.root_commands.specs.cli-call.Line.{moment};
ghost use Rattle.cny_batch.specs.Demo as demo;
ghost use Rattle.conary_cli.specs.Commands.{meaning};
ghost use Rattle.conary_cli.specs.Lines.{GivesOf, RunsLines, RunsOf, RunsOne, all_shown, last_shown};

use crate::commands::{perform, takes_input};
use crate::program::run_command;
use cli_words::{Command, read_words};
use cny_batch::{Line, line_count, line_of};
use cny_version::cny_base::Sink;
use root_commands::cli_call::cny_base::{INPUT_LIMIT, Refusal, What};
use root_commands::cli_call::tree_disk::TreeDisk;
use root_commands::cli_call::{Failure, Opened};
use std::alloc::Global;

/// What a command is given of a line's input: all of it, where it takes one, and else nothing.
pub fn given_of<'a>(command: &Command, input: &'a [u8]) -> Result<&'a [u8], Failure>
    ensures ok { IfOk result (λ bytes. GivesOf (meaning command.now).takes_input input.now (Ok bytes.now)) }
    ensures err { IfErr result (λ e. GivesOf (meaning command.now).takes_input input.now (Err e)) }
{
    if !takes_input(command) {
        return Ok(&input[..0]);
    }
    if input.len() > INPUT_LIMIT {
        return Err(Failure::Refused(Refusal::TooLarge {
            what: What::Input,
            size: INPUT_LIMIT as u64 + 1,
        }));
    }
    Ok(input)
}

/// Performs a command over two disks that are open with what it is given of a line's input, and writes what it answers.
pub(crate) fn run_given<O: Sink, T: TreeDisk, P: TreeDisk>(
    alloc: Global,
    command: &Command,
    line: &Line,
    opened: &mut Opened,
    out: &mut O,
    repo: &mut P,
    root: &mut T,
) -> Result<(), Failure>
    requires { AreReady T.disk P.disk (disks root.old repo.old opened.old) }
    ensures { RunsOf T.disk P.disk (Ok command.now) (record { shown = true; line = line.now }) (moment O.sink root.old repo.old opened.old out.old) (moment O.sink root.new repo.new opened.new out.new) result }
{
    let input = given_of(command, line.input.get())?;
    run_command(alloc, command, input, opened, out, repo, root)
}

// The same, and writes nothing.
fn run_given_unshown<T: TreeDisk, P: TreeDisk>(
    alloc: Global,
    command: &Command,
    line: &Line,
    opened: &mut Opened,
    repo: &mut P,
    root: &mut T,
) -> Result<(), Failure>
    requires { AreReady T.disk P.disk (disks root.old repo.old opened.old) }
    ensures { (out : SinkState) → RunsOf T.disk P.disk (Ok command.now) (record { shown = false; line = line.now }) (record { at = disks root.old repo.old opened.old; out = out }) (record { at = disks root.new repo.new opened.new; out = out }) result }
{
    let input = given_of(command, line.input.get())?;
    perform(alloc, command, input, opened, repo, root)?;
    Ok(())
}

// The same, and writes what it answers, or nothing.
fn run_given_as<O: Sink, T: TreeDisk, P: TreeDisk>(
    alloc: Global,
    command: &Command,
    shown: bool,
    line: &Line,
    opened: &mut Opened,
    out: &mut O,
    repo: &mut P,
    root: &mut T,
) -> Result<(), Failure>
    requires { AreReady T.disk P.disk (disks root.old repo.old opened.old) }
    ensures { RunsOf T.disk P.disk (Ok command.now) (record { shown = shown; line = line.now }) (moment O.sink root.old repo.old opened.old out.old) (moment O.sink root.new repo.new opened.new out.new) result }
{
    if shown {
        return run_given(alloc, command, line, opened, out, repo, root);
    }
    run_given_unshown(alloc, command, line, opened, repo, root)
}

// Runs a line, and writes what it answers, or nothing.
fn run_made<O: Sink, T: TreeDisk, P: TreeDisk>(
    alloc: Global,
    shown: bool,
    line: &Line,
    opened: &mut Opened,
    out: &mut O,
    repo: &mut P,
    root: &mut T,
) -> Result<(), Failure>
    requires { AreReady T.disk P.disk (disks root.old repo.old opened.old) }
    ensures { RunsOne T.disk P.disk (record { shown = shown; line = line.now }) (moment O.sink root.old repo.old opened.old out.old) (moment O.sink root.new repo.new opened.new out.new) result }
{
    let command = read_words(alloc, line.words.get())?;
    run_given_as(alloc, &command, shown, line, opened, out, repo, root)
}

/// Runs lines one after the other, up to the first that doesn't end in status 0.
pub fn run_lines<O: Sink, T: TreeDisk, P: TreeDisk>(
    alloc: Global,
    lines: &[Line],
    opened: &mut Opened,
    out: &mut O,
    repo: &mut P,
    root: &mut T,
) -> Result<(), Failure>
    requires { AreReady T.disk P.disk (disks root.old repo.old opened.old) }
    ensures { RunsLines T.disk P.disk (all_shown lines.now) (moment O.sink root.old repo.old opened.old out.old) (moment O.sink root.new repo.new opened.new out.new) result }
{
    for line in lines {
        run_made(alloc, true, line, opened, out, repo, root)?;
    }
    Ok(())
}

/// Runs the lines of the demo of so many packages, each made when its turn comes, up to the first that doesn't end in status 0. What the
/// last one answers is written, and nothing of the others.
pub fn run_demo_lines<O: Sink, T: TreeDisk, P: TreeDisk>(
    alloc: Global,
    packages: u64,
    opened: &mut Opened,
    out: &mut O,
    repo: &mut P,
    root: &mut T,
) -> Result<(), Failure>
    requires few { packages ≤ 200 }
    requires ready { AreReady T.disk P.disk (disks root.old repo.old opened.old) }
    ensures { RunsLines T.disk P.disk (last_shown (demo.demo_lines packages)) (moment O.sink root.old repo.old opened.old out.old) (moment O.sink root.new repo.new opened.new out.new) result }
{
    let count = line_count(packages);
    for place in 0..count {
        let line = line_of(alloc, packages, place)?;
        let is_last = place + 1 == count;
        run_made(alloc, is_last, &line, opened, out, repo, root)?;
    }
    Ok(())
}
