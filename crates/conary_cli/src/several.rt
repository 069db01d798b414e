//! Calls of several lines: a batch, and the demo. The disks are opened once, before the input is read.
ghost use Rattle.std.specs.Prelude.{◌≤◌, true, false};
ghost use Rattle.cny_version.specs.cny-base.Flow.{SourceState, sink_state, source_state};
ghost use Rattle.root_commands.specs.cli-call.cny-laws.Call.{call_state};
ghost use Rattle.conary_cli.specs.RunsSeveral.{ReadsBatch, RunsSeveral};
ghost use Rattle.conary_cli.specs.Several.{AreBatchLines, AreDemoLines};

use crate::lines::{run_demo_lines, run_lines};
use cny_batch::{Lines, read_batch};
use cny_version::cny_base::{Sink, Source};
use root_commands::cli_call::tree_disk::TreeDisk;
use root_commands::cli_call::{Failure, open_disks, read_given, store_laws};
use std::alloc::Global;

// The lines that the input is.
fn read_lines<I: Source>(alloc: Global, input: &mut I) -> Result<Lines, Failure>
    ensures { ReadsBatch (source_state I.source input.old) (source_state I.source input.new) result }
{
    let bytes = read_given(alloc, true, input)?;
    Ok(read_batch(alloc, bytes.get())?)
}

/// Opens both disks, and runs the lines of the batch that the input is.
pub fn run_batch<I: Source, O: Sink, T: TreeDisk, P: TreeDisk>(
    alloc: Global,
    input: &mut I,
    out: &mut O,
    repo: &mut P,
    root: &mut T,
) -> Result<(), Failure>
    ensures { RunsSeveral T.disk P.disk true AreBatchLines (call_state I.source O.sink input.old out.old root.old repo.old) (call_state I.source O.sink input.new out.new root.new repo.new) result }
{
    // What the disks store is told by the names that count.
    store_laws();
    let mut opened = open_disks(alloc, repo, root)?;
    let lines = read_lines(alloc, input)?;
    run_lines(alloc, lines.get(), &mut opened, out, repo, root)
}

/// Opens both disks, and runs the lines of the demo of so many packages.
pub fn run_demo<O: Sink, T: TreeDisk, P: TreeDisk>(
    alloc: Global,
    packages: u64,
    out: &mut O,
    repo: &mut P,
    root: &mut T,
) -> Result<(), Failure>
    requires { packages ≤ 200 }
    // Whatever the input is: it isn't read.
    ensures { (input : SourceState) → RunsSeveral T.disk P.disk false (AreDemoLines packages) (record { input = input; root = root.old; repo = repo.old; out = sink_state O.sink out.old })
        (record { input = input; root = root.new; repo = repo.new; out = sink_state O.sink out.new }) result }
{
    let mut opened = open_disks(alloc, repo, root)?;
    run_demo_lines(alloc, packages, &mut opened, out, repo, root)
}
