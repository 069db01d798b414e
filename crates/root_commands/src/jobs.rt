//! The command that tells the jobs of the stack.
ghost use Rattle.std.specs.Prelude.{List, ℕ, IfOk, IsTrue, OnOk};
ghost use Rattle.cli_call.specs.Alone.{AnswersByRecords, PerformsAlone};
ghost use Rattle.cli_call.specs.Command.{disks, AreReady, Performs};
ghost use Rattle.cli_call.specs.tree-disk.Disk.{Reads};
ghost use Rattle.root_commands.specs.Jobs as spec;
ghost use Rattle.root_commands.specs.Noting.{AreToldBy};
ghost use Rattle.root_commands.specs.Records.{ListsWhole};

use crate::noting::noted_jobs;
use cli_call::cny_base::{OutOfMemory, Text};
use cli_call::tree_disk::TreeDisk;
use cli_call::{Failure, Opened, on_root, store_laws};
use cny_report::undos_text;
use local_db::distinct_databases;
use rollback_stack::{NotedJob, all, one_record};
use std::alloc::Global;

fn told(alloc: Global, jobs: &[NotedJob]) -> Result<Text, OutOfMemory>
    ensures { IfOk result (AreToldBy jobs.now) }
{
    let notes = noted_jobs(alloc, jobs)?;
    let text = undos_text(alloc, notes.as_slice())?;
    Ok(text)
}

/// A line `r.N paths P` for each job of the stack, the newest first, and for each installed trove that it changed a line behind two
/// spaces. Each record is read, and no saved content. `Damaged` with the path of the newest record that fails its grammar or a
/// cross-check. No name of a disk changes.
pub fn list_jobs<T: TreeDisk, P: TreeDisk>(
    alloc: Global,
    opened: &Opened,
    repo: &P,
    root: &mut T,
) -> Result<Text, Failure>
    requires { AreReady T.disk P.disk (disks root.old repo.now opened.now) }
    ensures performs { (input : List ℕ) → Performs T.disk P.disk spec.list_jobs input (disks root.old repo.now opened.now)
        (disks root.new repo.now opened.now) result }
    ensures alone { (input : List ℕ) → PerformsAlone T.disk P.disk spec.list_jobs input (disks root.old repo.now opened.now)
        (disks root.new repo.now opened.now) result }
    // Also on a root that stores no system: by the records that it holds, and neither done nor refused over a damaged one.
    ensures by_records { (input : List ℕ) → AnswersByRecords T.disk P.disk spec.list_jobs input (disks root.old repo.now opened.now)
        (disks root.new repo.now opened.now) result }
    ensures records { IsTrue T.disk.tells → ListsWhole (T.disk.reads root.old) opened.now.db result }
    // The root is only read.
    ensures root_read { Reads T.disk root.old root.new (Unit {0}) }
    // Where it is done, a further command may begin.
    ensures again { OnOk result (AreReady T.disk P.disk (disks root.new repo.now opened.now)) }
{
    store_laws();
    distinct_databases();
    one_record();
    let jobs = on_root(all(alloc, root, &opened.db))?;
    Ok(told(alloc, jobs.get())?)
}
