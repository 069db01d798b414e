//! The commands that compare the root with what its troves record.
ghost use Rattle.std.specs.Prelude.{List, ℕ, OnOk};
ghost use Rattle.cli_call.specs.Alone.{AnswersByContents, AnswersByTree, PerformsAlone};
ghost use Rattle.cli_call.specs.Command.{disks, AreReady, Performs};
ghost use Rattle.cli_call.specs.tree-disk.Disk.{Reads};
ghost use Rattle.root_commands.specs.Verifying as spec;

use cli_call::cny_base::{Name, Text};
use cli_call::content_store::NoContents;
use cli_call::tree_disk::TreeDisk;
use cli_call::{Failure, Opened, on_root, store_laws};
use cny_report::verified_text;
use local_db::distinct_databases;
use repo_load::{RepoContents, stored_state};
use root_edits::verify;
use std::alloc::Global;

/// Compares the root with what the installed troves of these names record, or all where there are none: a line for each recorded path
/// at which something else stands, or nothing, and last how many paths were looked at and how many differ. `NotInstalled` for the first
/// of the names that isn't installed. No name of a disk changes.
pub fn verify_installed<T: TreeDisk, P: TreeDisk>(
    alloc: Global,
    names: &[Name],
    opened: &Opened,
    repo: &P,
    root: &mut T,
) -> Result<Text, Failure>
    requires { AreReady T.disk P.disk (disks root.old repo.now opened.now) }
    ensures performs { (input : List ℕ) → Performs T.disk P.disk (spec.verify_installed names.now) input (disks root.old repo.now opened.now)
        (disks root.new repo.now opened.now) result }
    ensures alone { (input : List ℕ) → PerformsAlone T.disk P.disk (spec.verify_installed names.now) input (disks root.old repo.now opened.now)
        (disks root.new repo.now opened.now) result }
    ensures tree { (input : List ℕ) → AnswersByTree T.disk P.disk (spec.verify_installed names.now) input (disks root.old repo.now opened.now)
        (disks root.new repo.now opened.now) result }
    // Where it is done, a further command may begin.
    ensures again { OnOk result (AreReady T.disk P.disk (disks root.new repo.now opened.now)) }
{
    store_laws();
    distinct_databases();
    let mut far = NoContents;
    let found = on_root(verify(alloc, root, &opened.db.installed, names, &mut far))?;
    Ok(verified_text(alloc, &found)?)
}

/// The same with the contents of the repository, which is only read: where a file stands in the place of another one, and the
/// repository has the recorded content, its line tells in how many bytes the two differ. A content is read only for such a line, so
/// that a damaged one is `Damaged` only there. No name of a disk changes.
pub fn verify_fully<T: TreeDisk, P: TreeDisk>(
    alloc: Global,
    names: &[Name],
    opened: &Opened,
    repo: &mut P,
    root: &mut T,
) -> Result<Text, Failure>
    requires { AreReady T.disk P.disk (disks root.old repo.old opened.now) }
    ensures performs { (input : List ℕ) → Performs T.disk P.disk (spec.verify_fully names.now) input (disks root.old repo.old opened.now)
        (disks root.new repo.new opened.now) result }
    // Also where other contents of the repository, or records and saved contents of the root, are damaged.
    ensures whole { (input : List ℕ) → AnswersByContents T.disk P.disk (spec.verify_fully names.now) input (disks root.old repo.old opened.now)
        (disks root.new repo.new opened.now) result }
    // Both disks are only read.
    ensures root_read { Reads T.disk root.old root.new (Unit {0}) }
    ensures repo_read { Reads P.disk repo.old repo.new (Unit {0}) }
    // Where it is done, a further command may begin.
    ensures again { OnOk result (AreReady T.disk P.disk (disks root.new repo.new opened.now)) }
{
    store_laws();
    distinct_databases();
    stored_state();
    let mut contents = RepoContents::new(repo, &opened.catalogue);
    let found = on_root(verify(alloc, root, &opened.db.installed, names, &mut contents))?;
    Ok(verified_text(alloc, &found)?)
}
