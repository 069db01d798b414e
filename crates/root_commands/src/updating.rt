//! The commands that install what a change set makes, or what specifications mean.
ghost use Rattle.std.specs.Prelude.{◌≡◌, All, List, ℕ, OnOk};
ghost use Rattle.std.specs.List.Sorted.{IsStrictlySortedBy};
ghost use Rattle.sha1.specs.Sha1.{sha1};
ghost use Rattle.cli_call.specs.change-set.declared.change.Carried as carried_content;
ghost use Rattle.cli_call.specs.change-set.ChangeSet.{content_cmp, HasContents};
ghost use Rattle.cli_call.specs.Alone.{AnswersByContents};
ghost use Rattle.cli_call.specs.Command.{disks, AreReady, Performs};
ghost use Rattle.cli_call.specs.tree-disk.Disk.{Reads};
ghost use Rattle.cli_call.specs.system-core.Lists.{AllPathsAllowed};
ghost use Rattle.root_commands.specs.Update as spec;

use cli_call::change_set::{Carried, ChangeSet, decode};
use cli_call::cny_base::{Options, Text};
use cli_call::system_core::{troves_keep_rules, update};
use cli_call::tree_disk::TreeDisk;
use cli_call::trove_stream::Trove;
use cli_call::{Failure, Opened, on_root, store_laws};
use cny_report::changes_text;
use local_db::distinct_databases;
use repo_load::{RepoContents, stored_state};
use std::alloc::Global;
use update_job::applied;

// The job of these troves, with the contents that come along and those of the repository.
pub(crate) fn update_to<T: TreeDisk, P: TreeDisk>(
    alloc: Global,
    options: &Options,
    troves: &[Trove],
    carried: &[Carried],
    opened: &mut Opened,
    repo: &mut P,
    root: &mut T,
) -> Result<Text, Failure>
    requires allowed { AllPathsAllowed troves.now }
    requires hash { All (λ (content : carried_content.Carried). content.name ≡ sha1 content.bytes) carried.now }
    requires rising { IsStrictlySortedBy content_cmp carried.now }
    requires ready { AreReady T.disk P.disk (disks root.old repo.old opened.old) }
    ensures performs { (input : List ℕ) → Performs T.disk P.disk (spec.update_to options.now carried.now troves.now) input (disks root.old repo.old opened.old)
        (disks root.new repo.new opened.new) result }
    // Also where other contents of the repository, or records and saved contents of the root, are damaged.
    ensures whole { (input : List ℕ) → AnswersByContents T.disk P.disk (spec.update_to options.now carried.now troves.now) input (disks root.old repo.old opened.old)
        (disks root.new repo.new opened.new) result }
    // The repository is only read.
    ensures repo_read { Reads P.disk repo.old repo.new (Unit {0}) }
    // Where it is done, a further command may begin.
    ensures again { OnOk result (AreReady T.disk P.disk (disks root.new repo.new opened.new)) }
{
    store_laws();
    distinct_databases();
    stored_state();
    troves_keep_rules(troves);
    let mut far = RepoContents::new(repo, &opened.catalogue);
    let done = on_root(update(
        alloc,
        root,
        &mut opened.db,
        troves,
        carried,
        &mut far,
        options,
    ))?;
    Ok(changes_text(alloc, done.changes.get())?)
}

// The update by a change set, part by part.
fn update_by<T: TreeDisk, P: TreeDisk>(
    alloc: Global,
    options: &Options,
    set: &ChangeSet,
    opened: &mut Opened,
    repo: &mut P,
    root: &mut T,
) -> Result<Text, Failure>
    requires contents { HasContents set.now }
    requires ready { AreReady T.disk P.disk (disks root.old repo.old opened.old) }
    ensures performs { (input : List ℕ) → Performs T.disk P.disk (spec.update_by options.now set.now) input (disks root.old repo.old opened.old)
        (disks root.new repo.new opened.new) result }
    // Also where other contents of the repository, or records and saved contents of the root, are damaged.
    ensures whole { (input : List ℕ) → AnswersByContents T.disk P.disk (spec.update_by options.now set.now) input (disks root.old repo.old opened.old)
        (disks root.new repo.new opened.new) result }
    // The repository is only read.
    ensures repo_read { Reads P.disk repo.old repo.new (Unit {0}) }
    // Where it is done, a further command may begin.
    ensures again { OnOk result (AreReady T.disk P.disk (disks root.new repo.new opened.new)) }
{
    store_laws();
    distinct_databases();
    let troves = applied(alloc, &opened.db.installed, set.parts.get())?;
    update_to(
        alloc,
        options,
        troves.get(),
        set.contents.get(),
        opened,
        repo,
        root,
    )
}

/// Installs what the change set that the input is makes of the installed troves, each in place of what its name reached by
/// references: a line `installed T`, `updated T` or `erased T` for each change of the installed list, or `nothing changes`. A content
/// that the set lacks comes from the repository. It takes effect as a whole or not at all, whenever the machine stops; the repository
/// is only read.
pub fn update_input<T: TreeDisk, P: TreeDisk>(
    alloc: Global,
    options: &Options,
    input: &[u8],
    opened: &mut Opened,
    repo: &mut P,
    root: &mut T,
) -> Result<Text, Failure>
    requires { AreReady T.disk P.disk (disks root.old repo.old opened.old) }
    ensures performs { Performs T.disk P.disk (spec.update_input options.now) input.now (disks root.old repo.old opened.old) (disks root.new repo.new opened.new) result }
    // Also where other contents of the repository, or records and saved contents of the root, are damaged.
    ensures whole { AnswersByContents T.disk P.disk (spec.update_input options.now) input.now (disks root.old repo.old opened.old) (disks root.new repo.new opened.new) result }
    // The repository is only read.
    ensures repo_read { Reads P.disk repo.old repo.new (Unit {0}) }
    // Where it is done, a further command may begin.
    ensures again { OnOk result (AreReady T.disk P.disk (disks root.new repo.new opened.new)) }
{
    store_laws();
    let set = decode(alloc, input)?;
    update_by(alloc, options, &set, opened, repo, root)
}
