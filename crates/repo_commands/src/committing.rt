//! Commits of change sets.
ghost use Rattle.std.specs.Prelude.{◌≡◌, [], Bool, false, true, IsTrue, List, ℕ, OnOk};
ghost use Rattle.cli_call.specs.change-set.ChangeSet.{HasContents};
ghost use Rattle.cli_call.specs.cny-laws.Call.{FilesStay};
ghost use Rattle.cli_call.specs.Alone.{ActsOnRepository, AnswersByContents, AnswersByOpened};
ghost use Rattle.cli_call.specs.Command.{disks, AreReady};
ghost use Rattle.repo_commands.specs.Commit as spec;
ghost use Rattle.repo_commands.specs.Commit.{commit_of};

use cli_call::change_set::{ChangeSet, decode};
use cli_call::cny_base::Text;
use cli_call::tree_disk::TreeDisk;
use cli_call::{Failure, Opened, on_repository, store_laws};
use cny_report::committed_text;
use repo_load::stored_state;
use repository::{commit, commit_step, kept_files, same_contents};
use std::alloc::Global;

/// Commits a change set, and tells the ids of the troves that it makes.
pub fn commit_set<T: TreeDisk, P: TreeDisk>(
    alloc: Global,
    set: &ChangeSet,
    opened: &mut Opened,
    repo: &mut P,
    root: &T,
) -> Result<Text, Failure>
    requires contents { HasContents set.now }
    requires ready { AreReady T.disk P.disk (disks root.now repo.old opened.old) }
    ensures performs { (input : List ℕ) → ActsOnRepository T.disk P.disk (commit_of set.now) input (disks root.now repo.old opened.old)
        (disks root.now repo.new opened.new) result }
    // A set without contents by the catalogue alone, whatever contents of the repository are damaged.
    ensures opened { IsTrue P.disk.tells → set.now.contents ≡ [] → (input : List ℕ) → AnswersByOpened T.disk P.disk (commit_of set.now) input (disks root.now repo.old opened.old)
        (disks root.now repo.new opened.new) result }
    // Any set by the catalogue and the contents that stand whole, unless it met a damaged one.
    ensures whole { (input : List ℕ) → AnswersByContents T.disk P.disk (commit_of set.now) input (disks root.now repo.old opened.old)
        (disks root.now repo.new opened.new) result }
    // However it ends, it leaves the files of the commits and of committed contents; and a set without contents those of all contents.
    ensures files { (all : Bool) → (all ≡ true → set.now.contents ≡ []) → FilesStay P.disk opened.old.catalogue all repo.old repo.new }
    // Where it is done, a further command may begin.
    ensures again { OnOk result (AreReady T.disk P.disk (disks root.now repo.new opened.new)) }
{
    store_laws();
    stored_state();
    same_contents();
    commit_step();
    kept_files();
    let ids = on_repository(commit(alloc, repo, &mut opened.catalogue, set))?;
    Ok(committed_text(alloc, ids.get())?)
}

/// Commits the change set that the input is: a line `committed T` for each trove, in the order of its parts, or `nothing changes`
/// where it has none. It takes effect as a whole or not at all, whenever the machine stops.
pub fn commit_input<T: TreeDisk, P: TreeDisk>(
    alloc: Global,
    input: &[u8],
    opened: &mut Opened,
    repo: &mut P,
    root: &T,
) -> Result<Text, Failure>
    requires { AreReady T.disk P.disk (disks root.now repo.old opened.old) }
    ensures performs { ActsOnRepository T.disk P.disk spec.commit input.now (disks root.now repo.old opened.old) (disks root.now repo.new opened.new) result }
    // Also where other contents of the repository are damaged; and the files of the commits and of committed contents stay.
    ensures whole { AnswersByContents T.disk P.disk spec.commit input.now (disks root.now repo.old opened.old) (disks root.now repo.new opened.new) result }
    ensures files { FilesStay P.disk opened.old.catalogue false repo.old repo.new }
    // Where it is done, a further command may begin.
    ensures again { OnOk result (AreReady T.disk P.disk (disks root.now repo.new opened.new)) }
{
    store_laws();
    let set = decode(alloc, input)?;
    commit_set(alloc, &set, opened, repo, root)
}
