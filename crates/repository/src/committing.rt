//! A change set, committed.
ghost use Rattle.std.specs.Prelude.{◌≡◌, ◌≢◌, ◌≤◌, [], IfErr, IfOk, IsTrue, OnOk};
ghost use Rattle.repo_load.specs.tree-disk.Clear.{is_within};
ghost use Rattle.repo_load.specs.tree-disk.Confined.{Among, Confined};
ghost use Rattle.change_set.specs.ChangeSet.{HasContents};
ghost use Rattle.change_set.specs.declared.change.ChangeSet.{ChangeSet};
ghost use Rattle.repo_load.specs.Files.{repository_base};
ghost use Rattle.repo_load.specs.State.{RepositoryState};
ghost use Rattle.repo_load.specs.Loading.{IsCatalogue};
ghost use Rattle.change_pull.specs.Incoming.{staged_set, AreStaged};
ghost use Rattle.repository.specs.Outcome.{AreSound, AtEveryMoment, EndsSo, HasCommitCause, MayCommit};
ghost use Rattle.repository.specs.Order.{IsFirstStop};
ghost use Rattle.repository.specs.Preparing.{IsWrittenName};
ghost use Rattle.repo_load.specs.journal-log.Own.{staged};

use crate::joining::{TroveIds, ids_of, join};
use crate::testing::tested;
use crate::writing::write;
use change_pull::{Incoming, StagedList};
use change_set::{ChangeSet, Parts};
use repo_index::Catalogue;
use repo_load::cny_base::Stop;
use repo_load::stored_state;
use repo_load::tree_disk::TreeDisk;
use std::alloc::Global;

// Commits the troves that parts make, with these contents: the clauses are those of `commit`, on a change set that has both.
fn commit_contents<D: TreeDisk, I: Incoming>(
    alloc: Global,
    disk: &mut D,
    catalogue: &mut Catalogue,
    parts: &Parts,
    contents: &I,
) -> Result<TroveIds, Stop>
    ghost change: { ChangeSet }
    requires parts { parts.now ≡ change.parts }
    requires named { I.named contents.now change.contents }
    requires stand { IsTrue D.disk.tells → I.stand contents.now (staged repository_base) change.contents (D.disk.reads disk.old) }
    requires contents { IsTrue D.disk.tells → HasContents change }
    requires rests { IsTrue D.disk.tells → MayCommit D.disk catalogue.old disk.old }
    ensures ends { IsTrue D.disk.tells → EndsSo D.disk change catalogue.old catalogue.new disk.old disk.new result }
    ensures sound { IsTrue D.disk.tells → IfOk result (λ ids. ids ≢ [] → AreSound change.contents catalogue.old.troves (D.disk.reads disk.old)) }
    ensures first { IsTrue D.disk.tells → IfErr result (IsFirstStop catalogue.old (D.disk.reads disk.old) change) }
    ensures confined { IsTrue D.disk.tells → Confined D.disk (Among (is_within repository_base)) disk.old disk.new }
    ensures only { IsTrue D.disk.tells → Confined D.disk (IsWrittenName catalogue.old change.contents) disk.old disk.new }
    ensures any_moment { IsTrue D.disk.tells → (r : RepositoryState) → AtEveryMoment D.disk change disk.old disk.new r }
    ensures rules { IsCatalogue catalogue.old → OnOk result (IsCatalogue catalogue.new) }
    ensures later { D.disk.faults disk.old ≤ D.disk.faults disk.new }
    ensures causes { IfErr result (HasCommitCause (D.disk.faults disk.old) (D.disk.faults disk.new)) }
{
    stored_state();
    let added = tested(alloc, disk, catalogue, parts.get(), contents)?;
    let ids = ids_of(alloc, added.troves())?;
    if added.troves().is_empty() {
        return Ok(ids);
    }
    write(alloc, disk, catalogue, contents, added.troves())?;
    join(alloc, catalogue, added.troves())?;
    Ok(ids)
}

/// Commits the troves that a change set makes, in the order of its parts, with the contents that it carries, and answers their
/// ids. It takes effect as a whole or not at all, whenever the machine stops. A change set without parts changes nothing. After
/// Ok each carried content can be read, whatever other content is damaged.
///
/// First all is tested, without a write. Part by part: `MissingBase` where the base of a relative part isn't committed (an
/// earlier part doesn't count), or no trove comes of it; `Exists` where its id is committed or that of an earlier part;
/// `Reserved` where it records a forbidden path. Then, trove by trove, `MissingRef` for a reference that is neither committed
/// nor added, and `MissingContent` for a record whose content is neither carried nor committed, with its name and its size;
/// `Collision` for the first carried content that differs from the committed one of its name; and `TooLarge` where there are
/// 4,294,967,295 commits. The first test that fails is the refusal, and then nothing is changed. `Damaged` names the file of the
/// first carried content whose name is committed and whose file is damaged: it comes before a later content's `Collision`, and
/// before `TooLarge`, and nothing is changed then either.
///
/// The catalogue is that of the disk, which is recovered: `load` answered it, and only these calls wrote since. After Ok it is
/// that again. After `Failed` and want of memory the disk is to be recovered and loaded again; it recovers to the state before
/// or after. `Failed` comes only where the disk's count of faults rose. The cost doesn't grow with the number of commits.
pub fn commit<D: TreeDisk>(
    alloc: Global,
    disk: &mut D,
    catalogue: &mut Catalogue,
    change: &ChangeSet,
) -> Result<TroveIds, Stop>
    requires contents { HasContents change.now }
    requires rests { IsTrue D.disk.tells → MayCommit D.disk catalogue.old disk.old }
    // Which repository is stored, what is answered and what was refused.
    ensures ends { IsTrue D.disk.tells → EndsSo D.disk change.now catalogue.old catalogue.new disk.old disk.new result }
    // Where troves are added, no committed content under the name of a carried one is damaged.
    ensures sound { IsTrue D.disk.tells → IfOk result (λ ids. ids ≢ [] → AreSound change.now.contents catalogue.old.troves (D.disk.reads disk.old)) }
    // What stops it is the first test that fails. A damaged file of a committed content is one: it is named, and no later test
    // refuses, nor are its bytes compared.
    ensures first { IsTrue D.disk.tells → IfErr result (IsFirstStop catalogue.old (D.disk.reads disk.old) change.now) }
    // However it ends, and at every moment, names outside the repository's directory stay as they were. None of them becomes
    // unsynced, and a crash changes of them only what was unsynced before.
    ensures confined { IsTrue D.disk.tells → Confined D.disk (Among (is_within repository_base)) disk.old disk.new }
    // In that directory too all stays at every moment but the names that the commit writes, however damaged the repository is:
    // the files of the commits that are there, and of all contents but those that are carried and that no trove records (the
    // law `kept_files`).
    ensures only { IsTrue D.disk.tells → Confined D.disk (IsWrittenName catalogue.old change.now.contents) disk.old disk.new }
    // At every moment, also inside each call of the disk and where a call fails, a crash leaves a tree that recovers to the
    // repository before or to the one after, and so does what the disk reads at the end.
    ensures any_moment { IsTrue D.disk.tells → (r : RepositoryState) → AtEveryMoment D.disk change.now disk.old disk.new r }
    // On every disk the catalogue keeps the rules.
    ensures rules { IsCatalogue catalogue.old → OnOk result (IsCatalogue catalogue.new) }
    ensures later { D.disk.faults disk.old ≤ D.disk.faults disk.new }
    ensures causes { IfErr result (HasCommitCause (D.disk.faults disk.old) (D.disk.faults disk.new)) }
{
    commit_contents(alloc, disk, catalogue, &change.parts, &change.contents)
}

/// Commits the troves that parts make, with contents that were staged in the journal's directory, as `commit` does of the change
/// set of these parts and of the bytes that the files have. A content is read when it comes to it, and one at a time.
///
/// The conditions are those of `commit`; and where the disk tells its tree each file lies in that directory and has the size that
/// is told. What is left of them there counts for nothing. `stage` and a pull on its path count among the calls that wrote since.
pub fn commit_staged<D: TreeDisk>(
    alloc: Global,
    disk: &mut D,
    catalogue: &mut Catalogue,
    parts: Parts,
    contents: &StagedList,
) -> Result<TroveIds, Stop>
    requires staged { IsTrue D.disk.tells → AreStaged (staged repository_base) (D.disk.reads disk.old) contents.now }
    requires contents { IsTrue D.disk.tells → HasContents (staged_set parts contents.now (D.disk.reads disk.old)) }
    requires rests { IsTrue D.disk.tells → MayCommit D.disk catalogue.old disk.old }
    ensures ends { IsTrue D.disk.tells → EndsSo D.disk (staged_set parts contents.now (D.disk.reads disk.old)) catalogue.old catalogue.new disk.old disk.new result }
    ensures sound { IsTrue D.disk.tells → IfOk result (λ ids. ids ≢ [] → AreSound (staged_set parts contents.now (D.disk.reads disk.old)).contents catalogue.old.troves (D.disk.reads disk.old)) }
    ensures first { IsTrue D.disk.tells → IfErr result (IsFirstStop catalogue.old (D.disk.reads disk.old) (staged_set parts contents.now (D.disk.reads disk.old))) }
    ensures confined { IsTrue D.disk.tells → Confined D.disk (Among (is_within repository_base)) disk.old disk.new }
    ensures only { IsTrue D.disk.tells → Confined D.disk (IsWrittenName catalogue.old (staged_set parts contents.now (D.disk.reads disk.old)).contents) disk.old disk.new }
    ensures any_moment { IsTrue D.disk.tells → (r : RepositoryState) → AtEveryMoment D.disk (staged_set parts contents.now (D.disk.reads disk.old)) disk.old disk.new r }
    ensures rules { IsCatalogue catalogue.old → OnOk result (IsCatalogue catalogue.new) }
    ensures later { D.disk.faults disk.old ≤ D.disk.faults disk.new }
    ensures causes { IfErr result (HasCommitCause (D.disk.faults disk.old) (D.disk.faults disk.new)) }
{
    commit_contents(alloc, disk, catalogue, &parts, contents)
}
