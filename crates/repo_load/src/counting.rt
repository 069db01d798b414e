//! How many troves each commit has.
ghost use Rattle.std.specs.Prelude.{◌≡◌, ◌+◌, IfOk, IsTrue, length};
ghost use Rattle.repo_load.specs.Files.{HoldsCatalogue};
ghost use Rattle.repo_load.specs.Loading.{HasCount, HoldsCounts, LacksCount};
ghost use Rattle.repo_load.specs.Looks.{no_damage, Looks};

use crate::names::commit_path;
use crate::reading::read_commit;
use crate::state_laws::one_commit;
use journal_log::tree_disk::TreeDisk;
use repo_index::Catalogue;
use repo_index::cny_base::{ListOf, Stop};
use std::alloc::Global;

/// A list of numbers of troves.
pub type Counts = ListOf<u64>;

// How many troves the commit of this number has.
fn count_of<D: TreeDisk>(alloc: Global, disk: &mut D, number: u64) -> Result<u64, Stop>
    ensures { Looks D.disk (HasCount number) (LacksCount number) disk.old disk.new result }
{
    let Some(troves) = read_commit(alloc, disk, number)? else {
        return Err(Stop::Damaged {
            path: commit_path(alloc, number)?,
        });
    };
    Ok(troves.get().len() as u64)
}

/// How many troves each commit has, in the order of the commits, read from their files.
///
/// Where the disk tells its tree, the catalogue is that of the commits that its files hold, and `Damaged` never comes; else
/// it names the file of a commit that isn't one. `Failed` comes only where the disk's count of faults rose. `Refused` never
/// comes, and no name changes, however it ends.
pub fn counts<D: TreeDisk>(
    alloc: Global,
    disk: &mut D,
    catalogue: &Catalogue,
) -> Result<Counts, Stop>
    requires { IsTrue D.disk.tells → HoldsCatalogue (D.disk.reads disk.old) catalogue.now }
    ensures counts { Looks D.disk HoldsCounts no_damage disk.old disk.new result }
    ensures length { IfOk result (λ counts. length counts ≡ catalogue.now.commits) }
{
    one_commit();
    let mut counts = Vec::new(alloc);
    for before in 0..catalogue.commits() {
        let count = count_of(alloc, disk, u64::from(before) + 1)?;
        counts.push(count)?;
    }
    Ok(Counts::new(counts))
}
