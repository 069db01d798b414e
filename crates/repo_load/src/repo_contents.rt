//! A repository as a source of contents.
ghost use Rattle.std.specs.Prelude.{◌≡◌, IsTrue};
ghost use Rattle.repo_load.specs.Files.{HoldsCatalogue, StoresRepository};
ghost use Rattle.repo_load.specs.State.{RepositoryState};
ghost use Rattle.repo_load.specs.RepoContents.{repo_contents, repo_source, IsFarStop, IsLookStop};

use crate::contents::content;
use crate::laws::stored_state;
use content_store::{Contents, FarStop};
use journal_log::tree_disk::TreeDisk;
use repo_index::Catalogue;
use repo_index::cny_base::{Bytes, Stop};
use std::alloc::Global;

/// The contents of a repository, which are found by their names in its disk.
///
/// Where the disk tells its tree, the map of its contents is that of the state that the tree stores, and a path fails a
/// cross-check where it is that of a content that a trove of the catalogue names, and no such content stands there. Its count
/// of faults is the disk's, which is only read.
#[derive(Drop)]
pub struct RepoContents<'a, D: TreeDisk> {
    disk: &'a mut D,
    catalogue: &'a Catalogue,
}

// Why a content isn't found.
fn far_stop(stop: Stop) -> FarStop
    requires { IsLookStop stop }
    ensures { IsFarStop stop result }
{
    match stop {
        Stop::Failed => FarStop::Failed,
        Stop::Damaged { path } => FarStop::Damaged { path },
        Stop::Memory => FarStop::Memory,
        Stop::Refused(_) | Stop::FarFailed | Stop::FarDamaged { .. } => unreachable!(),
    }
}

impl<'a, D: TreeDisk> RepoContents<'a, D> {
    /// The contents of this disk, which is recovered and has this catalogue.
    pub fn new(disk: &'a mut D, catalogue: &'a Catalogue) -> RepoContents<'a, D>
        requires { IsTrue D.disk.tells → HoldsCatalogue (D.disk.reads disk.old) catalogue.now }
        ensures same_disk { result.disk.ghost_name ≡ disk.entry.ghost_name }
        ensures disk { result.disk.now ≡ disk.old }
        ensures catalogue { result.catalogue.now ≡ catalogue.now }
        // It tells the contents of each state that the disk stores.
        ensures holds { (r : RepositoryState) → IsTrue D.disk.tells → StoresRepository (D.disk.reads disk.old) r
            → (repo_contents D.disk).holds result r.contents }
    {
        stored_state();
        RepoContents { disk, catalogue }
    }
}

impl<'a, D: TreeDisk> Contents for RepoContents<'a, D> {
    ghost contents = { repo_contents D.disk };

    fn find(&mut self, alloc: Global, name: &[u8; 20]) -> Result<Option<Bytes>, FarStop> {
        match content(alloc, self.disk, self.catalogue, name) {
            Ok(found) => Ok(found),
            Err(stop) => Err(far_stop(stop)),
        }
    }

    ghost laws = { repo_source D.laws };
}
