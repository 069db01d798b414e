// A file moved to a content's path.
ghost use Rattle.std.specs.Prelude.{◌≡◌, IfErr, IsTrue, length};
ghost use Rattle.tree_disk.specs.cny-base.Path.{is_path};
ghost use Rattle.tree_disk.specs.Rows.{bytes_at, is_file_at};
ghost use Rattle.tree_disk.specs.Steps.{Tests};
ghost use Rattle.content_store.specs.Difference.{first_difference};
ghost use Rattle.content_store.specs.Outcome.{move_names, move_outcome, same_or_collision, CanPut, Decides, IsCollision, PutStops};
ghost use Rattle.content_store.specs.Store.{content_path};

use crate::compare::files_differ;
use std::alloc::Global;
use tree_disk::cny_base::{Path, Refusal, Stop};
use tree_disk::{TreeDisk, steps};

// Tests that two files that stand have the same bytes.
fn expect_same_file<D: TreeDisk>(
    alloc: Global,
    disk: &mut D,
    path: &Path,
    size: u64,
    name: &[u8; 20],
    from: &Path,
    from_size: u64,
) -> Result<(), Stop>
    requires file { IsTrue D.disk.tells → IsTrue (is_file_at (D.disk.reads disk.old) path.now) }
    requires size { IsTrue D.disk.tells → length (bytes_at (D.disk.reads disk.old) path.now) ≡ size }
    requires from { IsTrue D.disk.tells → IsTrue (is_file_at (D.disk.reads disk.old) from.now) }
    requires from_size { IsTrue D.disk.tells → length (bytes_at (D.disk.reads disk.old) from.now) ≡ from_size }
    ensures tests { Tests D.disk (λ passed. passed)
        (λ tree. same_or_collision name.now (first_difference (bytes_at tree path.now) (bytes_at tree from.now)))
        disk.old disk.new result }
    ensures stops { IfErr result (PutStops IsCollision (D.disk.faults disk.old) (D.disk.faults disk.new)) }
{
    match files_differ(alloc, disk, path, size, from, from_size)? {
        None => Ok(()),
        Some(at) => Err(Stop::Refused(Refusal::Collision { name: *name, at })),
    }
}

/// Puts a file of so many bytes at the path of a name: it is moved there, or stays, where one with its bytes stands already.
pub fn move_in<D: TreeDisk>(
    alloc: Global,
    disk: &mut D,
    dir: &Path,
    path: &Path,
    name: &[u8; 20],
    from: &Path,
    from_size: u64,
) -> Result<(), Stop>
    requires dir { IsTrue (is_path dir.now) }
    requires path { path.now ≡ content_path dir.now name.now }
    requires can { IsTrue D.disk.tells → CanPut (D.disk.reads disk.old) dir.now path.now }
    requires from { IsTrue D.disk.tells → IsTrue (is_file_at (D.disk.reads disk.old) from.now) }
    requires from_size { IsTrue D.disk.tells → length (bytes_at (D.disk.reads disk.old) from.now) ≡ from_size }
    ensures decides { Decides D.disk (move_names path.now from.now) (move_outcome path.now name.now from.now) disk.old disk.new result }
    ensures stops { IfErr result (PutStops IsCollision (D.disk.faults disk.old) (D.disk.faults disk.new)) }
{
    let look = steps::look(alloc, disk, path)?;
    match look.size() {
        Some(size) => expect_same_file(alloc, disk, path, size, name, from, from_size),
        None => steps::rename(alloc, disk, from, path),
    }
}
