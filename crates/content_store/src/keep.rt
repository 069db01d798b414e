// Bytes put at a content's path.
ghost use Rattle.std.specs.Prelude.{◌≡◌, IfErr, IsTrue, length};
ghost use Rattle.tree_disk.specs.cny-base.Path.{is_path};
ghost use Rattle.tree_disk.specs.Rows.{bytes_at, is_file_at};
ghost use Rattle.tree_disk.specs.Steps.{Tests};
ghost use Rattle.content_store.specs.Difference.{first_difference};
ghost use Rattle.content_store.specs.Outcome.{put_names, put_outcome, same_or_collision, CanPut, Decides, IsCollisionOf, PutStops};
ghost use Rattle.content_store.specs.Store.{content_path};

use crate::compare::file_differs;
use std::alloc::Global;
use tree_disk::cny_base::{Path, Refusal, Stop};
use tree_disk::{TreeDisk, steps};

// Tests that a file that stands has these bytes.
fn expect_same<D: TreeDisk>(
    alloc: Global,
    disk: &mut D,
    path: &Path,
    size: u64,
    name: &[u8; 20],
    bytes: &[u8],
) -> Result<(), Stop>
    requires file { IsTrue D.disk.tells → IsTrue (is_file_at (D.disk.reads disk.old) path.now) }
    requires size { IsTrue D.disk.tells → length (bytes_at (D.disk.reads disk.old) path.now) ≡ size }
    ensures tests { Tests D.disk (λ passed. passed)
        (λ tree. same_or_collision name.now (first_difference (bytes_at tree path.now) bytes.now))
        disk.old disk.new result }
    ensures stops { IfErr result (PutStops (IsCollisionOf name.now) (D.disk.faults disk.old) (D.disk.faults disk.new)) }
{
    match file_differs(alloc, disk, path, size, bytes)? {
        None => Ok(()),
        Some(at) => Err(Stop::Refused(Refusal::Collision { name: *name, at })),
    }
}

/// Puts bytes at the path of a name: a file is made, or has these bytes already.
pub fn keep<D: TreeDisk>(
    alloc: Global,
    disk: &mut D,
    dir: &Path,
    path: &Path,
    name: &[u8; 20],
    bytes: &[u8],
) -> Result<(), Stop>
    requires dir { IsTrue (is_path dir.now) }
    requires path { path.now ≡ content_path dir.now name.now }
    requires can { IsTrue D.disk.tells → CanPut (D.disk.reads disk.old) dir.now path.now }
    ensures decides { Decides D.disk (put_names path.now) (put_outcome path.now name.now bytes.now) disk.old disk.new result }
    ensures stops { IfErr result (PutStops (IsCollisionOf name.now) (D.disk.faults disk.old) (D.disk.faults disk.new)) }
{
    let look = steps::look(alloc, disk, path)?;
    match look.size() {
        Some(size) => expect_same(alloc, disk, path, size, name, bytes),
        None => steps::append(alloc, disk, path, bytes),
    }
}
