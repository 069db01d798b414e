//! The database of a root, as its tree holds it.
ghost use Rattle.std.specs.Prelude.{◌≡◌, ◌≤◌, [], IfErr, IfOk, IsTrue, Ok};
ghost use Rattle.std.specs.FinMap.{get};
ghost use Rattle.trove_stream.specs.cny-base.Count.{Rose};
ghost use Rattle.tree_journal.specs.tree-disk.Disk.{Reads};
ghost use Rattle.tree_journal.specs.tree-disk.Rows.{bytes_at, is_file_at};
ghost use Rattle.tree_journal.specs.tree-disk.Steps.{IsDiskStop, Tests};
ghost use Rattle.local_db.specs.declared.db.Db.{Db};
ghost use Rattle.local_db.specs.Database.{IsDatabaseFile, IsDb};
ghost use Rattle.local_db.specs.Loading.{HoldsDb, IsLoadStop, IsTextStop, file_found, found_of, no_file_found};

use crate::db::Db;
use crate::laws::distinct_databases;
use crate::names::database_path;
use crate::reading::decode;
use std::alloc::Global;
use tree_journal::tree_disk::{Look, TreeDisk, steps};
use trove_stream::Installed;
use trove_stream::cny_base::{Bytes, DATABASE_LIMIT, Path, Stop, TextFault};

/// What stands at the name of the database.
#[derive(Drop)]
enum Found {
    Nothing,
    /// A file of no more bytes than a database has at most.
    File(Bytes),
    Other,
}

// The bytes of the file that stands there, where they aren't too many.
fn read_file<D: TreeDisk>(alloc: Global, disk: &mut D, path: &Path) -> Result<Found, Stop>
    requires { IsTrue D.disk.tells → IsTrue (is_file_at (D.disk.reads disk.old) path.now) }
    ensures tests { Tests D.disk (λ found. found)
        (λ tree. Ok (file_found (bytes_at tree path.now)))
        disk.old disk.new result }
    ensures stops { IfErr result IsDiskStop }
{
    let whole = steps::read_whole(alloc, disk, path, DATABASE_LIMIT as u64)?;
    match whole {
        Some(bytes) => Ok(Found::File(bytes)),
        None => Ok(Found::Other),
    }
}

// What was seen, where it was no file.
fn no_file(look: &Look) -> Found
    ensures { result ≡ no_file_found look.now }
{
    if look.is_nothing() {
        Found::Nothing
    } else {
        Found::Other
    }
}

// What stands at a path.
fn read_found<D: TreeDisk>(alloc: Global, disk: &mut D, path: &Path) -> Result<Found, Stop>
    ensures tests { Tests D.disk (λ found. found)
        (λ tree. Ok (found_of (get tree path.now)))
        disk.old disk.new result }
    ensures stops { IfErr result IsDiskStop }
{
    let look = steps::look(alloc, disk, path)?;
    if look.is_file() {
        return read_file(alloc, disk, path);
    }
    Ok(no_file(&look))
}

// The database of a root that has none.
fn no_database(alloc: Global) -> Db
    ensures value { result ≡ record { installed = []; oldest = 0; newest = 0 } }
    ensures rules { IsDb result }
{
    Db {
        installed: Installed::of_rising(Vec::new(alloc)),
        oldest: 0,
        newest: 0,
    }
}

/// The database that these bytes tell, or that the file of this path is damaged.
pub fn decode_file(alloc: Global, path: Path, bytes: &[u8]) -> Result<Db, Stop>
    ensures value { IfOk result (λ db. IsDatabaseFile db bytes.now) }
    ensures only { IfOk result (λ read. (db : Db) → IsDatabaseFile db bytes.now → read ≡ db) }
    ensures stops { IfErr result (IsTextStop path bytes.now) }
{
    match decode(alloc, bytes) {
        Ok(db) => Ok(db),
        Err(TextFault::Memory) => Err(Stop::Memory),
        Err(TextFault::Bad) => Err(Stop::Damaged { path }),
    }
}

/// The database that the root's tree holds: that of its file, in format 1 or 2; an empty one where nothing stands there.
/// `Damaged` exactly where the file fails its grammar or a cross-check, with its path.
///
/// `Failed` comes only where the disk's count of faults rose, and of the other stops want of memory alone.
pub fn load<D: TreeDisk>(alloc: Global, disk: &mut D) -> Result<Db, Stop>
    ensures value { Reads D.disk disk.old disk.new (IfOk result (HoldsDb (D.disk.reads disk.old))) }
    // Also where the disk tells no tree: the troves, their names, their paths and the numbers keep the rules of a database.
    ensures rules { IfOk result IsDb }
    // The tree holds no other database.
    ensures only { IsTrue D.disk.tells → IfOk result (λ loaded. (db : Db) → HoldsDb (D.disk.reads disk.old) db → loaded ≡ db) }
    ensures stops { IfErr result (IsLoadStop D.disk.tells (D.disk.reads disk.old) (Rose (D.disk.faults disk.old) (D.disk.faults disk.new))) }
    ensures later { D.disk.faults disk.old ≤ D.disk.faults disk.new }
{
    distinct_databases();
    let path = database_path(alloc)?;
    match read_found(alloc, disk, &path)? {
        Found::Nothing => Ok(no_database(alloc)),
        Found::File(bytes) => decode_file(alloc, path, bytes.get()),
        Found::Other => Err(Stop::Damaged { path }),
    }
}
