//! Which staged file of a log doesn't stand with its size and SHA-1.
ghost use Rattle.std.specs.Prelude.{◌≡◌, ◌<◌, [], length, IfOk, IfErr, IsTrue};
ghost use Rattle.std.specs.FinMap.{get};
ghost use Rattle.std.specs.Fmt.{decimal};
ghost use Rattle.journal_log.specs.cny-base.Path.{is_path, join};
ghost use Rattle.sha1.specs.Sha1.{sha1, Holds};
ghost use Rattle.journal_log.specs.cny-base.declared.stop.Stop.TheVariants as stop;
ghost use Rattle.journal_log.specs.tree-disk.Rows.{bytes_at, is_file_at};
ghost use Rattle.journal_log.specs.Own.{staged};
ghost use Rattle.journal_log.specs.WriteSet.{IsLoggable, CanBeLogged};
ghost use Rattle.tree_journal.specs.Found.{sees_size, Finds, FindsUnstaged, FindsContent};
ghost use Rattle.tree_journal.specs.Staging.{is_content};

use crate::copying::piece_size;
use journal_log::cny_base::{Path, Stop, TextFault};
use journal_log::tree_disk::{Look, TreeDisk, steps};
use journal_log::{Put, Puts, Want, staged_path};
use sha1::Sha1;
use std::alloc::Global;

/// The path of the first staged file of a log, in the order of its writes, that doesn't stand with its size and SHA-1.
pub fn first_unstaged<D: TreeDisk>(
    alloc: Global,
    disk: &mut D,
    base: &Path,
    dir: &Path,
    puts: &Puts,
) -> Result<Option<Path>, Stop>
    requires dir { dir.now ≡ staged base.now }
    requires loggable { IsLoggable base.now puts.now }
    ensures { Finds D.disk (FindsUnstaged base.now puts.now) disk.old disk.new result }
{
    for put in puts.get() {
        if let Some(path) = unstaged_of(alloc, disk, base, dir, put)? {
            return Ok(Some(path));
        }
    }
    Ok(None)
}

// The path of a write's staged file, where it has one that doesn't stand so.
fn unstaged_of<D: TreeDisk>(
    alloc: Global,
    disk: &mut D,
    base: &Path,
    dir: &Path,
    put: &Put,
) -> Result<Option<Path>, Stop>
    requires dir { dir.now ≡ staged base.now }
    requires logged { CanBeLogged base.now put.now.want }
    ensures { Finds D.disk (λ tree found. FindsContent base.now tree put.now.want found) disk.old disk.new result }
{
    let Want::Staged {
        number,
        size,
        name,
        ..
    } = &put.want
    else {
        return Ok(None);
    };
    let path = path_of(alloc, dir, *number)?;
    if stands(alloc, disk, &path, *size, name)? {
        return Ok(None);
    }
    Ok(Some(path))
}

/// The path of the staged file with this number in the directory of staged bytes.
pub fn path_of(alloc: Global, dir: &Path, number: u32) -> Result<Path, Stop>
    requires { IsTrue (is_path (join dir.now (decimal number))) }
    ensures path { IfOk result (λ path. path ≡ join dir.now (decimal number)) }
    ensures memory { IfErr result (λ e. e ≡ stop.Memory) }
{
    match staged_path(alloc, dir, number) {
        Ok(path) => Ok(path),
        Err(TextFault::Memory) => Err(Stop::Memory),
        Err(TextFault::Bad) => unreachable!(),
    }
}

/// Whether a file of this size is seen.
pub fn has_size(look: &Look, wanted: u32) -> bool
    ensures { result ≡ sees_size look.now wanted }
{
    match look {
        Look::File { size, .. } => *size == u64::from(wanted),
        Look::Nothing | Look::Dir { .. } | Look::Link { .. } => false,
    }
}

// Whether a file with this size and SHA-1 stands at the path.
fn stands<D: TreeDisk>(
    alloc: Global,
    disk: &mut D,
    path: &Path,
    size: u32,
    name: &[u8; 20],
) -> Result<bool, Stop>
    ensures { Finds D.disk (λ tree stands. stands ≡ is_content (get tree path.now) size name.now) disk.old disk.new result }
{
    let look = steps::look(alloc, disk, path)?;
    if !has_size(&look, size) {
        return Ok(false);
    }
    let digest = digest_of(alloc, disk, path, size)?;
    Ok(digest == *name)
}

// The SHA-1 of a file of this size, which is read in pieces.
fn digest_of<D: TreeDisk>(
    alloc: Global,
    disk: &mut D,
    path: &Path,
    size: u32,
) -> Result<[u8; 20], Stop>
    requires file { IsTrue D.disk.tells → IsTrue (is_file_at (D.disk.reads disk.old) path.now) }
    requires size { IsTrue D.disk.tells → length (bytes_at (D.disk.reads disk.old) path.now) ≡ size }
    ensures { Finds D.disk (λ tree digest. digest ≡ sha1 (bytes_at tree path.now)) disk.old disk.new result }
{
    let mut piece = vec![in alloc; 0u8; piece_size(size)]?;
    let mut hasher = Sha1::new();
    hash_pieces(alloc, disk, path, size, &mut piece, &mut hasher)?;
    Ok(hasher.finalize())
}

fn hash_pieces<D: TreeDisk>(
    alloc: Global,
    disk: &mut D,
    path: &Path,
    size: u32,
    piece: &mut [u8],
    hasher: &mut Sha1,
) -> Result<(), Stop>
    requires file { IsTrue D.disk.tells → IsTrue (is_file_at (D.disk.reads disk.old) path.now) }
    requires size { IsTrue D.disk.tells → length (bytes_at (D.disk.reads disk.old) path.now) ≡ size }
    requires room { 0 < size → 0 < length piece.old }
    requires empty { Holds hasher.old [] }
    ensures { Finds D.disk (λ tree done. Holds hasher.new (bytes_at tree path.now)) disk.old disk.new result }
{
    let mut at = 0u64;
    'pieces: while at < u64::from(size) {
        let count = steps::read_at(alloc, disk, path, at, piece)?;
        if count == 0 {
            return Ok(());
        }
        hasher.update(&piece[..count]);
        at += count as u64;
    }
    Ok(())
}
