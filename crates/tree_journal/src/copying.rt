//! A file, copied piece by piece.
ghost use Rattle.std.specs.Prelude.{◌≡◌, ◌<◌, ◌≤◌, ◌-◌, length, min, take, drop, IfOk, IsTrue};
ghost use Rattle.journal_log.specs.cny-base.declared.node.Node.TheVariants as node;
ghost use Rattle.journal_log.specs.tree-disk.Disk.{one_name};
ghost use Rattle.journal_log.specs.tree-disk.Rows.{bytes_at, is_file_at, can_append, with_append, with_node};
ghost use Rattle.journal_log.specs.tree-disk.Steps.{Makes};
ghost use Rattle.tree_journal.specs.Passes.{CanCopy};

use journal_log::cny_base::{Path, Stop};
use journal_log::tree_disk::{TreeDisk, steps};
use std::alloc::Global;

// The greatest number of bytes that one call reads or appends.
const PIECE: u32 = 65_536;

/// How many bytes a piece of a file of this size has: at least one, where the file has any.
pub fn piece_size(size: u32) -> usize
    ensures some { 0 < size → 0 < result }
    ensures most { result ≤ 65536 }
{
    if size < PIECE {
        size as usize
    } else {
        PIECE as usize
    }
}

/// Makes a file of mode 0600 with the bytes of another file, which has this size.
pub fn copy_file<D: TreeDisk>(
    alloc: Global,
    disk: &mut D,
    from: &Path,
    size: u32,
    to: &Path,
) -> Result<(), Stop>
    requires { IsTrue D.disk.tells → CanCopy (D.disk.reads disk.old) from.now to.now size }
    ensures { Makes D.disk (one_name to.now) (λ tree. with_node tree to.now (node.File 384 (bytes_at tree from.now))) disk.old disk.new result }
{
    let mut piece = vec![in alloc; 0u8; piece_size(size)]?;
    copy_pieces(alloc, disk, from, size, to, &mut piece)
}

fn copy_pieces<D: TreeDisk>(
    alloc: Global,
    disk: &mut D,
    from: &Path,
    size: u32,
    to: &Path,
    piece: &mut [u8],
) -> Result<(), Stop>
    requires told { IsTrue D.disk.tells → CanCopy (D.disk.reads disk.old) from.now to.now size }
    requires room { 0 < size → 0 < length piece.old }
    ensures { Makes D.disk (one_name to.now) (λ tree. with_node tree to.now (node.File 384 (bytes_at tree from.now))) disk.old disk.new result }
{
    // The first piece makes the file, also one without bytes.
    let first = copy_piece(alloc, disk, from, 0, to, piece)?;
    let mut at = first as u64;
    'pieces: while at < u64::from(size) {
        let count = copy_piece(alloc, disk, from, at, to, piece)?;
        if count == 0 {
            return Ok(());
        }
        at += count as u64;
    }
    Ok(())
}

// Appends the piece of a file from a place on, and answers how many bytes it has.
fn copy_piece<D: TreeDisk>(
    alloc: Global,
    disk: &mut D,
    from: &Path,
    at: u64,
    to: &Path,
    piece: &mut [u8],
) -> Result<usize, Stop>
    requires file { IsTrue D.disk.tells → IsTrue (is_file_at (D.disk.reads disk.old) from.now) }
    requires room { IsTrue D.disk.tells → IsTrue (can_append (D.disk.reads disk.old) to.now) }
    ensures makes { Makes D.disk (one_name to.now)
        (λ tree. with_append tree to.now (take (length piece.old) (drop at (bytes_at tree from.now)))) disk.old disk.new result }
    ensures count { IsTrue D.disk.tells → IfOk result (λ count. count ≡ min (length piece.old) (length (bytes_at (D.disk.reads disk.old) from.now) - at)) }
    ensures most { IfOk result (λ count. count ≤ length piece.old) }
{
    let count = steps::read_at(alloc, disk, from, at, piece)?;
    steps::append(alloc, disk, to, &piece[..count])?;
    Ok(count)
}
