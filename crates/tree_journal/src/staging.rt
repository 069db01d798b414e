//! The directory of staged bytes, from which the files of a write set are copied into their places. A crash can't lose
//! them, since they stay until the commit flag is gone.
ghost use Rattle.std.specs.Prelude.{◌≡◌, ◌≢◌, ◌≤◌, IsTrue, None, OnOk, length};
ghost use Rattle.std.specs.FinMap.{get};
ghost use Rattle.std.specs.List.{All};
ghost use Rattle.journal_log.specs.cny-base.Path.{is_path, join, parent, root};
ghost use Rattle.journal_log.specs.tree-disk.Clear.{is_within, without_tree};
ghost use Rattle.journal_log.specs.tree-disk.Disk.{NamesOf};
ghost use Rattle.journal_log.specs.tree-disk.Rows.{is_dir_at};
ghost use Rattle.journal_log.specs.tree-disk.Steps.{Makes};
ghost use Rattle.journal_log.specs.Numbers.{IsNumbered};
ghost use Rattle.journal_log.specs.Own.{staged, staged_file};
ghost use Rattle.journal_log.specs.Rules.{AreLogged};
ghost use Rattle.journal_log.specs.WriteSet.{CanBeLogged, IsFormed};
ghost use Rattle.tree_journal.specs.Staging.{HoldsNoOthers};
ghost use Rattle.tree_journal.specs.Steps.{with_all_bytes, with_bytes, with_own_file, with_stage, with_staged, without_strays, HasNoStrays, HasRoom, HaveRoom};

use crate::blocked::child_of;
use crate::directory::make_dir;
use crate::flag::own_path;
use crate::unstaged::path_of;
use journal_log::cny_base::{Path, Stop, Text};
use journal_log::tree_disk::{TreeDisk, steps};
use journal_log::{Put, Puts, StagedNumbers, Want};
use std::alloc::Global;

/// Clears the directory of staged bytes but for the files that writes name, and writes the bytes of each file to the
/// staged file that its numbered write names.
pub fn stage<D: TreeDisk>(
    alloc: Global,
    disk: &mut D,
    base: &Path,
    puts: &Puts,
    numbered: &[Put],
) -> Result<(), Stop>
    requires base { IsTrue (is_path base.now) }
    requires short { length base.now ≤ 1011 }
    requires logged { AreLogged base.now numbered.now }
    requires numbered { IsNumbered puts.now numbered.now }
    requires formed { All (λ p. IsFormed p.want) numbered.now }
    requires told { IsTrue D.disk.tells → IsTrue (is_dir_at (D.disk.reads disk.old) base.now) }
    ensures makes { Makes D.disk (is_within (staged base.now)) (λ tree. with_staged base.now puts.now numbered.now tree) disk.old disk.new result }
    ensures clear { IsTrue D.disk.tells → OnOk result (HoldsNoOthers base.now numbered.now (D.disk.reads disk.new)) }
{
    let dir = own_path(alloc, base, "p")?;
    clear_dir(alloc, disk, &dir, puts)?;
    write_all(alloc, disk, base, &dir, puts.get(), numbered)
}

pub(crate) fn clear_dir<D: TreeDisk>(
    alloc: Global,
    disk: &mut D,
    dir: &Path,
    puts: &Puts,
) -> Result<(), Stop>
    requires path { IsTrue (is_path dir.now) }
    requires not_root { dir.now ≢ root }
    requires parent { IsTrue D.disk.tells → IsTrue (is_dir_at (D.disk.reads disk.old) (parent dir.now)) }
    ensures makes { Makes D.disk (is_within dir.now) (λ tree. with_stage dir.now puts.now tree) disk.old disk.new result }
    ensures clear { IsTrue D.disk.tells → OnOk result (HasNoStrays dir.now puts.now (D.disk.reads disk.new)) }
{
    make_dir(alloc, disk, dir)?;
    let names = steps::list(alloc, disk, dir)?;
    clear_strays(alloc, disk, dir, puts, names.get())
}

// Clears the names directly below the path that no write names.
fn clear_strays<D: TreeDisk>(
    alloc: Global,
    disk: &mut D,
    dir: &Path,
    puts: &Puts,
    names: &[Text],
) -> Result<(), Stop>
    requires path { IsTrue (is_path dir.now) }
    requires not_root { dir.now ≢ root }
    requires names { NamesOf dir.now names.now }
    ensures { Makes D.disk (is_within dir.now) (λ tree. without_strays puts.now dir.now names.now tree) disk.old disk.new result }
{
    let kept = StagedNumbers::of(alloc, puts)?;
    for last in names {
        if kept.keeps(alloc, last.get())? {
            continue;
        }
        clear_child(alloc, disk, dir, last.get())?;
    }
    Ok(())
}

fn clear_child<D: TreeDisk>(alloc: Global, disk: &mut D, dir: &Path, last: &str) -> Result<(), Stop>
    requires path { IsTrue (is_path dir.now) }
    requires not_root { dir.now ≢ root }
    requires child { IsTrue (is_path (join dir.now last.now)) }
    ensures { Makes D.disk (is_within dir.now) (λ tree. without_tree tree (join dir.now last.now)) disk.old disk.new result }
{
    let child = child_of(alloc, dir, last)?;
    steps::clear_tree(alloc, disk, &child)
}

// Writes the bytes of all files.
fn write_all<D: TreeDisk>(
    alloc: Global,
    disk: &mut D,
    base: &Path,
    dir: &Path,
    puts: &[Put],
    numbered: &[Put],
) -> Result<(), Stop>
    requires base { IsTrue (is_path base.now) }
    requires dir { dir.now ≡ staged base.now }
    requires logged { AreLogged base.now numbered.now }
    requires same_number { length puts.now ≡ length numbered.now }
    requires told { IsTrue D.disk.tells → IsTrue (is_dir_at (D.disk.reads disk.old) (staged base.now)) }
    requires bare { IsTrue D.disk.tells → HaveRoom base.now puts.now numbered.now (D.disk.reads disk.old) }
    ensures { Makes D.disk (is_within (staged base.now)) (λ tree. with_all_bytes base.now puts.now numbered.now tree) disk.old disk.new result }
{
    let mut place = 0;
    'places: while place < puts.len() {
        write_bytes(alloc, disk, base, dir, &puts[place], &numbered[place])?;
        place += 1;
    }
    Ok(())
}

fn write_bytes<D: TreeDisk>(
    alloc: Global,
    disk: &mut D,
    base: &Path,
    dir: &Path,
    put: &Put,
    numbered: &Put,
) -> Result<(), Stop>
    requires base { IsTrue (is_path base.now) }
    requires dir { dir.now ≡ staged base.now }
    requires logged { CanBeLogged base.now numbered.now.want }
    requires told { IsTrue D.disk.tells → IsTrue (is_dir_at (D.disk.reads disk.old) (staged base.now)) }
    requires bare { IsTrue D.disk.tells → HasRoom base.now put.now.want numbered.now.want (D.disk.reads disk.old) }
    ensures { Makes D.disk (is_within (staged base.now)) (λ tree. with_bytes base.now put.now.want numbered.now.want tree) disk.old disk.new result }
{
    let Want::File { bytes, .. } = &put.want else {
        return Ok(());
    };
    let Want::Staged { number, .. } = &numbered.want else {
        return Ok(());
    };
    write_staged(alloc, disk, base, dir, *number, bytes.get())
}

fn write_staged<D: TreeDisk>(
    alloc: Global,
    disk: &mut D,
    base: &Path,
    dir: &Path,
    number: u32,
    bytes: &[u8],
) -> Result<(), Stop>
    requires base { IsTrue (is_path base.now) }
    requires dir { dir.now ≡ staged base.now }
    requires path { IsTrue (is_path (staged_file base.now number)) }
    requires told { IsTrue D.disk.tells → IsTrue (is_dir_at (D.disk.reads disk.old) (staged base.now)) }
    requires bare { IsTrue D.disk.tells → get (D.disk.reads disk.old) (staged_file base.now number) ≡ None }
    ensures { Makes D.disk (is_within (staged base.now)) (λ tree. with_own_file (staged_file base.now number) bytes.now tree) disk.old disk.new result }
{
    let path = path_of(alloc, dir, number)?;
    steps::append(alloc, disk, &path, bytes)
}
