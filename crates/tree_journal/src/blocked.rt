//! Which write of a write set can't be put into the tree as it stands.
ghost use Rattle.std.specs.Prelude.{◌≡◌, ◌≢◌, IfErr, IfNone, IfOk, IfSome, IsTrue};
ghost use Rattle.std.specs.List.{All};
ghost use Rattle.journal_log.specs.cny-base.Path.{is_path, join, root};
ghost use Rattle.journal_log.specs.cny-base.declared.stop.Stop.TheVariants as stop;
ghost use Rattle.journal_log.specs.tree-disk.Disk.{NamesOf};
ghost use Rattle.journal_log.specs.tree-disk.Rows.{is_dir_at};
ghost use Rattle.tree_journal.specs.CanBePut.{CanBePut, HasWay, IsClearBelow};
ghost use Rattle.tree_journal.specs.Found.{AreClear, Finds, FindsBlocked, IsAbove, IsAnswer, IsChild};

use journal_log::cny_base::{Copies, Path, Stop, Text, TextFault};
use journal_log::tree_disk::{TreeDisk, steps};
use journal_log::{Put, Puts};
use std::alloc::Global;

/// The path of the first write that can't be put.
pub fn first_blocked<D: TreeDisk>(
    alloc: Global,
    disk: &mut D,
    puts: &Puts,
) -> Result<Option<Path>, Stop>
    requires paths { All (λ p. IsTrue (is_path p.path)) puts.now }
    requires not_root { All (λ p. p.path ≢ root) puts.now }
    ensures { Finds D.disk (FindsBlocked puts.now) disk.old disk.new result }
{
    for put in puts.get() {
        if !can_be_put(alloc, disk, puts, put)? {
            return Ok(Some(put.path.copy()?));
        }
    }
    Ok(None)
}

fn can_be_put<D: TreeDisk>(
    alloc: Global,
    disk: &mut D,
    puts: &Puts,
    put: &Put,
) -> Result<bool, Stop>
    requires path { IsTrue (is_path put.now.path) }
    requires not_root { put.now.path ≢ root }
    ensures { Finds D.disk (λ tree can. IsAnswer (CanBePut puts.now tree put.now) can) disk.old disk.new result }
{
    if !has_way(alloc, disk, puts, &put.path)? {
        return Ok(false);
    }
    if put.want.is_dir() {
        return Ok(true);
    }
    is_clear_below(alloc, disk, puts, &put.path)
}

// The path without its last name.
fn above_of(alloc: Global, path: &Path) -> Result<Option<Path>, Stop>
    requires { IsTrue (is_path path.now) }
    ensures above { IfOk result (λ found. IfSome found (IsAbove path.now)) }
    ensures none { IfOk result (λ found. IfNone found (path.now ≡ root)) }
    ensures memory { IfErr result (λ e. e ≡ stop.Memory) }
{
    let Some(above) = path.parent_path(alloc)? else {
        return Ok(None);
    };
    Ok(Some(above))
}

// Whether each path above that isn't a target is a directory: where the nearest one is, all are.
fn has_way<D: TreeDisk>(alloc: Global, disk: &mut D, puts: &Puts, path: &Path) -> Result<bool, Stop>
    requires { IsTrue (is_path path.now) }
    ensures { Finds D.disk (λ tree has. IsAnswer (HasWay puts.now tree path.now) has) disk.old disk.new result }
{
    let Some(above) = above_of(alloc, path)? else {
        return Ok(true);
    };
    if puts.contains(&above) {
        return has_way(alloc, disk, puts, &above);
    }
    let look = steps::look(alloc, disk, &above)?;
    Ok(look.is_dir())
}

// Whether no name that isn't a target stands below the path.
#[cycle(below)]
fn is_clear_below<D: TreeDisk>(
    alloc: Global,
    disk: &mut D,
    puts: &Puts,
    path: &Path,
) -> Result<bool, Stop>
    requires path { IsTrue (is_path path.now) }
    requires not_root { path.now ≢ root }
    ensures { Finds D.disk (λ tree clear. IsAnswer (IsClearBelow puts.now tree path.now) clear) disk.old disk.new result }
{
    let look = steps::look(alloc, disk, path)?;
    if !look.is_dir() {
        return Ok(true);
    }
    is_dir_clear(alloc, disk, puts, path)
}

#[cycle(below)]
fn is_dir_clear<D: TreeDisk>(
    alloc: Global,
    disk: &mut D,
    puts: &Puts,
    path: &Path,
) -> Result<bool, Stop>
    requires path { IsTrue (is_path path.now) }
    requires not_root { path.now ≢ root }
    requires dir { IsTrue D.disk.tells → IsTrue (is_dir_at (D.disk.reads disk.old) path.now) }
    ensures { Finds D.disk (λ tree clear. IsAnswer (IsClearBelow puts.now tree path.now) clear) disk.old disk.new result }
{
    let names = steps::list(alloc, disk, path)?;
    are_names_clear(alloc, disk, puts, path, names.get())
}

// Whether each of the names directly below the path is a target, below which no name stands that isn't one.
#[cycle(below)]
fn are_names_clear<D: TreeDisk>(
    alloc: Global,
    disk: &mut D,
    puts: &Puts,
    path: &Path,
    names: &[Text],
) -> Result<bool, Stop>
    requires path { IsTrue (is_path path.now) }
    requires not_root { path.now ≢ root }
    requires names { NamesOf path.now names.now }
    ensures { Finds D.disk (λ tree clear. IsAnswer (AreClear puts.now tree path.now names.now) clear) disk.old disk.new result }
{
    for last in names {
        let child = child_of(alloc, path, last.get())?;
        if !puts.contains(&child) {
            return Ok(false);
        }
        if !is_clear_below(alloc, disk, puts, &child)? {
            return Ok(false);
        }
    }
    Ok(true)
}

/// The path of a name directly below another.
pub fn child_of(alloc: Global, path: &Path, last: &str) -> Result<Path, Stop>
    requires path { IsTrue (is_path path.now) }
    requires not_root { path.now ≢ root }
    requires child { IsTrue (is_path (join path.now last.now)) }
    ensures child { IfOk result (IsChild path.now last.now) }
    ensures memory { IfErr result (λ e. e ≡ stop.Memory) }
{
    match path.join(alloc, last) {
        Ok(child) => Ok(child),
        Err(TextFault::Memory) => Err(Stop::Memory),
        Err(TextFault::Bad) => unreachable!(),
    }
}
