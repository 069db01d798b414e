//! Names in directories of a job that aren't among its paths.
ghost use Rattle.std.specs.Prelude.{◌≡◌, IfErr, IfOk, IsTrue, Ok};
ghost use Rattle.std.specs.BTreeMap.{get};
ghost use Rattle.std.specs.Cmp.Lexicographic.{slice_cmp};
ghost use Rattle.std.specs.List.{list_any};
ghost use Rattle.std.specs.List.Sorted.{IsStrictlySortedBy};
ghost use Rattle.std.specs.Ordering.{nat_cmp};
ghost use Rattle.change_rel.specs.cny-base.Below as below;
ghost use Rattle.change_rel.specs.cny-base.Path.{is_path, join};
ghost use Rattle.local_db.specs.tree-disk.Disk.{NamesOf};
ghost use Rattle.local_db.specs.tree-disk.Steps.{IsDiskStop, Tests};
ghost use Rattle.local_db.specs.tree-disk.Tree as names;
ghost use Rattle.local_db.specs.Record.{entry_cmp};
ghost use Rattle.past_jobs.specs.Seen as spec;

use crate::found::{FoundMark, FoundMarks};
use crate::search::is_changed;
use local_db::PathChange;
use local_db::cny_base::{OutOfMemory, Path, Stop, Text, TextFault};
use local_db::tree_disk::{TreeDisk, steps};
use std::alloc::Global;

// The path of a name directly below another.
fn child_of(alloc: Global, dir: &Path, last: &str) -> Result<Path, OutOfMemory>
    requires { IsTrue (is_path (join dir.now last.now)) }
    ensures { IfOk result (λ child. child ≡ join dir.now last.now) }
{
    match dir.join(alloc, last) {
        Ok(path) => Ok(path),
        Err(TextFault::Memory) => Err(OutOfMemory),
        Err(TextFault::Bad) => unreachable!(),
    }
}

// Whether an undoing leaves the path as the disk has it, or puts something there.
fn stays(found: &FoundMarks, path: &Path) -> bool
    ensures { result ≡ spec.stays (get (slice_cmp nat_cmp) found.now path.now) }
{
    match found.get(path) {
        Some(at) => !at.mark.is_nothing(),
        None => true,
    }
}

// Whether a name that stands on the disk is foreign to the job.
fn is_foreign(found: &FoundMarks, changes: &[PathChange], path: &Path) -> bool
    requires { IsStrictlySortedBy entry_cmp changes.now }
    ensures { result ≡ spec.is_foreign found.now changes.now path.now }
{
    let stays = stays(found, path);
    let own = is_changed(changes, path);
    stays && !own
}

// Whether one of the names directly below a path is foreign to the job.
fn any_foreign(
    alloc: Global,
    found: &FoundMarks,
    changes: &[PathChange],
    dir: &Path,
    names: &[Text],
) -> Result<bool, OutOfMemory>
    requires rising { IsStrictlySortedBy entry_cmp changes.now }
    requires names { NamesOf dir.now names.now }
    ensures { IfOk result (λ any. any ≡ list_any (λ last. spec.is_foreign found.now changes.now (join dir.now last)) names.now) }
{
    for last in names {
        let child = child_of(alloc, dir, last.get())?;
        if is_foreign(found, changes, &child) {
            return Ok(true);
        }
    }
    Ok(false)
}

// Whether a name that stands on the disk directly in the directory is foreign to the job.
fn has_foreign_on_disk<D: TreeDisk>(
    alloc: Global,
    disk: &mut D,
    found: &FoundMarks,
    changes: &[PathChange],
    dir: &Path,
) -> Result<bool, Stop>
    requires { IsStrictlySortedBy entry_cmp changes.now }
    ensures tests { Tests D.disk (λ any. any)
        (λ tree. Ok (spec.has_foreign_on_disk found.now changes.now tree dir.now))
        disk.old disk.new result }
    ensures stops { IfErr result IsDiskStop }
{
    let look = steps::look(alloc, disk, dir)?;
    if !look.is_dir() {
        return Ok(false);
    }
    let names = steps::list(alloc, disk, dir)?;
    let any = any_foreign(alloc, found, changes, dir, names.get())?;
    Ok(any)
}

// Whether the text of a path begins with that of another.
fn begins_with(path: &Path, front: &Path) -> bool
    ensures { result ≡ below.begins_with front.now path.now }
{
    let bytes = path.text().as_bytes();
    bytes.starts_with(front.text().as_bytes())
}

// Whether a path is directly below another.
fn is_child(dir: &Path, path: &Path) -> bool
    ensures { result ≡ names.is_child dir.now path.now }
{
    match path.parent() {
        Some(above) => above == dir.text(),
        None => false,
    }
}

// Whether an undoing puts this name directly into the directory, and it is foreign to the job.
fn is_foreign_put(changes: &[PathChange], dir: &Path, path: &Path, at: &FoundMark) -> bool
    requires { IsStrictlySortedBy entry_cmp changes.now }
    ensures { result ≡ spec.is_foreign_put changes.now dir.now (path.now, at.now) }
{
    let child = is_child(dir, path);
    let nothing = at.mark.is_nothing();
    let own = is_changed(changes, path);
    child && (!nothing && !own)
}

// Whether a name that an undoing puts directly into the directory is foreign to the job. Only the paths whose text begins with
// that of the directory are looked at: they come one after the other, since paths are in the order of their bytes.
fn has_foreign_put(found: &FoundMarks, changes: &[PathChange], dir: &Path) -> bool
    requires { IsStrictlySortedBy entry_cmp changes.now }
    ensures { result ≡ spec.has_foreign_put found.now changes.now dir.now }
{
    for (path, at) in found.range(dir..) {
        if !begins_with(path, dir) {
            return false;
        }
        if is_foreign_put(changes, dir, path, at) {
            return true;
        }
    }
    false
}

// Whether the job made a directory there.
fn makes_dir(change: &PathChange) -> bool
    ensures { result ≡ spec.makes_dir change.now }
{
    let was_dir = change.old_mark().is_dir();
    let is_dir = change.new_mark().is_dir();
    !was_dir && is_dir
}

// Whether at the path the job made a directory, and a name that isn't one of its paths stands directly in it.
pub(crate) fn has_foreign<D: TreeDisk>(
    alloc: Global,
    disk: &mut D,
    found: &FoundMarks,
    changes: &[PathChange],
    change: &PathChange,
) -> Result<bool, Stop>
    requires { IsStrictlySortedBy entry_cmp changes.now }
    ensures tests { Tests D.disk (λ any. any)
        (λ tree. Ok (spec.has_foreign found.now changes.now tree change.now))
        disk.old disk.new result }
    ensures stops { IfErr result IsDiskStop }
{
    if !makes_dir(change) {
        return Ok(false);
    }
    if has_foreign_put(found, changes, change.path()) {
        return Ok(true);
    }
    let any = has_foreign_on_disk(alloc, disk, found, changes, change.path())?;
    Ok(any)
}
