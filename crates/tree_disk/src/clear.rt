// A name and all names below it, taken away.
ghost use Rattle.std.specs.Prelude.{◌≡◌, ◌≢◌, ◌≤◌, IfErr, IfOk, IsErrOf, IsTrue, OnOk, string_bytes};
ghost use Rattle.cny_base.specs.Count.{Rose};
ghost use Rattle.cny_base.specs.Path.{is_path, join, root};
ghost use Rattle.cny_base.specs.declared.stop.Stop.TheVariants as stop;
ghost use Rattle.cny_base.specs.Below.{is_below};
ghost use Rattle.tree_disk.specs.declared.disk.DiskStop.TheVariants.{Failed, Refused};
ghost use Rattle.tree_disk.specs.Clear.{is_within, without_each, without_tree, IsBare};
ghost use Rattle.tree_disk.specs.Confined.{Among, Confined};
ghost use Rattle.tree_disk.specs.Disk.{NamesOf};
ghost use Rattle.tree_disk.specs.Rows.{is_dir_at};
ghost use Rattle.tree_disk.specs.Steps.{Makes};

use crate::{DiskStop, TreeDisk, steps};
use cny_base::{Path, Stop, Text, TextFault};
use std::alloc::{AllocError, Global};

/// Takes away what stands at the path, and all names below it. The path isn't `/`.
pub fn clear_tree<D: TreeDisk>(alloc: Global, disk: &mut D, path: &Path) -> Result<(), DiskStop>
    requires { path.now ≢ root }
    // Nothing stands at the path, and no name below it.
    ensures cleared { IsTrue D.disk.tells → OnOk result (IsBare (D.disk.reads disk.new) path.now) }
    // However it ends, every other name stays, and no other becomes unsynced.
    ensures confined { IsTrue D.disk.tells
        → Confined D.disk (Among (is_within path.now)) disk.old disk.new }
    ensures later { D.disk.faults disk.old ≤ D.disk.faults disk.new }
    ensures failed { IsErrOf result Failed → Rose (D.disk.faults disk.old) (D.disk.faults disk.new) }
    ensures not_refused { ¬ (IsErrOf result Refused) }
{
    match steps::clear_tree(alloc, disk, path) {
        Ok(()) => Ok(()),
        Err(Stop::Failed) => Err(DiskStop::Failed),
        Err(Stop::Memory) => Err(DiskStop::Memory),
        Err(_) => unreachable!(),
    }
}

#[cycle(clear)]
pub(crate) fn clear_at<D: TreeDisk>(alloc: Global, disk: &mut D, path: &Path) -> Result<(), Stop>
    requires path { IsTrue (is_path path.now) }
    requires not_root { path.now ≢ root }
    ensures { Makes D.disk (is_within path.now)
        (λ tree. without_tree tree path.now)
        disk.old disk.new result }
{
    let look = steps::look(alloc, disk, path)?;
    if look.is_nothing() {
        return Ok(());
    }
    if look.is_dir() {
        return clear_dir(alloc, disk, path);
    }
    steps::remove(alloc, disk, path)
}

#[cycle(clear)]
fn clear_dir<D: TreeDisk>(alloc: Global, disk: &mut D, path: &Path) -> Result<(), Stop>
    requires path { IsTrue (is_path path.now) }
    requires not_root { path.now ≢ root }
    requires dir { IsTrue D.disk.tells → IsTrue (is_dir_at (D.disk.reads disk.old) path.now) }
    ensures { Makes D.disk (is_within path.now)
        (λ tree. without_tree tree path.now)
        disk.old disk.new result }
{
    let names = steps::list(alloc, disk, path)?;
    clear_each(alloc, disk, path, names.get())?;
    steps::remove(alloc, disk, path)
}

// Clears the names directly below a path.
#[cycle(clear)]
fn clear_each<D: TreeDisk>(
    alloc: Global,
    disk: &mut D,
    path: &Path,
    names: &[Text],
) -> Result<(), Stop>
    requires path { IsTrue (is_path path.now) }
    requires not_root { path.now ≢ root }
    requires names { NamesOf path.now names.now }
    ensures { Makes D.disk (is_below path.now)
        (λ tree. without_each tree path.now names.now)
        disk.old disk.new result }
{
    for last in names {
        let child = child_of(alloc, path, last.get())?;
        clear_at(alloc, disk, &child)?;
    }
    Ok(())
}

// The path of a name directly below another.
fn child_of(alloc: Global, path: &Path, last: &str) -> Result<Path, Stop>
    requires { IsTrue (is_path (join path.now last.now)) }
    ensures child { IfOk result (λ child. child ≡ join path.now last.now) }
    ensures memory { IfErr result (λ e. e ≡ stop.Memory) }
{
    let text = joined_text(alloc, path.text(), last)?;
    match Path::read(alloc, text.as_str()) {
        Ok(child) => Ok(child),
        Err(TextFault::Memory) => Err(Stop::Memory),
        Err(TextFault::Bad) => unreachable!(),
    }
}

fn joined_text(alloc: Global, path: &str, last: &str) -> Result<String, AllocError>
    requires { IsTrue (is_path path.now) }
    ensures { IfOk result (λ text. string_bytes text ≡ join path.now last.now) }
{
    let mut text = String::from_str(alloc, path)?;
    if path.len() != 1 {
        text.push_str("/")?;
    }
    text.push_str(last)?;
    Ok(text)
}
