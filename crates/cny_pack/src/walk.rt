//! What stands in a directory's tree, as a walk over it sees it.
ghost use Rattle.std.specs.Prelude.{◌≡◌, ◌≢◌, IfErr, IfOk, IsTrue, OnOk};
ghost use Rattle.tree_disk.specs.cny-base.Path.{is_path, join, root};
ghost use Rattle.tree_disk.specs.cny-base.declared.stop.Stop.TheVariants as stop;
ghost use Rattle.tree_disk.specs.Disk.{NamesOf};
ghost use Rattle.tree_disk.specs.Rows.{is_dir_at};
ghost use Rattle.tree_disk.specs.Steps.{IsDiskStop};
ghost use Rattle.cny_pack.specs.Walk.{OnlyLooks, FindsAll, WentInto, WentTo, WentBy, WentThrough};

use std::alloc::Global;
use std::collections::BTreeMap;
use tree_disk::cny_base::{Copies, Path, Stop, Text, TextFault};
use tree_disk::{Look, TreeDisk, steps};

/// What was seen at each path.
pub type Seen = BTreeMap<Path, Look>;

/// What stands at each path of the disk but `/`, all of it and nothing else, where the disk tells its tree.
///
/// `Failed` comes only where the count of faults of the disk rose, and of the other stops want of memory alone.
pub fn find_all<D: TreeDisk>(alloc: Global, disk: &mut D) -> Result<Seen, Stop>
    ensures looks { OnlyLooks D.disk disk.old disk.new result }
    ensures found { IsTrue D.disk.tells → IfOk result (FindsAll (D.disk.reads disk.old)) }
    ensures stops { IfErr result IsDiskStop }
{
    let mut seen = BTreeMap::new(alloc);
    let top = top_of(alloc)?;
    walk(alloc, disk, &top, &mut seen)?;
    Ok(seen)
}

// The path `/`.
fn top_of(alloc: Global) -> Result<Path, Stop>
    ensures value { IfOk result (λ path. path ≡ root) }
    ensures memory { IfErr result (λ e. e ≡ stop.Memory) }
{
    match Path::read(alloc, "/") {
        Ok(path) => Ok(path),
        Err(TextFault::Memory) => Err(Stop::Memory),
        Err(TextFault::Bad) => unreachable!(),
    }
}

// Sees all that stands below a directory.
#[cycle(walk)]
fn walk<D: TreeDisk>(alloc: Global, disk: &mut D, dir: &Path, seen: &mut Seen) -> Result<(), Stop>
    requires path { IsTrue (is_path dir.now) }
    requires dir { IsTrue D.disk.tells → IsTrue (is_dir_at (D.disk.reads disk.old) dir.now) }
    ensures looks { OnlyLooks D.disk disk.old disk.new result }
    ensures went { IsTrue D.disk.tells → OnOk result (WentInto (D.disk.reads disk.old) dir.now seen.old seen.new) }
    ensures stops { IfErr result IsDiskStop }
{
    let names = steps::list(alloc, disk, dir)?;
    visit_each(alloc, disk, dir, names.get(), seen)
}

// Sees the names directly below a directory, and all that stands below them. One that isn't longer than the directory isn't below
// it; no disk that tells its tree has such a name.
#[cycle(walk)]
fn visit_each<D: TreeDisk>(
    alloc: Global,
    disk: &mut D,
    dir: &Path,
    names: &[Text],
    seen: &mut Seen,
) -> Result<(), Stop>
    requires path { IsTrue (is_path dir.now) }
    requires names { NamesOf dir.now names.now }
    ensures looks { OnlyLooks D.disk disk.old disk.new result }
    ensures went { IsTrue D.disk.tells → OnOk result (WentThrough (D.disk.reads disk.old) dir.now names.now seen.old seen.new) }
    ensures stops { IfErr result IsDiskStop }
{
    for last in names {
        visit_child(alloc, disk, dir, last.get(), seen)?;
    }
    Ok(())
}

// The same of one of them.
#[cycle(walk)]
fn visit_child<D: TreeDisk>(
    alloc: Global,
    disk: &mut D,
    dir: &Path,
    last: &str,
    seen: &mut Seen,
) -> Result<(), Stop>
    requires path { IsTrue (is_path dir.now) }
    requires name { IsTrue (is_path (join dir.now last.now)) }
    ensures looks { OnlyLooks D.disk disk.old disk.new result }
    ensures went { IsTrue D.disk.tells → OnOk result (WentBy (D.disk.reads disk.old) dir.now last.now seen.old seen.new) }
    ensures stops { IfErr result IsDiskStop }
{
    let path = child_of(alloc, dir, last)?;
    if path.text().len() <= dir.text().len() {
        return Ok(());
    }
    visit(alloc, disk, path, seen)
}

// The path of a name directly below another.
fn child_of(alloc: Global, dir: &Path, last: &str) -> Result<Path, Stop>
    requires { IsTrue (is_path (join dir.now last.now)) }
    ensures child { IfOk result (λ child. child ≡ join dir.now last.now) }
    ensures memory { IfErr result (λ e. e ≡ stop.Memory) }
{
    match dir.join(alloc, last) {
        Ok(child) => Ok(child),
        Err(TextFault::Memory) => Err(Stop::Memory),
        Err(TextFault::Bad) => unreachable!(),
    }
}

// Sees what stands at a path, and all that stands below it.
#[cycle(walk)]
fn visit<D: TreeDisk>(alloc: Global, disk: &mut D, path: Path, seen: &mut Seen) -> Result<(), Stop>
    requires path { IsTrue (is_path path) }
    requires not_root { path ≢ root }
    ensures looks { OnlyLooks D.disk disk.old disk.new result }
    ensures went { IsTrue D.disk.tells → OnOk result (WentTo (D.disk.reads disk.old) path seen.old seen.new) }
    ensures stops { IfErr result IsDiskStop }
{
    let look = steps::look(alloc, disk, &path)?;
    if look.is_nothing() {
        return Ok(());
    }
    let is_dir = look.is_dir();
    let dir = path.copy()?;
    seen.insert(path, look)?;
    if is_dir {
        return walk(alloc, disk, &dir, seen);
    }
    Ok(())
}
