//! The two passes that put all targets: what obstructs them is removed, the deepest path first, and then they are made,
//! the shallowest first.
ghost use Rattle.std.specs.Prelude.{◌≡◌, IsTrue, Some};
ghost use Rattle.journal_log.specs.cny-base.Path.{is_path};
ghost use Rattle.journal_log.specs.cny-base.declared.node.Node.TheVariants as node;
ghost use Rattle.journal_log.specs.tree-disk.Disk.{one_name};
ghost use Rattle.journal_log.specs.tree-disk.Steps.{Makes};
ghost use Rattle.journal_log.specs.tree-disk.Tree.{put as with_put};
ghost use Rattle.journal_log.specs.tree-disk.Unfailed.{IsEither, UnlessFailed};
ghost use Rattle.journal_log.specs.Own.{gate, staged, work};
ghost use Rattle.journal_log.specs.Targets.{is_target};
ghost use Rattle.journal_log.specs.WriteSet.{CanBeLogged};
ghost use Rattle.journal_log.specs.Rules.{AreLogged};
ghost use Rattle.tree_journal.specs.Passes as spec;
ghost use Rattle.tree_journal.specs.Passes.{all_cleared, all_put, cleared, is_obstructed, is_renamed, is_work_or_name, is_work_or_target, with_target, CanClear, CanClearPass, CanMakeNow, CanMakePass, CanPutAll, CanReplay};
ghost use Rattle.tree_journal.specs.Staging.{outcome};
ghost use Rattle.tree_journal.specs.Visible.{IsBetween, IsPartCleared, IsVisible};

use crate::flag::own_path;
use crate::moving::{put_file, put_link};
use journal_log::cny_base::{Mode, Path, Stop};
use journal_log::tree_disk::{Look, TreeDisk, steps};
use journal_log::{Put, Want};
use std::alloc::Global;

// Whether a file or a link is wanted.
fn renames(want: &Want) -> bool
    ensures { result ≡ is_renamed want.now }
{
    match want {
        Want::Nothing | Want::Dir { .. } => false,
        Want::File { .. } | Want::Link { .. } | Want::Staged { .. } => true,
    }
}

fn obstructs(want: &Want, look: &Look) -> bool
    ensures { result ≡ is_obstructed want.now look.now }
{
    match look {
        Look::Nothing => false,
        Look::Dir { .. } => !want.is_dir(),
        Look::File { .. } | Look::Link { .. } => !renames(want),
    }
}

// Removes what stands at the path, where it has to go before the target is made.
fn clear_target<D: TreeDisk>(alloc: Global, disk: &mut D, put: &Put) -> Result<(), Stop>
    requires { IsTrue D.disk.tells → CanClear (D.disk.reads disk.old) put.now }
    ensures makes { Makes D.disk (one_name put.now.path) (λ tree. cleared tree put.now) disk.old disk.new result }
    ensures seen { IsTrue D.disk.tells → UnlessFailed D.disk disk.old disk.new
        (IsEither (D.disk.reads disk.old) (cleared (D.disk.reads disk.old) put.now)) }
{
    let look = steps::look(alloc, disk, &put.path)?;
    if !obstructs(&put.want, &look) {
        return Ok(());
    }
    steps::remove(alloc, disk, &put.path)
}

// Removes what obstructs the targets, the deepest path first: a name below another comes after it.
fn clear_targets<D: TreeDisk>(alloc: Global, disk: &mut D, puts: &[Put]) -> Result<(), Stop>
    requires { IsTrue D.disk.tells → CanClearPass puts.now (D.disk.reads disk.old) }
    ensures makes { Makes D.disk (is_target puts.now) (λ tree. all_cleared puts.now tree) disk.old disk.new result }
    ensures seen { IsTrue D.disk.tells → UnlessFailed D.disk disk.old disk.new (IsPartCleared puts.now (D.disk.reads disk.old)) }
{
    let mut place = puts.len();
    'places: while place > 0 {
        place -= 1;
        clear_target(alloc, disk, &puts[place])?;
    }
    Ok(())
}

// Makes a directory, with its mode in the one call that makes it, or gives its mode to the one that stands.
fn make_dir_at<D: TreeDisk>(
    alloc: Global,
    disk: &mut D,
    path: &Path,
    mode: Mode,
) -> Result<(), Stop>
    requires { IsTrue D.disk.tells → spec.CanMakeDir (D.disk.reads disk.old) path.now }
    ensures makes { Makes D.disk (one_name path.now) (λ tree. with_put tree path.now (Some (node.Dir mode))) disk.old disk.new result }
    ensures seen { IsTrue D.disk.tells → UnlessFailed D.disk disk.old disk.new
        (IsEither (D.disk.reads disk.old) (with_put (D.disk.reads disk.old) path.now (Some (node.Dir mode)))) }
{
    let look = steps::look(alloc, disk, path)?;
    if look.is_dir() {
        return steps::set_mode(alloc, disk, path, mode);
    }
    steps::make_dir(alloc, disk, path, mode)
}

// Makes a target that nothing obstructs.
fn make_target<D: TreeDisk>(
    alloc: Global,
    disk: &mut D,
    base: &Path,
    dir: &Path,
    work_path: &Path,
    put: &Put,
) -> Result<(), Stop>
    requires base { IsTrue (is_path base.now) }
    requires dir { dir.now ≡ staged base.now }
    requires work { work_path.now ≡ work base.now }
    requires logged { CanBeLogged base.now put.now.want }
    requires told { IsTrue D.disk.tells → CanMakeNow base.now (D.disk.reads disk.old) put.now }
    ensures makes { Makes D.disk (is_work_or_name base.now put.now.path) (λ tree. with_target base.now put.now tree) disk.old disk.new result }
    ensures seen { IsTrue D.disk.tells → UnlessFailed D.disk disk.old disk.new
        (IsBetween base.now (D.disk.reads disk.old) (with_target base.now put.now (D.disk.reads disk.old))) }
{
    let path = &put.path;
    match &put.want {
        Want::Nothing => Ok(()),
        Want::Dir { mode } => make_dir_at(alloc, disk, path, *mode),
        Want::Link { target } => put_link(alloc, disk, base, work_path, path, target),
        Want::Staged {
            mode,
            number,
            size,
            ..
        } => put_file(
            alloc, disk, base, dir, work_path, path, *mode, *number, *size,
        ),
        Want::File { .. } => unreachable!(),
    }
}

// Makes the targets, the shallowest path first: a parent comes before its children.
fn make_targets<D: TreeDisk>(
    alloc: Global,
    disk: &mut D,
    base: &Path,
    dir: &Path,
    work_path: &Path,
    puts: &[Put],
) -> Result<(), Stop>
    requires base { IsTrue (is_path base.now) }
    requires dir { dir.now ≡ staged base.now }
    requires work { work_path.now ≡ work base.now }
    requires logged { AreLogged base.now puts.now }
    requires told { IsTrue D.disk.tells → CanMakePass base.now puts.now (D.disk.reads disk.old) }
    ensures makes { Makes D.disk (is_work_or_target base.now puts.now) (λ tree. outcome base.now puts.now tree) disk.old disk.new result }
    ensures seen { IsTrue D.disk.tells → UnlessFailed D.disk disk.old disk.new
        (IsBetween base.now (D.disk.reads disk.old) (outcome base.now puts.now (D.disk.reads disk.old))) }
{
    for put in puts {
        make_target(alloc, disk, base, dir, work_path, put)?;
    }
    Ok(())
}

// Both passes, with nothing at the work name.
fn both_passes<D: TreeDisk>(
    alloc: Global,
    disk: &mut D,
    base: &Path,
    dir: &Path,
    work_path: &Path,
    puts: &[Put],
) -> Result<(), Stop>
    requires base { IsTrue (is_path base.now) }
    requires dir { dir.now ≡ staged base.now }
    requires work { work_path.now ≡ work base.now }
    requires logged { AreLogged base.now puts.now }
    requires told { IsTrue D.disk.tells → CanPutAll base.now puts.now (D.disk.reads disk.old) }
    ensures makes { Makes D.disk (is_work_or_target base.now puts.now) (λ tree. outcome base.now puts.now tree) disk.old disk.new result }
    ensures seen { IsTrue D.disk.tells → UnlessFailed D.disk disk.old disk.new
        (IsVisible base.now (D.disk.reads disk.old) (outcome base.now puts.now (D.disk.reads disk.old))) }
{
    clear_targets(alloc, disk, puts)?;
    make_targets(alloc, disk, base, dir, work_path, puts)
}

/// Puts all targets. What stands at the work name goes first.
pub fn put_targets<D: TreeDisk>(
    alloc: Global,
    disk: &mut D,
    base: &Path,
    puts: &[Put],
) -> Result<(), Stop>
    requires base { IsTrue (is_path base.now) }
    requires gate { IsTrue (is_path (gate base.now)) }
    requires logged { AreLogged base.now puts.now }
    requires told { IsTrue D.disk.tells → CanReplay base.now puts.now (D.disk.reads disk.old) }
    ensures makes { Makes D.disk (is_work_or_target base.now puts.now) (λ tree. all_put base.now puts.now tree) disk.old disk.new result }
    ensures seen { IsTrue D.disk.tells → UnlessFailed D.disk disk.old disk.new
        (IsVisible base.now (D.disk.reads disk.old) (outcome base.now puts.now (D.disk.reads disk.old))) }
{
    let dir = own_path(alloc, base, "p")?;
    let work_path = own_path(alloc, base, "w")?;
    steps::clear_tree(alloc, disk, &work_path)?;
    both_passes(alloc, disk, base, &dir, &work_path, puts)
}
