//! What is cleared before the contents of a job are saved.
ghost use Rattle.std.specs.Prelude.{◌≡◌, ◌<◌, ◌^◌, ℕ, IsTrue, OnOk, Some};
ghost use Rattle.job_targets.specs.cny-base.Path.{parent};
ghost use Rattle.job_targets.specs.cny-base.Reserved.{private_directory};
ghost use Rattle.job_targets.specs.tree-disk.Rows.{is_dir_at};
ghost use Rattle.job_targets.specs.tree-disk.Steps.{Makes};
ghost use Rattle.local_db.specs.Names.{is_job_place};
ghost use Rattle.rollback_stack.specs.Saving.{is_dropped_place, is_saving_name, made_ready, without_dropped, without_job};

use job_targets::cny_base::Stop;
use job_targets::tree_disk::{TreeDisk, steps};
use local_db::{base_path, make_dir, record_path, saved_path};
use std::alloc::Global;

// Takes away the record and the saved contents of this number.
fn clear_job<D: TreeDisk>(alloc: Global, disk: &mut D, number: u32) -> Result<(), Stop>
    ensures { Makes D.disk (is_job_place number) (without_job number) disk.old disk.new result }
{
    let record = record_path(alloc, number)?;
    let saved = saved_path(alloc, number)?;
    steps::clear_tree(alloc, disk, &record)?;
    steps::clear_tree(alloc, disk, &saved)?;
    Ok(())
}

// The same of the job that is cleared besides.
fn clear_dropped<D: TreeDisk>(alloc: Global, disk: &mut D, dropped: Option<u32>) -> Result<(), Stop>
    ensures makes { Makes D.disk (is_dropped_place dropped) (without_dropped dropped) disk.old disk.new result }
    ensures fits { (n : ℕ) → dropped ≡ Some n → n < 2 ^ 32 }
{
    let Some(number) = dropped else {
        return Ok(());
    };
    clear_job(alloc, disk, number)?;
    Ok(())
}

/// Clears the places of the job of this number and of the other one, and makes the private directory a directory.
pub(crate) fn make_ready<D: TreeDisk>(
    alloc: Global,
    disk: &mut D,
    number: u32,
    dropped: Option<u32>,
) -> Result<(), Stop>
    requires parent { IsTrue D.disk.tells → IsTrue (is_dir_at (D.disk.reads disk.old) (parent private_directory)) }
    ensures makes { Makes D.disk (is_saving_name number dropped) (made_ready number dropped) disk.old disk.new result }
    ensures fits { OnOk result ((n : ℕ) → dropped ≡ Some n → n < 2 ^ 32) }
{
    let base = base_path(alloc)?;
    clear_dropped(alloc, disk, dropped)?;
    clear_job(alloc, disk, number)?;
    make_dir(alloc, disk, &base)?;
    Ok(())
}
