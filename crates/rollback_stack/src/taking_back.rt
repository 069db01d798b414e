//! Several jobs taken back at once: the writes, and the database afterwards.
ghost use Rattle.std.specs.Prelude.{◌≤◌, IfErr, IfOk, OnOk};
ghost use Rattle.job_targets.specs.cny-base.Count.{Rose};
ghost use Rattle.local_db.specs.declared.format.Format.TheVariants.{Two};
ghost use Rattle.local_db.specs.Stores.{IsDatabase};
ghost use Rattle.job_targets.specs.tree-disk.Disk.{Reads};
ghost use Rattle.rollback_stack.specs.Inverse.{IsBackStop, IsBackTo, IsOnStack};

use crate::back::{old_nodes, puts_of, want_no_records};
use crate::database::db_below;
use crate::jobs::{TakenBack, check_number, jobs_down_to};
use crate::undo::Back;
use job_targets::cny_base::Stop;
use job_targets::tree_disk::TreeDisk;
use local_db::Db;
use std::alloc::Global;

/// The writes that take all jobs from the newest down to the one of this number back, as if one after the other: at each of their
/// paths what the oldest of them that has it found there, where something stands or is to stand, and nothing at their records; and
/// the database afterwards, whose own write isn't among them.
///
/// `StackEmpty` exactly where there is no job; `NoJob` where there are jobs and none of this number. The jobs are read and taken
/// back one after the other, the newest first: `Damaged` with the path of the first record that fails its grammar or a cross-check;
/// by the tree that the newer jobs left, `Edited` for the first path of a job, in their order, that was changed since, or at which the
/// job made a directory into which something else was put; else `Parent` for the first path of the result whose parent isn't a
/// directory. Where all can be taken back, `Damaged` with the path of the first saved content, in the order of the paths at which they
/// are to stand, that isn't as its fingerprint tells. It only reads.
pub fn inverse_to<D: TreeDisk>(
    alloc: Global,
    disk: &mut D,
    db: &Db,
    number: u32,
) -> Result<Back, Stop>
    requires db { IsDatabase Two db.now.installed db.now.oldest db.now.newest }
    ensures value { Reads D.disk disk.old disk.new (IfOk result (IsBackTo (D.disk.reads disk.old) db.now number)) }
    // On every disk, also where it tells nothing.
    ensures job { OnOk result (IsOnStack db.now number) }
    ensures database { IfOk result (λ back. IsDatabase Two back.db.installed back.db.oldest back.db.newest) }
    ensures stops { IfErr result (IsBackStop D.disk.tells (D.disk.reads disk.old) db.now number
        (Rose (D.disk.faults disk.old) (D.disk.faults disk.new))) }
    ensures later { D.disk.faults disk.old ≤ D.disk.faults disk.new }
{
    check_number(db, number)?;
    let back = jobs_down_to(alloc, disk, db, number)?;
    let TakenBack { list, found } = back;
    let mut wants = old_nodes(alloc, disk, &found)?;
    want_no_records(alloc, &mut wants, db.newest - number + 1, db.newest)?;
    let puts = puts_of(alloc, wants)?;
    let before = list.into_installed()?;
    let below = db_below(db, before, number);
    Ok(Back { puts, db: below })
}
