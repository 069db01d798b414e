//! The command that takes jobs back.
ghost use Rattle.std.specs.Prelude.{◌≡◌, List, ℕ, IsTrue, OnOk};
ghost use Rattle.cli_call.specs.Alone.{PerformsAlone};
ghost use Rattle.cli_call.specs.Command.{disks, AreReady, Performs};
ghost use Rattle.root_commands.specs.Records.{TakesBackWhole, last_job};
ghost use Rattle.root_commands.specs.RollingBack as spec;

use cli_call::cny_base::Text;
use cli_call::system_core::rollback_to;
use cli_call::tree_disk::TreeDisk;
use cli_call::{Failure, Opened, on_root, store_laws};
use cny_report::rolled_back_text;
use local_db::{Db, distinct_databases};
use rollback_stack::one_record;
use std::alloc::Global;

// The number of the last job that is taken back: without one that of the newest.
fn last_of(number: Option<u32>, db: &Db) -> u32
    ensures { result ≡ last_job number db.now }
{
    match number {
        Some(number) => number,
        None => db.newest,
    }
}

/// Takes all jobs of the root back from the newest down to the one of a number, as if one after the other, or, without a number, the
/// newest: a line `rolled back r.N` for each, the newest first. It takes effect as a whole or not at all, whenever the machine stops.
pub fn roll_back<T: TreeDisk, P: TreeDisk>(
    alloc: Global,
    number: Option<u32>,
    opened: &mut Opened,
    repo: &P,
    root: &mut T,
) -> Result<Text, Failure>
    requires { AreReady T.disk P.disk (disks root.old repo.now opened.old) }
    ensures performs { (input : List ℕ) → Performs T.disk P.disk (spec.roll_back number) input (disks root.old repo.now opened.old)
        (disks root.new repo.now opened.new) result }
    ensures alone { (input : List ℕ) → PerformsAlone T.disk P.disk (spec.roll_back number) input (disks root.old repo.now opened.old)
        (disks root.new repo.now opened.new) result }
    // Also on a root that stores no system.
    ensures records { IsTrue T.disk.tells → TakesBackWhole number (T.disk.reads root.old) opened.old.db result }
    // Where it is done, a further command may begin.
    ensures again { OnOk result (AreReady T.disk P.disk (disks root.new repo.now opened.new)) }
{
    store_laws();
    distinct_databases();
    one_record();
    let newest = opened.db.newest;
    let last = last_of(number, &opened.db);
    let count = on_root(rollback_to(alloc, root, &mut opened.db, last))?;
    Ok(rolled_back_text(alloc, newest, newest.min(count))?)
}
