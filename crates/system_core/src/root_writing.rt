//! Write sets on a root.
ghost use Rattle.std.specs.Prelude.{◌≤◌, IfErr, IsErrOf, IsTrue, List, OnOk};
ghost use Rattle.rollback_stack.specs.cny-base.Count.{Rose};
ghost use Rattle.rollback_stack.specs.cny-base.declared.stop.Stop.TheVariants as stop;
ghost use Rattle.rollback_stack.specs.tree-disk.Steps.{IsDiskStop};
ghost use Rattle.rollback_stack.specs.journal-log.Targets.{with_targets};
ghost use Rattle.rollback_stack.specs.journal-log.declared.put.Put as declared;
ghost use Rattle.local_db.specs.declared.format.Format.{Format};
ghost use Rattle.local_db.specs.SystemState.{SystemState};
ghost use Rattle.local_db.specs.Stores.{StoresIn};
ghost use Rattle.system_core.specs.RootWriting.{AreSettled, CanWrite, TakesRoot, IsPut, PutsOnRoot};
ghost use Rattle.system_core.specs.StagedWrites.{Means};

use local_db::base_path;
use rollback_stack::cny_base::Stop;
use rollback_stack::journal_log::Puts;
use rollback_stack::tree_disk::TreeDisk;
use std::alloc::Global;
use tree_journal::apply;

/// Puts all targets of a write set at once, by the journal of the root's private directory: a crash at any moment leaves a tree
/// that recovers to the system before, or to the one after.
///
/// `Failed` comes only where the disk's count of faults rose, and want of memory also where the write set is too large for a
/// log. After both the root recovers to the system before or after.
pub fn write_all<T: TreeDisk>(alloc: Global, root: &mut T, puts: &Puts) -> Result<(), Stop>
    requires can { IsTrue T.disk.tells → CanWrite T.disk puts.now root.old }
    // Also on a root that stores no system.
    ensures put { IsTrue T.disk.tells → OnOk result (IsPut T.disk puts.now root.old root.new) }
    // From each system that the root stores to the one that it stores with all targets.
    ensures goes { IsTrue T.disk.tells → (f g : Format) (s t : SystemState) → StoresIn f (T.disk.reads root.old) s → AreSettled T.disk root.old s
        → StoresIn g (with_targets puts.now (T.disk.reads root.old)) t → TakesRoot T.disk g s t puts.now root.old root.new result }
    ensures later { T.disk.faults root.old ≤ T.disk.faults root.new }
    ensures failed { IsErrOf result stop.Failed → Rose (T.disk.faults root.old) (T.disk.faults root.new) }
    ensures stops { IfErr result IsDiskStop }
    // However it ends, of trees, also on a root that stores no system.
    ensures writes { IsTrue T.disk.tells → PutsOnRoot T.disk puts.now root.old root.new }
{
    write_whole(alloc, root, puts)
}

/// The same where writes may name staged files: the clauses speak of the writes that have their bytes.
pub(crate) fn write_whole<T: TreeDisk>(alloc: Global, root: &mut T, puts: &Puts) -> Result<(), Stop>
    ghost whole: { List declared.Put }
    requires can { IsTrue T.disk.tells → CanWrite T.disk whole root.old }
    requires means { IsTrue T.disk.tells → Means (T.disk.reads root.old) puts.now whole }
    ensures put { IsTrue T.disk.tells → OnOk result (IsPut T.disk whole root.old root.new) }
    ensures goes { IsTrue T.disk.tells → (f g : Format) (s t : SystemState) → StoresIn f (T.disk.reads root.old) s → AreSettled T.disk root.old s
        → StoresIn g (with_targets whole (T.disk.reads root.old)) t → TakesRoot T.disk g s t whole root.old root.new result }
    ensures later { T.disk.faults root.old ≤ T.disk.faults root.new }
    ensures failed { IsErrOf result stop.Failed → Rose (T.disk.faults root.old) (T.disk.faults root.new) }
    ensures stops { IfErr result IsDiskStop }
    ensures writes { IsTrue T.disk.tells → PutsOnRoot T.disk whole root.old root.new }
{
    let base = base_path(alloc)?;
    apply(alloc, root, &base, puts)
}
