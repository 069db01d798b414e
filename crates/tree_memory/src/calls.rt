// The calls of a disk, on a tree in memory.
ghost use Rattle.std.specs.Prelude.{◌≡◌, ◌↔◌, ◌≤◌, Bool, true, false, length, IfOk, IsErrOf, IsTrue, if◌then◌else◌};
ghost use Rattle.tree_nodes.specs.cny-base.declared.node.Node.TheVariants.{Dir, Link};
ghost use Rattle.tree_nodes.specs.tree-disk.declared.disk.DiskStop.TheVariants.{Failed};
ghost use Rattle.tree_nodes.specs.tree-disk.Tree.{children};
ghost use Rattle.tree_nodes.specs.tree-disk.Rows.{is_file_at, is_dir_at, can_append, can_make, can_set_mode, can_remove, can_rename, with_append, with_node, with_mode, without, with_rename, ReadsFrom, look_of};
ghost use Rattle.tree_nodes.specs.tree-disk.Disk.{HasCause, Reads, Changes, Syncs, one_name, two_names, NamesOf};
ghost use Rattle.tree_memory.specs.declared.change.Change.{Change};
ghost use Rattle.tree_memory.specs.State.{allows, first_half, settles};
ghost use Rattle.tree_memory.specs.Memory.{memory_disk, memory_laws, state, fails_next, does_part, IsCounted};
ghost use Rattle.tree_memory.specs.Calls.{IsCall, IsDone, GoesOn, IsFailure};

use crate::change::Change;
use crate::memory::MemoryTree;
use std::alloc::Global;
use tree_nodes::cny_base::{Mode, Names, OutOfMemory, Path, Target};
use tree_nodes::tree_disk::{DiskStop, Look, TreeDisk};

// Makes a changing call. It counts also where no memory was left for its change.
fn perform(
    tree: &mut MemoryTree,
    alloc: Global,
    change: Result<Change, OutOfMemory>,
) -> Result<(), DiskStop>
    requires { IfOk change (λ c. settles c ≡ false) }
    ensures { (wanted : Change) → IfOk change (IsCall wanted) → IsDone wanted (allows wanted (state tree.old).reads) tree.old tree.new result }
{
    let turn = tree.turns.turn();
    let change = change?;
    if turn.fails {
        let change = change.failed(alloc, &tree.nodes, turn.stopped)?;
        tree.record(alloc, change)?;
        tree.turns.schedule.count_fault();
        return Err(DiskStop::Failed);
    }
    if !tree.try_record(alloc, change)? {
        return Err(DiskStop::Refused);
    }
    Ok(())
}

// Makes a sync.
fn perform_sync(tree: &mut MemoryTree) -> Result<(), DiskStop>
    ensures cause { HasCause memory_disk true tree.old tree.new result }
    ensures told { Syncs memory_disk tree.old tree.new result }
    ensures counted { IsCounted tree.old tree.new result }
    ensures fails { IsErrOf result Failed ↔ IsTrue (fails_next tree.old) }
{
    let turn = tree.turns.turn();
    if turn.fails {
        tree.turns.schedule.count_fault();
        return Err(DiskStop::Failed);
    }
    tree.settle()?;
    Ok(())
}

// Counts a call that only reads, and says whether it fails.
fn read_fails(tree: &mut MemoryTree) -> bool
    ensures goes_on { result ≡ false → GoesOn tree.old tree.new }
    ensures fails { result ≡ true → IsFailure tree.old tree.new }
{
    let turn = tree.turns.turn();
    if turn.fails {
        tree.turns.schedule.count_fault();
    }
    turn.fails
}

impl TreeDisk for MemoryTree {
    ghost disk = { memory_disk };

    ghost laws = { memory_laws };

    fn look(&mut self, alloc: Global, path: &Path) -> Result<Look, DiskStop>
        ensures cause { HasCause memory_disk Bool.true self.old self.new result }
        ensures told { Reads memory_disk self.old self.new (IfOk result (λ look. look ≡ look_of (state self.old).reads path.now)) }
        ensures counted { IsCounted self.old self.new result }
        ensures fails { IsErrOf result Failed ↔ IsTrue (fails_next self.old) }
    {
        if read_fails(self) {
            return Err(DiskStop::Failed);
        }
        Ok(self.nodes.look(path)?)
    }

    fn read_at(
        &mut self,
        alloc: Global,
        path: &Path,
        at: u64,
        buf: &mut [u8],
    ) -> Result<usize, DiskStop>
        ensures cause { HasCause memory_disk (is_file_at (state self.old).reads path.now) self.old self.new result }
        ensures most { IfOk result (λ count. count ≤ length buf.old) }
        ensures told { Reads memory_disk self.old self.new (IfOk result (λ count. ReadsFrom (state self.old).reads path.now at buf.old buf.new count)) }
        ensures counted { IsCounted self.old self.new result }
        ensures fails { IsErrOf result Failed ↔ IsTrue (fails_next self.old) }
    {
        if read_fails(self) {
            return Err(DiskStop::Failed);
        }
        match self.nodes.read_at(path, at, buf) {
            Some(count) => Ok(count),
            None => Err(DiskStop::Refused),
        }
    }

    fn list(&mut self, alloc: Global, path: &Path) -> Result<Names, DiskStop>
        ensures cause { HasCause memory_disk (is_dir_at (state self.old).reads path.now) self.old self.new result }
        ensures names { IfOk result (NamesOf path.now) }
        ensures told { Reads memory_disk self.old self.new (IfOk result (λ names. IsTrue (is_dir_at (state self.old).reads path.now) × (names ≡ children (state self.old).reads path.now))) }
        ensures counted { IsCounted self.old self.new result }
        ensures fails { IsErrOf result Failed ↔ IsTrue (fails_next self.old) }
    {
        if read_fails(self) {
            return Err(DiskStop::Failed);
        }
        if !self.nodes.is_dir_at(path.text()) {
            return Err(DiskStop::Refused);
        }
        Ok(self.nodes.children(alloc, path)?)
    }

    // A listed failure leaves the first half of the bytes, where the append is allowed and no stop has come.
    fn append(&mut self, alloc: Global, path: &Path, bytes: &[u8]) -> Result<(), DiskStop>
        ensures cause { HasCause memory_disk (can_append (state self.old).reads path.now) self.old self.new result }
        ensures told { Changes memory_disk (one_name path.now) (can_append (state self.old).reads path.now)
            (with_append (state self.old).reads path.now bytes.now) self.old self.new result }
        ensures counted { IsCounted self.old self.new result }
        ensures left { IsErrOf result Failed → (state self.new).reads
            ≡ (if does_part self.old (can_append (state self.old).reads path.now) then with_append (state self.old).reads path.now (first_half bytes.now) else (state self.old).reads) }
    {
        let change = Change::append(alloc, path, bytes);
        perform(self, alloc, change)
    }

    fn make_dir(&mut self, alloc: Global, path: &Path, mode: Mode) -> Result<(), DiskStop>
        ensures cause { HasCause memory_disk (can_make (state self.old).reads path.now) self.old self.new result }
        ensures told { Changes memory_disk (one_name path.now) (can_make (state self.old).reads path.now)
            (with_node (state self.old).reads path.now (Dir mode)) self.old self.new result }
        ensures counted { IsCounted self.old self.new result }
        ensures left { IsErrOf result Failed → (state self.new).reads ≡ (state self.old).reads }
    {
        let change = Change::make_dir(path, mode);
        perform(self, alloc, change)
    }

    fn make_link(&mut self, alloc: Global, path: &Path, target: &Target) -> Result<(), DiskStop>
        ensures cause { HasCause memory_disk (can_make (state self.old).reads path.now) self.old self.new result }
        ensures told { Changes memory_disk (one_name path.now) (can_make (state self.old).reads path.now)
            (with_node (state self.old).reads path.now (Link target.now)) self.old self.new result }
        ensures counted { IsCounted self.old self.new result }
        ensures left { IsErrOf result Failed → (state self.new).reads ≡ (state self.old).reads }
    {
        let change = Change::make_link(path, target);
        perform(self, alloc, change)
    }

    fn set_mode(&mut self, alloc: Global, path: &Path, mode: Mode) -> Result<(), DiskStop>
        ensures cause { HasCause memory_disk (can_set_mode (state self.old).reads path.now) self.old self.new result }
        ensures told { Changes memory_disk (one_name path.now) (can_set_mode (state self.old).reads path.now)
            (with_mode (state self.old).reads path.now mode) self.old self.new result }
        ensures counted { IsCounted self.old self.new result }
        ensures left { IsErrOf result Failed → (state self.new).reads ≡ (state self.old).reads }
    {
        let change = Change::set_mode(path, mode);
        perform(self, alloc, change)
    }

    fn remove(&mut self, alloc: Global, path: &Path) -> Result<(), DiskStop>
        ensures cause { HasCause memory_disk (can_remove (state self.old).reads path.now) self.old self.new result }
        ensures told { Changes memory_disk (one_name path.now) (can_remove (state self.old).reads path.now)
            (without (state self.old).reads path.now) self.old self.new result }
        ensures counted { IsCounted self.old self.new result }
        ensures left { IsErrOf result Failed → (state self.new).reads ≡ (state self.old).reads }
    {
        let change = Change::remove(path);
        perform(self, alloc, change)
    }

    fn rename(&mut self, alloc: Global, from: &Path, to: &Path) -> Result<(), DiskStop>
        ensures cause { HasCause memory_disk (can_rename (state self.old).reads from.now to.now) self.old self.new result }
        ensures told { Changes memory_disk (two_names from.now to.now) (can_rename (state self.old).reads from.now to.now)
            (with_rename (state self.old).reads from.now to.now) self.old self.new result }
        ensures counted { IsCounted self.old self.new result }
        ensures left { IsErrOf result Failed → (state self.new).reads ≡ (state self.old).reads }
    {
        let change = Change::rename(from, to);
        perform(self, alloc, change)
    }

    fn sync(&mut self, alloc: Global) -> Result<(), DiskStop>
        ensures cause { HasCause memory_disk Bool.true self.old self.new result }
        ensures told { Syncs memory_disk self.old self.new result }
        ensures counted { IsCounted self.old self.new result }
        ensures fails { IsErrOf result Failed ↔ IsTrue (fails_next self.old) }
    {
        perform_sync(self)
    }
}
