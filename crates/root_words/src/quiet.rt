//! A disk in memory that tells contracts nothing of its tree: what its nodes don't allow counts as a fault. It counts its calls.
ghost use Rattle.std.specs.Prelude.{◌≡◌, ◌≤◌, IfOk, IsErrOf, Ok};
ghost use Rattle.tree_memory.specs.cny-base.Count.{Rose};
ghost use Rattle.tree_memory.specs.tree-disk.declared.disk.DiskStop.TheVariants.{Failed, Memory, Refused};
ghost use Rattle.tree_memory.specs.tree-disk.Untold.{untold, untold_laws};

use std::alloc::Global;
use tree_memory::MemoryTree;
use tree_memory::cny_base::{Mode, Names, Path, Target};
use tree_memory::tree_disk::{DiskStop, Look, TreeDisk};

/// The disk, how often a call of it failed or wasn't allowed, and how many calls were made: all of them, and those that looked at a
/// path, read of a file or listed a directory.
pub struct Quiet {
    pub tree: MemoryTree,
    pub faults: u64,
    pub calls: u64,
    pub looks: u64,
    pub reads: u64,
    pub lists: u64,
}

// Written by hand, so that to let a value go is a single call wherever a function ends early.
impl Drop for Quiet {
    fn drop(self) {
        let Quiet {
            tree: _tree,
            faults: _faults,
            calls: _calls,
            looks: _looks,
            reads: _reads,
            lists: _lists,
        } = self;
    }
}

impl Quiet {
    /// The disk before its first call.
    pub fn new(tree: MemoryTree) -> Self {
        Quiet {
            tree,
            faults: 0,
            calls: 0,
            looks: 0,
            reads: 0,
            lists: 0,
        }
    }

    // The answer of a call. It is never that the tree doesn't allow the call.
    fn told<T: Drop>(&mut self, answer: Result<T, DiskStop>) -> Result<T, DiskStop>
        ensures value { IfOk result (λ value. answer ≡ Ok value) }
        ensures not_refused { ¬ (IsErrOf result Refused) }
        ensures later { self.old.faults ≤ self.new.faults }
        ensures failed { IsErrOf result Failed → Rose self.old.faults self.new.faults }
        ensures memory { IsErrOf result Memory → self.new.faults ≡ self.old.faults }
    {
        self.calls = self.calls.saturating_add(1);
        match answer {
            Ok(value) => Ok(value),
            Err(DiskStop::Memory) => Err(DiskStop::Memory),
            Err(_) => {
                self.faults = self.faults.saturating_add(1);
                Err(DiskStop::Failed)
            }
        }
    }
}

impl TreeDisk for Quiet {
    ghost disk = { untold (λ d. d.faults) };

    fn look(&mut self, alloc: Global, path: &Path) -> Result<Look, DiskStop> {
        self.looks = self.looks.saturating_add(1);
        let answer = self.tree.look(alloc, path);
        self.told(answer)
    }

    fn read_at(
        &mut self,
        alloc: Global,
        path: &Path,
        at: u64,
        buf: &mut [u8],
    ) -> Result<usize, DiskStop> {
        self.reads = self.reads.saturating_add(1);
        let answer = self.tree.read_at(alloc, path, at, buf);
        self.told(answer)
    }

    fn list(&mut self, alloc: Global, path: &Path) -> Result<Names, DiskStop> {
        self.lists = self.lists.saturating_add(1);
        let answer = self.tree.list(alloc, path);
        self.told(answer)
    }

    fn append(&mut self, alloc: Global, path: &Path, bytes: &[u8]) -> Result<(), DiskStop> {
        let answer = self.tree.append(alloc, path, bytes);
        self.told(answer)
    }

    fn make_dir(&mut self, alloc: Global, path: &Path, mode: Mode) -> Result<(), DiskStop> {
        let answer = self.tree.make_dir(alloc, path, mode);
        self.told(answer)
    }

    fn make_link(&mut self, alloc: Global, path: &Path, target: &Target) -> Result<(), DiskStop> {
        let answer = self.tree.make_link(alloc, path, target);
        self.told(answer)
    }

    fn set_mode(&mut self, alloc: Global, path: &Path, mode: Mode) -> Result<(), DiskStop> {
        let answer = self.tree.set_mode(alloc, path, mode);
        self.told(answer)
    }

    fn remove(&mut self, alloc: Global, path: &Path) -> Result<(), DiskStop> {
        let answer = self.tree.remove(alloc, path);
        self.told(answer)
    }

    fn rename(&mut self, alloc: Global, from: &Path, to: &Path) -> Result<(), DiskStop> {
        let answer = self.tree.rename(alloc, from, to);
        self.told(answer)
    }

    fn sync(&mut self, alloc: Global) -> Result<(), DiskStop> {
        let answer = self.tree.sync(alloc);
        self.told(answer)
    }

    ghost laws = { untold_laws (λ d. d.faults) };
}
