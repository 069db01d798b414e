//! A directory of the host as a disk whose syncs are judged.
ghost use Rattle.tree_disk.specs.Untold.{untold, untold_laws};

use crate::record::Record;
use crate::recorded::Recorded;
use std::alloc::Global;
use std::marker::Model;
use tree_disk::cny_base::{Mode, Names, Path, Target, Text};
use tree_disk::{DiskStop, Look, TreeDisk};
use tree_host::HostTree;

/// The directory, and the record of what is asked of its files. It tells nothing but its count of faults.
pub struct Watched<'a> {
    tree: HostTree<'a, Recorded<'a>>,
    record: &'a Record,
}

impl<'a> Model for Watched<'a> {
    ghost use Rattle.std.specs.Prelude.{ℕ};

    ghost Value = { ℕ };

    ghost view = { λ a. a.tree };
}

// Written by hand, so that to let a value go is a single call wherever a function ends early.
impl Drop for Watched<'_> {
    fn drop(self) {
        let Watched {
            tree: _tree,
            record: _record,
        } = self;
    }
}

impl<'a> Watched<'a> {
    /// The directory of this name, over files that keep this record.
    pub fn new(alloc: Global, files: &'a Recorded<'a>, record: &'a Record, dir: Text) -> Self {
        Watched {
            tree: HostTree::new(alloc, files, dir),
            record,
        }
    }

    /// How many waits for the disk there were.
    pub(crate) fn waits(&self) -> u64 {
        self.record.waits()
    }

    /// Whether a wait failed, and a further sync is answered as if none had.
    pub fn forgets(&mut self, alloc: Global) -> bool {
        self.record.has_failed_sync() && self.sync(alloc).is_ok()
    }
}

impl TreeDisk for Watched<'_> {
    ghost disk = { untold (λ faults. faults) };

    fn look(&mut self, alloc: Global, path: &Path) -> Result<Look, DiskStop> {
        self.tree.look(alloc, path)
    }

    fn read_at(
        &mut self,
        alloc: Global,
        path: &Path,
        at: u64,
        buf: &mut [u8],
    ) -> Result<usize, DiskStop> {
        self.tree.read_at(alloc, path, at, buf)
    }

    fn list(&mut self, alloc: Global, path: &Path) -> Result<Names, DiskStop> {
        self.tree.list(alloc, path)
    }

    fn append(&mut self, alloc: Global, path: &Path, bytes: &[u8]) -> Result<(), DiskStop> {
        self.tree.append(alloc, path, bytes)
    }

    fn make_dir(&mut self, alloc: Global, path: &Path, mode: Mode) -> Result<(), DiskStop> {
        self.tree.make_dir(alloc, path, mode)
    }

    fn make_link(&mut self, alloc: Global, path: &Path, target: &Target) -> Result<(), DiskStop> {
        self.tree.make_link(alloc, path, target)
    }

    fn set_mode(&mut self, alloc: Global, path: &Path, mode: Mode) -> Result<(), DiskStop> {
        self.tree.set_mode(alloc, path, mode)
    }

    fn remove(&mut self, alloc: Global, path: &Path) -> Result<(), DiskStop> {
        self.tree.remove(alloc, path)
    }

    fn rename(&mut self, alloc: Global, from: &Path, to: &Path) -> Result<(), DiskStop> {
        self.tree.rename(alloc, from, to)
    }

    // The record judges a sync that ended well; the answer is the sync's own.
    fn sync(&mut self, alloc: Global) -> Result<(), DiskStop> {
        let answer = self.tree.sync(alloc);
        if answer.is_ok() {
            self.record.judge();
        }
        answer
    }

    ghost laws = { untold_laws (λ faults. faults) };
}
