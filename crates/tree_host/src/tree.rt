// A directory of the host as a disk.
ghost use Rattle.std.specs.Prelude.{◌≡◌, ◌≤◌, IfOk, IsErrOf, Ok};
ghost use Rattle.tree_disk.specs.cny-base.Count.{Rose};
ghost use Rattle.tree_disk.specs.declared.disk.DiskStop.TheVariants.{Failed, Memory, Refused};
ghost use Rattle.tree_disk.specs.Untold.{untold, untold_laws};

use crate::host::Host;
use crate::lock::{Locked, lock_dir};
use crate::stop::HostStop;
use std::alloc::Global;
use std::fs::Files;
use std::marker::Model;
use tree_disk::cny_base::{Mode, Names, Path, Target, Text};
use tree_disk::{DiskStop, Look, TreeDisk};

/// A directory of the host as a disk, which tells nothing but its count of faults.
///
/// No path is reached through a link but the directory itself. Each error of the host is a fault, and so is what no tree
/// holds: a name, a path or a target that isn't in its grammar, a node that is no directory, file or link, and a directory of
/// another file system; a mode of which the host leaves out a bit; and a call that a tree doesn't allow.
///
/// It is for programs that change the directory through a journal alone (`docs/CRASH_SAFETY.md`, *What a killed process
/// leaves*), begin with its recovery, and have the directory for themselves while they run: what was seen once is taken to
/// stand until a call changes it. A sync waits for each file and directory that was changed since the last one, the first sync
/// also for each that was looked at, and every sync for the directory above a path at which nothing was seen, where none has
/// waited for it yet. After a sync in which the host failed to keep something no later one ends well.
#[derive(Drop)]
pub struct HostTree<'a, R: Files> {
    host: Host<'a, R>,
    faults: u64,
    // It holds the lock on the directory, if there is one.
    lock: Option<R::File>,
}

impl<'a, R: Files> Model for HostTree<'a, R> {
    ghost use Rattle.std.specs.Prelude.{ℕ};

    ghost Value = { ℕ };

    ghost view = { λ a. a.faults };
}

impl<'a> HostTree<'a, HostRuntime> {
    /// The directory of this name as a disk of which no other process has a tree, and no other tree of this process, as long as
    /// this one stands. Where it is in use, each call fails. A directory that doesn't stand isn't locked.
    pub fn locked(alloc: Global, rt: &'a HostRuntime, dir: Text) -> HostTree<'a, HostRuntime>
        ensures { result ≡ 0 }
    {
        match lock_dir(rt, dir.get()) {
            Locked::Held(file) => HostTree::of(alloc, rt, Some(dir), Some(file)),
            Locked::NoDirectory => HostTree::of(alloc, rt, Some(dir), None),
            Locked::Refused => HostTree::of(alloc, rt, None, None),
        }
    }
}

impl<'a, R: Files> HostTree<'a, R> {
    /// The directory of this name as a disk. It isn't looked at yet.
    pub fn new(alloc: Global, rt: &'a R, dir: Text) -> HostTree<'a, R>
        ensures { result ≡ 0 }
    {
        HostTree::of(alloc, rt, Some(dir), None)
    }

    // The directory of this name, and its lock. Where there is none, each call fails.
    fn of(alloc: Global, rt: &'a R, dir: Option<Text>, lock: Option<R::File>) -> HostTree<'a, R>
        ensures { result ≡ 0 }
    {
        HostTree {
            host: Host::new(alloc, rt, dir),
            faults: 0,
            lock,
        }
    }

    // The answer of a call, with its fault counted.
    fn answer<T: Drop>(&mut self, answer: Result<T, HostStop>) -> Result<T, DiskStop>
        ensures same { IfOk result (λ value. answer ≡ Ok value) }
        ensures later { self.old ≤ self.new }
        ensures failed { IsErrOf result Failed → Rose self.old self.new }
        ensures no_fault { IsErrOf result Memory → self.new ≡ self.old }
        ensures not_refused { ¬ (IsErrOf result Refused) }
    {
        match answer {
            Ok(value) => Ok(value),
            Err(HostStop::Memory) => Err(DiskStop::Memory),
            Err(HostStop::Failed) => {
                self.faults = self.faults.saturating_add(1);
                Err(DiskStop::Failed)
            }
        }
    }
}

impl<R: Files> TreeDisk for HostTree<'_, R> {
    ghost disk = { untold (λ faults. faults) };

    fn look(&mut self, alloc: Global, path: &Path) -> Result<Look, DiskStop> {
        let answer = self.host.look(alloc, path);
        self.answer(answer)
    }

    fn read_at(
        &mut self,
        alloc: Global,
        path: &Path,
        at: u64,
        buf: &mut [u8],
    ) -> Result<usize, DiskStop> {
        let answer = self.host.read_at(alloc, path, at, buf);
        self.answer(answer)
    }

    fn list(&mut self, alloc: Global, path: &Path) -> Result<Names, DiskStop> {
        let answer = self.host.list(alloc, path);
        self.answer(answer)
    }

    fn append(&mut self, alloc: Global, path: &Path, bytes: &[u8]) -> Result<(), DiskStop> {
        let answer = self.host.append(alloc, path, bytes);
        self.answer(answer)
    }

    fn make_dir(&mut self, alloc: Global, path: &Path, mode: Mode) -> Result<(), DiskStop> {
        let answer = self.host.make_dir(alloc, path, mode);
        self.answer(answer)
    }

    fn make_link(&mut self, alloc: Global, path: &Path, target: &Target) -> Result<(), DiskStop> {
        let answer = self.host.make_link(alloc, path, target);
        self.answer(answer)
    }

    fn set_mode(&mut self, alloc: Global, path: &Path, mode: Mode) -> Result<(), DiskStop> {
        let answer = self.host.set_mode(alloc, path, mode);
        self.answer(answer)
    }

    fn remove(&mut self, alloc: Global, path: &Path) -> Result<(), DiskStop> {
        let answer = self.host.remove(alloc, path);
        self.answer(answer)
    }

    fn rename(&mut self, alloc: Global, from: &Path, to: &Path) -> Result<(), DiskStop> {
        let answer = self.host.rename(alloc, from, to);
        self.answer(answer)
    }

    fn sync(&mut self, alloc: Global) -> Result<(), DiskStop> {
        let answer = self.host.sync(alloc);
        self.answer(answer)
    }

    ghost laws = { untold_laws (λ faults. faults) };
}
