//! A disk that tells which calls were made of it.
ghost use Rattle.std.specs.Prelude.{◌≡◌};
ghost use Rattle.tree_journal.specs.tree-disk.Untold.{untold, untold_laws};

use line_words::Answer;
use root_words::Quiet;
use std::alloc::Global;
use tree_journal::cny_base::{Mode, Names, Path, Target};
use tree_journal::tree_disk::{DiskStop, Look, TreeDisk};

/// A disk, and each call of it with the path that it is made at, with `;` behind it.
pub struct Traced {
    pub inner: Quiet,
    pub calls: Answer,
}

// Written by hand, so that to let a value go is a single call wherever a function ends early.
impl Drop for Traced {
    fn drop(self) {
        let Traced {
            inner: _inner,
            calls: _calls,
        } = self;
    }
}

impl Traced {
    /// The disk before its first call.
    pub fn new(alloc: Global, inner: Quiet) -> Self {
        Traced {
            inner,
            calls: Answer::new(alloc),
        }
    }

    // Tells a call.
    fn note(&mut self, call: &str, path: &str)
        ensures { self.new.inner ≡ self.old.inner }
    {
        self.calls.text(call);
        self.calls.text(path);
        self.calls.text(";");
    }
}

impl TreeDisk for Traced {
    ghost disk = { untold (λ d. d.inner.faults) };

    fn look(&mut self, alloc: Global, path: &Path) -> Result<Look, DiskStop> {
        self.note("look ", path.text());
        self.inner.look(alloc, path)
    }

    fn read_at(
        &mut self,
        alloc: Global,
        path: &Path,
        at: u64,
        buf: &mut [u8],
    ) -> Result<usize, DiskStop> {
        self.note("read ", path.text());
        self.inner.read_at(alloc, path, at, buf)
    }

    fn list(&mut self, alloc: Global, path: &Path) -> Result<Names, DiskStop> {
        self.note("list ", path.text());
        self.inner.list(alloc, path)
    }

    fn append(&mut self, alloc: Global, path: &Path, bytes: &[u8]) -> Result<(), DiskStop> {
        self.note("append ", path.text());
        self.inner.append(alloc, path, bytes)
    }

    fn make_dir(&mut self, alloc: Global, path: &Path, mode: Mode) -> Result<(), DiskStop> {
        self.note("make ", path.text());
        self.inner.make_dir(alloc, path, mode)
    }

    fn make_link(&mut self, alloc: Global, path: &Path, target: &Target) -> Result<(), DiskStop> {
        self.note("make ", path.text());
        self.inner.make_link(alloc, path, target)
    }

    fn set_mode(&mut self, alloc: Global, path: &Path, mode: Mode) -> Result<(), DiskStop> {
        self.note("set mode ", path.text());
        self.inner.set_mode(alloc, path, mode)
    }

    fn remove(&mut self, alloc: Global, path: &Path) -> Result<(), DiskStop> {
        self.note("remove ", path.text());
        self.inner.remove(alloc, path)
    }

    fn rename(&mut self, alloc: Global, from: &Path, to: &Path) -> Result<(), DiskStop> {
        self.note("rename ", to.text());
        self.inner.rename(alloc, from, to)
    }

    fn sync(&mut self, alloc: Global) -> Result<(), DiskStop> {
        self.note("sync", "");
        self.inner.sync(alloc)
    }

    ghost laws = { untold_laws (λ d. d.inner.faults) };
}
