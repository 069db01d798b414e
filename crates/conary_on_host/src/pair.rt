//! The records of the two disks of a run.
use crate::record::Record;
use std::alloc::Global;
use std::io;

/// Which of the two disks fails.
#[derive(Clone, Copy)]
pub enum Side {
    Root,
    Repository,
}

/// The records of both disks, of which one may fail at a call.
pub struct Pair {
    pub root: Record,
    pub repo: Record,
}

// Written by hand, so that to let a value go is a single call wherever a function ends early.
impl Drop for Pair {
    fn drop(self) {
        let Pair {
            root: _root,
            repo: _repo,
        } = self;
    }
}

impl Pair {
    /// The call of this number fails on one disk; none does for 0.
    pub fn new(alloc: Global, side: Side, call: u64) -> Self {
        let (root, repo) = match side {
            Side::Root => (call, 0),
            Side::Repository => (0, call),
        };
        Pair {
            root: Record::new(alloc, root),
            repo: Record::new(alloc, repo),
        }
    }

    /// No call fails.
    pub fn sound(alloc: Global) -> Self {
        Pair::new(alloc, Side::Root, 0)
    }

    /// Over what an earlier run left unkept, and with no call that fails.
    pub fn behind(alloc: Global, earlier: &Pair) -> Self {
        let next = Pair::sound(alloc);
        next.root.inherit(&earlier.root);
        next.repo.inherit(&earlier.repo);
        next
    }

    /// Whether the call that was to fail was made.
    pub fn has_failed(&self) -> bool {
        self.root.has_failed() || self.repo.has_failed()
    }

    /// How many names aren't kept on which a further run relies.
    pub fn relied_on(&self) -> io::Result<u64> {
        let of_root = self.root.relied_on()?;
        Ok(of_root.saturating_add(self.repo.relied_on()?))
    }
}
