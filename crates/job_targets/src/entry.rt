//! The paths that a job changes.
use local_db::cny_base::{Copies, ListOf, OutOfMemory, Path};
use local_db::journal_log::Want;
use tree_scan::Mark;

/// A path that a job changed.
pub struct Entry {
    pub path: Path,
    /// What stood there before the job. The bytes of a file are given, and not staged.
    pub was: Want,
    /// The fingerprint of what stood there after it.
    pub mark: Mark,
}

// Written by hand, so that to let a value go is a single call wherever a function ends early.
impl Drop for Entry {
    fn drop(self) {
        let Entry {
            path: _path,
            was: _was,
            mark: _mark,
        } = self;
    }
}

impl Copies for Entry {
    fn copy(&self) -> Result<Self, OutOfMemory> {
        Ok(Entry {
            path: self.path.copy()?,
            was: self.was.copy()?,
            mark: self.mark.copy()?,
        })
    }
}

/// The paths that a job changed, in their order.
pub type Entries = ListOf<Entry>;
