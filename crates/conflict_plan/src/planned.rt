//! The paths that a job changes.
use tree_scan::Mark;
use trove_stream::cny_base::{Copies, ListOf, OutOfMemory, Path};
use trove_stream::cny_stream::FileRec;

/// A path that a job changes.
pub struct Planned {
    pub path: Path,
    /// The fingerprint of what stands there.
    pub was: Mark,
    /// The record of what is to stand there; none where nothing is.
    pub want: Option<FileRec>,
}

// Written by hand, so that to let a value go is a single call wherever a function ends early.
impl Drop for Planned {
    fn drop(self) {
        let Planned {
            path: _path,
            was: _was,
            want: _want,
        } = self;
    }
}

impl Copies for Planned {
    fn copy(&self) -> Result<Self, OutOfMemory> {
        let want = match &self.want {
            Some(rec) => Some(rec.copy()?),
            None => None,
        };
        Ok(Planned {
            path: self.path.copy()?,
            was: self.was.copy()?,
            want,
        })
    }
}

/// A list of such paths.
pub type PlannedList = ListOf<Planned>;
