//! The paths that a job changed, by their fingerprints.
ghost use Rattle.std.specs.Prelude.{◌≡◌};

use std::marker::Model;
use tree_scan::Mark;
use trove_stream::cny_base::Path;

/// A path that a job changed, with the fingerprints of what stood there before and after it.
pub struct PathChange {
    path: Path,
    before: Mark,
    after: Mark,
}

// Written by hand, so that to let a value go is a single call.
impl Drop for PathChange {
    fn drop(self) {
        let PathChange {
            path: _path,
            before: _before,
            after: _after,
        } = self;
    }
}

impl Model for PathChange {
    ghost use Rattle.local_db.specs.Record.{Entry};

    ghost Value = { Entry };

    ghost view = { λ a. record { path = a.path; was = a.before; now = a.after } };
}

impl PathChange {
    /// The change of these fingerprints at a path. Takes no memory.
    pub fn new(path: Path, before: Mark, after: Mark) -> Self
        ensures { result ≡ record { path = path; was = before; now = after } }
    {
        PathChange {
            path,
            before,
            after,
        }
    }

    /// The path.
    pub fn path(&self) -> &Path
        ensures { result.now ≡ self.now.path }
    {
        &self.path
    }

    /// What stood there before the job.
    pub fn old_mark(&self) -> &Mark
        ensures { result.now ≡ self.now.was }
    {
        &self.before
    }

    /// What stood there after it.
    pub fn new_mark(&self) -> &Mark
        ensures { result.now ≡ self.now.now }
    {
        &self.after
    }
}
