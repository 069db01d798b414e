//! What a verification finds.
use tree_disk::cny_base::{Copies, ListOf, OutOfMemory, Path};

/// How a recorded path differs from its record.
#[derive(Clone, Copy)]
pub enum Found {
    /// Nothing stands there.
    Missing,
    /// Something else stands there.
    Changed,
    /// A file stands there that differs from the recorded one, its contents in so many bytes.
    Bytes(u64),
}

/// A recorded path at which something else stands, or nothing.
#[derive(Drop)]
pub struct Finding {
    pub path: Path,
    pub what: Found,
}

impl Copies for Finding {
    fn copy(&self) -> Result<Self, OutOfMemory> {
        Ok(Finding {
            path: self.path.copy()?,
            what: self.what,
        })
    }
}

/// A list of findings.
pub type Findings = ListOf<Finding>;

/// What a verification found.
#[derive(Drop)]
pub struct Verified {
    /// The paths that differ, trove by trove.
    pub lines: Findings,
    /// How many recorded paths were looked at, each once for each trove that records it.
    pub paths: u64,
}

impl Copies for Verified {
    fn copy(&self) -> Result<Self, OutOfMemory> {
        Ok(Verified {
            lines: self.lines.copy()?,
            paths: self.paths,
        })
    }
}
