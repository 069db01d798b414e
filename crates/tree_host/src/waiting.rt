// The names that the next sync waits for.
use std::alloc::Global;
use std::collections::BTreeSet;
use std::mem;
use tree_disk::cny_base::OutOfMemory;

/// The paths at which the next sync waits for what stands there: files whose bytes or mode changed, and directories in which a
/// name changed, or whose mode.
#[derive(Drop)]
pub(crate) struct Waiting {
    paths: BTreeSet<String>,
    // The two directories in which a name was changed last, as those of the work name and of the path to which it is moved: each
    // stands, and the sync waits for it and for those above it. A text is empty where there is none.
    last: String,
    other: String,
    // Whether all that a sync waited for was kept at least once.
    was_synced: bool,
    // Whether the host failed to keep something.
    is_lost: bool,
}

impl Waiting {
    pub(crate) fn new(alloc: Global) -> Self {
        Waiting {
            paths: BTreeSet::new(alloc),
            last: String::new(alloc),
            other: String::new(alloc),
            was_synced: false,
            is_lost: false,
        }
    }

    pub(crate) fn has(&self, path: &str) -> bool {
        self.paths.contains(path)
    }

    /// Whether a sync ended well.
    pub(crate) fn was_synced(&self) -> bool {
        self.was_synced
    }

    /// Whether the host failed to keep something. It may count as kept by now what it has lost, so no later sync ends well.
    pub(crate) fn is_lost(&self) -> bool {
        self.is_lost
    }

    pub(crate) fn add(&mut self, alloc: Global, path: &str) -> Result<(), OutOfMemory> {
        self.paths.insert(String::from_str(alloc, path)?)?;
        Ok(())
    }

    /// Whether it is one of the two directories in which a name was changed last.
    pub(crate) fn is_changing(&self, dir: &str) -> bool {
        self.last.as_str() == dir || self.other.as_str() == dir
    }

    /// A name changes in a directory that stands.
    pub(crate) fn add_dir(&mut self, alloc: Global, dir: &str) -> Result<(), OutOfMemory> {
        if !self.is_changing(dir) {
            self.add(alloc, dir)?;
            self.other = mem::replace(&mut self.last, String::from_str(alloc, dir)?);
        }
        Ok(())
    }

    /// A name changes: no directory may stand there any more.
    pub(crate) fn leave_dir(&mut self, path: &str) {
        if self.is_changing(path) {
            self.forget_dirs();
        }
    }

    fn forget_dirs(&mut self) {
        self.last.clear();
        self.other.clear();
    }

    /// The host failed to keep something.
    pub(crate) fn lose(&mut self) {
        self.is_lost = true;
    }

    /// Takes all paths out, for a sync.
    pub(crate) fn take(&mut self, alloc: Global) -> BTreeSet<String> {
        self.forget_dirs();
        mem::replace(&mut self.paths, BTreeSet::new(alloc))
    }

    /// All that waited was kept.
    pub(crate) fn end(&mut self) {
        self.was_synced = true;
    }

    /// Puts the paths back that a sync took and didn't keep.
    pub(crate) fn put_back(&mut self, paths: BTreeSet<String>) {
        self.paths = paths;
    }
}
