// What is known of the names of a directory of the host.
use std::alloc::Global;
use std::collections::BTreeMap;
use tree_disk::cny_base::OutOfMemory;

/// What stands at a path.
#[derive(Clone, Copy)]
pub(crate) enum Standing {
    Nothing,
    /// A directory. Whether it was synced since the program began, so that none of its names is unsynced that an earlier process
    /// left; and whether a file that is made in it has just the mode that was asked for, whatever mask of modes there is.
    Dir { is_synced: bool, keeps_modes: bool },
    /// A file. One that was made here has no other name, since no call makes a second one.
    File { is_own: bool },
    /// A link; `is_own` is as for a file.
    Link { is_own: bool },
}

impl Standing {
    /// A directory of which nothing else is known.
    pub(crate) fn dir() -> Self {
        Standing::Dir {
            is_synced: false,
            keeps_modes: false,
        }
    }

    pub(crate) fn is_nothing(self) -> bool {
        matches!(self, Standing::Nothing)
    }

    pub(crate) fn is_dir(self) -> bool {
        matches!(self, Standing::Dir { .. })
    }

    pub(crate) fn is_file(self) -> bool {
        matches!(self, Standing::File { .. })
    }

    pub(crate) fn is_link(self) -> bool {
        matches!(self, Standing::Link { .. })
    }

    /// Whether a file or a link stands there that was made here.
    pub(crate) fn is_own(self) -> bool {
        matches!(
            self,
            Standing::File { is_own: true } | Standing::Link { is_own: true }
        )
    }
}

/// What is known to stand at paths. It stays right since nobody else changes the directory while the program runs, and each
/// changing call forgets what stood at its paths before it is made, and tells what stands there once it has ended well.
///
/// A directory comes to be without names and goes without names, and none is moved: so what is known of the names below a path
/// stays right, whatever happens at that path.
#[derive(Drop)]
pub(crate) struct Known {
    // None where it isn't known any more.
    names: BTreeMap<String, Option<Standing>>,
}

impl Known {
    pub(crate) fn new(alloc: Global) -> Self {
        Known {
            names: BTreeMap::new(alloc),
        }
    }

    /// What stands at a path, where it is known.
    pub(crate) fn get(&self, path: &str) -> Option<Standing> {
        *self.names.get(path)?
    }

    pub(crate) fn is_nothing(&self, path: &str) -> bool {
        matches!(self.get(path), Some(Standing::Nothing))
    }

    pub(crate) fn is_dir(&self, path: &str) -> bool {
        matches!(self.get(path), Some(Standing::Dir { .. }))
    }

    /// Whether it is known that no directory stands there.
    pub(crate) fn is_no_dir(&self, path: &str) -> bool {
        self.get(path).is_some() && !self.is_dir(path)
    }

    /// Whether a directory stands there that was synced.
    pub(crate) fn is_synced_dir(&self, path: &str) -> bool {
        matches!(
            self.get(path),
            Some(Standing::Dir {
                is_synced: true,
                ..
            })
        )
    }

    /// Whether a file that is made in the directory has just the mode that was asked for.
    pub(crate) fn keeps_modes(&self, path: &str) -> bool {
        matches!(
            self.get(path),
            Some(Standing::Dir {
                keeps_modes: true,
                ..
            })
        )
    }

    /// Remembers what stands at a path. What is known of a directory that stands there stays.
    pub(crate) fn learn(
        &mut self,
        alloc: Global,
        path: &str,
        standing: Standing,
    ) -> Result<(), OutOfMemory> {
        match self.names.get_mut(path) {
            Some(Some(Standing::Dir { .. })) if standing.is_dir() => {}
            Some(known) => *known = Some(standing),
            None => {
                let name = String::from_str(alloc, path)?;
                self.names.insert(name, Some(standing))?;
            }
        }
        Ok(())
    }

    /// Forgets what stands at a path and answers what was known, but keeps room for what `tell` says of it.
    pub(crate) fn forget(
        &mut self,
        alloc: Global,
        path: &str,
    ) -> Result<Option<Standing>, OutOfMemory> {
        if let Some(known) = self.names.get_mut(path) {
            return Ok(known.take());
        }
        self.names.insert(String::from_str(alloc, path)?, None)?;
        Ok(None)
    }

    /// Says what stands at a path for which there is room: it asks for no memory, so it can't fail behind a change.
    pub(crate) fn tell(&mut self, path: &str, standing: Standing) {
        if let Some(known) = self.names.get_mut(path) {
            *known = Some(standing);
        }
    }

    /// Says that the directory at a path was synced.
    pub(crate) fn tell_synced(&mut self, path: &str) {
        if let Some(Some(Standing::Dir { is_synced, .. })) = self.names.get_mut(path) {
            *is_synced = true;
        }
    }

    /// Says that a file that was made in the directory had just the mode that was asked for.
    pub(crate) fn tell_keeps_modes(&mut self, path: &str) {
        if let Some(Some(Standing::Dir { keeps_modes, .. })) = self.names.get_mut(path) {
            *keeps_modes = true;
        }
    }
}
