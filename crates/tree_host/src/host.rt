// What stands in a directory of the host. Each path is reached name by name, and none through a link but the directory itself.
use crate::known::{Known, Standing};
use crate::open_files::OpenFiles;
use crate::stop::HostStop;
use crate::waiting::Waiting;
use std::alloc::Global;
use std::fs::{self, Files, Metadata};
use std::io::{Error, ErrorKind};
use std::os::unix::fs::{MetadataExt, PermissionsExt};
use tree_disk::Look;
use tree_disk::cny_base::{Mode, OutOfMemory, Path, Target, Text, parent_of};

// The path above another that ends where that has a slash at this place.
fn above_at(path: &str, at: usize) -> Option<&str> {
    let (head, rest) = path.split_at_checked(at)?;
    if rest.len() < 2 || !rest.starts_with('/') {
        return None;
    }
    Some(if head.is_empty() { "/" } else { head })
}

// The bits of a mode that say who may do what.
const PERMISSION_BITS: u32 = 0o7777;

/// What was seen at a path of the host.
#[derive(Clone, Copy)]
pub(crate) enum Seen {
    Nothing,
    Dir { mode: Mode },
    File { mode: Mode, size: u64 },
    Link,
}

impl Seen {
    // What stands there. Of a file or a link that was there before, nobody knows how many names it has.
    fn standing(&self) -> Standing {
        match self {
            Seen::Nothing => Standing::Nothing,
            Seen::Dir { .. } => Standing::dir(),
            Seen::File { .. } => Standing::File { is_own: false },
            Seen::Link => Standing::Link { is_own: false },
        }
    }
}

// What was seen by the last look, and not changed since.
#[derive(Drop)]
struct LastSeen {
    path: String,
    seen: Seen,
}

/// A directory of the host, with what is known of it, what a sync has to wait for, and the files that are open.
#[derive(Drop)]
pub(crate) struct Host<'a, R: Files> {
    pub(crate) rt: &'a R,
    // No directory can be reached where there is none, or where it has no name.
    dir: Option<Text>,
    // The file system of the directory, once it was seen.
    device: Option<u64>,
    pub(crate) known: Known,
    pub(crate) waiting: Waiting,
    pub(crate) open: OpenFiles<R::File>,
    last: Option<LastSeen>,
}

fn is_missing(error: &Error) -> bool {
    matches!(error.kind(), ErrorKind::NotFound | ErrorKind::NotADirectory)
}

/// The bits of a mode.
pub(crate) fn mode_of(metadata: &Metadata) -> Result<Mode, HostStop> {
    let bits = metadata.permissions().mode() & PERMISSION_BITS;
    Mode::new(bits as u16).ok_or(HostStop::Failed)
}

// What isn't a directory, a file or a link has no place in a tree.
fn seen_of(metadata: &Metadata) -> Result<Seen, HostStop> {
    if metadata.is_symlink() {
        return Ok(Seen::Link);
    }
    let mode = mode_of(metadata)?;
    if metadata.is_dir() {
        return Ok(Seen::Dir { mode });
    }
    if metadata.is_file() {
        let size = metadata.len();
        return Ok(Seen::File { mode, size });
    }
    Err(HostStop::Failed)
}

impl<'a, R: Files> Host<'a, R> {
    /// The directory of this name; no directory where there is none.
    pub(crate) fn new(alloc: Global, rt: &'a R, dir: Option<Text>) -> Self {
        Host {
            rt,
            dir,
            device: None,
            known: Known::new(alloc),
            waiting: Waiting::new(alloc),
            open: OpenFiles::new(alloc),
            last: None,
        }
    }

    // The name of the directory. One without a name has none, so that it can't stand for the host's own root.
    fn dir(&self) -> Result<&str, HostStop> {
        match &self.dir {
            Some(dir) if !dir.get().is_empty() => Ok(dir.get()),
            _ => Err(HostStop::Failed),
        }
    }

    /// Fails where no directory can be reached.
    pub(crate) fn require_dir(&self) -> Result<(), HostStop> {
        self.dir()?;
        Ok(())
    }

    /// The host's name of a path.
    pub(crate) fn place(&self, alloc: Global, path: &str) -> Result<String, HostStop> {
        let dir = self.dir()?;
        let mut place = String::with_capacity(alloc, dir.len().saturating_add(path.len()))?;
        place.push_str(dir)?;
        place.push_str(path)?;
        Ok(place)
    }

    // What stands at a path itself, whatever is above it. The slash behind the directory leads through a link in its place.
    fn seen_at(&mut self, alloc: Global, path: &str) -> Result<Seen, HostStop> {
        let place = self.place(alloc, path)?;
        match fs::symlink_metadata(self.rt, place.as_str()) {
            Ok(metadata) => self.admitted(&metadata),
            Err(e) if is_missing(&e) => Ok(Seen::Nothing),
            Err(_) => Err(HostStop::Failed),
        }
    }

    // What was seen, where it is no directory of another file system: no rename leads there, and that would show only when a
    // write set is half made. The first directory that is seen is the one in which all others are.
    fn admitted(&mut self, metadata: &Metadata) -> Result<Seen, HostStop> {
        let seen = seen_of(metadata)?;
        if metadata.is_dir() {
            let device = *self.device.get_or_insert(metadata.dev());
            if device != metadata.dev() {
                return Err(HostStop::Failed);
            }
        }
        Ok(seen)
    }

    // What stands at a path above others, which is remembered.
    fn standing_above(&mut self, alloc: Global, path: &str) -> Result<Standing, HostStop> {
        if let Some(standing) = self.known.get(path) {
            return Ok(standing);
        }
        let standing = self.seen_at(alloc, path)?.standing();
        self.known.learn(alloc, path, standing)?;
        Ok(standing)
    }

    // Whether all names above a path are directories, looked at from `/` down.
    fn is_way_open(&mut self, alloc: Global, path: &str) -> Result<bool, HostStop> {
        for at in 0..path.len() {
            let Some(dir) = above_at(path, at) else {
                continue;
            };
            if !self.standing_above(alloc, dir)?.is_dir() {
                return Ok(false);
            }
        }
        Ok(true)
    }

    /// Whether all names above a path are directories. They are looked at only as far as it isn't known of the last.
    pub(crate) fn is_below_dirs(&mut self, alloc: Global, path: &str) -> Result<bool, HostStop> {
        let dir = parent_of(path);
        if self.waiting.is_changing(dir) || self.known.is_dir(dir) {
            return Ok(true);
        }
        self.is_way_open(alloc, path)
    }

    // What was seen at the path by the last look, where nothing has changed since.
    fn last_seen(&self, path: &str) -> Option<Seen> {
        match &self.last {
            Some(last) if last.path.as_str() == path => Some(last.seen),
            _ => None,
        }
    }

    /// How many bytes the file at the path has, where the last look was at it and nothing has changed since.
    pub(crate) fn size_seen(&self, path: &str) -> Option<u64> {
        match self.last_seen(path) {
            Some(Seen::File { size, .. }) => Some(size),
            _ => None,
        }
    }

    /// Something changes: what the last look saw may not stand any more.
    pub(crate) fn forget_last(&mut self) {
        self.last = None;
    }

    /// What stands at a path; nothing where a name above it isn't a directory.
    pub(crate) fn seen(&mut self, alloc: Global, path: &str) -> Result<Seen, HostStop> {
        if let Some(seen) = self.last_seen(path) {
            return Ok(seen);
        }
        if self.known.is_nothing(path) || !self.is_below_dirs(alloc, path)? {
            return Ok(Seen::Nothing);
        }
        self.look_again(alloc, path)
    }

    // What stands at a path below directories, looked at and remembered. Files and links that were there before are too many
    // for that.
    fn look_again(&mut self, alloc: Global, path: &str) -> Result<Seen, HostStop> {
        let name = String::from_str(alloc, path)?;
        let seen = self.seen_at(alloc, path)?;
        let standing = seen.standing();
        if standing.is_nothing() || standing.is_dir() {
            self.known.learn(alloc, path, standing)?;
        }
        self.last = Some(LastSeen { path: name, seen });
        Ok(seen)
    }

    /// What stands at a path, as far as its kind is asked for.
    pub(crate) fn standing(&mut self, alloc: Global, path: &str) -> Result<Standing, HostStop> {
        match self.known.get(path) {
            Some(standing) => Ok(standing),
            None => Ok(self.seen(alloc, path)?.standing()),
        }
    }

    fn target_at(&self, alloc: Global, path: &str) -> Result<Target, HostStop> {
        let place = self.place(alloc, path)?;
        let target = self.rt.read_link(alloc, place.as_str())?;
        Ok(Target::read(alloc, target.as_str())?)
    }

    /// What stands at a path, with a link's target.
    pub(crate) fn look(&mut self, alloc: Global, path: &Path) -> Result<Look, HostStop> {
        let path = path.text();
        let seen = self.seen(alloc, path)?;
        self.note_seen(alloc, path, seen.standing())?;
        Ok(match seen {
            Seen::Nothing => Look::Nothing,
            Seen::Dir { mode } => Look::Dir { mode },
            Seen::File { mode, size } => Look::File { mode, size },
            Seen::Link => Look::Link {
                target: self.target_at(alloc, path)?,
            },
        })
    }

    /// A sync waits for what an earlier process may have left unsynced at a path that was looked at, and on which the program
    /// relies. Before the first sync that is all that stands there; behind it, where nothing stands, the directory that may have
    /// lost the name (`docs/CRASH_SAFETY.md`, *What a killed process leaves*).
    pub(crate) fn note_seen(
        &mut self,
        alloc: Global,
        path: &str,
        standing: Standing,
    ) -> Result<(), OutOfMemory> {
        match standing {
            Standing::Nothing => self.note_above(alloc, path),
            _ if self.waiting.was_synced() => Ok(()),
            Standing::Link { .. } => self.note_above(alloc, path),
            Standing::Dir { .. } | Standing::File { .. } => {
                self.known.learn(alloc, path, standing)?;
                self.note(alloc, path)
            }
        }
    }

    /// A sync waits for what stands at a path, where none has waited for it yet.
    pub(crate) fn note(&mut self, alloc: Global, path: &str) -> Result<(), OutOfMemory> {
        self.note_above(alloc, path)?;
        if self.known.is_synced_dir(path) {
            return Ok(());
        }
        self.waiting.add(alloc, path)
    }

    // Whether a sync has waited for a directory, or the next one will; then it is the same of all above it.
    fn is_noted(&self, path: &str) -> bool {
        self.waiting.is_changing(path) || self.known.is_synced_dir(path) || self.waiting.has(path)
    }

    /// A sync waits for each directory above a path for which none has waited yet: an earlier process may have made it.
    pub(crate) fn note_above(&mut self, alloc: Global, path: &str) -> Result<(), OutOfMemory> {
        if self.is_noted(parent_of(path)) {
            return Ok(());
        }
        self.note_way(alloc, path)
    }

    // From `/` down, as far as there may be directories.
    fn note_way(&mut self, alloc: Global, path: &str) -> Result<(), OutOfMemory> {
        for at in 0..path.len() {
            let Some(dir) = above_at(path, at) else {
                continue;
            };
            if self.known.is_no_dir(dir) {
                break;
            }
            if !self.is_noted(dir) {
                self.waiting.add(alloc, dir)?;
            }
        }
        Ok(())
    }
}
