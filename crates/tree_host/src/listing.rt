// The names in a directory of the host.
ghost use Rattle.std.specs.Prelude.{IfOk};
ghost use Rattle.tree_disk.specs.Disk.{NamesOf};

use crate::host::Host;
use crate::stop::HostStop;
use std::alloc::Global;
use std::fs::Files;
use std::io::{ErrorKind, Read};
use tree_disk::cny_base::{Names, Path, Text};

// How many bytes of names are read at once. A host refuses to give names to a buffer that is too short for one.
const PIECE: usize = 4_096;

// All bytes of the names of a directory.
fn read_names<D: Read>(alloc: Global, dir: &mut D) -> Result<Vec<u8>, HostStop> {
    let mut names = Vec::new(alloc);
    let mut piece = [0u8; PIECE];
    for _ in 0..u64::MAX {
        match dir.read(&mut piece) {
            Ok(0) => return Ok(names),
            Ok(count) => names.extend_from_slice(&piece[..count])?,
            Err(e) if e.kind() == ErrorKind::Interrupted => {}
            Err(_) => break,
        }
    }
    Err(HostStop::Failed)
}

// The names that stand one after another, each ended by a zero byte.
fn names_in(alloc: Global, bytes: &[u8]) -> Result<Vec<String>, HostStop> {
    let mut names = Vec::new(alloc);
    for part in bytes.split(|byte| *byte == 0) {
        if part.is_empty() || part == b".".as_slice() || part == b"..".as_slice() {
            continue;
        }
        let Ok(name) = str::from_utf8(part) else {
            return Err(HostStop::Failed);
        };
        names.push(String::from_str(alloc, name)?)?;
    }
    Ok(names)
}

// The names as texts, each of which joins with the directory's path to a path.
fn joined(alloc: Global, dir: &Path, names: Vec<String>) -> Result<Names, HostStop>
    ensures { IfOk result (NamesOf dir.now) }
{
    let mut texts = Vec::new(alloc);
    for name in &names {
        dir.join(alloc, name.as_str())?;
        texts.push(Text::new(alloc, name.as_str())?)?;
    }
    Ok(Names::new(texts))
}

impl<R: Files> Host<'_, R> {
    /// The names of what stands in a directory, in the order of their bytes.
    pub(crate) fn list(&mut self, alloc: Global, path: &Path) -> Result<Names, HostStop>
        ensures { IfOk result (NamesOf path.now) }
    {
        let bytes = self.name_bytes(alloc, path.text())?;
        let mut names = names_in(alloc, bytes.as_slice())?;
        names.sort()?;
        joined(alloc, path, names)
    }

    // The names in a directory, as the host gives them. A sync waits for it, where none has: an earlier process may have left a
    // name unsynced that is missing.
    fn name_bytes(&mut self, alloc: Global, path: &str) -> Result<Vec<u8>, HostStop> {
        if !self.standing(alloc, path)?.is_dir() {
            return Err(HostStop::Failed);
        }
        self.note(alloc, path)?;
        let place = self.place(alloc, path)?;
        read_names(alloc, &mut self.rt.open_dir(place.as_str())?)
    }
}
