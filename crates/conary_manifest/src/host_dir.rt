// A directory of the host as a disk that is only read.
ghost use Rattle.std.specs.Prelude.{◌≡◌, ◌≤◌, length, IfOk, IsErrOf, Ok};
ghost use Rattle.cny_pack.specs.tree-disk.cny-base.Count.{Rose};
ghost use Rattle.cny_pack.specs.tree-disk.declared.disk.DiskStop.TheVariants.{Failed, Memory, Refused};
ghost use Rattle.cny_pack.specs.tree-disk.Disk.{NamesOf};
ghost use Rattle.cny_pack.specs.tree-disk.Untold.{untold, untold_laws};

use cny_pack::cny_base::{Copies, Mode, Names, OutOfMemory, Path, Target, Text, TextFault};
use cny_pack::tree_disk::{DiskStop, Look, TreeDisk};
use std::alloc::{AllocError, AllocFailed, Global};
use std::fs::{self, File, Files, Metadata};
use std::io::{self, ErrorKind, Read, Seek, SeekFrom};
use std::marker::Model;
use std::os::unix::fs::PermissionsExt;

// The bits of a mode that say who may do what.
const PERMISSION_BITS: u32 = 0o7777;

// How many bytes of names are read at once.
const NAMES: usize = 4_096;

/// What stands in a directory and can't be in a tree.
#[derive(Clone, Copy)]
pub(crate) enum Odd {
    /// A name in the directory at the path is none that a path can have.
    Name,
    /// What stands at the path is no directory, no file and no link.
    Kind,
    /// The target of the link at the path is none that a link can have.
    Target,
}

/// Why a call of the host isn't made, or how it failed.
#[derive(Clone, Copy)]
enum Stop {
    Failed,
    Odd(Odd),
    Memory,
}

impl From<io::Error> for Stop {
    fn from(error: io::Error) -> Self {
        if error.kind() == ErrorKind::OutOfMemory {
            return Stop::Memory;
        }
        Stop::Failed
    }
}

impl From<OutOfMemory> for Stop {
    fn from(_: OutOfMemory) -> Self {
        Stop::Memory
    }
}

// A text that isn't read is that of a name.
impl From<TextFault> for Stop {
    fn from(fault: TextFault) -> Self {
        match fault {
            TextFault::Bad => Stop::Odd(Odd::Name),
            TextFault::Memory => Stop::Memory,
        }
    }
}

impl From<AllocError> for Stop {
    fn from(_: AllocError) -> Self {
        Stop::Memory
    }
}

impl<T: Drop> From<AllocFailed<T>> for Stop {
    fn from(_: AllocFailed<T>) -> Self {
        Stop::Memory
    }
}

// The file that is read, the place where its next read begins, and whether the last read came to its end.
#[derive(Drop)]
struct Reader {
    path: String,
    file: File,
    at: u64,
    ended: bool,
}

/// What the host told last that can't be in a tree, and where.
#[derive(Drop)]
pub(crate) struct OddAt {
    pub(crate) path: Path,
    pub(crate) odd: Odd,
}

/// A directory of the host as a disk that tells nothing and is only read: each call that changes one fails. What can't be in a tree is
/// a fault and kept for the one who asks for it, or is left out.
#[derive(Drop)]
pub(crate) struct HostDir<'a> {
    rt: &'a HostRuntime,
    dir: &'a str,
    skip: bool,
    faults: u64,
    reader: Option<Reader>,
    odd: Option<OddAt>,
}

impl<'a> Model for HostDir<'a> {
    ghost use Rattle.std.specs.Prelude.{ℕ};

    ghost Value = { ℕ };

    ghost view = { λ a. a.faults };
}

fn mode_of(metadata: &Metadata) -> Result<Mode, Stop> {
    let bits = metadata.permissions().mode() & PERMISSION_BITS;
    match u16::try_from(bits) {
        Ok(bits) => Mode::new(bits).ok_or(Stop::Failed),
        Err(_) => Err(Stop::Failed),
    }
}

// All bytes of the names of a directory.
fn read_names<D: Read>(alloc: Global, dir: &mut D) -> Result<Vec<u8>, Stop> {
    let mut names = Vec::new(alloc);
    let mut piece = [0u8; NAMES];
    for _ in 0..u64::MAX {
        match dir.read(&mut piece) {
            Ok(0) => return Ok(names),
            Ok(count) => names.extend_from_slice(&piece[..count])?,
            Err(e) if e.kind() == ErrorKind::Interrupted => {}
            Err(_) => break,
        }
    }
    Err(Stop::Failed)
}

// Some of the bytes that come next; none only at the file's end.
fn read_some<F: Read>(file: &mut F, buf: &mut [u8]) -> Result<usize, Stop>
    ensures { IfOk result (λ count. count ≤ length buf.old) }
{
    for _ in 0..u64::MAX {
        match file.read(buf) {
            Ok(count) => return Ok(count),
            Err(e) if e.kind() == ErrorKind::Interrupted => {}
            Err(_) => break,
        }
    }
    Err(Stop::Failed)
}

// Fills the buffer as far as the file goes.
fn fill<F: Read>(file: &mut F, buf: &mut [u8]) -> Result<usize, Stop>
    ensures { IfOk result (λ count. count ≤ length buf.old) }
{
    let mut filled = 0;
    for _ in 0..u64::MAX {
        if filled >= buf.len() {
            break;
        }
        let more = read_some(file, &mut buf[filled..])?;
        if more == 0 {
            break;
        }
        filled += more;
    }
    Ok(filled)
}

impl<'a> HostDir<'a> {
    /// The directory of this name. It isn't looked at yet.
    pub(crate) fn new(rt: &'a HostRuntime, dir: &'a str, skip: bool) -> Self {
        HostDir {
            rt,
            dir,
            skip,
            faults: 0,
            reader: None,
            odd: None,
        }
    }

    /// What was told last that can't be in a tree, where that is why a call failed.
    pub(crate) fn odd(&self) -> Option<&OddAt> {
        self.odd.as_ref()
    }

    // The host's name of a path.
    fn place(&self, alloc: Global, path: &Path) -> Result<String, Stop> {
        let mut place = String::from_str(alloc, self.dir)?;
        place.push_str(path.text())?;
        Ok(place)
    }

    // What stands at a path.
    fn see(&self, alloc: Global, path: &Path) -> Result<Look, Stop> {
        let place = self.place(alloc, path)?;
        let metadata = match fs::symlink_metadata(self.rt, place.as_str()) {
            Ok(metadata) => metadata,
            Err(e) if e.kind() == ErrorKind::NotFound => return Ok(Look::Nothing),
            Err(e) => return Err(Stop::from(e)),
        };
        if metadata.is_symlink() {
            return self.see_link(alloc, place.as_str());
        }
        let mode = mode_of(&metadata)?;
        if metadata.is_dir() {
            return Ok(Look::Dir { mode });
        }
        if metadata.is_file() {
            let size = metadata.len();
            return Ok(Look::File { mode, size });
        }
        Err(Stop::Odd(Odd::Kind))
    }

    fn see_link(&self, alloc: Global, place: &str) -> Result<Look, Stop> {
        let target = match self.rt.read_link(alloc, place) {
            Ok(target) => target,
            Err(e) if e.kind() == ErrorKind::InvalidData => return Err(Stop::Odd(Odd::Target)),
            Err(e) => return Err(Stop::from(e)),
        };
        match Target::read(alloc, target.as_str()) {
            Ok(target) => Ok(Look::Link { target }),
            Err(TextFault::Bad) => Err(Stop::Odd(Odd::Target)),
            Err(TextFault::Memory) => Err(Stop::Memory),
        }
    }

    // The same, with what can't be in a tree left out where that is asked for.
    fn see_fit(&self, alloc: Global, path: &Path) -> Result<Look, Stop> {
        match self.see(alloc, path) {
            Err(Stop::Odd(_)) if self.skip => Ok(Look::Nothing),
            seen => seen,
        }
    }

    // A name in a directory; none where it is none that a path can have and is left out.
    fn name_in(&self, alloc: Global, path: &Path, name: &[u8]) -> Result<Option<String>, Stop> {
        if let Ok(name) = str::from_utf8(name) {
            match path.join(alloc, name) {
                Ok(_) => return Ok(Some(String::from_str(alloc, name)?)),
                Err(TextFault::Memory) => return Err(Stop::Memory),
                Err(TextFault::Bad) => {}
            }
        }
        if self.skip {
            return Ok(None);
        }
        Err(Stop::Odd(Odd::Name))
    }

    // The names that stand one after another, each ended by a zero byte.
    fn names_in(&self, alloc: Global, path: &Path, bytes: &[u8]) -> Result<Vec<String>, Stop> {
        let mut names = Vec::new(alloc);
        for part in bytes.split(|byte| *byte == 0) {
            if part.is_empty() || part == b".".as_slice() || part == b"..".as_slice() {
                continue;
            }
            if let Some(name) = self.name_in(alloc, path, part)? {
                names.push(name)?;
            }
        }
        Ok(names)
    }

    fn names_at(&self, alloc: Global, path: &Path) -> Result<Vec<String>, Stop> {
        let place = self.place(alloc, path)?;
        let bytes = read_names(alloc, &mut self.rt.open_dir(place.as_str())?)?;
        let mut names = self.names_in(alloc, path, bytes.as_slice())?;
        names.sort()?;
        Ok(names)
    }

    fn list_at(&self, alloc: Global, path: &Path) -> Result<Names, Stop>
        ensures { IfOk result (NamesOf path.now) }
    {
        let names = self.names_at(alloc, path)?;
        joined(alloc, path, names)
    }

    // Opens a file, where it isn't the one that is open already.
    fn open(&mut self, alloc: Global, path: &Path) -> Result<(), Stop>
        ensures { self.new ≡ self.old }
    {
        if let Some(reader) = &self.reader {
            if reader.path.as_str() == path.text() {
                return Ok(());
            }
        }
        self.reader = None;
        let place = self.place(alloc, path)?;
        let file = fs::open(self.rt, place.as_str())?;
        let path = String::from_str(alloc, path.text())?;
        self.reader = Some(Reader {
            path,
            file,
            at: 0,
            ended: false,
        });
        Ok(())
    }

    // Fills the buffer from a place in a file on, up to the file's end.
    fn read(&mut self, alloc: Global, path: &Path, at: u64, buf: &mut [u8]) -> Result<usize, Stop>
        ensures most { IfOk result (λ count. count ≤ length buf.old) }
        ensures same { self.new ≡ self.old }
    {
        self.open(alloc, path)?;
        let Some(reader) = &mut self.reader else {
            return Err(Stop::Failed);
        };
        if reader.at != at {
            reader.file.seek(SeekFrom::Start(at))?;
        } else if reader.ended {
            return Ok(0);
        }
        let count = fill(&mut reader.file, buf)?;
        reader.at = at.saturating_add(count as u64);
        reader.ended = count < buf.len();
        Ok(count)
    }

    // The answer of a call, with its fault counted.
    fn answer<T: Drop>(&mut self, path: &Path, answer: Result<T, Stop>) -> Result<T, DiskStop>
        ensures same { IfOk result (λ value. answer ≡ Ok value) }
        ensures later { self.old ≤ self.new }
        ensures failed { IsErrOf result Failed → Rose self.old self.new }
        ensures no_fault { IsErrOf result Memory → self.new ≡ self.old }
        ensures not_refused { ¬ (IsErrOf result Refused) }
    {
        match answer {
            Ok(value) => Ok(value),
            Err(Stop::Memory) => Err(DiskStop::Memory),
            Err(Stop::Failed) => {
                self.faults = self.faults.saturating_add(1);
                Err(DiskStop::Failed)
            }
            Err(Stop::Odd(odd)) => {
                self.odd = odd_at(path, odd);
                self.faults = self.faults.saturating_add(1);
                Err(DiskStop::Failed)
            }
        }
    }
}

// What can't be in a tree, and where; nothing where there is no memory for that.
fn odd_at(path: &Path, odd: Odd) -> Option<OddAt> {
    let path = path.copy().ok()?;
    Some(OddAt { path, odd })
}

// The names as texts, each of which joins with the directory's path to a path.
fn joined(alloc: Global, dir: &Path, names: Vec<String>) -> Result<Names, Stop>
    ensures { IfOk result (NamesOf dir.now) }
{
    let mut texts = Vec::new(alloc);
    for name in &names {
        dir.join(alloc, name.as_str())?;
        texts.push(Text::new(alloc, name.as_str())?)?;
    }
    Ok(Names::new(texts))
}

impl TreeDisk for HostDir<'_> {
    ghost disk = { untold (λ faults. faults) };

    fn look(&mut self, alloc: Global, path: &Path) -> Result<Look, DiskStop> {
        let answer = self.see_fit(alloc, path);
        self.answer(path, answer)
    }

    fn read_at(
        &mut self,
        alloc: Global,
        path: &Path,
        at: u64,
        buf: &mut [u8],
    ) -> Result<usize, DiskStop> {
        let answer = self.read(alloc, path, at, buf);
        self.answer(path, answer)
    }

    fn list(&mut self, alloc: Global, path: &Path) -> Result<Names, DiskStop> {
        let answer = self.list_at(alloc, path);
        self.answer(path, answer)
    }

    fn append(&mut self, _alloc: Global, path: &Path, _bytes: &[u8]) -> Result<(), DiskStop> {
        self.answer(path, Err(Stop::Failed))
    }

    fn make_dir(&mut self, _alloc: Global, path: &Path, _mode: Mode) -> Result<(), DiskStop> {
        self.answer(path, Err(Stop::Failed))
    }

    fn make_link(&mut self, _alloc: Global, path: &Path, _target: &Target) -> Result<(), DiskStop> {
        self.answer(path, Err(Stop::Failed))
    }

    fn set_mode(&mut self, _alloc: Global, path: &Path, _mode: Mode) -> Result<(), DiskStop> {
        self.answer(path, Err(Stop::Failed))
    }

    fn remove(&mut self, _alloc: Global, path: &Path) -> Result<(), DiskStop> {
        self.answer(path, Err(Stop::Failed))
    }

    fn rename(&mut self, _alloc: Global, from: &Path, _to: &Path) -> Result<(), DiskStop> {
        self.answer(from, Err(Stop::Failed))
    }

    // Nothing changes, so all is kept.
    fn sync(&mut self, _alloc: Global) -> Result<(), DiskStop> {
        Ok(())
    }

    ghost laws = { untold_laws (λ faults. faults) };
}
