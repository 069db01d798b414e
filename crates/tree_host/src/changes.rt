// The changing calls of a directory of the host. Whatever the host's own mask of modes is, what is made has the mode that is asked for.
use crate::host::{Host, mode_of};
use crate::known::Standing;
use crate::stop::HostStop;
use std::alloc::Global;
use std::fs::{self, DirBuilder, Files, Metadata, OpenFile, OpenOptions, Permissions};
use std::io::{self, ErrorKind, Write};
use std::os::unix::fs::{DirBuilderExt, OpenOptionsExt, PermissionsExt};
use tree_disk::cny_base::{Mode, Path, Target, parent_of};

// The bit of a mode that the host leaves out without a word where the process isn't in the group of the file.
const SET_GROUP: u16 = 0o2000;

fn permissions(mode: Mode) -> Permissions {
    Permissions::from_mode(u32::from(mode.bits()))
}

// Whether the host may have left out a bit of the mode.
fn may_lose_bits(mode: Mode) -> bool {
    mode.bits() & SET_GROUP != 0
}

// Fails where a node hasn't the mode that was asked for.
fn require_mode(metadata: io::Result<Metadata>, mode: Mode) -> Result<(), HostStop> {
    if mode_of(&metadata?)? == mode {
        Ok(())
    } else {
        Err(HostStop::Failed)
    }
}

// Sets the mode of an open file.
fn set_file_mode<F: OpenFile>(file: &F, mode: Mode) -> Result<(), HostStop> {
    file.set_permissions(permissions(mode))?;
    if may_lose_bits(mode) {
        require_mode(file.metadata(), mode)?;
    }
    Ok(())
}

// Cuts a new file to nothing once: then ext4, XFS and Btrfs give its bytes their places and begin to write them out when it is
// closed, and the sync that comes later finds that done. Elsewhere it does nothing.
fn cut<F: OpenFile + Write>(file: &mut F) -> Result<(), HostStop> {
    file.write_all(&[0])?;
    Ok(file.set_len(0)?)
}

impl<R: Files> Host<'_, R> {
    // A change begins at a path: it is forgotten what stands there, and a sync waits for it and for the directories above it
    // for which none has waited yet.
    fn begin(&mut self, alloc: Global, path: &str) -> Result<(), HostStop> {
        self.forget_last();
        self.open.close_reader_at(path);
        self.note_above(alloc, path)?;
        Ok(self.waiting.add(alloc, path)?)
    }

    // A name is made or taken away, in a directory: a sync waits for the directory too. Answers what was known to stand there.
    fn begin_name(&mut self, alloc: Global, path: &str) -> Result<Option<Standing>, HostStop> {
        if !self.is_below_dirs(alloc, path)? {
            return Err(HostStop::Failed);
        }
        self.begin(alloc, path)?;
        self.waiting.add_dir(alloc, parent_of(path))?;
        self.waiting.leave_dir(path);
        Ok(self.known.forget(alloc, path)?)
    }

    // Gives a new file its mode, where its directory isn't known to give each file just that for which it is made.
    fn set_first_mode(&mut self, path: &str, file: &R::File) -> Result<(), HostStop> {
        let dir = parent_of(path);
        if self.known.keeps_modes(dir) {
            return Ok(());
        }
        if mode_of(&file.metadata()?)? == Mode::owner_only() {
            self.known.tell_keeps_modes(dir);
            return Ok(());
        }
        set_file_mode(file, Mode::owner_only())
    }

    // Makes a file without bytes where nothing stands.
    fn new_file(&self, place: &str) -> io::Result<R::File> {
        OpenOptions::new()
            .append(true)
            .create_new(true)
            .mode(u32::from(Mode::owner_only().bits()))
            .open(self.rt, place)
    }

    // Opens a file at whose end bytes are added, and makes it where nothing stands. That is tried first where it isn't known
    // that a file stands.
    fn open_end(
        &mut self,
        alloc: Global,
        path: &str,
        known: Option<Standing>,
    ) -> Result<R::File, HostStop> {
        let place = self.place(alloc, path)?;
        if let Some(Standing::File { is_own }) = known {
            return self.old_file(path, place.as_str(), is_own);
        }
        match self.new_file(place.as_str()) {
            Ok(file) => self.begin_file(path, file),
            Err(e) if e.kind() == ErrorKind::AlreadyExists => {
                self.require_file(alloc, path)?;
                self.old_file(path, place.as_str(), false)
            }
            Err(_) => Err(HostStop::Failed),
        }
    }

    // Makes a new file ready for its first bytes.
    fn begin_file(&mut self, path: &str, mut file: R::File) -> Result<R::File, HostStop> {
        self.set_first_mode(path, &file)?;
        cut(&mut file)?;
        self.known.tell(path, Standing::File { is_own: true });
        Ok(file)
    }

    // Fails where no file stands at a path below directories.
    fn require_file(&mut self, alloc: Global, path: &str) -> Result<(), HostStop> {
        let standing = self.standing(alloc, path)?;
        self.forget_last();
        if standing.is_file() {
            Ok(())
        } else {
            Err(HostStop::Failed)
        }
    }

    // Opens a file that stands. The file that is read may be the same one by another name.
    fn old_file(&mut self, path: &str, place: &str, is_own: bool) -> Result<R::File, HostStop> {
        if !is_own {
            self.open.close_reader();
        }
        let file = OpenOptions::new().append(true).open(self.rt, place)?;
        self.known.tell(path, Standing::File { is_own });
        Ok(file)
    }

    /// Adds bytes at the end of a file. Where nothing stands it first makes a file of mode 0600.
    pub(crate) fn append(
        &mut self,
        alloc: Global,
        path: &Path,
        bytes: &[u8],
    ) -> Result<(), HostStop> {
        let path = path.text();
        self.forget_last();
        self.open.close_reader_at(path);
        match self.open.writer(path) {
            Some(file) => Ok(file.write_all(bytes)?),
            None => self.begin_writer(alloc, path, bytes),
        }
    }

    // Adds bytes at the end of a file that isn't open yet.
    fn begin_writer(&mut self, alloc: Global, path: &str, bytes: &[u8]) -> Result<(), HostStop> {
        let name = String::from_str(alloc, path)?;
        self.open.close_writer();
        let known = self.begin_name(alloc, path)?;
        let mut file = self.open_end(alloc, path, known)?;
        file.write_all(bytes)?;
        self.open.set_writer(name, file);
        Ok(())
    }

    /// Makes a directory where nothing stands.
    pub(crate) fn make_dir(
        &mut self,
        alloc: Global,
        path: &Path,
        mode: Mode,
    ) -> Result<(), HostStop> {
        let path = path.text();
        let place = self.place(alloc, path)?;
        self.begin_name(alloc, path)?;
        DirBuilder::new()
            .mode(u32::from(mode.bits()))
            .create(self.rt, place.as_str())?;
        self.set_mode_at(place.as_str(), mode)?;
        self.known.tell(path, Standing::dir());
        Ok(())
    }

    /// Makes a link where nothing stands.
    pub(crate) fn make_link(
        &mut self,
        alloc: Global,
        path: &Path,
        target: &Target,
    ) -> Result<(), HostStop> {
        let path = path.text();
        let place = self.place(alloc, path)?;
        self.begin_name(alloc, path)?;
        self.rt.symlink(target.text(), place.as_str())?;
        self.known.tell(path, Standing::Link { is_own: true });
        Ok(())
    }

    // Sets the mode of what stands at a place of the host.
    fn set_mode_at(&self, place: &str, mode: Mode) -> Result<(), HostStop> {
        self.rt.set_permissions(place, permissions(mode))?;
        if may_lose_bits(mode) {
            require_mode(fs::symlink_metadata(self.rt, place), mode)?;
        }
        Ok(())
    }

    /// Sets the mode of a directory or a file.
    pub(crate) fn set_mode(
        &mut self,
        alloc: Global,
        path: &Path,
        mode: Mode,
    ) -> Result<(), HostStop> {
        let path = path.text();
        if let Some(file) = self.open.writer(path) {
            // The sync waits for it since it is written.
            let answer = set_file_mode(file, mode);
            self.forget_last();
            return answer;
        }
        let place = self.place(alloc, path)?;
        let standing = self.standing(alloc, path)?;
        if !standing.is_dir() && !standing.is_file() {
            return Err(HostStop::Failed);
        }
        self.known.learn(alloc, path, standing)?;
        self.begin(alloc, path)?;
        self.set_mode_at(place.as_str(), mode)
    }

    /// Takes away a file, a link or an empty directory, but not the directory itself.
    pub(crate) fn remove(&mut self, alloc: Global, path: &Path) -> Result<(), HostStop> {
        let path = path.text();
        let place = self.place(alloc, path)?;
        let standing = self.standing(alloc, path)?;
        if path == "/" || standing.is_nothing() {
            return Err(HostStop::Failed);
        }
        self.begin_name(alloc, path)?;
        self.open.close_at(path);
        if standing.is_dir() {
            fs::remove_dir(self.rt, place.as_str())?;
        } else {
            fs::remove_file(self.rt, place.as_str())?;
        }
        self.known.tell(path, Standing::Nothing);
        Ok(())
    }

    /// Moves a file or link, over a file or link that stands there. Over a directory the host lets nothing of these be moved.
    pub(crate) fn rename(&mut self, alloc: Global, from: &Path, to: &Path) -> Result<(), HostStop> {
        let (from, to) = (from.text(), to.text());
        let moved = self.standing(alloc, from)?;
        if from == to || !(moved.is_file() || moved.is_link()) {
            return Err(HostStop::Failed);
        }
        let old = self.place(alloc, from)?;
        let new = self.place(alloc, to)?;
        self.begin_name(alloc, from)?;
        self.begin_name(alloc, to)?;
        self.open.close_at(from);
        self.open.close_at(to);
        fs::rename(self.rt, old.as_str(), new.as_str())?;
        if !moved.is_own() {
            self.end_rename(old.as_str())?;
        }
        self.known.tell(from, Standing::Nothing);
        self.known.tell(to, moved);
        Ok(())
    }

    // Of two names of one file the host lets both stand.
    fn end_rename(&self, old: &str) -> Result<(), HostStop> {
        match fs::symlink_metadata(self.rt, old) {
            Ok(_) => Ok(fs::remove_file(self.rt, old)?),
            Err(e) if e.kind() == ErrorKind::NotFound => Ok(()),
            Err(_) => Err(HostStop::Failed),
        }
    }
}
