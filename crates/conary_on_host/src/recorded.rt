//! Files of the host that record each call, and let one fail. Waits for the disk are recorded alone, where they aren't asked for.
use crate::record::Record;
use std::alloc::Allocator;
use std::cell::Cell;
use std::fs::{File, Files, Metadata, OpenFile, OpenOptions, Permissions};
use std::io::{self, Error, ErrorKind, Read, Seek, SeekFrom, Write};
use std::os::unix::fs::MetadataExt;
use std::path::PathBuf;
use tree_disk::cny_base::parent_of;

/// The host's files, with a record of what is asked of them.
#[derive(Drop)]
pub struct Recorded<'a> {
    rt: &'a HostRuntime,
    record: &'a Record,
    // Whether waits for the disk are made.
    waits: bool,
}

/// An open file of them.
pub struct RecordedFile<'a> {
    file: File,
    node: u64,
    place: String,
    record: &'a Record,
    // Whether waits for the disk are made.
    waits: bool,
    // Whether it was made by this handle and nothing was written yet.
    is_new: Cell<bool>,
    // Whether its first byte, a zero, is still to be written: where no waits are made, a file that is cut to nothing at once is never
    // written, since the host would begin to write it out, which takes a hundred times as long as all else here.
    holds_zero: Cell<bool>,
}

// Written by hand, so that to let a value go is a single call wherever a function ends early.
impl Drop for RecordedFile<'_> {
    fn drop(self) {
        let RecordedFile {
            file: _file,
            node: _node,
            place: _place,
            record: _record,
            waits: _waits,
            is_new: _is_new,
            holds_zero: _holds_zero,
        } = self;
    }
}

impl<'a> Recorded<'a> {
    /// The files that keep this record; `waits` says whether they make the waits for the disk too.
    pub fn new(rt: &'a HostRuntime, record: &'a Record, waits: bool) -> Self {
        Recorded { rt, record, waits }
    }

    // The directory or the file at a place was changed. A link there is followed: it may be the name of the whole directory.
    fn mark(&self, place: &str) {
        match self.rt.metadata(place) {
            Ok(metadata) => self.record.mark(metadata.ino(), place),
            Err(_) => self.record.lack(),
        }
    }

    // A name was made or taken away.
    fn mark_name(&self, place: &str) {
        self.mark(parent_of(place));
    }

    // The node at a place, where one stands.
    fn node_at(&self, place: &str) -> Option<u64> {
        match self.rt.symlink_metadata(place) {
            Ok(metadata) => Some(metadata.ino()),
            Err(_) => None,
        }
    }

    // Behind a call that makes a directory.
    fn end_making(&self, place: &str, made: io::Result<()>) -> io::Result<()> {
        made?;
        self.mark(place);
        self.mark_name(place);
        Ok(())
    }

    // Counts a call that takes away what stands at a place, and answers the node that stands there.
    fn begin_removal(&self, place: &str) -> io::Result<Option<u64>> {
        self.record.count()?;
        Ok(self.node_at(place))
    }

    // Behind that call: where it ended well, the node stands there no more.
    fn end_removal(
        &self,
        node: Option<u64>,
        place: &str,
        removed: io::Result<()>,
    ) -> io::Result<()> {
        removed?;
        if let Some(node) = node {
            self.record.drop_node(node);
        }
        self.mark_name(place);
        Ok(())
    }
}

impl<'a> Files for Recorded<'a> {
    type File = RecordedFile<'a>;

    type Dir = <HostRuntime as Files>::Dir;

    fn open_file(&self, how: &OpenOptions, path: &str) -> io::Result<RecordedFile<'a>> {
        self.record.count()?;
        let file = self.rt.open_file(how, path)?;
        let node = file.metadata()?.ino();
        if how.asks_create() || how.asks_create_new() {
            self.record.mark(node, path);
            self.mark_name(path);
        }
        Ok(RecordedFile {
            file,
            node,
            place: String::from_str(self.rt.alloc(), path)?,
            record: self.record,
            waits: self.waits,
            is_new: Cell::new(how.asks_create_new()),
            holds_zero: Cell::new(false),
        })
    }

    fn open_dir(&self, path: &str) -> io::Result<<HostRuntime as Files>::Dir> {
        self.record.count()?;
        self.rt.open_dir(path)
    }

    fn metadata(&self, path: &str) -> io::Result<Metadata> {
        self.record.count()?;
        self.rt.metadata(path)
    }

    fn symlink_metadata(&self, path: &str) -> io::Result<Metadata> {
        self.record.count()?;
        self.rt.symlink_metadata(path)
    }

    fn copy(&self, _from: &str, _to: &str) -> io::Result<u64> {
        Err(Error::from(ErrorKind::Unsupported))
    }

    fn rename(&self, from: &str, to: &str) -> io::Result<()> {
        let replaced = self.begin_removal(to)?;
        self.rt.rename(from, to)?;
        self.mark_name(from);
        self.end_removal(replaced, to, Ok(()))
    }

    fn remove_file(&self, path: &str) -> io::Result<()> {
        let node = self.begin_removal(path)?;
        let removed = self.rt.remove_file(path);
        self.end_removal(node, path, removed)
    }

    fn create_dir(&self, path: &str) -> io::Result<()> {
        self.record.count()?;
        let made = self.rt.create_dir(path);
        self.end_making(path, made)
    }

    fn create_dir_with_mode(&self, path: &str, mode: u32) -> io::Result<()> {
        self.record.count()?;
        let made = self.rt.create_dir_with_mode(path, mode);
        self.end_making(path, made)
    }

    fn remove_dir(&self, path: &str) -> io::Result<()> {
        let node = self.begin_removal(path)?;
        let removed = self.rt.remove_dir(path);
        self.end_removal(node, path, removed)
    }

    fn remove_dir_all<B: Allocator>(&self, _alloc: B, _path: &str) -> io::Result<()> {
        Err(Error::from(ErrorKind::Unsupported))
    }

    fn read_link<B: Allocator>(&self, alloc: B, path: &str) -> io::Result<PathBuf<B>> {
        self.record.count()?;
        self.rt.read_link(alloc, path)
    }

    fn set_permissions(&self, path: &str, perm: Permissions) -> io::Result<()> {
        self.record.count()?;
        self.rt.set_permissions(path, perm)?;
        self.mark(path);
        Ok(())
    }

    fn symlink(&self, original: &str, link: &str) -> io::Result<()> {
        self.record.count()?;
        self.rt.symlink(original, link)?;
        self.mark_name(link);
        Ok(())
    }
}

impl RecordedFile<'_> {
    fn mark(&self) {
        self.record.mark(self.node, self.place.as_str());
    }

    // Writes the byte that was held back, if there is one: a longer file has zeros behind its end.
    fn put_held(&self) -> io::Result<()> {
        if self.holds_zero.get() {
            self.holds_zero.set(false);
            return self.file.set_len(1);
        }
        Ok(())
    }

    // Whether these are the first bytes of a new file, and a zero that is held back.
    fn holds_back(&self, buf: &[u8]) -> bool {
        let is_first = self.is_new.get();
        self.is_new.set(false);
        let holds = is_first && !self.waits && matches!(buf, [0]);
        self.holds_zero.set(holds);
        holds
    }
}

impl Read for RecordedFile<'_> {
    fn read(&mut self, buf: &mut [u8]) -> io::Result<usize> {
        self.record.count()?;
        self.file.read(buf)
    }
}

impl Write for RecordedFile<'_> {
    // Of a write that fails one half is there.
    fn write(&mut self, buf: &[u8]) -> io::Result<usize> {
        self.mark();
        if let Err(error) = self.record.count() {
            let half = buf.len() / 2;
            self.file.write(&buf[..half])?;
            return Err(error);
        }
        self.put_held()?;
        if self.holds_back(buf) {
            return Ok(buf.len());
        }
        self.file.write(buf)
    }

    fn flush(&mut self) -> io::Result<()> {
        self.file.flush()
    }
}

impl Seek for RecordedFile<'_> {
    fn seek(&mut self, to: SeekFrom) -> io::Result<u64> {
        self.record.count()?;
        self.file.seek(to)
    }
}

impl OpenFile for RecordedFile<'_> {
    fn metadata(&self) -> io::Result<Metadata> {
        self.record.count()?;
        self.put_held()?;
        self.file.metadata()
    }

    fn set_len(&self, size: u64) -> io::Result<()> {
        let counted = self.record.count();
        if counted.is_err() {
            self.put_held()?;
            return counted;
        }
        self.mark();
        if size == 0 && self.holds_zero.get() {
            self.holds_zero.set(false);
            return Ok(());
        }
        self.put_held()?;
        self.file.set_len(size)
    }

    fn sync_all(&self) -> io::Result<()> {
        self.record.count_wait(self.node)?;
        if self.waits {
            self.file.sync_all()?;
        }
        Ok(())
    }

    // It may keep less than all, so it counts as none that keeps anything.
    fn sync_data(&self) -> io::Result<()> {
        self.record.count()
    }

    fn set_permissions(&self, perm: Permissions) -> io::Result<()> {
        self.record.count()?;
        self.mark();
        self.file.set_permissions(perm)
    }
}
