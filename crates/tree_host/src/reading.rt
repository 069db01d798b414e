// The calls that read the files and directories of a directory of the host, and the one that waits until changes are kept.
ghost use Rattle.std.specs.Prelude.{◌≤◌, length, IfOk};

use crate::host::Host;
use crate::stop::HostStop;
use std::alloc::Global;
use std::collections::BTreeSet;
use std::fs::{self, Files, OpenFile};
use tree_disk::cny_base::Path;

impl<R: Files> Host<'_, R> {
    /// Fills the buffer from a place in a file on, up to the file's end.
    pub(crate) fn read_at(
        &mut self,
        alloc: Global,
        path: &Path,
        at: u64,
        buf: &mut [u8],
    ) -> Result<usize, HostStop>
        ensures most { IfOk result (λ count. count ≤ length buf.old) }
    {
        if !self.open.reads(path.text()) {
            self.open_to_read(alloc, path.text(), buf.len() as u64)?;
        }
        // No file has a byte there, and the host would take such a place for one before the file.
        if i64::try_from(at).is_err() {
            return Ok(0);
        }
        let answer = self.open.read_at(at, buf);
        if answer.is_err() {
            self.open.close_reader();
        }
        answer
    }

    // Opens a file of which so many bytes are asked for first.
    fn open_to_read(&mut self, alloc: Global, path: &str, asked: u64) -> Result<(), HostStop> {
        let name = String::from_str(alloc, path)?;
        let place = self.place(alloc, path)?;
        let standing = self.standing(alloc, path)?;
        if !standing.is_file() {
            return Err(HostStop::Failed);
        }
        self.note_seen(alloc, path, standing)?;
        self.open.close_reader();
        let wanted = self.size_seen(path).unwrap_or(asked);
        let file = fs::open(self.rt, place.as_str())?;
        Ok(self.open.set_reader(name, file, wanted)?)
    }

    /// Waits until all is kept that was changed, and what an earlier process may have left unsynced: of a file its bytes and its
    /// mode, of a directory its names and its mode. What a link is, its directory keeps.
    ///
    /// Where the host failed to keep something once, it fails ever after: the host may count as kept what it has lost.
    pub(crate) fn sync(&mut self, alloc: Global) -> Result<(), HostStop> {
        self.require_dir()?;
        if self.waiting.is_lost() {
            return Err(HostStop::Failed);
        }
        self.open.close_writer();
        let paths = self.waiting.take(alloc);
        let answer = self.sync_each(alloc, &paths);
        match answer {
            Ok(()) => self.waiting.end(),
            Err(_) => self.waiting.put_back(paths),
        }
        answer
    }

    fn sync_each(&mut self, alloc: Global, paths: &BTreeSet<String>) -> Result<(), HostStop> {
        for path in paths.iter() {
            self.sync_at(alloc, path.as_str())?;
        }
        Ok(())
    }

    // Waits until what stands at a path is kept.
    fn sync_at(&mut self, alloc: Global, path: &str) -> Result<(), HostStop> {
        let standing = self.standing(alloc, path)?;
        if !standing.is_dir() && !standing.is_file() {
            return Ok(());
        }
        let place = self.place(alloc, path)?;
        let file = fs::open(self.rt, place.as_str())?;
        if file.sync_all().is_err() {
            self.waiting.lose();
            return Err(HostStop::Failed);
        }
        if standing.is_dir() {
            self.known.tell_synced(path);
        }
        Ok(())
    }
}
