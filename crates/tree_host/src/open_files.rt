// The files of a directory of the host that are open: one that is written and one that is read.
ghost use Rattle.std.specs.Prelude.{◌≤◌, length, IfOk};

use crate::stop::HostStop;
use std::alloc::{AllocError, Global};
use std::io::{ErrorKind, Read, Seek, SeekFrom};

// How many bytes one read of the host asks for: at least, and at most.
const LEAST: u64 = 4_096;

const MOST: u64 = 1_048_576;

// The file that is written.
#[derive(Drop)]
struct Writer<F: Drop> {
    path: String,
    file: F,
}

// The file that is read, and which of its bytes the piece holds: so many from a place on. Its next read begins behind them.
#[derive(Drop)]
struct Reader<F: Drop> {
    path: String,
    file: F,
    start: u64,
    count: usize,
}

/// The last file that was written to and the last one that was read. They stay open, so that the calls that write or read a file
/// piece by piece open it once. A file that is left is closed and not synced: a sync opens it again.
#[derive(Drop)]
pub(crate) struct OpenFiles<F: Drop> {
    writer: Option<Writer<F>>,
    reader: Option<Reader<F>>,
    piece: Vec<u8>,
}

impl<F: Drop> OpenFiles<F> {
    pub(crate) fn new(alloc: Global) -> Self {
        OpenFiles {
            writer: None,
            reader: None,
            piece: Vec::new(alloc),
        }
    }

    /// The file that is open to be written at a path.
    pub(crate) fn writer(&mut self, path: &str) -> Option<&mut F> {
        match &mut self.writer {
            Some(writer) if writer.path.as_str() == path => Some(&mut writer.file),
            _ => None,
        }
    }

    pub(crate) fn set_writer(&mut self, path: String, file: F) {
        self.writer = Some(Writer { path, file });
    }

    pub(crate) fn close_writer(&mut self) {
        self.writer = None;
    }

    pub(crate) fn close_reader(&mut self) {
        self.reader = None;
    }

    /// Closes what is open at a path.
    pub(crate) fn close_at(&mut self, path: &str) {
        self.close_reader_at(path);
        if self.writer(path).is_some() {
            self.close_writer();
        }
    }

    /// Closes the file that is read, where it is that at the path.
    pub(crate) fn close_reader_at(&mut self, path: &str) {
        if self.reads(path) {
            self.close_reader();
        }
    }

    /// Whether the file at a path is open to be read.
    pub(crate) fn reads(&self, path: &str) -> bool {
        match &self.reader {
            Some(reader) => reader.path.as_str() == path,
            None => false,
        }
    }

    /// This file is read from now on. So many bytes of it are wanted: as many as it has or, where that isn't known, as are asked for
    /// first. The piece becomes as long, within its bounds, where it is shorter.
    pub(crate) fn set_reader(
        &mut self,
        path: String,
        file: F,
        wanted: u64,
    ) -> Result<(), AllocError> {
        let room = wanted.max(LEAST).min(MOST) as usize;
        if self.piece.len() < room {
            self.piece.resize(room, 0)?;
        }
        self.reader = Some(Reader {
            path,
            file,
            start: 0,
            count: 0,
        });
        Ok(())
    }
}

impl<F: Read + Seek + Drop> OpenFiles<F> {
    /// Fills the buffer from a place in the file that is read on, as far as the file goes.
    pub(crate) fn read_at(&mut self, at: u64, buf: &mut [u8]) -> Result<usize, HostStop>
        ensures most { IfOk result (λ count. count ≤ length buf.old) }
    {
        match &mut self.reader {
            Some(reader) => reader.fill(&mut self.piece, at, buf),
            None => Err(HostStop::Failed),
        }
    }
}

// Some of the bytes that come next; none only at the file's end.
fn read_some<F: Read>(file: &mut F, buf: &mut [u8]) -> Result<usize, HostStop>
    ensures most { IfOk result (λ count. count ≤ length buf.old) }
{
    for _ in 0..u64::MAX {
        match file.read(buf) {
            Ok(count) => return Ok(count),
            Err(e) if e.kind() == ErrorKind::Interrupted => {}
            Err(_) => break,
        }
    }
    Err(HostStop::Failed)
}

// Copies as many bytes as both have, and answers how many.
fn copy_common(from: &[u8], to: &mut [u8]) -> usize
    ensures { result ≤ length to.old }
{
    let count = from.len().min(to.len());
    to[..count].copy_from_slice(&from[..count]);
    count
}

impl<F: Read + Seek + Drop> Reader<F> {
    // Fills the buffer from a place on, as far as the file goes.
    fn fill(&mut self, piece: &mut [u8], at: u64, buf: &mut [u8]) -> Result<usize, HostStop>
        ensures most { IfOk result (λ count. count ≤ length buf.old) }
    {
        let mut filled = 0;
        for _ in 0..u64::MAX {
            if filled >= buf.len() {
                break;
            }
            let more = self.take(piece, at.saturating_add(filled as u64), &mut buf[filled..])?;
            if more == 0 {
                break;
            }
            filled += more;
        }
        Ok(filled)
    }

    // Takes some bytes from a place on; none only where the file ends there or before.
    fn take(&mut self, piece: &mut [u8], at: u64, buf: &mut [u8]) -> Result<usize, HostStop>
        ensures most { IfOk result (λ count. count ≤ length buf.old) }
    {
        if self.held(piece, at).is_empty() {
            self.load(piece, at)?;
        }
        Ok(copy_common(self.held(piece, at), buf))
    }

    // The bytes that the piece holds from a place in the file on.
    fn held<'p>(&self, piece: &'p [u8], at: u64) -> &'p [u8] {
        let held = piece.get(..self.count).unwrap_or(&[]);
        let Some(skipped) = at.checked_sub(self.start) else {
            return &[];
        };
        let Ok(skipped) = usize::try_from(skipped) else {
            return &[];
        };
        held.get(skipped..).unwrap_or(&[])
    }

    // Reads the next piece from a place on.
    fn load(&mut self, piece: &mut [u8], at: u64) -> Result<(), HostStop> {
        let next = self.start.saturating_add(self.count as u64);
        self.count = 0;
        if at != next {
            self.file.seek(SeekFrom::Start(at))?;
        }
        self.start = at;
        self.count = read_some(&mut self.file, piece)?;
        Ok(())
    }
}
