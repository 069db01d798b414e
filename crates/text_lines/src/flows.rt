//! Calls on sources and sinks that give and take a part, and fail.
use line_words::cny_report::cny_base::{
    Bytes, Fails, FlowFault, MemorySink, MemorySource, Sink, Source, StdSink, StdSource,
};
use line_words::{Answer, Line};
use std::io::{self, Read, Write};

// A letter for a byte that stands at none.
const LEFT: u8 = b'.';

// What a call of a source gives into a buffer, and the buffer.
fn took(taken: Result<usize, FlowFault>, buf: &[u8], answer: &mut Answer) {
    match taken {
        Ok(count) => {
            answer.field_number(count as u64);
            answer.field_hex(buf);
        }
        Err(_) => answer.field("failed"),
    }
}

// So many calls of a source, each with the same buffer of four bytes.
fn takes<S: Source>(source: &mut S, calls: u64, answer: &mut Answer) {
    let mut buf = [LEFT; 4];
    for _ in 0..calls {
        let taken = source.take(&mut buf);
        took(taken, &buf, answer);
    }
}

// Takes all that is left, in pieces of at most three bytes.
fn take_all<S: Source>(source: &mut S, answer: &mut Answer) {
    let mut piece = [0; 3];
    answer.tab();
    for _ in 0..u64::MAX {
        match source.take(&mut piece) {
            Ok(0) => return,
            Ok(count) => answer.hex(&piece[..count]),
            Err(_) => return answer.text("failed"),
        }
    }
}

fn source_of(line: &mut Line) -> MemorySource {
    let bytes = match line.value::<Bytes>(0) {
        Some(bytes) => bytes,
        None => Bytes::from_vec(Vec::new(line.alloc())),
    };
    let fails = line.list(1);
    MemorySource::new(bytes, Fails::new(fails))
}

/// A source in memory of these bytes of which the calls of these numbers fail: what so many calls take.
pub fn memory_source(line: &mut Line, answer: &mut Answer) {
    let mut source = source_of(line);
    takes(&mut source, line.number(2), answer);
}

// A source that gives at most one byte at a time.
#[derive(Drop)]
struct OneByOne<S> {
    inner: S,
}

impl<S: Source> Source for OneByOne<S> {
    ghost source = { record { left = λ s. S.source.left s.inner; faults = λ s. S.source.faults s.inner } };

    fn take(&mut self, buf: &mut [u8]) -> Result<usize, FlowFault> {
        let room = buf.len().min(1);
        self.inner.take(&mut buf[..room])
    }
}

/// All of a source in memory of these bytes, of which the calls of these numbers fail, and which gives one byte at a time.
pub fn one_by_one(line: &mut Line, answer: &mut Answer) {
    let mut source = OneByOne {
        inner: source_of(line),
    };
    take_all(&mut source, answer);
}

// Reads two bytes a call. The call of the number `fails` fails.
#[derive(Drop)]
struct Stutter<'a> {
    left: &'a [u8],
    calls: u64,
    fails: u64,
}

impl Read for Stutter<'_> {
    fn read(&mut self, buf: &mut [u8]) -> io::Result<usize> {
        self.calls = self.calls.saturating_add(1);
        if self.calls == self.fails {
            return Err(io::Error::from(io::ErrorKind::BrokenPipe));
        }
        let room = buf.len().min(2);
        self.left.read(&mut buf[..room])
    }
}

/// A source over a reader of two bytes a call, of which the call of this number fails: what so many calls take, and then all.
pub fn std_source(line: &mut Line, answer: &mut Answer) {
    let mut source = StdSource::new(Stutter {
        left: line.bytes(0),
        calls: 0,
        fails: line.number(1),
    });
    takes(&mut source, line.number(2), answer);
    take_all(&mut source, answer);
}

// Gives each of the arguments from a place on to a sink.
fn gives<S: Sink>(sink: &mut S, line: &mut Line, first: usize, answer: &mut Answer) {
    for place in first..line.len() {
        match sink.give(line.bytes(place)) {
            Ok(()) => answer.field("ok"),
            Err(_) => answer.field("failed"),
        }
    }
}

/// A sink in memory of which the calls of these numbers fail: what comes of each call, and what it holds then.
pub fn memory_sink(line: &mut Line, answer: &mut Answer) {
    let fails = line.list(0);
    let mut sink = MemorySink::new(line.alloc(), Fails::new(fails));
    gives(&mut sink, line, 1, answer);
    answer.field_hex(sink.bytes());
}

// Takes at most two bytes a call. Once it has no room it fails, or takes nothing.
#[derive(Drop)]
struct Narrow {
    held: Vec<u8>,
    room: usize,
    fails: bool,
}

impl Write for Narrow {
    fn write(&mut self, buf: &[u8]) -> io::Result<usize> {
        if self.room == 0 && self.fails {
            return Err(io::Error::from(io::ErrorKind::BrokenPipe));
        }
        let count = buf.len().min(2).min(self.room);
        self.held.extend_from_slice(&buf[..count])?;
        self.room -= count;
        Ok(count)
    }

    fn flush(&mut self) -> io::Result<()> {
        Ok(())
    }
}

/// A sink over a writer that takes at most two bytes a call and has this room, behind which it `fails` or takes nothing: what comes
/// of each call, and what it holds then.
pub fn std_sink(line: &mut Line, answer: &mut Answer) {
    let mut writer = Narrow {
        held: Vec::new(line.alloc()),
        room: line.number(0) as usize,
        fails: line.text(1) == "fails",
    };
    let mut sink = StdSink::new(&mut writer);
    gives(&mut sink, line, 2, answer);
    answer.field_hex(writer.held.as_slice());
}
