//! The standard streams of a call, and the call.
use crate::disks::{Disks, push_kept};
use line_words::cny_report::cny_base::{
    Bytes, Copies, Fails, FlowFault, MemorySink, MemorySource, Source,
};
use line_words::{Answer, Line, Stop};
use outcome_laws::conary_cli::cny_batch::{self, Words};
use outcome_laws::conary_cli::{run, run_line};
use std::alloc::Global;

/// The standard input, how many bytes a call of it takes at most, and of each stream the number of the call that fails, or 0.
#[derive(Drop)]
pub struct Streams {
    input: Bytes,
    most: u32,
    input_fails: u64,
    out_fails: u64,
    err_fails: u64,
}

// A source of which a call takes at most so many bytes, and at least one. It counts what was taken.
#[derive(Drop)]
struct Metered<S> {
    inner: S,
    most: usize,
    taken: u64,
}

impl<S: Source> Source for Metered<S> {
    ghost source = { record { left = λ s. S.source.left s.inner; faults = λ s. S.source.faults s.inner } };

    fn take(&mut self, buf: &mut [u8]) -> Result<usize, FlowFault> {
        let room = buf.len().min(self.most.max(1));
        let count = self.inner.take(&mut buf[..room])?;
        self.taken = self.taken.saturating_add(count as u64);
        Ok(count)
    }
}

fn fails_of(alloc: Global, call: u64) -> Result<Fails, Stop> {
    Ok(Fails::new(vec![in alloc; call]?))
}

fn sink_of(alloc: Global, failing: u64) -> Result<MemorySink, Stop> {
    Ok(MemorySink::new(alloc, fails_of(alloc, failing)?))
}

// Appends each line that was written as a field behind the name of the stream; what isn't lines as the bytes of a file.
fn push_written(answer: &mut Answer, stream: &str, bytes: &[u8]) {
    let text = str::from_utf8(bytes).unwrap_or("");
    if let Some(lines) = text.strip_suffix('\n') {
        for line in lines.split('\n') {
            answer.field(stream);
            answer.text(line);
        }
    } else if !bytes.is_empty() {
        answer.field(stream);
        answer.contents(bytes);
    }
}

// How many lines these are.
fn count_lines(lines: &str) -> u64 {
    let mut count = 0u64;
    for _line in lines.split('\n') {
        count = count.saturating_add(1);
    }
    count
}

// Appends the number of the lines that were written, and the last of them.
fn push_tally(answer: &mut Answer, bytes: &[u8]) {
    let text = str::from_utf8(bytes).unwrap_or("");
    answer.text(" lines ");
    if let Some(lines) = text.strip_suffix('\n') {
        let count = count_lines(lines);
        answer.number(count);
        let mut place = 0u64;
        for line in lines.split('\n') {
            place = place.saturating_add(1);
            if place == count {
                answer.field(line);
            }
        }
    } else {
        answer.number(0);
        answer.field("");
    }
}

impl Streams {
    /// No input, and no call that fails.
    pub fn new(alloc: Global) -> Self {
        Streams {
            input: Bytes::from_vec(Vec::new(alloc)),
            most: u32::MAX,
            input_fails: 0,
            out_fails: 0,
            err_fails: 0,
        }
    }

    /// `input MOST CALL BYTES`: the standard input, how many bytes a call of it takes at most, and the call that fails.
    pub fn set_input(&mut self, line: &mut Line) {
        self.most = line.small(0);
        self.input_fails = line.number(1);
        if let Some(input) = line.value(2) {
            self.input = input;
        }
    }

    /// `sinks CALL CALL`: the call that fails of the standard output, and that of the standard error.
    pub fn set_sinks(&mut self, line: &mut Line) {
        self.out_fails = line.number(0);
        self.err_fails = line.number(1);
    }

    /// Calls the program once with these words. Tells its status, how many bytes of the input were taken, and the lines of both
    /// outputs; answers whether a disk failed.
    pub fn call(&self, words: &[String], disks: &mut Disks, answer: &mut Answer) -> bool {
        let ports = Ports::of(answer.alloc(), self);
        let Some(mut ports) = answer.kept(ports) else {
            return false;
        };
        let status = ports.run(answer.alloc(), words, disks);
        answer.number(u64::from(status));
        ports.push(answer);
        status == 5 || status == 6
    }

    /// Calls the program once with these words. Tells its status, how many lines its output has, and the last of them.
    pub fn tally(&self, words: &[String], disks: &mut Disks, answer: &mut Answer) {
        let ports = Ports::of(answer.alloc(), self);
        let Some(mut ports) = answer.kept(ports) else {
            return;
        };
        let status = ports.run(answer.alloc(), words, disks);
        answer.number(u64::from(status));
        push_tally(answer, ports.out.bytes());
    }

    /// The same, and what stands then.
    pub fn run(&self, words: &[String], disks: &mut Disks, answer: &mut Answer) {
        self.call(words, disks, answer);
        push_kept("root", &disks.root, answer);
        push_kept("repo", &disks.repo, answer);
    }

    // A line with these words, whose input is the standard input.
    fn line_of(&self, words: Vec<String>) -> Result<cny_batch::Line, Stop> {
        let words = Words::new(words);
        let input = self.input.copy()?;
        Ok(cny_batch::Line { words, input })
    }

    /// Runs a line by itself, with these words and with the standard input as its own. Tells its status, the lines of both outputs,
    /// and what stands then.
    pub fn line(&self, words: Vec<String>, disks: &mut Disks, answer: &mut Answer) {
        let ports = Ports::of(answer.alloc(), self);
        let Some(mut ports) = answer.kept(ports) else {
            return;
        };
        if let Some(line) = answer.kept(self.line_of(words)) {
            let status = ports.run_line(answer.alloc(), &line, disks);
            answer.number(u64::from(status));
            ports.push_outputs(answer);
            push_kept("root", &disks.root, answer);
            push_kept("repo", &disks.repo, answer);
        }
    }
}

// What one call reads and writes.
struct Ports {
    input: Metered<MemorySource>,
    out: MemorySink,
    err: MemorySink,
}

// Written by hand, so that to let a value go is a single call wherever a function ends early.
impl Drop for Ports {
    fn drop(self) {
        let Ports {
            input: _input,
            out: _out,
            err: _err,
        } = self;
    }
}

impl Ports {
    fn of(alloc: Global, streams: &Streams) -> Result<Ports, Stop> {
        let fails = fails_of(alloc, streams.input_fails)?;
        let inner = MemorySource::new(streams.input.copy()?, fails);
        let (most, taken) = (streams.most as usize, 0);
        let out = sink_of(alloc, streams.out_fails)?;
        let err = sink_of(alloc, streams.err_fails)?;
        let input = Metered { inner, most, taken };
        Ok(Ports { input, out, err })
    }

    // The status of a call of the program with these words.
    fn run(&mut self, alloc: Global, words: &[String], disks: &mut Disks) -> u8 {
        let Ports { input, out, err } = self;
        let Disks { root, repo } = disks;
        run(alloc, words, input, out, err, repo, root)
    }

    // The status of a line by itself.
    fn run_line(&mut self, alloc: Global, line: &cny_batch::Line, disks: &mut Disks) -> u8 {
        let Ports { out, err, .. } = self;
        let Disks { root, repo } = disks;
        run_line(alloc, line, out, err, repo, root)
    }

    fn push(&self, answer: &mut Answer) {
        answer.text(" taken ");
        answer.number(self.input.taken);
        self.push_outputs(answer);
    }

    fn push_outputs(&self, answer: &mut Answer) {
        push_written(answer, "out ", self.out.bytes());
        push_written(answer, "err ", self.err.bytes());
    }
}
