//! What the calls of the program are made over.
use crate::disks::{Disks, Side};
use crate::history;
use crate::streams::Streams;
use line_words::{Answer, Line, Outcomes};
use root_words::tree_memory::MemoryTree;
use root_words::tree_memory::cny_base::{Bytes, text_of};
use root_words::{edit_at, told_nodes};

// More calls than any command makes of a disk.
const MANY: u32 = 1000;

/// The disks and the streams, and of the last line `stops` or `faults` the numbers of calls from which on something else came of it.
#[derive(Drop)]
pub struct Setting {
    disks: Disks,
    streams: Streams,
    from: String,
}

// A call over disks of which one stops, and then crashes as a number picks; or, without a number, of which one call fails.
#[derive(Clone, Copy)]
struct Sweep<'a> {
    words: &'a [String],
    side: Side,
    pick: Option<u64>,
}

// A word of a call.
fn word_of(line: &mut Line, raw: &str) -> Option<String> {
    let bytes: Bytes = line.part(raw)?;
    let text = line.some(text_of(bytes.get()))?;
    line.kept(String::from_str(line.alloc(), text))
}

// `root NODES` or `repo NODES`: puts nodes, or takes away what stands; then all of the disk counts as synced.
fn put(tree: &mut MemoryTree, line: &mut Line) {
    for part in line.raw(0).split(';') {
        edit_at(tree, line, part);
    }
}

impl Setting {
    /// `disks ROOT_FAILS REPO_FAILS ROOT REPO`: these disks, no input, and no call of a stream that fails.
    pub fn of(line: &mut Line) -> Option<Setting> {
        Some(Setting {
            disks: Disks::of(line)?,
            streams: Streams::new(line.alloc()),
            from: String::new(line.alloc()),
        })
    }

    // `run WORD..`: the call, and what stands then.
    fn run(&mut self, line: &mut Line, answer: &mut Answer) {
        let words = line.each_from(0, word_of);
        self.streams.run(&words, &mut self.disks, answer);
    }

    // `line WORD..`: a line by itself, with the input as its own, and what stands then.
    fn line(&mut self, line: &mut Line, answer: &mut Answer) {
        let words = line.each_from(0, word_of);
        self.streams.line(words, &mut self.disks, answer);
    }

    // `tally WORD..`: the call, whose output is told by the number of its lines and by the last of them.
    fn tally(&mut self, line: &mut Line, answer: &mut Answer) {
        let words = line.each_from(0, word_of);
        self.streams.tally(&words, &mut self.disks, answer);
    }

    // `cut DISK CALLS PICK WORD..`: the call over a disk that stops after so many calls, and what a recovery finds behind the crash
    // that the number picks. What that leaves takes the place of the disks.
    fn cut(&mut self, line: &mut Line, answer: &mut Answer) {
        let (side, calls, pick) = (Side::of(line), line.small(1), line.number(2));
        let words = line.each_from(3, word_of);
        self.disks.side_mut(side).tree.stop_after(calls);
        self.streams.call(&words, &mut self.disks, answer);
        self.disks.push_recovered(side, pick, answer);
        if let Some(left) = self.disks.crash(side, pick, answer) {
            self.disks = left;
        }
    }

    // The call is stopped after so many calls of the disk, and made again over what a crash leaves. Answers whether a disk failed.
    fn stopped(&self, sweep: Sweep, pick: u64, calls: u32, said: &mut Answer) -> bool {
        let Some(mut disks) = self.disks.crash(sweep.side, 0, said) else {
            return false;
        };
        disks.side_mut(sweep.side).tree.stop_after(calls);
        let failed = self.streams.call(sweep.words, &mut disks, said);
        disks.push_recovered(sweep.side, pick, said);
        if let Some(mut left) = disks.crash(sweep.side, pick, said) {
            said.field("again ");
            self.streams.run(sweep.words, &mut left, said);
        }
        failed
    }

    // The call is made where one call of the disk fails, and again over what that leaves. Answers whether a disk failed.
    fn failed(&self, sweep: Sweep, number: u64, said: &mut Answer) -> bool {
        let Some(mut disks) = self.disks.failing(sweep.side, number, said) else {
            return false;
        };
        let failed = self.streams.call(sweep.words, &mut disks, said);
        said.field("left");
        told_nodes(&disks.side(sweep.side).tree, said);
        disks.push_recovered(sweep.side, 0, said);
        said.field("again ");
        self.streams.run(sweep.words, &mut disks, said);
        failed
    }

    // What comes of the call, and whether it came to its end, for no disk failed.
    fn ends(&self, sweep: Sweep, number: u32, said: &mut Answer) -> bool {
        match sweep.pick {
            Some(pick) => !self.stopped(sweep, pick, number, said),
            None => !self.failed(sweep, u64::from(number) + 1, said),
        }
    }

    // Tells what comes of the call, and its number, where that isn't what came last. Answers whether the call came to its end.
    fn tells_end(
        &self,
        sweep: Sweep,
        number: u32,
        last: &mut Outcomes,
        from: &mut Answer,
        answer: &mut Answer,
    ) -> bool {
        let mut part = answer.apart();
        let is_end = self.ends(sweep, number, &mut part);
        if last.is_new(answer, &part) {
            answer.field(part.get());
            from.text(" ");
            from.number(u64::from(number));
        }
        is_end
    }

    // What comes of the call where the disk fails after no call, after one and so on, until the call comes to its end: each text that
    // differs from the one before, and the numbers from which on they come.
    fn swept(&self, sweep: Sweep, from: &mut Answer, line: &mut Line, answer: &mut Answer) {
        let mut last = Outcomes::new(answer.alloc());
        for number in 0..MANY {
            if self.tells_end(sweep, number, &mut last, from, answer) {
                return;
            }
        }
        line.unreadable();
    }

    // `stops DISK PICK WORD..`: what comes of the call, stopped after each number of calls of the disk, with the crash picked. `faults
    // DISK WORD..`: the same with each call of the disk failing in turn.
    fn sweep(&mut self, pick: Option<u64>, first: usize, line: &mut Line, answer: &mut Answer) {
        let words = line.each_from(first, word_of);
        let (words, side) = (words.as_slice(), Side::of(line));
        let mut from = answer.apart();
        from.text("from");
        self.swept(Sweep { words, side, pick }, &mut from, line, answer);
        if let Some(from) = answer.kept(from.end()) {
            self.from = from;
        }
    }

    // What the calls are given.
    fn set(&mut self, line: &mut Line, answer: &mut Answer) {
        answer.text("ok");
        match line.name() {
            "root" => put(&mut self.disks.root.tree, line),
            "repo" => put(&mut self.disks.repo.tree, line),
            "input" => self.streams.set_input(line),
            "sinks" => self.streams.set_sinks(line),
            _ => line.unreadable(),
        }
    }

    /// Answers a line.
    pub fn call(&mut self, line: &mut Line, answer: &mut Answer) {
        match line.name() {
            "run" => self.run(line, answer),
            "line" => self.line(line, answer),
            "play" => history::tell(line, &mut self.disks, answer),
            "tally" => self.tally(line, answer),
            "cut" => self.cut(line, answer),
            "stops" => {
                let pick = line.number(1);
                self.sweep(Some(pick), 2, line, answer);
            }
            "faults" => self.sweep(None, 1, line, answer),
            "from" => answer.text(self.from.as_str()),
            _ => self.set(line, answer),
        }
    }
}
