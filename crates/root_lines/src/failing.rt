//! Calls on roots that are cut off, and calls over disks that fail.
use crate::jobs::make;
use crate::root::{PRIVATE, push_db, readied};
use line_words::{Answer, Argument, Line, Outcomes, Stop, arguments_of};
use root_words::{Quiet, crashed, disk_of, told_but, told_nodes};
use std::alloc::Global;

// More calls of the disk than any of the calls makes.
const MANY: u32 = 2000;

/// A call on a root.
#[derive(Drop)]
pub struct Call {
    text: String,
    arguments: Vec<Argument>,
}

// The text with a tab for each `|`.
fn with_tabs(alloc: Global, text: &str) -> Result<String, Stop> {
    let mut line = String::new(alloc);
    for part in text.split('|') {
        if !line.is_empty() {
            line.push('\t')?;
        }
        line.push_str(part)?;
    }
    Ok(line)
}

fn call_of(alloc: Global, text: &str) -> Result<Call, Stop> {
    let text = with_tabs(alloc, text)?;
    let arguments = arguments_of(alloc, text.as_str())?;
    Ok(Call { text, arguments })
}

impl Call {
    /// The call of the argument at a place.
    pub fn of(line: &mut Line, place: usize) -> Option<Call> {
        let call = call_of(line.alloc(), line.raw(place));
        line.kept(call)
    }

    /// Makes the call on a root, and tells what comes of it.
    pub fn made(&self, disk: &mut Quiet, answer: &Answer) -> Answer {
        let mut said = answer.apart();
        let mut line = Line::new(
            answer.alloc(),
            self.text.as_str(),
            self.arguments.as_slice(),
        );
        make(disk, &mut line, &mut said);
        said.kept(line.end());
        said
    }
}

/// Appends the database of a root once it is made ready, or why it can't be.
pub fn push_ready(disk: &mut Quiet, answer: &mut Answer) {
    let mut ready = answer.apart();
    if let Some(db) = readied(disk, &mut ready) {
        push_db(&db, &mut ready);
    }
    answer.add(&ready);
}

// The SHA-1 of what stands outside the private directory.
fn push_name(disk: &Quiet, answer: &mut Answer) {
    let mut outer = answer.apart();
    told_but(&disk.tree, |path| path.starts_with(PRIVATE), &mut outer);
    if let Some(nodes) = answer.kept(outer.end()) {
        answer.sha1(nodes.as_bytes());
    }
}

// What a call leaves that was cut off or failed: its answer, and a disk that reads so and doesn't fail.
#[derive(Drop)]
struct Left {
    said: String,
    disk: Quiet,
}

impl Left {
    // What a call leaves that is made on a disk, which then crashes.
    fn by(call: &Call, disk: &mut Quiet, pick: u64, answer: &mut Answer) -> Option<Left> {
        let said = call.made(disk, answer);
        let said = answer.kept(said.end())?;
        let disk = answer.kept(crashed(answer.alloc(), &disk.tree, pick))?;
        Some(Left { said, disk })
    }

    // Whether the call came to its end.
    fn is_end(&self) -> bool {
        !self.said.as_str().starts_with("failed")
    }

    // The answer, and all that stands.
    fn whole(&self, answer: &Answer) -> Answer {
        let mut whole = answer.apart();
        whole.text(self.said.as_str());
        told_nodes(&self.disk.tree, &mut whole);
        whole
    }

    // What is ready then, the SHA-1 of what stands, and what comes of the call where it is made again.
    fn push_recovered(&mut self, call: &Call, answer: &mut Answer) {
        push_ready(&mut self.disk, answer);
        answer.text(", ");
        push_name(&self.disk, answer);
        answer.text(", again ");
        let said = call.made(&mut self.disk, answer);
        answer.add(&said);
    }
}

// What was told: of what was left, and what came of it.
#[derive(Drop)]
struct Told {
    left: Outcomes,
    texts: Outcomes,
    // Whether the answer is told too.
    with_answer: bool,
}

impl Told {
    fn new(alloc: Global, with_answer: bool) -> Self {
        Told {
            left: Outcomes::new(alloc),
            texts: Outcomes::new(alloc),
            with_answer,
        }
    }

    fn push(&mut self, left: &mut Left, call: &Call, answer: &mut Answer) {
        let mut text = answer.apart();
        if self.with_answer {
            text.text(left.said.as_str());
            text.text(", ");
        }
        left.push_recovered(call, &mut text);
        self.texts.push(answer, &text);
    }

    // Tells what comes of what a call left on a disk, and answers whether that was the last one: it came to its end, or there is
    // no answer. Where as much was left as the last time, nothing else can come of it.
    fn ends(&mut self, disk: &mut Quiet, pick: u64, call: &Call, answer: &mut Answer) -> bool {
        if let Some(mut left) = Left::by(call, disk, pick, answer) {
            let whole = left.whole(answer);
            if self.left.is_new(answer, &whole) {
                self.push(&mut left, call, answer);
            }
            return left.is_end() || answer.failed();
        }
        true
    }
}

// The disk of the second argument, which stops after so many calls or, where it doesn't stop, of which the next one fails.
fn disk_after(calls: u32, stops: bool, line: &mut Line) -> Option<Quiet> {
    let failing = if stops { 0 } else { u64::from(calls) + 1 };
    let mut disk = disk_of(line, 1, failing)?;
    if stops {
        disk.tree.stop_after(calls);
    }
    Some(disk)
}

/// What comes of a call that is cut off after no call of the disk, after one and so on, until it ends, and then of the same call
/// made again: each text that differs from the one before. Or the same of a call of which the first call of the disk fails, the second
/// and so on, behind the answer that comes then.
pub fn push_all(call: &Call, stops: bool, line: &mut Line, answer: &mut Answer) {
    answer.text(if stops { "stopped" } else { "failed" });
    let pick = if stops { line.number(2) } else { 0 };
    let mut told = Told::new(answer.alloc(), !stops);
    for calls in 0..MANY {
        let Some(mut disk) = disk_after(calls, stops, line) else {
            return;
        };
        if told.ends(&mut disk, pick, call, answer) {
            return;
        }
    }
    line.unreadable();
}
