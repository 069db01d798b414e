//! The loop of a program that answers lines.
use crate::answer::Answer;
use crate::argument::arguments_of;
use crate::line::Line;
use crate::stop::Stop;
use std::alloc::Global;
use std::io::{self, BufRead, BufReader, BufWriter, Write};

/// The calls of a program, and what it keeps from line to line.
pub trait Calls {
    /// Answers the call of a line.
    fn call(&mut self, line: &mut Line, answer: &mut Answer);
}

fn answer_to<C: Calls>(alloc: Global, calls: &mut C, text: &str) -> Result<String, Stop> {
    let arguments = arguments_of(alloc, text)?;
    let mut line = Line::new(alloc, text, arguments.as_slice());
    let mut answer = Answer::new(alloc);
    calls.call(&mut line, &mut answer);
    answer.kept(line.end());
    answer.end()
}

// It ends the program.
impl From<Stop> for io::Error {
    fn from(stop: Stop) -> Self {
        match stop {
            Stop::Unreadable => io::Error::from(io::ErrorKind::InvalidInput),
            Stop::Memory => io::Error::from(io::ErrorKind::OutOfMemory),
        }
    }
}

// Answers a line by a line.
fn answer_line<C: Calls, W: Write>(
    alloc: Global,
    calls: &mut C,
    line: &str,
    out: &mut W,
) -> io::Result<()> {
    let text = answer_to(alloc, calls, line)?;
    out.write_all(text.as_str().as_bytes())?;
    out.write_all(b"\n")
}

/// Answers each line of standard input by a line of standard output. A line that isn't a call, and want of memory, end the program
/// with an error.
pub fn answer_all<C: Calls>(rt: &HostRuntime, calls: &mut C) -> io::Result<()> {
    let mut out = BufWriter::new(rt.alloc(), io::writer(rt))?;
    for line in BufReader::new(rt.alloc(), rt.reader())?.lines(rt.alloc()) {
        answer_line(rt.alloc(), calls, line?.as_str(), &mut out)?;
    }
    out.flush()
}
