//! Calls on copies, and on bytes that are written over.
ghost use Rattle.std.specs.Prelude.{◌≤◌, ◌+◌, length};

use crate::texts::push_mode;
use line_words::cny_report::cny_base::{
    Bytes, Copies, Fault, ListOf, Mode, Node, OutOfMemory, Path, Refusal, Stop, Text,
};
use line_words::{Answer, Line, Value};
use std::alloc::Global;

/// A copy of a text, and whether it is equal.
pub fn text(text: &Text, answer: &mut Answer) {
    if let Some(copy) = answer.kept(text.copy()) {
        answer.equality(copy == *text);
        answer.field(copy.get());
    }
}

// ---- bytes

fn told_bytes(bytes: &Bytes, answer: &mut Answer) {
    answer.hex(bytes.get());
}

fn joined(first: &Bytes, more: &[u8]) -> Result<Bytes, OutOfMemory> {
    let mut bytes = Bytes::from_vec(first.copy()?.into_vec());
    bytes.push_slice(more)?;
    Ok(bytes)
}

/// A copy of bytes behind which others were put.
pub fn bytes(first: &Bytes, more: &Bytes, answer: &mut Answer) {
    let joined = joined(first, more.get());
    if let Some(joined) = answer.kept(joined) {
        answer.copied(&joined, told_bytes);
    }
}

// The first `kept` bytes, once others were written over those from a place on.
fn written_over(
    alloc: Global,
    bytes: &[u8],
    at: usize,
    more: &[u8],
    kept: usize,
) -> Result<Bytes, OutOfMemory>
    requires { at + length more.now ≤ length bytes.now }
{
    let mut out = Bytes::new(alloc, bytes)?;
    out.write_at(at, more);
    out.truncate(kept);
    Ok(out)
}

/// `write_at` of a place and bytes, and `truncate` to a length.
pub fn write_over(line: &mut Line, answer: &mut Answer) {
    let bytes = line.bytes(0);
    let at = line.number(1) as usize;
    let more = line.bytes(2);
    let kept = line.number(3) as usize;
    if at > bytes.len() || more.len() > bytes.len() - at {
        return line.unreadable();
    }
    let written = written_over(answer.alloc(), bytes, at, more, kept);
    if let Some(written) = answer.kept(written) {
        answer.hex(written.get());
    }
}

// ---- nodes

fn told_node(node: &Node, answer: &mut Answer) {
    match node {
        Node::Dir { mode } => {
            answer.field("dir");
            push_mode(*mode, answer);
        }
        Node::File { mode, bytes } => {
            answer.field("file");
            push_mode(*mode, answer);
            answer.field_hex(bytes.get());
        }
        Node::Link { target } => {
            answer.field("link");
            answer.field(target.text());
        }
    }
}

/// A copy of a directory with this mode.
pub fn dir(mode: Mode, answer: &mut Answer) {
    answer.copied(&Node::Dir { mode }, told_node);
}

/// A copy of a file with these bytes and, if there is a second argument, this mode; else for the owner alone.
pub fn file(line: &mut Line, answer: &mut Answer) {
    let mode = if line.has(1) {
        line.mode(1)
    } else {
        Mode::owner_only()
    };
    if let Some(bytes) = line.value(0) {
        answer.copied(&Node::File { mode, bytes }, told_node);
    }
}

/// A copy of a link with this target.
pub fn link(line: &mut Line, answer: &mut Answer) {
    if let Some(target) = line.target(0) {
        answer.copied(&Node::Link { target }, told_node);
    }
}

// ---- stops

fn told_path(word: &str, path: &Path, answer: &mut Answer) {
    answer.field(word);
    answer.field(path.text());
}

fn told_stop(stop: &Stop, answer: &mut Answer) {
    match stop {
        Stop::Refused(Refusal::StackEmpty) => answer.field("stack empty"),
        Stop::Refused(_) => answer.field("other"),
        Stop::Memory => answer.field("memory"),
        Stop::Failed => answer.field("failed"),
        Stop::Damaged { path } => told_path("damaged", path, answer),
        Stop::FarFailed => answer.field("far failed"),
        Stop::FarDamaged { path } => told_path("far damaged", path, answer),
    }
}

// The stop that the first argument names, with the path of the second where it has one. A refusal and want of memory are made of a fault,
// as they are where a call on values fails within one on disks.
fn stop_of(line: &mut Line) -> Option<Stop> {
    match line.text(0) {
        "stack empty" => Some(Stop::from(Fault::Refused(Refusal::StackEmpty))),
        "memory" => Some(Stop::from(Fault::Memory)),
        "failed" => Some(Stop::Failed),
        "damaged" => Some(Stop::Damaged {
            path: line.path(1)?,
        }),
        "far failed" => Some(Stop::FarFailed),
        "far damaged" => Some(Stop::FarDamaged {
            path: line.path(1)?,
        }),
        _ => None,
    }
}

/// A stop.
pub fn stop(line: &mut Line, answer: &mut Answer) {
    let stop = stop_of(line);
    if let Some(stop) = line.some(stop) {
        told_stop(&stop, answer);
    }
}

// ---- lists

// A copy of the list of the arguments.
fn list<T: Value + Copies, F: Fn(&T, &mut Answer)>(line: &mut Line, answer: &mut Answer, tell: F)
    requires { F.IsAlwaysCallable tell }
{
    let items = ListOf::new(line.rest::<T>(0)).into_vec();
    if let Some(copy) = answer.kept(ListOf::new(items).copy()) {
        answer.each(copy.get(), tell);
    }
}

fn told_name(name: &Text, answer: &mut Answer) {
    answer.field(name.get());
}

/// A copy of a list of texts.
pub fn names(line: &mut Line, answer: &mut Answer) {
    list(line, answer, told_name);
}

fn told_item(path: &Path, answer: &mut Answer) {
    answer.field(path.text());
}

/// A copy of a list of paths.
pub fn paths(line: &mut Line, answer: &mut Answer) {
    list(line, answer, told_item);
}

fn told_number(number: &u64, answer: &mut Answer) {
    answer.field_number(*number);
}

/// A copy of a list of numbers.
pub fn numbers(line: &mut Line, answer: &mut Answer) {
    list(line, answer, told_number);
}
