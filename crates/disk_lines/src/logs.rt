//! Calls on logs, and on what a log can hold.
use crate::puts::{items, push_puts, puts};
use line_words::{Answer, Line};
use root_words::tree_memory::cny_base::{Bytes, Copies, OutOfMemory, Path};
use std::alloc::Global;
use tree_journal::journal_log::{
    Puts, can_be_named, decode_log, encode_log, keeps_rules, numbered,
};

// The log of a write set whose files are numbered first.
fn log_of(alloc: Global, puts: &Puts) -> Result<Bytes, OutOfMemory> {
    let puts = numbered(alloc, puts)?;
    encode_log(alloc, &puts)
}

fn push_log(puts: &Puts, answer: &mut Answer) {
    let log = log_of(answer.alloc(), puts);
    if let Some(log) = answer.kept(log) {
        answer.field_hex(log.get());
    }
}

/// `encode PUTS`: the log of a write set, or `none` where the paths don't rise.
pub fn encode(line: &mut Line, answer: &mut Answer) {
    match Puts::new(items(line, 0)) {
        Some(puts) => push_log(&puts, answer),
        None => answer.field("none"),
    }
}

// The puts of a copy, and the log of the write set.
fn tell(puts: &Puts, answer: &mut Answer) {
    if let Some(copy) = answer.kept(puts.copy()) {
        push_puts(copy.get(), answer);
        push_log(puts, answer);
    }
}

/// `decode BASE BYTES`: the puts of a copy of the log's write set, and the log of the write set, or `bad`.
pub fn decode(line: &mut Line, answer: &mut Answer) {
    if let Some(base) = line.path(0) {
        answer.outcome(decode_log(line.alloc(), &base, line.bytes(1)), tell);
    }
}

/// `rules BASE PUTS`: whether a log in this private directory can hold the write set.
pub fn rules(line: &mut Line, answer: &mut Answer) {
    if let Some(base) = line.path(0) {
        if let Some(puts) = puts(line, 1) {
            answer.holds(keeps_rules(&base, &puts));
        }
    }
}

/// `named BASE PATHS`: of each path whether a log in this private directory can name it.
pub fn named(line: &mut Line, answer: &mut Answer) {
    if let Some(base) = line.path(0) {
        for path in &line.list::<Path>(1) {
            answer.holds(can_be_named(&base, path));
        }
    }
}

/// `contains PUTS PATHS`: of each path whether one of the puts is at it.
pub fn contains(line: &mut Line, answer: &mut Answer) {
    if let Some(puts) = puts(line, 0) {
        for path in &line.list::<Path>(1) {
            answer.holds(puts.contains(path));
        }
    }
}
