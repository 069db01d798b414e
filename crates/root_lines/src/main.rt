//! Answers calls on databases, rollback records, saved contents and stacks of jobs, and makes jobs on roots in memory and takes them
//! back. Input and wanted output come from tools/lines/root_lines.py, which is made from the rules of docs/ alone.
#![tactic(auto)]

mod databases;
mod entries;
mod failing;
mod jobs;
mod migration;
mod newest_job;
mod records;
mod root;
mod roots;
mod saved;
mod stack;
mod undoing;

use crate::databases::{decoded, encoded, loaded, next};
use crate::migration::{migrate, migrated_puts, within};
use crate::records::{record_told, rewritten};
use crate::roots::{cut_off, failing, run, seen};
use crate::saved::{can_save, old};
use crate::stack::{all_jobs, back_to, push_job};
use crate::undoing::undo_all;
use line_words::{Answer, Calls, Line, answer_all};
use std::io;

#[derive(Drop)]
struct RootCalls;

// The calls on bytes, and on what jobs saved and changed.
fn small_call(line: &mut Line, answer: &mut Answer) {
    match line.name() {
        "decode" => decoded(line, answer),
        "encode" => encoded(line, answer),
        "load" => loaded(line, answer),
        "next" => next(line, answer),
        "record" => record_told(line, answer),
        "rewritten" => rewritten(line, answer),
        "stashable" => can_save(line, answer),
        "old" => old(line, answer),
        "undo" => undo_all(line, answer),
        _ => line.unreadable(),
    }
}

// The calls on the stack of a root.
fn stack_call(line: &mut Line, answer: &mut Answer) {
    match line.name() {
        "all" => all_jobs(line, answer),
        "back" => back_to(line, answer),
        "push" => push_job(line, answer),
        "migrated" => migrated_puts(line, answer),
        "migrate" => migrate(line, answer),
        "within" => within(line, answer),
        _ => small_call(line, answer),
    }
}

impl Calls for RootCalls {
    fn call(&mut self, line: &mut Line, answer: &mut Answer) {
        match line.name() {
            "run" => run(line, answer),
            "stop" => cut_off(line, answer),
            "fail" => failing(line, answer),
            "seen" => seen(line, answer),
            _ => stack_call(line, answer),
        }
    }
}

fn main(rt: HostRuntime) -> io::Result<()> {
    answer_all(&rt, &mut RootCalls)
}
