//! Answers calls on a disk in memory, on a content store over it, on write sets and their logs, on the journal, makes manifests of
//! trees, and answers requests to a repository that come in pieces. A line of standard input is the name of a call and its arguments, a tab before each; the line of standard output with its number
//! is what the call answers. Input and wanted output come from tools/lines/disk_lines.py, which is made from the rules of docs/ alone.
//!
//! The calls of a disk and of the content store are steps of a script: each goes on where the one before left the disk. All others stand
//! for themselves.
#![tactic(auto)]

mod cuts;
mod disk;
mod found;
mod journal;
mod logs;
mod numbers;
mod pack;
mod puts;
mod runs;
mod script;
mod serving;
mod steps;
mod store;
mod traced;

use line_words::{Answer, Calls, Line, answer_all};
use root_words::{Quiet, empty_disk};
use std::io;

/// The disk that goes on from line to line.
#[derive(Drop)]
struct Disks {
    disk: Quiet,
}

// Calls that stand for themselves, and steps of the script.
fn call(disk: &mut Quiet, line: &mut Line, answer: &mut Answer) {
    match line.name() {
        "encode" => logs::encode(line, answer),
        "decode" => logs::decode(line, answer),
        "rules" => logs::rules(line, answer),
        "named" => logs::named(line, answer),
        "contains" => logs::contains(line, answer),
        "kept" => numbers::kept(line, answer),
        "numbers" => numbers::numbers(line, answer),
        "staged" => numbers::staged(line, answer),
        "is_staged" => numbers::is_staged(line, answer),
        "apply" => journal::applied(line, answer),
        "recover" => journal::recovered(line, answer),
        "see" => cuts::see(line, answer),
        "see_again" => cuts::see_again(line, answer),
        "crash_in" => cuts::crash_in(line, answer),
        "images" => cuts::images(line, answer),
        "cuts" => cuts::cuts(line, answer),
        "pack" => pack::pack(line, answer),
        "serve" => serving::serve(line, answer),
        _ => script::call(disk, line, answer),
    }
}

impl Calls for Disks {
    fn call(&mut self, line: &mut Line, answer: &mut Answer) {
        match line.name().split_once(' ') {
            Some(("any", step)) => steps::call(&mut self.disk, step, line, answer),
            Some(("store", step)) => store::call(&mut self.disk, step, line, answer),
            _ => call(&mut self.disk, line, answer),
        }
    }
}

fn main(rt: HostRuntime) -> io::Result<()> {
    let disk = empty_disk(rt.alloc(), 0)?;
    answer_all(&rt, &mut Disks { disk })
}
