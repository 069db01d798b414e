//! Answers calls on lists of troves: on a catalogue, on specifications, configuration files and system models, on a closure and on whole
//! lists, on what updates and erasures make of installed lists, on updates that complete themselves, on local changes, and on fingerprints, plans, their write sets and
//! verifications over trees in memory. A line of standard input is the name of a call and its arguments, a tab before each; the line
//! of standard output with its number is what the call answers. A catalogue, which is empty at first, and a closure, which is of no
//! troves at first, go on from line to line. Input and wanted output come from tools/lines/list_lines.py, which is made from the rules
//! alone.
#![tactic(auto)]

mod catalogue;
mod closure;
mod completing;
mod jobs;
mod local;
mod marks;
mod models;
mod plans;
mod shadows;
mod specs;
mod targets;
mod verifying;

use crate::closure::Closing;
use line_words::{Answer, Calls, Line, answer_all};
use repo_index::Catalogue;
use std::io;

/// What goes on from line to line.
struct Lists {
    catalogue: Catalogue,
    closing: Closing,
}

// Written by hand, so that to let a value go is a single call.
impl Drop for Lists {
    fn drop(self) {
        let Lists {
            catalogue: _catalogue,
            closing: _closing,
        } = self;
    }
}

// Calls on the catalogue and the closure.
fn of_lists(lists: &mut Lists, line: &mut Line, answer: &mut Answer) {
    match line.name() {
        "new" => catalogue::new(&mut lists.catalogue, line, answer),
        "add" => catalogue::add(&mut lists.catalogue, line, answer),
        "count_commit" => catalogue::count_commit(&mut lists.catalogue, answer),
        "copy" => catalogue::copy(&mut lists.catalogue, answer),
        "troves" => catalogue::troves(&lists.catalogue, answer),
        "find" => catalogue::find(&lists.catalogue, line, answer),
        "place_of" => catalogue::place_of(&lists.catalogue, line, answer),
        "by_name" => catalogue::by_name(&lists.catalogue, line, answer),
        "latest" => catalogue::latest(&lists.catalogue, line, answer),
        "has_content" => catalogue::has_content(&lists.catalogue, line, answer),
        "expand" => catalogue::expanded(&lists.catalogue, line, answer),
        "resolve" => specs::resolved(&lists.catalogue, line, answer),
        "completed" => completing::completed(&lists.catalogue, line, answer),
        "wanted" => models::made(&lists.catalogue, line, answer),
        "moved" => shadows::move_onto(&lists.catalogue, line, answer),
        "trove" => lists.closing.wait(line, answer),
        "closed" => lists.closing.closed(line.alloc(), answer),
        "of" => lists.closing.of(line, answer),
        "change" => lists.closing.change(line, answer),
        _ => line.unreadable(),
    }
}

impl Calls for Lists {
    // Calls that stand for themselves, and all others.
    fn call(&mut self, line: &mut Line, answer: &mut Answer) {
        match line.name() {
            "spec" => specs::spec(line, answer),
            "config" => specs::config(line, answer),
            "model" => models::model(line, answer),
            "updated" => jobs::update(line, answer),
            "erased" => jobs::erase(line, answer),
            "changed" => jobs::compare(line, answer),
            "closed_without" => jobs::close_without(line, answer),
            "mark_file" => marks::file(line, answer),
            "same" => marks::are_same(line, answer),
            "verified" => verifying::copy(line, answer),
            "local" => local::edits(line, answer),
            "mark" => marks::mark(line, answer),
            "matches" => marks::is_recorded(line, answer),
            "alike" => marks::alike(line, answer),
            "differing" => marks::differing_bytes(line, answer),
            "plan" => plans::planned(line, answer),
            "targets" => targets::of_plan(line, answer),
            "verify" => verifying::tree(line, answer),
            _ => of_lists(self, line, answer),
        }
    }
}

fn main(rt: HostRuntime) -> io::Result<()> {
    let mut lists = Lists {
        catalogue: Catalogue::new(rt.alloc()),
        closing: Closing::start(rt.alloc())?,
    };
    answer_all(&rt, &mut lists)
}
