//! Answers vectors of streams, of what relative troves and change sets do, of manifests, of batches, and of the lines of the demo. Each
//! line of standard input has a call and its arguments, with a tab between two; the line of standard output with its number is what
//! the call answers. Both come from tools/lines/stream_lines.py, which is made from the rules of the formats alone.
#![tactic(auto)]

mod again;
mod batches;
mod changes;
mod damages;
mod elements;
mod items;
mod lists;
mod manifests;
mod records;
mod refusals;
mod relatives;
mod sets;
mod troves;

use crate::changes::Asked;
use line_words::cny_report::cny_stream::Encoding;
use line_words::{Answer, Calls, Line, answer_all};
use std::io;

// Calls on items, on records in one or both encodings, and on the lists of a trove.
fn of_parts(line: &mut Line, answer: &mut Answer) {
    match line.name() {
        "items" => items::written(answer, line),
        "next_item" => {
            let at = line.small(1) as usize;
            items::next(answer, line.bytes(0), at, line.bytes(2));
        }
        "record" => records::record(answer, Encoding::Compact, line.bytes(0)),
        "record_full" => records::record(answer, Encoding::Explicit, line.bytes(0)),
        "owner" => records::owner(answer, line.text(0), line.text(1)),
        "make_record" => records::make(answer, line),
        "same_record" => records::same(answer, line.bytes(0), line.bytes(1)),
        "refusal" => refusals::text(answer, line),
        "files" | "files_full" | "refs" | "deps" | "paths" | "id_item" => {
            lists::taken(answer, line)
        }
        "are_files" => lists::are_files_of(answer, line.bytes(0)),
        "are_refs" => lists::are_refs_of(answer, line.bytes(0)),
        "are_deps" => lists::are_deps_of(answer, line.bytes(0)),
        "are_paths" => lists::are_paths_of(answer, line.bytes(0)),
        "sized_file" => lists::sized_file(answer, line.small(0), line.digest(1)),
        _ => of_changes(line, answer),
    }
}

// Calls of what leads from a trove to another, of what comes with a change set, and on manifests, batches, the demo and damaged bytes; any
// other name is no call.
fn of_changes(line: &mut Line, answer: &mut Answer) {
    match line.name() {
        "relative_of" => {
            changes::of_two(answer, Asked::Relative, line.bytes(0), line.bytes(1));
        }
        "round" => changes::of_two(answer, Asked::Round, line.bytes(0), line.bytes(1)),
        "to_send" => changes::of_two(answer, Asked::Sent, line.bytes(0), line.bytes(1)),
        "all_to_send" => changes::of_new(answer, line.bytes(0)),
        "apply" => changes::of_relative(answer, line.bytes(0), line.bytes(1)),
        "applied" => changes::over_installed(answer, line.bytes(0), line.bytes(1)),
        "allowed" => changes::allowed(answer, line.bytes(0)),
        "manifest" => manifests::manifest(answer, line.bytes(0), manifests::LONGEST),
        "dir_component" => manifests::component(answer, line, true),
        "component" => manifests::component(answer, line, false),
        "batch" => batches::batch(answer, line.bytes(0)),
        "demo" => batches::demo(line, answer),
        "beginnings" => damages::beginnings(answer, line.text(0), line.bytes(1)),
        "changes" => {
            let place = line.small(2) as usize;
            damages::changes(answer, line.text(0), line.bytes(1), place);
        }
        "changes_to" => {
            damages::changes_to(answer, line.text(0), line.bytes(1), line.bytes(2));
        }
        _ => line.unreadable(),
    }
}

#[derive(Drop)]
struct StreamCalls;

impl Calls for StreamCalls {
    // Calls on troves, relative troves and change sets, and all others.
    fn call(&mut self, line: &mut Line, answer: &mut Answer) {
        match line.name() {
            "trove" => troves::trove(answer, false, line.bytes(0)),
            "trove_full" => troves::trove(answer, true, line.bytes(0)),
            "make_trove" => troves::make(answer, line),
            "check" => line.one(answer, troves::checked),
            "troves_text" => troves::text(answer, line),
            "relative" => relatives::relative(answer, false, line.bytes(0)),
            "relative_full" => relatives::relative(answer, true, line.bytes(0)),
            "make_relative" => relatives::make(answer, line),
            "set" => sets::set(answer, line.bytes(0)),
            "joined" => sets::joined(answer, line),
            _ => of_parts(line, answer),
        }
    }
}

fn main(rt: HostRuntime) -> io::Result<()> {
    answer_all(&rt, &mut StreamCalls)
}
