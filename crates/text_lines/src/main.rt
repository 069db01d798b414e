//! Answers calls on texts, on the texts that commands write, and on the lowest libraries. A line of standard input is the name of a
//! call and its arguments, with a tab before each; the line of standard output with its number is what the call answers.
//! Input and wanted output come from tools/lines/text_lines.py, which is made from the rules of the formats alone.
#![tactic(auto)]

mod copies;
mod deps;
mod flavors;
mod flows;
mod ids;
mod jobs;
mod lanes;
mod schedules;
mod texts;
mod troves;
mod versions;

use line_words::cny_dep::{Dep, Flavor};
use line_words::cny_report::cny_base::{Name, Path, Target, Text, is_word, read_octal};
use line_words::cny_report::trove_parts::TroveId;
use line_words::cny_version::{Label, Version};
use line_words::{Answer, Calls, Line, Value, answer_all};
use std::io;

// Whether the values of the first two arguments are equal.
fn equality<T: Value + Eq>(line: &mut Line, answer: &mut Answer) {
    if let Some(first) = line.value::<T>(0) {
        if let Some(second) = line.value::<T>(1) {
            answer.equality(first == second);
        }
    }
}

// Their order.
fn order<T: Value + Ord>(line: &mut Line, answer: &mut Answer) {
    if let Some(first) = line.value::<T>(0) {
        if let Some(second) = line.value::<T>(1) {
            answer.order(first.cmp(&second), first == second);
        }
    }
}

// Calls on names, words, paths and targets, and on modes, numbers, fields of streams and texts that are read from bytes.
fn text_call(line: &mut Line, answer: &mut Answer) {
    match line.name() {
        "word" => answer.holds(is_word(line.bytes(0))),
        "name" => line.reads_copy(answer, Name::read, texts::name),
        "name_order" => order::<Name>(line, answer),
        "path" => line.reads_copy(answer, Path::read, texts::path),
        "path_order" => order::<Path>(line, answer),
        "forbidden" => line.one(answer, texts::forbidden),
        "ends" => texts::ends(line.text(0), answer),
        "join" => texts::join(line, answer),
        "target" => line.reads_copy(answer, Target::read, texts::target),
        "target_equality" => equality::<Target>(line, answer),
        "mode" => texts::mode(read_octal(line.bytes(0)), answer),
        "mode_of_bits" => texts::mode_of_bits(line.number(0), answer),
        "number" => texts::number(line.bytes(0), answer),
        "decimal" => answer.number(line.number(0)),
        "put_str" => texts::put_field(line.bytes(0), line.bytes(1), answer),
        "next_str" => texts::next_field(line.bytes(0), line.number(1), answer),
        "path_bytes" => line.reads_bytes(answer, Path::read_bytes, texts::path_digits),
        "target_bytes" => line.reads_bytes(answer, Target::read_bytes, texts::target_digits),
        "name_bytes" => line.reads_bytes(answer, Name::read_bytes, texts::name_digits),
        "text_bytes" => line.reads_bytes(answer, Text::read_bytes, texts::text_digits),
        _ => low_call(line, answer),
    }
}

// Calls on values that are copied, on bytes that are written over, on schedules, and on the lowest libraries.
fn low_call(line: &mut Line, answer: &mut Answer) {
    match line.name() {
        "text_copy" => line.one(answer, copies::text),
        "bytes_copy" => line.two(answer, copies::bytes),
        "dir_copy" => copies::dir(line.mode(0), answer),
        "file_copy" => copies::file(line, answer),
        "link_copy" => copies::link(line, answer),
        "stop_copy" => copies::stop(line, answer),
        "names_copy" => copies::names(line, answer),
        "paths_copy" => copies::paths(line, answer),
        "numbers_copy" => copies::numbers(line, answer),
        "count_copy" => versions::count_copy([line.small(0), line.small(1)], answer),
        "write_over" => copies::write_over(line, answer),
        "schedule" => schedules::fresh(line, answer),
        "counted_schedule" => schedules::counted(line, answer),
        "lanes" => lanes::compared(line.bytes(0), line.bytes(1), answer),
        "lanes_of_length" => lanes::of_length(line.number(0), answer),
        "memory_source" => flows::memory_source(line, answer),
        "one_by_one" => flows::one_by_one(line, answer),
        "std_source" => flows::std_source(line, answer),
        "memory_sink" => flows::memory_sink(line, answer),
        "std_sink" => flows::std_sink(line, answer),
        _ => line.unreadable(),
    }
}

// Calls on versions.
fn version_call(line: &mut Line, answer: &mut Answer) {
    match line.name() {
        "label" => line.reads(answer, Label::read, versions::label),
        "label_equality" => equality::<Label>(line, answer),
        "version" => line.reads(answer, Version::read, versions::version),
        "whole_version" => line.reads(answer, Version::read_whole, versions::version),
        "version_equality" => equality::<Version>(line, answer),
        "shadow" => line.two(answer, versions::shadow),
        "branch" => line.two(answer, versions::branch),
        "revise" => line.two(answer, versions::revise),
        "next" => line.two(answer, versions::next),
        "first" => versions::first(line, answer),
        _ => text_call(line, answer),
    }
}

// Calls on flavors, dependencies and ids.
fn part_call(line: &mut Line, answer: &mut Answer) {
    match line.name() {
        "flavor" => line.reads_copy(answer, Flavor::read, flavors::flavor),
        "whole_flavor" => line.reads_copy(answer, Flavor::read_whole, flavors::flavor),
        "empty_flavor" => flavors::empty(answer),
        "flavor_equality" => equality::<Flavor>(line, answer),
        "score" => line.two(answer, flavors::scored),
        "dep" => line.reads_copy(answer, Dep::read, deps::dep),
        "whole_dep" => line.reads_copy(answer, Dep::read_whole, deps::dep),
        "of_trove" => line.one(answer, deps::of_trove),
        "class" => deps::class(line.text(0), answer),
        "satisfies" => line.two(answer, deps::satisfied),
        "dep_order" => order::<Dep>(line, answer),
        "id" => line.reads_copy(answer, ids::read, ids::id),
        "next_id" => ids::next(line.bytes(0), line.number(1), answer),
        "id_order" => order::<TroveId>(line, answer),
        _ => version_call(line, answer),
    }
}

// The calls of this program. Nothing is kept from line to line.
#[derive(Drop)]
struct Program;

impl Calls for Program {
    // The texts that commands write, and all others.
    fn call(&mut self, line: &mut Line, answer: &mut Answer) {
        match line.name() {
            "troves" => troves::troves(line, answer),
            "named" => troves::named(line, answer),
            "committed" => troves::committed(line, answer),
            "trove" => line.one(answer, troves::trove),
            "changes" => jobs::changes(line, answer),
            "undos" => jobs::undos(line, answer),
            "rolled_back" => jobs::rolled_back(line.small(0), line.small(1), answer),
            "verified" => jobs::verified(line, answer),
            _ => part_call(line, answer),
        }
    }
}

fn main(rt: HostRuntime) -> io::Result<()> {
    answer_all(&rt, &mut Program)
}
