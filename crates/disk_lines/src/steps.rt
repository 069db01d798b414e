//! The functions over any disk, for which what the tree doesn't allow counts as a fault.
use crate::disk::{told_look, told_names, told_read};
use line_words::{Answer, Line};
use root_words::Quiet;
use root_words::tree_memory::cny_base::{Bytes, Path};
use root_words::tree_memory::tree_disk::{clear_tree, make_file, read_whole, steps, write_file};

// `any read PATH AT`: four bytes from a place on.
fn read(disk: &mut Quiet, path: &Path, at: u64, answer: &mut Answer) {
    let mut buf = [0xFF; 4];
    let read = steps::read_at(answer.alloc(), disk, path, at, &mut buf);
    if let Some(count) = answer.given(read) {
        told_read(count, &buf, answer);
    }
}

fn told_whole(whole: &Option<Bytes>, answer: &mut Answer) {
    answer.content(whole, "more");
}

// `any clear PATH`, which isn't `/`, and as a step.
fn clear(disk: &mut Quiet, step: &str, path: &Path, answer: &mut Answer) {
    if path.parent().is_none() {
        return answer.unreadable();
    }
    if step == "clear" {
        answer.done(clear_tree(answer.alloc(), disk, path));
    } else {
        answer.done(steps::clear_tree(answer.alloc(), disk, path));
    }
}

// `any make_link PATH TARGET`.
fn make_link(disk: &mut Quiet, path: &Path, line: &mut Line, answer: &mut Answer) {
    if let Some(target) = line.target(1) {
        answer.done(steps::make_link(line.alloc(), disk, path, &target));
    }
}

// `any rename PATH PATH`.
fn rename(disk: &mut Quiet, path: &Path, line: &mut Line, answer: &mut Answer) {
    if let Some(to) = line.path(1) {
        answer.done(steps::rename(line.alloc(), disk, path, &to));
    }
}

// The steps that change what stands at a path.
fn change(disk: &mut Quiet, step: &str, path: &Path, line: &mut Line, answer: &mut Answer) {
    let alloc = line.alloc();
    match step {
        "append" => answer.done(steps::append(alloc, disk, path, line.bytes(1))),
        "make_dir" => answer.done(steps::make_dir(alloc, disk, path, line.mode(1))),
        "set_mode" => answer.done(steps::set_mode(alloc, disk, path, line.mode(1))),
        "make" => answer.done(make_file(alloc, disk, path, line.mode(1), line.bytes(2))),
        "write" => answer.done(write_file(alloc, disk, path, line.mode(1), line.bytes(2))),
        "make_link" => make_link(disk, path, line, answer),
        "remove" => answer.done(steps::remove(alloc, disk, path)),
        "rename" => rename(disk, path, line, answer),
        _ => line.unreadable(),
    }
}

// The steps at a path.
fn at_path(disk: &mut Quiet, step: &str, path: &Path, line: &mut Line, answer: &mut Answer) {
    let alloc = line.alloc();
    match step {
        "look" => answer.outcome(steps::look(alloc, disk, path), told_look),
        "list" => answer.outcome(steps::list(alloc, disk, path), told_names),
        "read" => read(disk, path, line.number(1), answer),
        "whole" => answer.outcome(read_whole(alloc, disk, path, line.number(1)), told_whole),
        "whole_step" => {
            let whole = steps::read_whole(alloc, disk, path, line.number(1));
            answer.outcome(whole, told_whole);
        }
        "clear" | "clear_step" => clear(disk, step, path, answer),
        _ => change(disk, step, path, line, answer),
    }
}

/// Makes a call by its function over any disk.
pub fn call(disk: &mut Quiet, step: &str, line: &mut Line, answer: &mut Answer) {
    if step == "sync" {
        answer.done(steps::sync(line.alloc(), disk));
    } else if let Some(path) = line.path(0) {
        at_path(disk, step, &path, line, answer);
    }
}
