//! Calls on the numbers of staged files.
use crate::disk::told_holds;
use crate::puts::puts;
use line_words::{Answer, Line};
use root_words::tree_memory::cny_base::{Path, Text};
use tree_journal::journal_log::{StagedNumbers, is_staged_path, staged_path};

// The numbers of the staged files that the write set of the first argument names.
fn numbers_of(line: &mut Line) -> Option<StagedNumbers> {
    let puts = puts(line, 0)?;
    line.kept(StagedNumbers::of(line.alloc(), &puts))
}

/// `kept PUTS NAMES`: of each last name whether it is that of a staged file which the puts name.
pub fn kept(line: &mut Line, answer: &mut Answer) {
    if let Some(numbers) = numbers_of(line) {
        for last in &line.list::<Text>(1) {
            answer.outcome(numbers.keeps(line.alloc(), last.get()), told_holds);
        }
    }
}

/// `numbers PUTS NUMBERS`: of each number whether it is that of a staged file which the puts name.
pub fn numbers(line: &mut Line, answer: &mut Answer) {
    if let Some(numbers) = numbers_of(line) {
        for number in &line.list::<u32>(1) {
            answer.holds(numbers.contains(*number));
        }
    }
}

fn told_path(path: &Path, answer: &mut Answer) {
    answer.field(path.text());
}

/// `staged DIR NUMBERS`: of each number the path of its staged file in the directory of staged bytes, or `bad`.
pub fn staged(line: &mut Line, answer: &mut Answer) {
    if let Some(dir) = line.path(0) {
        for number in &line.list::<u32>(1) {
            answer.outcome(staged_path(line.alloc(), &dir, *number), told_path);
        }
    }
}

/// `is_staged BASE NUMBERS`: of each number whether its staged file has a path in the private directory.
pub fn is_staged(line: &mut Line, answer: &mut Answer) {
    if let Some(base) = line.path(0) {
        for number in &line.list::<u32>(1) {
            answer.holds(is_staged_path(&base, *number));
        }
    }
}
