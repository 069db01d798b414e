//! Calls on the contents that jobs save.
use crate::entries::{entries_of, told_want};
use crate::root::root_of;
use job_targets::{Entries, old_node, stashable};
use line_words::{Answer, Line};
use system_core::cny_base::Copies;

fn push_stashable(entries: &Entries, answer: &mut Answer) {
    answer.done(stashable(answer.alloc(), entries.get()));
}

/// `stashable ENTRIES`: whether the old contents of copies of the entries can be saved.
pub fn can_save(line: &mut Line, answer: &mut Answer) {
    let raw = line.raw(0);
    answer.copied(&entries_of(line, raw), push_stashable);
}

/// `old FAILS TREE NUMBER MARK`: what the job of the number found at a path of which this is the fingerprint. The call of the disk
/// of the number FAILS fails; none for 0.
pub fn old(line: &mut Line, answer: &mut Answer) {
    if let Some(mut disk) = root_of(line) {
        let raw = line.raw(3);
        let mark = line.mark_of(raw);
        let want = old_node(answer.alloc(), &mut disk, line.small(2), &mark);
        answer.outcome(want, told_want);
    }
}
