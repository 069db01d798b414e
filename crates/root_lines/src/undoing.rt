//! Jobs that are taken back one after the other, on the fingerprints of a tree.
use crate::entries::entries_of;
use crate::root::root_of;
use line_words::{Answer, Line, Why};
use local_db::PathChange;
use past_jobs::{FoundMarks, are_rising, check_undo, take_back};
use rollback_stack::changes_of;
use root_words::Quiet;
use std::collections::BTreeMap;

// What jobs that were taken back found, over the disk on which they are.
struct Taken {
    disk: Quiet,
    found: FoundMarks,
}

// Written by hand, so that to let a value go is a single call wherever a function ends early.
impl Drop for Taken {
    fn drop(self) {
        let Taken {
            disk: _disk,
            found: _found,
        } = self;
    }
}

impl Taken {
    // Takes changes back, and answers whether they can be; else why not stands in the answer.
    fn undo_changes(&mut self, number: u32, changes: &[PathChange], answer: &mut Answer) -> bool {
        if !are_rising(changes) {
            answer.unreadable();
            return false;
        }
        match check_undo(answer.alloc(), &mut self.disk, &self.found, changes) {
            Ok(()) => answer
                .kept(take_back(&mut self.found, number, changes))
                .is_some(),
            Err(end) => {
                answer.number(u64::from(number));
                end.tell(answer);
                false
            }
        }
    }

    fn undo(&mut self, number: u32, job: &str, line: &mut Line, answer: &mut Answer) -> bool {
        let entries = entries_of(line, job);
        let changes = changes_of(answer.alloc(), entries.get());
        match answer.kept(changes) {
            Some(changes) => self.undo_changes(number, &changes, answer),
            None => false,
        }
    }

    fn push_found(&self, answer: &mut Answer) {
        answer.text("ok");
        for (path, at) in &self.found {
            answer.field_number(u64::from(at.number));
            answer.text(" ");
            answer.mark(&at.mark);
            answer.text(" ");
            answer.text(path.text());
        }
    }

    // Takes the jobs from the fourth argument on back.
    fn undo_jobs(&mut self, line: &mut Line, answer: &mut Answer) {
        let mut number = line.small(2);
        for place in 3..line.len() {
            let job = line.raw(place);
            if !self.undo(number, job, line, answer) {
                return;
            }
            number = number.saturating_sub(1);
        }
        self.push_found(answer);
    }
}

/// `undo FAILS TREE NEWEST JOB..`: the jobs, the newest first and numbered from NEWEST down, are taken back one after the other: of
/// each of their paths the oldest job that has it, and the fingerprint of what that found; or which of them can't be, and why. The
/// call of the disk of the number FAILS fails; none for 0.
pub fn undo_all(line: &mut Line, answer: &mut Answer) {
    if let Some(disk) = root_of(line) {
        let found = BTreeMap::new(answer.alloc());
        Taken { disk, found }.undo_jobs(line, answer);
    }
}
