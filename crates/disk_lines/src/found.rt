//! Which trees were found after recoveries.
use crate::runs::{Case, MANY, Run, apply_up_to, recover_up_to, stored};
use line_words::{Answer, Stop};
use root_words::tree_memory::MemoryTree;
use std::alloc::Global;

/// The trees before and after an application, and how often each of them was found after a recovery.
pub struct Found {
    before: String,
    after: String,
    times_before: u64,
    times_after: u64,
    times_other: u64,
}

// Written by hand, so that to let a value go is a single call wherever a function ends early.
impl Drop for Found {
    fn drop(self) {
        let Found {
            before: _before,
            after: _after,
            times_before: _times_before,
            times_after: _times_after,
            times_other: _times_other,
        } = self;
    }
}

impl Found {
    /// Nothing yet.
    pub fn of(alloc: Global, case: &Case) -> Result<Found, Stop> {
        let before = stored(alloc, &case.start.tree)?;
        let whole = apply_up_to(alloc, case, MANY)?;
        let after = stored(alloc, &whole.disk.tree)?;
        Ok(Found {
            before,
            after,
            times_before: 0,
            times_after: 0,
            times_other: 0,
        })
    }

    /// The tree after.
    pub fn after(&self) -> &str {
        self.after.as_str()
    }

    // Counts the tree that a recovery left; both trees at once are none of them. Where the commit flag was set, it has to be the tree
    // after.
    fn count(&mut self, ended: &Run, left: &str) {
        let is_after = ended.is_done && left == self.after.as_str();
        let is_before = ended.is_done && !ended.was_committed && left == self.before.as_str();
        if is_before == is_after {
            self.times_other = self.times_other.saturating_add(1);
        } else if is_after {
            self.times_after = self.times_after.saturating_add(1);
        } else {
            self.times_before = self.times_before.saturating_add(1);
        }
    }

    /// Recovers what a crash leaves of a tree, and counts which tree that leaves.
    pub fn find(&mut self, alloc: Global, tree: &MemoryTree, pick: u64) -> Result<(), Stop> {
        let ended = recover_up_to(alloc, tree, pick, MANY)?;
        let left = stored(alloc, &ended.disk.tree)?;
        self.count(&ended, left.as_str());
        Ok(())
    }

    fn find_each(&mut self, alloc: Global, tree: &MemoryTree, picks: &[u64]) -> Result<(), Stop> {
        for pick in picks {
            self.find(alloc, tree, *pick)?;
        }
        Ok(())
    }

    /// Recovers what a crash leaves of a tree, cut off after each number of calls, and each time recovers what crashes leave of that.
    /// Answers how often it was cut off.
    pub fn find_again(
        &mut self,
        alloc: Global,
        tree: &MemoryTree,
        pick: u64,
        picks: &[u64],
    ) -> Result<u64, Stop> {
        for calls in 0..MANY {
            let cut = recover_up_to(alloc, tree, pick, calls)?;
            self.find_each(alloc, &cut.disk.tree, picks)?;
            if cut.is_done {
                return Ok(u64::from(calls));
            }
        }
        Err(Stop::Unreadable)
    }

    /// Appends how often each tree was found, and another one.
    pub fn push(&self, answer: &mut Answer) {
        answer.field_number(self.times_before);
        answer.field_number(self.times_after);
        answer.field_number(self.times_other);
    }
}
