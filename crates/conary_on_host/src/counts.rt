//! Which states the next command finds behind runs that failed, and how often.
use crate::standing::{Standing, agrees};
use crate::told::Told;

/// What stood before a command and behind it.
#[derive(Clone, Copy)]
pub struct States<'a> {
    pub before: &'a Standing,
    pub after: &'a Standing,
}

/// How often the next command found the state before, the state after, and any other.
#[derive(Clone, Copy)]
pub struct Counts {
    before: u64,
    after: u64,
    other: u64,
    // Names on which the next command relied and that nobody has kept.
    unkept: u64,
    // Syncs that failed and that a later one of the same run answered with Ok.
    forgotten: u64,
}

impl Counts {
    /// Nothing was found yet.
    pub fn new() -> Self {
        Counts {
            before: 0,
            after: 0,
            other: 0,
            unkept: 0,
            forgotten: 0,
        }
    }

    /// Counts a state that is neither the one before nor the one after.
    pub fn count_other(&mut self) {
        self.other = self.other.saturating_add(1);
    }

    /// Counts names on which the next command relied and that nobody has kept.
    pub fn count_unkept(&mut self, names: u64) {
        self.unkept = self.unkept.saturating_add(names);
    }

    /// Counts syncs that failed and that a later one of the same run answered with `Ok`.
    pub fn count_forgotten(&mut self, syncs: u64) {
        self.forgotten = self.forgotten.saturating_add(syncs);
    }

    /// Counts what the next command found, which ended with this status, and says whether that is the state before.
    pub fn count_found(&mut self, status: u8, found: &Standing, states: &States<'_>) -> bool {
        let is_before = agrees(found, states.before);
        if status != 0 {
            self.count_other();
        } else if agrees(found, states.after) {
            self.after = self.after.saturating_add(1);
        } else if is_before {
            self.before = self.before.saturating_add(1);
        } else {
            self.count_other();
        }
        is_before
    }

    /// Tells the counts.
    pub fn tell(&self, told: &mut Told) {
        told.text("; behind a failed call ");
        told.number(self.before);
        told.text(" before, ");
        told.number(self.after);
        told.text(" after, ");
        told.number(self.other);
        told.text(" other; ");
        told.number(self.unkept);
        told.text(" not kept, ");
        told.number(self.forgotten);
        told.text(" syncs forgotten\n");
    }
}
