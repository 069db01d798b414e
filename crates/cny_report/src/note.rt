//! What is told of a job on the stack.
use update_job::Changes;
use update_job::cny_base::{Copies, ListOf, OutOfMemory};

/// A job on the stack.
#[derive(Drop)]
pub struct Note {
    /// Its number.
    pub number: u32,
    /// How it changed the installed list.
    pub changes: Changes,
    /// How many paths it changed.
    pub paths: u64,
}

impl Copies for Note {
    fn copy(&self) -> Result<Self, OutOfMemory> {
        Ok(Note {
            number: self.number,
            changes: self.changes.copy()?,
            paths: self.paths,
        })
    }
}

/// Jobs on the stack.
pub type Notes = ListOf<Note>;
