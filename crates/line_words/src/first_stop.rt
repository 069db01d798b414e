//! The first failure of several.
use crate::stop::Stop;

/// Why there is no answer: the first failure, where there was one.
#[derive(Clone, Copy)]
pub struct FirstStop {
    stop: Option<Stop>,
}

impl FirstStop {
    /// Nothing failed yet.
    pub fn none() -> Self {
        FirstStop { stop: None }
    }

    /// Remembers a failure, where nothing failed before.
    pub fn note(&mut self, stop: Stop) {
        if self.stop.is_none() {
            self.stop = Some(stop);
        }
    }

    /// What was made; none where it failed, which is remembered.
    pub fn kept<T: Drop, E: Into<Stop> + Drop>(&mut self, made: Result<T, E>) -> Option<T> {
        match made {
            Ok(value) => Some(value),
            Err(fault) => {
                self.note(fault.into());
                None
            }
        }
    }

    /// Whether something failed.
    pub fn failed(&self) -> bool {
        self.stop.is_some()
    }

    /// The first failure, where there was one.
    pub fn end(&self) -> Result<(), Stop> {
        match self.stop {
            None => Ok(()),
            Some(stop) => Err(stop),
        }
    }
}
