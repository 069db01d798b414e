//! What is told of a run.
use std::alloc::Global;
use std::io::{self, Error, ErrorKind};
use tree_disk::cny_base::{Mode, decimal, octal};

/// A text. It remembers whether something that was to be told couldn't be, so what adds to it gives nothing back.
pub struct Told {
    alloc: Global,
    text: String,
    has_failed: bool,
}

// Written by hand, so that to let a value go is a single call wherever a function ends early.
impl Drop for Told {
    fn drop(self) {
        let Told {
            alloc: _alloc,
            text: _text,
            has_failed: _has_failed,
        } = self;
    }
}

impl Told {
    /// Nothing yet.
    pub fn new(alloc: Global) -> Self {
        Told {
            alloc,
            text: String::new(alloc),
            has_failed: false,
        }
    }

    /// What makes values.
    pub(crate) fn alloc(&self) -> Global {
        self.alloc
    }

    /// What was told so far.
    pub(crate) fn get(&self) -> &str {
        self.text.as_str()
    }

    /// Something couldn't be told.
    pub(crate) fn fail(&mut self) {
        self.has_failed = true;
    }

    /// What was made; none where it failed, which is remembered.
    pub(crate) fn kept<T: Drop, E: Drop>(&mut self, made: Result<T, E>) -> Option<T> {
        match made {
            Ok(value) => Some(value),
            Err(_) => {
                self.fail();
                None
            }
        }
    }

    /// Adds a text.
    pub fn text(&mut self, text: &str) {
        if self.text.push_str(text).is_err() {
            self.fail();
        }
    }

    /// Adds a number in decimal digits.
    pub fn number(&mut self, number: u64) {
        match decimal(self.alloc, number) {
            Ok(digits) => self.text(digits.get()),
            Err(_) => self.fail(),
        }
    }

    /// Adds a mode in four octal digits.
    pub(crate) fn mode(&mut self, mode: Mode) {
        match str::from_utf8(&octal(mode)) {
            Ok(digits) => self.text(digits),
            Err(_) => self.fail(),
        }
    }

    /// The text, where all was told.
    pub fn end(&self) -> io::Result<&str> {
        if self.has_failed {
            return Err(Error::from(ErrorKind::Other));
        }
        Ok(self.text.as_str())
    }
}
