//! What comes of a call that is made again and again.
use crate::answer::Answer;
use std::alloc::Global;

/// Texts of which each that differs from the one before is told.
#[derive(Drop)]
pub struct Outcomes {
    last: String,
}

impl Outcomes {
    /// None so far.
    pub fn new(alloc: Global) -> Self {
        Outcomes {
            last: String::new(alloc),
        }
    }

    /// Whether the text of a part differs from the last one, which it is from now on. The answer keeps the failure of the part, also
    /// where its text, which may be cut short then, is that of the last one.
    pub fn is_new(&mut self, answer: &mut Answer, part: &Answer) -> bool {
        answer.keep_failure(part);
        if part.get() == self.last.as_str() {
            return false;
        }
        if let Some(text) = answer.kept(String::from_str(answer.alloc(), part.get())) {
            self.last = text;
        }
        true
    }

    /// Appends a part as a field, where its text differs from that of the last one.
    pub fn push(&mut self, answer: &mut Answer, part: &Answer) {
        if self.is_new(answer, part) {
            answer.field(part.get());
        }
    }
}
