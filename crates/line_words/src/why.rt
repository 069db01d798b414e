//! Why a call has no value, as it is told.
use crate::answer::Answer;
use cny_report::cny_base::{Fault, OutOfMemory, Stop, TextFault};
use tree_scan::tree_disk::DiskStop;

/// Why a call has no value.
pub trait Why: Drop {
    /// Tells it as a field. Want of memory is a failure of the answer.
    fn tell(self, answer: &mut Answer);
}

impl Why for OutOfMemory {
    fn tell(self, answer: &mut Answer) {
        answer.memory();
    }
}

// `bad`.
impl Why for TextFault {
    fn tell(self, answer: &mut Answer) {
        match self {
            TextFault::Bad => answer.field("bad"),
            TextFault::Memory => answer.memory(),
        }
    }
}

// The text of the refusal.
impl Why for Fault {
    fn tell(self, answer: &mut Answer) {
        match &self {
            Fault::Refused(refusal) => answer.refusal(refusal),
            Fault::Memory => answer.memory(),
        }
    }
}

impl Why for Stop {
    fn tell(self, answer: &mut Answer) {
        answer.stopped(&self);
    }
}

impl Why for DiskStop {
    fn tell(self, answer: &mut Answer) {
        match self {
            DiskStop::Failed => answer.field("failed"),
            DiskStop::Refused => answer.field("refused"),
            DiskStop::Memory => answer.memory(),
        }
    }
}

impl Answer {
    /// The value of a call. Where it has none, there is none, and why is told.
    pub fn given<T: Drop, E: Why>(&mut self, made: Result<T, E>) -> Option<T> {
        match made {
            Ok(value) => Some(value),
            Err(why) => {
                why.tell(self);
                None
            }
        }
    }

    /// Tells the value of a call, or why it has none.
    pub fn outcome<T: Drop, E: Why, F: FnOnce(&T, &mut Answer)>(
        &mut self,
        made: Result<T, E>,
        tell: F,
    )
        requires { F.IsAlwaysCallable tell }
    {
        match made {
            Ok(value) => tell(&value, self),
            Err(why) => why.tell(self),
        }
    }

    /// `ok` as a field where a call has a value, or why it has none.
    pub fn done<T: Drop, E: Why>(&mut self, made: Result<T, E>) {
        self.outcome(made, |_: &T, answer: &mut Answer| answer.field("ok"));
    }

    /// `ok` as a field, and what is told of each item.
    pub fn each<T, F: Fn(&T, &mut Answer)>(&mut self, items: &[T], tell: F)
        requires { F.IsAlwaysCallable tell }
    {
        self.field("ok");
        for item in items {
            tell(item, self);
        }
    }
}
