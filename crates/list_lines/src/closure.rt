//! Calls on whole lists of troves and on a closure.
use dep_closure::cny_base::Name;
use dep_closure::trove_stream::{Installed, Trove};
use dep_closure::{Closure, closed};
use line_words::{Answer, Line, Stop};
use std::alloc::Global;

/// The closure, and the troves that the next call on it takes.
pub struct Closing {
    waiting: Vec<Trove>,
    closure: Closure,
}

// Written by hand, so that to let a value go is a single call.
impl Drop for Closing {
    fn drop(self) {
        let Closing {
            waiting: _waiting,
            closure: _closure,
        } = self;
    }
}

// The closure of these troves, whose names rise.
fn closure_of(alloc: Global, troves: Vec<Trove>) -> Result<Closure, Stop> {
    match Installed::new(troves) {
        Some(list) => Ok(Closure::of(alloc, list.troves())?),
        None => Err(Stop::Unreadable),
    }
}

impl Closing {
    /// The closure of no troves.
    pub fn start(alloc: Global) -> Result<Self, Stop> {
        Ok(Closing {
            waiting: Vec::new(alloc),
            closure: closure_of(alloc, Vec::new(alloc))?,
        })
    }

    // The troves that wait, which wait no more.
    fn taken(&mut self, alloc: Global) -> Vec<Trove> {
        std::mem::replace(&mut self.waiting, Vec::new(alloc))
    }

    /// `trove TROVE`: one trove more waits.
    pub fn wait(&mut self, line: &mut Line, answer: &mut Answer) {
        if let Some(trove) = line.value::<Trove>(0) {
            answer.kept(self.waiting.push(trove));
            answer.text("ok");
        }
    }

    /// `closed`: whether the list of the troves that wait is closed.
    pub fn closed(&mut self, alloc: Global, answer: &mut Answer) {
        let troves = self.taken(alloc);
        answer.done(closed(alloc, troves.as_slice()));
    }

    /// `of`: `Closure::of` the troves that wait.
    pub fn of(&mut self, line: &mut Line, answer: &mut Answer) {
        let troves = self.taken(line.alloc());
        if let Some(closure) = line.kept(closure_of(line.alloc(), troves)) {
            self.closure = closure;
            answer.text("ok");
        }
    }

    /// `change NAMES`: `Closure::change`; the troves of these names go, and those that wait come.
    pub fn change(&mut self, line: &mut Line, answer: &mut Answer) {
        let come = Installed::new(self.taken(line.alloc()));
        if let Some(come) = line.some(come) {
            let gone = line.list::<Name>(0);
            answer.done(self.closure.change(line.alloc(), &gone, come.troves()));
        }
    }
}
