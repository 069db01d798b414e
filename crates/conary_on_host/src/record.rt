//! What a run asks of the host's files, and what of it isn't kept yet.
use crate::standing::is_cleared;
use crate::told::Told;
use std::alloc::Global;
use std::cell::{Cell, RefCell};
use std::collections::BTreeMap;
use std::io::{self, Error, ErrorKind};

// Places by the numbers of their nodes, so that what is moved stays the same.
type Unkept = BTreeMap<u64, String>;

/// The calls of a run, one of which may fail, and the nodes that were changed and not synced since. It remembers whether it lacks
/// something, so what notes a change gives nothing back.
pub struct Record {
    alloc: Global,
    fails_at: u64,
    calls: Cell<u64>,
    waits: Cell<u64>,
    has_failed_sync: Cell<bool>,
    unkept: RefCell<Unkept>,
    uncovered: RefCell<Vec<String>>,
    is_lacking: Cell<bool>,
}

// Written by hand, so that to let a value go is a single call wherever a function ends early.
impl Drop for Record {
    fn drop(self) {
        let Record {
            alloc: _alloc,
            fails_at: _fails_at,
            calls: _calls,
            waits: _waits,
            has_failed_sync: _has_failed_sync,
            unkept: _unkept,
            uncovered: _uncovered,
            is_lacking: _is_lacking,
        } = self;
    }
}

impl Record {
    /// Nothing was called yet. The call of this number fails; none does for 0.
    pub(crate) fn new(alloc: Global, fails_at: u64) -> Self {
        Record {
            alloc,
            fails_at,
            calls: Cell::new(0),
            waits: Cell::new(0),
            has_failed_sync: Cell::new(false),
            unkept: RefCell::new(Unkept::new(alloc)),
            uncovered: RefCell::new(Vec::new(alloc)),
            is_lacking: Cell::new(false),
        }
    }

    /// How many calls waited for the disk.
    pub(crate) fn waits(&self) -> u64 {
        self.waits.get()
    }

    /// Whether the call that was to fail was made.
    pub(crate) fn has_failed(&self) -> bool {
        self.fails_at != 0 && self.calls.get() >= self.fails_at
    }

    /// Whether that call was a wait for the disk.
    pub(crate) fn has_failed_sync(&self) -> bool {
        self.has_failed_sync.get()
    }

    /// Counts a call, which may be the one that fails.
    pub(crate) fn count(&self) -> io::Result<()> {
        let calls = self.calls.get().saturating_add(1);
        self.calls.set(calls);
        if calls == self.fails_at {
            return Err(Error::from(ErrorKind::StorageFull));
        }
        Ok(())
    }

    /// Counts a wait for the disk, behind which the node is kept.
    pub(crate) fn count_wait(&self, node: u64) -> io::Result<()> {
        self.waits.set(self.waits.get().saturating_add(1));
        let counted = self.count();
        if counted.is_ok() {
            self.drop_node(node);
        } else {
            self.has_failed_sync.set(true);
        }
        counted
    }

    /// Something wasn't noted.
    pub(crate) fn lack(&self) {
        self.is_lacking.set(true);
    }

    // Remembers where something wasn't noted.
    fn keep(&self, noted: io::Result<()>) {
        if noted.is_err() {
            self.lack();
        }
    }

    /// The node at this place was changed.
    pub(crate) fn mark(&self, node: u64, place: &str) {
        self.keep(self.add(node, place));
    }

    fn add(&self, node: u64, place: &str) -> io::Result<()> {
        let mut unkept = self.unkept.try_borrow_mut()?;
        let place = String::from_str(self.alloc, place)?;
        unkept.insert(node, place)?;
        Ok(())
    }

    /// The node is kept, or is gone.
    pub(crate) fn drop_node(&self, node: u64) {
        self.keep(self.take(node));
    }

    fn take(&self, node: u64) -> io::Result<()> {
        let mut unkept = self.unkept.try_borrow_mut()?;
        unkept.remove(&node);
        Ok(())
    }

    /// Behind a sync that ended well: what is still to be kept should be none, and is remembered.
    pub(crate) fn judge(&self) {
        self.keep(self.note_unkept());
    }

    fn note_unkept(&self) -> io::Result<()> {
        let unkept = self.unkept.try_borrow()?;
        let mut uncovered = self.uncovered.try_borrow_mut()?;
        for place in unkept.values() {
            uncovered.push(String::from_str(self.alloc, place.as_str())?)?;
        }
        Ok(())
    }

    /// Tells what a run asked of the disk of this name.
    pub fn tell(&self, told: &mut Told, name: &str) {
        told.text("  ");
        told.text(name);
        told.text(": ");
        told.number(self.calls.get());
        told.text(" calls, ");
        told.number(self.waits());
        told.text(" waits, left out by a sync:");
        self.tell_uncovered(told);
    }

    /// Tells the places that a sync left out, each behind a space.
    pub(crate) fn tell_uncovered(&self, told: &mut Told) {
        if self.is_lacking.get() {
            told.fail();
        }
        let Ok(uncovered) = self.uncovered.try_borrow() else {
            return told.fail();
        };
        for place in uncovered.iter() {
            told.text(" ");
            told.text(place.as_str());
        }
    }

    /// Takes over what an earlier run left unkept.
    pub(crate) fn inherit(&self, earlier: &Record) {
        if earlier.is_lacking.get() {
            self.lack();
        }
        let Ok(unkept) = earlier.unkept.try_borrow() else {
            return self.lack();
        };
        for (node, place) in unkept.iter() {
            self.mark(*node, place.as_str());
        }
    }

    /// How many names aren't kept on which a further run relies.
    pub(crate) fn relied_on(&self) -> io::Result<u64> {
        if self.is_lacking.get() {
            return Err(Error::from(ErrorKind::OutOfMemory));
        }
        let unkept = self.unkept.try_borrow()?;
        let mut count = 0u64;
        for place in unkept.values() {
            if is_relied_on(place.as_str()) {
                count = count.saturating_add(1);
            }
        }
        Ok(count)
    }
}

// Whether a run relies on what stands at a place: all but what is only cleared and written anew.
fn is_relied_on(place: &str) -> bool {
    match place.split_once('/') {
        Some((_, path)) => !is_cleared(path),
        None => true,
    }
}
