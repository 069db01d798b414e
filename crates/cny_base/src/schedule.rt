//! Which calls of an object in memory fail.
ghost use Rattle.std.specs.Prelude.{◌≡◌, ◌≤◌, if◌then◌else◌};
ghost use Rattle.cny_base.specs.Count.{next};
ghost use Rattle.cny_base.specs.Schedule.{is_listed};

use crate::list::Fails;

/// The numbers of the calls that are to fail, from 1, and how many calls came and failed. A count stays at
/// its greatest value.
#[derive(Drop)]
pub struct Schedule {
    pub fails: Fails,
    pub calls: u64,
    pub faults: u64,
}

impl Schedule {
    /// Before the first call.
    pub fn new(fails: Fails) -> Self
        ensures { result ≡ record { fails = fails; calls = 0; faults = 0 } }
    {
        Schedule {
            fails,
            calls: 0,
            faults: 0,
        }
    }

    /// Counts a call. Answers whether it is one of those that are to fail.
    pub fn count_call(&mut self) -> bool
        ensures listed { result ≡ is_listed self.old.fails (next self.old.calls) }
        ensures counted { self.new ≡ record self.old { calls = next self.old.calls } }
    {
        self.calls = self.calls.saturating_add(1);
        self.fails.get().contains(&self.calls)
    }

    /// Counts a fault.
    pub fn count_fault(&mut self)
        ensures counted { self.new ≡ record self.old { faults = next self.old.faults } }
        ensures later { self.old.faults ≤ next self.old.faults }
    {
        self.faults = self.faults.saturating_add(1);
    }

    /// Counts a call, and a fault where that call is to fail. Answers whether it is.
    pub fn fails_next(&mut self) -> bool
        ensures listed { result ≡ is_listed self.old.fails self.new.calls }
        ensures calls { self.new.calls ≡ next self.old.calls }
        ensures faults { self.new.faults ≡ (if result then next self.old.faults else self.old.faults) }
        ensures later { self.old.faults ≤ self.new.faults }
        ensures same { self.new.fails ≡ self.old.fails }
    {
        let fails = self.count_call();
        if fails {
            self.count_fault();
        }
        fails
    }
}
