// Which calls of a disk in memory fail.
ghost use Rattle.std.specs.Prelude.{◌≡◌, ◌||◌, None};
ghost use Rattle.tree_nodes.specs.cny-base.Count.{next};
ghost use Rattle.tree_nodes.specs.cny-base.Schedule.{is_listed};
ghost use Rattle.tree_memory.specs.Counts.{is_stopped, one_less};

use tree_nodes::cny_base::{Fails, Schedule};

/// The calls that are to fail, and a stop.
#[derive(Drop)]
pub(crate) struct Turns {
    pub(crate) schedule: Schedule,
    /// How many calls are left before the stop.
    pub(crate) left: Option<u32>,
}

/// What becomes of a call.
#[derive(Clone, Copy)]
pub(crate) struct Turn {
    /// It fails: its number is listed, or the stop has come.
    pub(crate) fails: bool,
    /// The stop has come.
    pub(crate) stopped: bool,
}

impl Turns {
    pub(crate) fn new(fails: Fails) -> Self
        ensures { result ≡ record { schedule = record { fails = fails; calls = 0; faults = 0 }; left = None } }
    {
        Turns {
            schedule: Schedule::new(fails),
            left: None,
        }
    }

    /// Counts a call.
    pub(crate) fn turn(&mut self) -> Turn
        ensures stopped { result.stopped ≡ is_stopped self.old.left }
        ensures fails { result.fails ≡ (is_stopped self.old.left || is_listed self.old.schedule.fails (next self.old.schedule.calls)) }
        ensures counts { self.new ≡ record { schedule = record self.old.schedule { calls = next self.old.schedule.calls }; left = one_less self.old.left } }
    {
        let listed = self.schedule.count_call();
        let stopped = self.left == Some(0);
        self.left = match self.left {
            Some(left) => Some(left.saturating_sub(1)),
            None => None,
        };
        let fails = stopped || listed;
        Turn { fails, stopped }
    }
}
