//! Calls on schedules of calls that fail.
use line_words::cny_report::cny_base::{Fails, Schedule};
use line_words::{Answer, Line};

// A letter for each of so many further calls, `f` where it fails and else `-`, and the counts behind them.
fn told(schedule: &mut Schedule, calls: u64, answer: &mut Answer) {
    answer.field("ok");
    answer.tab();
    for _ in 0..calls {
        answer.text(if schedule.fails_next() { "f" } else { "-" });
    }
    answer.field_number(schedule.calls);
    answer.field_number(schedule.faults);
}

/// A new schedule: how many calls come, and the numbers of those that are to fail.
pub fn fresh(line: &mut Line, answer: &mut Answer) {
    let mut schedule = Schedule::new(Fails::new(line.rest(1)));
    told(&mut schedule, line.number(0), answer);
}

/// A schedule with these counts of calls and faults so far: how many calls come, and the numbers of those that are to fail.
pub fn counted(line: &mut Line, answer: &mut Answer) {
    let mut schedule = Schedule {
        fails: Fails::new(line.rest(3)),
        calls: line.number(0),
        faults: line.number(1),
    };
    told(&mut schedule, line.number(2), answer);
}
