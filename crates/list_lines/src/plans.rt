//! Plans of what stands to what troves want.
use conflict_plan::{Planned, PlannedList, plan};
use job_targets::cny_stream::FileRec;
use job_targets::trove_stream::Trove;
use line_words::tree_scan::Mark;
use line_words::{Answer, Line};
use root_words::{Quiet, disk_of};

/// The disk at a place. Its first call fails where the first argument has the word `fail`.
pub fn disk_at(line: &mut Line, place: usize) -> Option<Quiet> {
    let failing = u64::from(line.mentions(0, "fail"));
    disk_of(line, place, failing)
}

/// Calls with that disk.
pub fn on_disk<F: FnOnce(&mut Quiet, &mut Line, &mut Answer)>(
    line: &mut Line,
    place: usize,
    answer: &mut Answer,
    call: F,
)
    requires { F.IsAlwaysCallable call }
{
    if let Some(mut disk) = disk_at(line, place) {
        call(&mut disk, line, answer);
    }
}

fn record(rec: &FileRec, answer: &mut Answer) {
    match rec {
        FileRec::Dir { mode, .. } => answer.dir(*mode),
        FileRec::Link { target } => answer.link(target.text()),
        FileRec::File {
            mode,
            flags: words,
            size,
            name,
            ..
        } => {
            let (mode, size, name) = (*mode, u64::from(*size), *name);
            answer.mark(&Mark::File { mode, size, name });
            answer.text(" ");
            answer.flags(*words);
        }
    }
}

// `PATH: MARK -> RECORD`.
fn change(planned: &Planned, answer: &mut Answer) {
    answer.field(planned.path.text());
    answer.text(": ");
    answer.mark(&planned.was);
    answer.text(" -> ");
    match &planned.want {
        Some(rec) => record(rec, answer),
        None => answer.text("nothing"),
    }
}

fn changes(list: &PlannedList, answer: &mut Answer) {
    answer.each(list.get(), change);
}

// How often a disk was asked.
fn calls(disk: &Quiet, answer: &mut Answer) {
    answer.tab();
    answer.number(disk.looks);
    answer.text(" looks, ");
    answer.number(disk.reads);
    answer.text(" reads, ");
    answer.number(disk.lists);
    answer.text(" lists");
}

/// The plan that leads from the third to the fourth argument's troves; where there is none, why is told.
pub fn plan_of(disk: &mut Quiet, line: &mut Line, answer: &mut Answer) -> Option<PlannedList> {
    let old = line.list::<Trove>(2);
    let fresh = line.list::<Trove>(3);
    let options = line.options(0);
    answer.given(plan(line.alloc(), disk, &old, &fresh, &options))
}

fn told(disk: &mut Quiet, line: &mut Line, answer: &mut Answer) {
    if let Some(list) = plan_of(disk, line, answer) {
        answer.copied(&list, changes);
        if line.mentions(0, "calls") {
            calls(disk, answer);
        }
    }
}

/// `plan WORDS NODES OLD NEW`: the paths that the plan changes, and with the word `calls` how often it asked the disk.
pub fn planned(line: &mut Line, answer: &mut Answer) {
    on_disk(line, 1, answer, told);
}
