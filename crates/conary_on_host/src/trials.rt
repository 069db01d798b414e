//! Runs a command over directories of the host with each call of their files failing once, and says what the next command finds.
use crate::counts::{Counts, States};
use crate::pair::{Pair, Side};
use crate::recorded::Recorded;
use crate::standing::{Standing, agrees, copy_all, standing_in};
use crate::told::Told;
use crate::watched::Watched;
use conary_cli::run;
use std::fs;
use std::io::{self, Error, ErrorKind};
use tree_disk::cny_base::{Bytes, Fails, MemorySink, MemorySource, OutOfMemory, Text};

// No command makes more calls.
const MOST_CALLS: u64 = 100_000;

// At each call of this number the command is made again behind what the next one found; and where the commit flag was left set,
// each call of the recovery fails too.
const THOROUGH_EACH: u64 = 32;

// The directory with the root and the repository as the script left them, a copy to run over, and one that a run left torn.
const NOW: &str = "now";

const WORK: &str = "work";

const TORN: &str = "torn";

// A command that does no more than each one begins with.
const NEXT: &str = "rblist";

/// A command and what it reads.
#[derive(Clone, Copy)]
pub(crate) struct Command<'a> {
    pub(crate) words: &'a [String],
    pub(crate) input: &'a [u8],
}

/// The words of a text, with one space between them.
pub(crate) fn words_of(rt: &HostRuntime, text: &str) -> io::Result<Vec<String>> {
    let mut words = Vec::new(rt.alloc());
    for word in text.split(' ') {
        words.push(String::from_str(rt.alloc(), word)?)?;
    }
    Ok(words)
}

fn no_memory(_: OutOfMemory) -> Error {
    Error::from(ErrorKind::OutOfMemory)
}

fn name_of(rt: &HostRuntime, dir: &str, last: &str) -> io::Result<Text> {
    let mut name = String::from_str(rt.alloc(), dir)?;
    name.push_str(last)?;
    Text::new(rt.alloc(), name.as_str()).map_err(no_memory)
}

fn fails(rt: &HostRuntime) -> Fails {
    Fails::new(Vec::new(rt.alloc()))
}

fn run_words(
    rt: &HostRuntime,
    command: &Command<'_>,
    repo: &mut Watched<'_>,
    root: &mut Watched<'_>,
) -> io::Result<u8> {
    let input = Bytes::from_vec(Vec::from_slice(rt.alloc(), command.input)?);
    let mut source = MemorySource::new(input, fails(rt));
    let mut out = MemorySink::new(rt.alloc(), fails(rt));
    let mut err = MemorySink::new(rt.alloc(), fails(rt));
    Ok(run(
        rt.alloc(),
        command.words,
        &mut source,
        &mut out,
        &mut err,
        repo,
        root,
    ))
}

// Runs a command over two disks, and answers its status, and how many failed syncs were forgotten.
fn run_judged(
    rt: &HostRuntime,
    command: &Command<'_>,
    repo: &mut Watched<'_>,
    root: &mut Watched<'_>,
) -> io::Result<(u8, u64)> {
    let status = run_words(rt, command, repo, root)?;
    let forgot = root.forgets(rt.alloc()) || repo.forgets(rt.alloc());
    Ok((status, u64::from(forgot)))
}

// The same over the directories of these names.
fn run_in(
    rt: &HostRuntime,
    command: &Command<'_>,
    records: &Pair,
    root: Text,
    repo: Text,
) -> io::Result<(u8, u64)> {
    let root_files = Recorded::new(rt, &records.root, false);
    let repo_files = Recorded::new(rt, &records.repo, false);
    let mut root = Watched::new(rt.alloc(), &root_files, &records.root, root);
    let mut repo = Watched::new(rt.alloc(), &repo_files, &records.repo, repo);
    run_judged(rt, command, &mut repo, &mut root)
}

// The same over the two directories below one.
fn run_over(
    rt: &HostRuntime,
    dir: &str,
    command: &Command<'_>,
    records: &Pair,
) -> io::Result<(u8, u64)> {
    let root = name_of(rt, dir, "/root")?;
    let repo = name_of(rt, dir, "/repo")?;
    run_in(rt, command, records, root, repo)
}

// Makes the next command, and answers its status.
fn run_next(rt: &HostRuntime, records: &Pair) -> io::Result<u8> {
    let words = words_of(rt, NEXT)?;
    let command = Command {
        words: words.as_slice(),
        input: &[],
    };
    let (status, _) = run_over(rt, WORK, &command, records)?;
    Ok(status)
}

// Whether the command, made again behind one that left the state before, leads to the state after.
fn leads_on(rt: &HostRuntime, command: &Command<'_>, states: &States<'_>) -> io::Result<bool> {
    run_over(rt, WORK, command, &Pair::sound(rt.alloc()))?;
    let found = standing_in(rt, WORK)?;
    Ok(agrees(&found, states.after))
}

// Makes the next command over these records, counts what it finds, and says whether that is the state before.
fn count_run(
    rt: &HostRuntime,
    records: &Pair,
    states: &States<'_>,
    counts: &mut Counts,
) -> io::Result<bool> {
    let status = run_next(rt, records)?;
    counts.count_unkept(records.relied_on()?);
    let found = standing_in(rt, WORK)?;
    Ok(counts.count_found(status, &found, states))
}

// The same behind a run that failed.
fn count_next(
    rt: &HostRuntime,
    failed: &Pair,
    states: &States<'_>,
    counts: &mut Counts,
) -> io::Result<bool> {
    let records = Pair::behind(rt.alloc(), failed);
    count_run(rt, &records, states, counts)
}

fn flag_is_set(rt: &HostRuntime, side: Side) -> io::Result<bool> {
    let flag = match side {
        Side::Root => "work/root/var/lib/conarydb/gate",
        Side::Repository => "work/repo/conaryrepo/gate",
    };
    fs::exists(rt, flag)
}

// Makes a recovery, of which a call may fail, and says whether one did.
fn recover(
    rt: &HostRuntime,
    records: &Pair,
    states: &States<'_>,
    counts: &mut Counts,
) -> io::Result<bool> {
    run_next(rt, records)?;
    if records.has_failed() {
        count_next(rt, records, states, counts)?;
    }
    Ok(records.has_failed())
}

// Makes the recovery of what a run left torn, whose call of this number fails, and says whether there is such a call.
fn try_recovery(
    rt: &HostRuntime,
    side: Side,
    call: u64,
    states: &States<'_>,
    counts: &mut Counts,
) -> io::Result<bool> {
    copy_all(rt, TORN, WORK)?;
    let records = Pair::new(rt.alloc(), side, call);
    recover(rt, &records, states, counts)
}

// Fails each call of the recovery of what a run left torn.
fn try_recoveries(
    rt: &HostRuntime,
    side: Side,
    states: &States<'_>,
    counts: &mut Counts,
) -> io::Result<()> {
    for call in 1..MOST_CALLS {
        if !try_recovery(rt, side, call, states, counts)? {
            break;
        }
    }
    Ok(())
}

// Makes the next command behind a run that failed, the command again, and where the commit flag was left set the recovery with
// each of its calls failing.
fn try_thoroughly(
    rt: &HostRuntime,
    command: &Command<'_>,
    side: Side,
    failed: &Pair,
    states: &States<'_>,
    counts: &mut Counts,
) -> io::Result<()> {
    let is_torn = flag_is_set(rt, side)?;
    if is_torn {
        copy_all(rt, WORK, TORN)?;
    }
    if count_next(rt, failed, states, counts)? && !leads_on(rt, command, states)? {
        counts.count_other();
    }
    if is_torn {
        try_recoveries(rt, side, states, counts)?;
    }
    Ok(())
}

// Makes a command over these records, of which the call of this number fails, and says whether there is such a call.
fn try_failing(
    rt: &HostRuntime,
    command: &Command<'_>,
    side: Side,
    call: u64,
    records: &Pair,
    states: &States<'_>,
    counts: &mut Counts,
) -> io::Result<bool> {
    let (_, forgot) = run_over(rt, WORK, command, records)?;
    if !records.has_failed() {
        return Ok(false);
    }
    counts.count_forgotten(forgot);
    if call % THOROUGH_EACH == 0 {
        try_thoroughly(rt, command, side, records, states, counts)?;
    } else {
        count_next(rt, records, states, counts)?;
    }
    Ok(true)
}

// Makes a command whose call of this number fails, and says whether there is such a call.
fn try_call(
    rt: &HostRuntime,
    command: &Command<'_>,
    side: Side,
    call: u64,
    states: &States<'_>,
    counts: &mut Counts,
) -> io::Result<bool> {
    copy_all(rt, NOW, WORK)?;
    let records = Pair::new(rt.alloc(), side, call);
    try_failing(rt, command, side, call, &records, states, counts)
}

// Makes a command once for each of its calls of one disk, which fails, and tells what the next command found.
fn try_calls(
    rt: &HostRuntime,
    command: &Command<'_>,
    side: Side,
    states: &States<'_>,
    told: &mut Told,
) -> io::Result<()> {
    let mut counts = Counts::new();
    for call in 1..MOST_CALLS {
        if !try_call(rt, command, side, call, states, &mut counts)? {
            break;
        }
    }
    counts.tell(told);
    Ok(())
}

// Tells what a run of the command that ended well asked of both disks, and what is found where one of its calls fails.
fn try_sides(
    rt: &HostRuntime,
    command: &Command<'_>,
    records: &Pair,
    states: &States<'_>,
    told: &mut Told,
) -> io::Result<()> {
    records.root.tell(told, "root");
    try_calls(rt, command, Side::Root, states, told)?;
    records.repo.tell(told, "repository");
    try_calls(rt, command, Side::Repository, states, told)
}

// The same between what stands in the directory `now`, and in the copy where the command was made.
fn try_between(
    rt: &HostRuntime,
    command: &Command<'_>,
    records: &Pair,
    told: &mut Told,
) -> io::Result<()> {
    let before = standing_in(rt, NOW)?;
    let after = standing_in(rt, WORK)?;
    let states = States {
        before: &before,
        after: &after,
    };
    try_sides(rt, command, records, &states, told)
}

// Makes a command in the copy, and tells its status and the rest.
fn try_copied(
    rt: &HostRuntime,
    command: &Command<'_>,
    records: &Pair,
    told: &mut Told,
) -> io::Result<()> {
    let (status, _) = run_over(rt, WORK, command, records)?;
    told.text(": ");
    told.number(u64::from(status));
    told.text("\n");
    try_between(rt, command, records, told)
}

/// Makes a command over what stands in the directory `now`, where it stays done, and tells what it asked of the host's files, and what
/// the next command finds where one of its calls failed.
pub(crate) fn try_command(
    rt: &HostRuntime,
    command: &Command<'_>,
    told: &mut Told,
) -> io::Result<()> {
    copy_all(rt, NOW, WORK)?;
    try_copied(rt, command, &Pair::sound(rt.alloc()), told)?;
    run_over(rt, NOW, command, &Pair::sound(rt.alloc()))?;
    Ok(())
}
