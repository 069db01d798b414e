//! Manifests of trees.
use cny_pack::cny_base::MemorySink;
use cny_pack::cny_stream::Owner;
use cny_pack::{BadWord, DepWords, Owners, PackStop, Pattern, Rules, Unfit, Words, write_manifest};
use line_words::{Answer, Line};
use root_words::disk_of;
use root_words::tree_memory::cny_base::{Fails, OutOfMemory, Path, TextFault};
use std::alloc::Global;

// What stands at a path belongs to the user of its last name and to a group, where that name is a user's.
#[derive(Drop)]
struct LastNames;

impl Owners for LastNames {
    ghost owns = { λ path owner. Unit {0} };

    ghost lacks = { λ path. Unit {0} };

    fn owner_at(&mut self, alloc: Global, path: &Path) -> Result<Option<Owner>, OutOfMemory> {
        let last = path.text().rsplit_once('/').map_or("", |(_, last)| last);
        match Owner::new(alloc, last, "staff") {
            Ok(owner) => Ok(Some(owner)),
            Err(TextFault::Bad) => Ok(None),
            Err(TextFault::Memory) => Err(OutOfMemory),
        }
    }
}

// Components and dependencies, a space between the two.
fn deps_of<'a>(line: &mut Line<'a>, place: usize) -> Vec<DepWords<'a>> {
    let mut deps = Vec::new(line.alloc());
    for raw in line.raw(place).split(';') {
        if let Some((component, dep)) = raw.split_once(' ') {
            line.kept(deps.push(DepWords { component, dep }));
        }
    }
    deps
}

// Patterns of paths; one that isn't read is left out, and the line says so.
fn patterns_of(line: &mut Line, place: usize) -> Vec<Pattern> {
    let mut patterns = Vec::new(line.alloc());
    for raw in line.raw(place).split(';') {
        if raw.is_empty() {
            continue;
        }
        match Pattern::read(line.alloc(), raw) {
            Ok(pattern) => {
                line.kept(patterns.push(pattern));
            }
            Err(_) => line.unreadable(),
        }
    }
    patterns
}

fn word_of(word: BadWord) -> &'static str {
    match word {
        BadWord::Name => "bad name",
        BadWord::Version => "bad version",
        BadWord::Flavor => "bad flavor",
        BadWord::Requires => "bad requires",
        BadWord::Provides => "bad provides",
    }
}

fn told_unfit(path: &Path, why: Unfit, answer: &mut Answer) {
    match why {
        Unfit::TooLarge { size } => {
            answer.texts(&["too large ", path.text(), " "]);
            answer.number(size);
        }
        Unfit::Reserved => answer.texts(&["reserved ", path.text()]),
        Unfit::Changed => answer.texts(&["changed ", path.text()]),
        Unfit::NoOwner => answer.texts(&["no owner ", path.text()]),
    }
}

fn told_stop(stop: PackStop, answer: &mut Answer) {
    match stop {
        PackStop::Word(word) => answer.text(word_of(word)),
        PackStop::Unfit { path, why } => told_unfit(&path, why, answer),
        PackStop::NoTroves => answer.text("no troves"),
        PackStop::DiskFailed => answer.text("disk"),
        PackStop::SinkFailed => answer.text("sink"),
        PackStop::Memory => answer.memory(),
    }
}

/// `pack NAME VERSION FLAVOR CONFIG REQUIRES PROVIDES SKIP FAILS NODES`: the manifest of the nodes, with no flavor where it is empty. Of
/// the sink and of the disk the call of this number fails, `SINK DISK`. What was written, and the refusal where there is one.
pub fn pack(line: &mut Line, answer: &mut Answer) {
    let config = patterns_of(line, 3);
    let (required, provided) = (deps_of(line, 4), deps_of(line, 5));
    let flavor = line.raw(2);
    let words = Words {
        name: line.raw(0),
        version: line.raw(1),
        flavor: (!flavor.is_empty()).then_some(flavor),
        requires_: required.as_slice(),
        provides: provided.as_slice(),
    };
    let rules = Rules {
        config: config.as_slice(),
        skip: line.raw(6) == "skip",
    };
    let sink_fails = line.number(7);
    let disk_fails = line.number(8);
    let Some(mut disk) = disk_of(line, 9, disk_fails) else {
        return;
    };
    let Some(fails) = line.kept(vec![in answer.alloc(); sink_fails]) else {
        return;
    };
    let mut out = MemorySink::new(answer.alloc(), Fails::new(fails));
    let done = write_manifest(
        answer.alloc(),
        &mut disk,
        &mut LastNames,
        words,
        rules,
        &mut out,
    );
    answer.contents(out.bytes());
    answer.tab();
    match done {
        Ok(()) => answer.text("ok"),
        Err(stop) => told_stop(stop, answer),
    }
}
