// What the program says on standard error, and its statuses.
use crate::host_dir::{HostDir, Odd};
use cny_pack::cny_base::{OutOfMemory, Path};
use cny_pack::{BadWord, PackStop, Unfit};
use std::alloc::Global;

/// Statuses, as those of `conary`.
pub(crate) const OK: u8 = 0;

pub(crate) const REFUSED: u8 = 1;

pub(crate) const USAGE: u8 = 2;

pub(crate) const SINK_FAULT: u8 = 4;

pub(crate) const DISK_FAULT: u8 = 5;

pub(crate) const OUT_OF_MEMORY: u8 = 7;

/// How the program is called.
pub(crate) const USAGE_LINE: &str =
    "usage: conary-manifest [--flavor FLAVOR] [--config PATTERN]... [--requires COMPONENT DEP]... [--provides COMPONENT DEP]... [--skip] (component|package) NAME VERSION DIRECTORY\n";

/// What is said of an end, and its status.
#[derive(Drop)]
pub(crate) struct Said {
    pub(crate) text: String,
    pub(crate) status: u8,
}

fn said_so(alloc: Global, status: u8, what: &str) -> Result<Said, OutOfMemory> {
    Ok(Said {
        text: format!(in alloc; "conary-manifest: {what}\n")?,
        status,
    })
}

/// That the words aren't as the usage line has them.
pub(crate) fn usage(alloc: Global) -> Result<Said, OutOfMemory> {
    Ok(Said {
        text: String::from_str(alloc, USAGE_LINE)?,
        status: USAGE,
    })
}

fn bad_word(alloc: Global, word: BadWord) -> Result<Said, OutOfMemory> {
    let word = match word {
        BadWord::Name => "NAME",
        BadWord::Version => "VERSION",
        BadWord::Flavor => "FLAVOR",
        BadWord::Requires => "COMPONENT or DEP of --requires",
        BadWord::Provides => "COMPONENT or DEP of --provides",
    };
    Ok(Said {
        text: format!(in alloc; "conary-manifest: bad {word}\n{USAGE_LINE}")?,
        status: USAGE,
    })
}

fn unfit(alloc: Global, path: &Path, why: Unfit) -> Result<Said, OutOfMemory> {
    let path = path.text();
    let what = match why {
        Unfit::TooLarge { size } => format!(in alloc; "too large {path} {size}")?,
        Unfit::Reserved => format!(in alloc; "reserved {path}")?,
        Unfit::Changed => format!(in alloc; "changed {path}")?,
        Unfit::NoOwner => format!(in alloc; "no owner {path}")?,
    };
    said_so(alloc, REFUSED, what.as_str())
}

// What can't be in a tree, where that is why the disk failed.
fn disk_fault(alloc: Global, disk: &HostDir<'_>) -> Result<Said, OutOfMemory> {
    let Some(at) = disk.odd() else {
        return said_so(alloc, DISK_FAULT, "directory fault");
    };
    let path = at.path.text();
    let what = match at.odd {
        Odd::Name => format!(in alloc; "bad name in {path}")?,
        Odd::Kind => format!(in alloc; "no file, directory or link {path}")?,
        Odd::Target => format!(in alloc; "bad target {path}")?,
    };
    said_so(alloc, REFUSED, what.as_str())
}

/// Why a manifest wasn't written, or not to its end.
pub(crate) fn told(alloc: Global, stop: PackStop, disk: &HostDir<'_>) -> Result<Said, OutOfMemory> {
    match stop {
        PackStop::Word(word) => bad_word(alloc, word),
        PackStop::Unfit { path, why } => unfit(alloc, &path, why),
        PackStop::NoTroves => said_so(
            alloc,
            REFUSED,
            "no troves: too many entries, too long a name, or a wrong build count",
        ),
        PackStop::DiskFailed => disk_fault(alloc, disk),
        PackStop::SinkFailed => said_so(alloc, SINK_FAULT, "output fault"),
        PackStop::Memory => Err(OutOfMemory),
    }
}
