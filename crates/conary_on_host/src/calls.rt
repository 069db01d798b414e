//! Calls of directories of the host as disks, a line each, and what each answers.
use crate::record::Record;
use crate::recorded::Recorded;
use crate::told::Told;
use crate::watched::Watched;
use std::fs;
use std::io::{self, Error, ErrorKind};
use std::os::unix::fs::symlink;
use tree_disk::cny_base::{Mode, Names, Path, Target, Text};
use tree_disk::{DiskStop, Look, TreeDisk};

// A word, and what stands behind the space behind it.
fn split(text: &str) -> (&str, &str) {
    text.split_once(' ').unwrap_or((text, ""))
}

fn stop_word(stop: DiskStop) -> &'static str {
    match stop {
        DiskStop::Failed => "failed",
        DiskStop::Refused => "refused",
        DiskStop::Memory => "no memory",
    }
}

fn tell_end(told: &mut Told, end: Result<(), DiskStop>) {
    match end {
        Ok(()) => told.text("done"),
        Err(stop) => told.text(stop_word(stop)),
    }
}

fn tell_look(told: &mut Told, look: &Look) {
    match look {
        Look::Nothing => told.text("nothing"),
        Look::Dir { mode } => {
            told.text("directory ");
            told.mode(*mode);
        }
        Look::File { mode, size } => {
            told.text("file ");
            told.mode(*mode);
            told.text(" ");
            told.number(*size);
        }
        Look::Link { target } => {
            told.text("link ");
            told.text(target.text());
        }
    }
}

fn look(disk: &mut Watched<'_>, path: &Path, told: &mut Told) {
    match disk.look(told.alloc(), path) {
        Ok(look) => tell_look(told, &look),
        Err(stop) => told.text(stop_word(stop)),
    }
}

// The bytes of a file from a place on, at most eight.
fn read(disk: &mut Watched<'_>, path: &Path, at: &str, told: &mut Told) {
    let mut buf = [0u8; 8];
    let at = at.parse::<u64>().unwrap_or(0);
    match disk.read_at(told.alloc(), path, at, &mut buf) {
        Ok(count) => told.text(str::from_utf8(&buf[..count]).unwrap_or("?")),
        Err(stop) => told.text(stop_word(stop)),
    }
}

fn tell_names(told: &mut Told, names: &Names) {
    for name in names.get() {
        told.text(name.get());
        told.text(",");
    }
}

// The names in a directory, each with a comma behind it.
fn list(disk: &mut Watched<'_>, path: &Path, told: &mut Told) {
    match disk.list(told.alloc(), path) {
        Ok(names) => tell_names(told, &names),
        Err(stop) => told.text(stop_word(stop)),
    }
}

// How many names a directory has.
fn count(disk: &mut Watched<'_>, path: &Path, told: &mut Told) {
    match disk.list(told.alloc(), path) {
        Ok(names) => told.number(names.get().len() as u64),
        Err(stop) => told.text(stop_word(stop)),
    }
}

// Makes the file of a number in a directory, and says whether it was made.
fn make_one(disk: &mut Watched<'_>, dir: &Path, number: u16, told: &mut Told) -> bool {
    let mut name = Told::new(told.alloc());
    name.text("file-");
    name.number(u64::from(number));
    match dir.join(told.alloc(), name.get()) {
        Ok(path) => disk.append(told.alloc(), &path, b"x").is_ok(),
        Err(_) => false,
    }
}

// Makes so many files in a directory.
fn make_many(disk: &mut Watched<'_>, dir: &Path, count: &str, told: &mut Told) {
    let mut are_made = true;
    for number in 0..count.parse::<u16>().unwrap_or(0) {
        are_made = are_made && make_one(disk, dir, number, told);
    }
    told.text(if are_made { "done" } else { "failed" });
}

fn link(disk: &mut Watched<'_>, path: &Path, target: &str, told: &mut Told) {
    let target = Target::read(told.alloc(), target);
    if let Some(target) = told.kept(target) {
        let end = disk.make_link(told.alloc(), path, &target);
        tell_end(told, end);
    }
}

fn rename(disk: &mut Watched<'_>, path: &Path, to: &str, told: &mut Told) {
    let to = Path::read(told.alloc(), to);
    if let Some(to) = told.kept(to) {
        let end = disk.rename(told.alloc(), path, &to);
        tell_end(told, end);
    }
}

// A mode of octal digits.
fn mode(digits: &str) -> Mode {
    let bits = u16::from_str_radix(digits, 8).unwrap_or(0);
    Mode::new(bits).unwrap_or(Mode::owner_only())
}

// The calls that change what stands at a path.
fn change(disk: &mut Watched<'_>, name: &str, path: &Path, word: &str, told: &mut Told) {
    let alloc = told.alloc();
    let end = match name {
        "append" => disk.append(alloc, path, word.as_bytes()),
        "dir" => disk.make_dir(alloc, path, mode(word)),
        "mode" => disk.set_mode(alloc, path, mode(word)),
        "remove" => disk.remove(alloc, path),
        _ => return told.fail(),
    };
    tell_end(told, end);
}

fn at_path(disk: &mut Watched<'_>, name: &str, path: &Path, word: &str, told: &mut Told) {
    match name {
        "look" => look(disk, path, told),
        "read" => read(disk, path, word, told),
        "list" => list(disk, path, told),
        "count" => count(disk, path, told),
        "many" => make_many(disk, path, word, told),
        "link" => link(disk, path, word, told),
        "rename" => rename(disk, path, word, told),
        _ => change(disk, name, path, word, told),
    }
}

// A sync, and for how many files and directories it waited.
fn sync(disk: &mut Watched<'_>, told: &mut Told) {
    let before = disk.waits();
    let end = disk.sync(told.alloc());
    tell_end(told, end);
    told.text(", ");
    told.number(disk.waits().saturating_sub(before));
    told.text(" waits");
}

fn call(disk: &mut Watched<'_>, name: &str, rest: &str, told: &mut Told) {
    let (path, word) = split(rest);
    let path = Path::read(told.alloc(), path);
    if let Some(path) = told.kept(path) {
        at_path(disk, name, &path, word, told);
    }
}

// What is done past the disks, by names of the host.
fn act(rt: &HostRuntime, words: &str) -> io::Result<()> {
    let (kind, names) = split(words);
    let (name, other) = split(names);
    match kind {
        "dir" => fs::create_dir(rt, name),
        "file" => fs::write(rt, name, ""),
        "link" => symlink(rt, other, name),
        "name" => fs::hard_link(rt, name, other),
        _ => Err(Error::from(ErrorKind::Unsupported)),
    }
}

fn tell_line(rt: &HostRuntime, disk: &mut Watched<'_>, line: &str, told: &mut Told) {
    told.text(line);
    told.text(": ");
    let (name, rest) = split(line);
    match name {
        "host" => told.text(if act(rt, rest).is_ok() {
            "done"
        } else {
            "failed"
        }),
        "sync" => sync(disk, told),
        _ => call(disk, name, rest, told),
    }
    told.text("\n");
}

// Makes the calls of a part over the directory that its first line names, and tells what a sync left out.
fn tell_part(rt: &HostRuntime, part: &str, told: &mut Told) {
    let (first, lines) = part.split_once('\n').unwrap_or((part, ""));
    let (_, dir) = split(first);
    let dir = Text::new(rt.alloc(), dir);
    let Some(dir) = told.kept(dir) else {
        return;
    };
    let record = Record::new(rt.alloc(), 0);
    let files = Recorded::new(rt, &record, true);
    let mut disk = Watched::new(rt.alloc(), &files, &record, dir);
    told.text(first);
    told.text("\n");
    for line in lines.lines() {
        tell_line(rt, &mut disk, line, told);
    }
    told.text("left out by a sync:");
    record.tell_uncovered(told);
    told.text("\n");
}

/// Makes the calls of the file `calls`, and tells what each answers. An empty line is between two parts. Of each the first line is
/// `over` and the name of a directory, and the others are calls of that directory as a disk, but those that begin with `host`, which
/// are made past it.
pub fn tell_calls(rt: &HostRuntime, told: &mut Told) {
    match fs::read_to_string(rt, "calls") {
        Ok(text) => {
            for part in text.split("\n\n") {
                tell_part(rt, part, told);
            }
        }
        Err(_) => told.fail(),
    }
}
