//! The program over directories of the host, and then a look past it at the directory `root`. Behind that the lines of the file `calls`
//! are made of directories as disks, and the commands of the file `commands` run over files that record each call and let each call
//! fail once.
//!
//! It ends with the program's status, and its stored run installs a component. Of each line it tells what the call answers. Of each
//! command it tells the calls and the waits for the disk, the names that a sync left out, and what the next command found behind each
//! failed call.
#![tactic(auto)]

mod calls;
mod counts;
mod look;
mod pair;
mod record;
mod recorded;
mod standing;
mod told;
mod trials;
mod watched;

use crate::calls::tell_calls;
use crate::look::tell_root;
use crate::told::Told;
use crate::trials::{Command, try_command, words_of};
use conary_cli::start;
use std::fs;
use std::io::{self, Write};
use std::process::ExitCode;

// What the command of a line reads: the file that is named behind ` < `, or nothing.
fn input_of(rt: &HostRuntime, line: &str) -> io::Result<Vec<u8>> {
    match line.split_once(" < ") {
        Some((_, name)) => fs::read(rt, name),
        None => Ok(Vec::new(rt.alloc())),
    }
}

fn show(rt: &HostRuntime, told: &Told) -> io::Result<()> {
    let text = told.end()?;
    rt.stdout().write_all(text.as_bytes())
}

fn tell_trial(rt: &HostRuntime, line: &str, command: &Command<'_>) -> io::Result<()> {
    let mut told = Told::new(rt.alloc());
    told.text(line);
    try_command(rt, command, &mut told)?;
    show(rt, &told)
}

// A line is a command's words, and what it reads.
fn try_line(rt: &HostRuntime, line: &str) -> io::Result<()> {
    let (words, _) = line.split_once(" < ").unwrap_or((line, ""));
    let words = words_of(rt, words)?;
    let input = input_of(rt, line)?;
    let command = Command {
        words: words.as_slice(),
        input: input.as_slice(),
    };
    tell_trial(rt, line, &command)
}

fn try_lines(rt: &HostRuntime) -> io::Result<()> {
    fs::create_dir_all(rt, "now/root/var/lib")?;
    fs::create_dir_all(rt, "now/repo")?;
    let lines = fs::read_to_string(rt, "commands")?;
    for line in lines.lines() {
        try_line(rt, line)?;
    }
    Ok(())
}

fn show_all(rt: &HostRuntime) -> io::Result<()> {
    let mut told = Told::new(rt.alloc());
    tell_root(rt, &mut told);
    tell_calls(rt, &mut told);
    show(rt, &told)?;
    try_lines(rt)
}

fn main(rt: HostRuntime) -> ExitCode {
    let status = start(&rt);
    match show_all(&rt) {
        Ok(()) => ExitCode::from(status),
        Err(_) => ExitCode::FAILURE,
    }
}
