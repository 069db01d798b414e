//! Jobs as texts.
ghost use Rattle.std.specs.Prelude.{◌≡◌, ◌≤◌, ◌++◌, IfOk, OnOk, string_bytes};
ghost use Rattle.cny_report.specs.Jobs.{change_line, changes_text, note_text, undos_text, rolled_back_line, rolled_back_text};

use crate::lines::{Line, lines_text, push_lines};
use crate::note::Note;
use crate::troves::{nothing_changes, push_told};
use std::alloc::{AllocError, Global};
use std::fmt::Write;
use update_job::Change;
use update_job::cny_base::{OutOfMemory, Text};

impl Line for Change {
    ghost line = { change_line };

    fn push(&self, alloc: Global, out: &mut String) -> Result<(), OutOfMemory> {
        match self {
            Change::Installed(id) => push_told(alloc, out, "installed ", id),
            Change::Updated(id) => push_told(alloc, out, "updated ", id),
            Change::Erased(id) => push_told(alloc, out, "erased ", id),
        }
    }
}

/// What a job changes in the installed list: a line `installed T`, `updated T` or `erased T` for each change, in the order
/// given, or `nothing changes` where there is none.
pub fn changes_text(alloc: Global, changes: &[Change]) -> Result<Text, OutOfMemory>
    ensures value { IfOk result (λ text. text ≡ changes_text changes.now) }
{
    if changes.is_empty() {
        return nothing_changes(alloc);
    }
    lines_text(alloc, "", changes)
}

impl Line for Note {
    ghost line = { note_text };

    fn push(&self, alloc: Global, out: &mut String) -> Result<(), OutOfMemory> {
        let (number, paths) = (self.number, self.paths);
        write!(out, "r.{number} paths {paths}\n")?;
        push_lines(alloc, out, "  ", self.changes.get())
    }
}

/// Jobs in the order given: a line `r.N paths P` for each, and then its changes of the installed list as `changes_text` has
/// them, with two spaces before each line.
pub fn undos_text(alloc: Global, notes: &[Note]) -> Result<Text, OutOfMemory>
    ensures value { IfOk result (λ text. text ≡ undos_text notes.now) }
{
    lines_text(alloc, "", notes)
}

fn push_rolled_back(out: &mut String, number: u32) -> Result<(), AllocError>
    ensures { OnOk result (string_bytes out.new ≡ string_bytes out.old ++ rolled_back_line number) }
{
    write!(out, "rolled back r.{number}\n")
}

/// A line `rolled back r.N` for each of so many jobs, from the newest down.
pub fn rolled_back_text(alloc: Global, newest: u32, count: u32) -> Result<Text, OutOfMemory>
    requires { count ≤ newest }
    ensures value { IfOk result (λ text. text ≡ rolled_back_text newest count) }
{
    let mut text = String::new(alloc);
    for step in 0..count {
        push_rolled_back(&mut text, newest - step)?;
    }
    Ok(Text::from_string(text))
}
