//! Local changes of trees.
ghost use Rattle.root_edits.specs.change-set.ChangeSet.{HasContents};

use crate::plans::disk_at;
use line_words::{Answer, Line};
use root_edits::change_set::{ChangeSet, encode};
use root_edits::cny_base::{Bytes, Name};
use root_edits::local;
use root_edits::trove_stream::Installed;

// How many bytes there are, and these in hexadecimal digits.
fn stream(bytes: &Bytes, answer: &mut Answer) {
    answer.number(bytes.get().len() as u64);
    answer.text(" ");
    answer.hex(bytes.get());
}

// The stream of a change set.
fn told(set: &ChangeSet, answer: &mut Answer)
    requires { HasContents set.now }
{
    answer.outcome(encode(answer.alloc(), set), stream);
}

fn changed(installed: &Installed, name: &Name, line: &mut Line, answer: &mut Answer) {
    if let Some(mut disk) = disk_at(line, 1) {
        match local(answer.alloc(), &mut disk, installed, name) {
            Ok(set) => told(&set, answer),
            Err(stop) => answer.stopped(&stop),
        }
    }
}

/// `local WORDS NODES TROVES NAME`: the stream of the change set of what was changed of the named trove.
pub fn edits(line: &mut Line, answer: &mut Answer) {
    if let Some(name) = line.trove_name(3) {
        if let Some(installed) = line.installed(2) {
            changed(&installed, &name, line, answer);
        }
    }
}
