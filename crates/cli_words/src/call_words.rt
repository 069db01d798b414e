//! What the words of the command line call: one command, or several lines.
ghost use Rattle.std.specs.Prelude.{◌≡◌, Result, string_bytes, map};
ghost use Rattle.cny_laws.specs.declared.failure.Failure.{Failure};
ghost use Rattle.cli_words.specs.declared.call_words.Call.{Call};
ghost use Rattle.cli_words.specs.Calls.{AreCall, demo_of, IsCallOrMemory, kind_of as kind_by_first, package_count as count_of_packages, ReadsCall};

use crate::words::{Command, alone, read_words, words_behind};
use cny_laws::Failure;
use cny_version::cny_base::read_decimal;
use std::alloc::Global;

// The demo is one of so many packages at most.
const PACKAGES_LIMIT: u64 = 200;

/// What words call.
#[derive(Drop)]
pub enum Call {
    /// One command.
    Single { command: Command },
    /// The lines of a batch, which is the input.
    Batch,
    /// The lines of the demo of so many packages.
    Demo { packages: u64 },
}

// What the first word says.
#[derive(Clone, Copy)]
enum Kind {
    Batch,
    Demo,
    // It is the first word of a command, or of none.
    Single,
}

fn kind_of(words: &[String]) -> Kind
    ensures { result ≡ kind_by_first (map string_bytes words.now) }
{
    let [word, ..] = words else {
        return Kind::Single;
    };
    if word.as_str() == "batch" {
        return Kind::Batch;
    }
    if word.as_str() == "demo" {
        return Kind::Demo;
    }
    Kind::Single
}

// The number of packages that a word is.
fn package_count(word: &[u8]) -> Option<u64>
    ensures { result ≡ count_of_packages word.now }
{
    let packages = read_decimal(word)?;
    if packages == 0 || packages > PACKAGES_LIMIT {
        return None;
    }
    Some(packages)
}

// The words after `demo`.
fn read_demo(words: &[String]) -> Result<Call, Failure>
    ensures { result ≡ demo_of (map string_bytes words.now) }
{
    let [word, rest @ ..] = words else {
        return Err(Failure::Usage);
    };
    if !rest.is_empty() {
        return Err(Failure::Usage);
    }
    match package_count(word.as_bytes()) {
        Some(packages) => Ok(Call::Demo { packages }),
        None => Err(Failure::Usage),
    }
}

/// What the words call, or why they call nothing.
pub fn read_call(alloc: Global, words: &[String]) -> Result<Call, Failure>
    // What is answered, the words are.
    ensures is { IsCallOrMemory (AreCall (map string_bytes words.now)) result }
    // What the words are is answered.
    ensures read { (expected : Result Call Failure) → AreCall (map string_bytes words.now) expected → ReadsCall expected result }
{
    match kind_of(words) {
        Kind::Batch => alone(words_behind(words), Call::Batch),
        Kind::Demo => read_demo(words_behind(words)),
        Kind::Single => {
            let command = read_words(alloc, words)?;
            Ok(Call::Single { command })
        }
    }
}
