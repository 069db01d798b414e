//! The lines of the demo, each by its place.
ghost use Rattle.std.specs.Prelude.{◌≡◌, ◌<◌, ◌≤◌, ◌+◌, ◌*◌, [], ◌∷◌, IfOk};
ghost use Rattle.cny_batch.specs.Demo as spec;

use crate::group::group_manifest;
use crate::line::{Line, Words};
use crate::package::package_manifest;
use cny_base::{Bytes, OutOfMemory};
use std::alloc::Global;

// What the group of the newest round is updated to.
const GROUP: &str = "group-demo=demo.example.com@ex:devel";

// A line of one word.
fn line_with(alloc: Global, word: &str, input: Bytes) -> Result<Line, OutOfMemory>
    ensures { IfOk result (λ line. line ≡ record { words = word.now ∷ []; input = input }) }
{
    let mut words = Vec::new(alloc);
    words.push(String::from_str(alloc, word)?)?;
    Ok(Line {
        words: Words::new(words),
        input,
    })
}

// A line of one word, without an input.
fn plain_line(alloc: Global, word: &str) -> Result<Line, OutOfMemory>
    ensures { IfOk result (λ line. line ≡ spec.plain_line word.now) }
{
    line_with(alloc, word, Bytes::from_vec(Vec::new(alloc)))
}

// The line that installs the group, or updates it.
fn update_line(alloc: Global) -> Result<Line, OutOfMemory>
    ensures { IfOk result (λ line. line ≡ spec.update_line) }
{
    let mut words = Vec::new(alloc);
    words.push(String::from_str(alloc, "update")?)?;
    words.push(String::from_str(alloc, GROUP)?)?;
    Ok(Line {
        words: Words::new(words),
        input: Bytes::from_vec(Vec::new(alloc)),
    })
}

// The line of a round at a place: a package, the group, or the update.
fn round_line(alloc: Global, packages: u64, round: u64, place: u64) -> Result<Line, OutOfMemory>
    requires { packages ≤ 200 }
    ensures { IfOk result (λ line. line ≡ spec.round_line packages round place) }
{
    if place < packages {
        let manifest = package_manifest(alloc, place + 1, round)?;
        return line_with(alloc, "cook", manifest);
    }
    if place == packages {
        let manifest = group_manifest(alloc, packages, round)?;
        return line_with(alloc, "cook", manifest);
    }
    update_line(alloc)
}

/// How many lines the demo of so many packages has.
pub fn line_count(packages: u64) -> u64
    requires { packages ≤ 200 }
    ensures { result ≡ spec.line_count packages }
{
    2 * packages + 6
}

/// The line of the demo at a place, counted from 0.
#[tactic(auto, unfolding(crate::specs::Demo::line_at))]
pub fn line_of(alloc: Global, packages: u64, place: u64) -> Result<Line, OutOfMemory>
    requires { packages ≤ 200 }
    ensures { IfOk result (λ line. line ≡ spec.line_at packages place) }
{
    let round = packages + 2;
    if place < round {
        return round_line(alloc, packages, 1, place);
    }
    if place - round < round {
        return round_line(alloc, packages, 2, place - round);
    }
    if place - round == round {
        return plain_line(alloc, "rollback");
    }
    plain_line(alloc, "verify")
}
