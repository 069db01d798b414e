//! Troves that are to be sent, as they are gathered.
ghost use Rattle.std.specs.Prelude.{◌≡◌, ◌+◌, ◌++◌, [], ◌∷◌, List, length, IfOk, OnOk, IsTrue, ◌↔◌, false};
ghost use Rattle.change_set.specs.trove-parts.declared.files.FileAt.{FileAt};
ghost use Rattle.change_set.specs.trove-parts.declared.id.TroveId.{TroveId};
ghost use Rattle.change_set.specs.trove-parts.Refs.{AreRefs};
ghost use Rattle.repo_mirror.specs.Lengths.{content_length, contents_length, trove_length};
ghost use Rattle.repo_mirror.specs.Missing.{has_one_of, missing_of, too_much};
ghost use Rattle.repo_mirror.specs.Sums.{AreNamesOf, IsSummed};

use crate::missing_troves::SENT_LIMIT;
use change_set::cny_base::{Bytes, Copies, OutOfMemory, PARTS_LIMIT, Refusal, What};
use change_set::cny_stream::FileRec;
use change_set::trove_parts::{FileAt, TroveId};
use change_set::trove_stream::{Trove, encode};
use std::alloc::Global;
use std::collections::BTreeSet;

// What an item of a trove has before its stream, and an item of a content before its bytes.
const HEAD_LEN: u64 = 5;

const CONTENT_HEAD_LEN: u64 = 25;

// The magic and the end.
const FRAME_LEN: u64 = 13;

/// Troves, and how long the stream of their absolute change set is.
pub(crate) struct Sent {
    pub(crate) troves: Vec<Trove>,
    // The names of the contents that their files have.
    pub(crate) names: BTreeSet<[u8; 20]>,
    pub(crate) size: u64,
}

/// How many troves there were, and how long the stream was.
#[derive(Clone, Copy)]
pub(crate) struct Mark {
    pub(crate) number: usize,
    pub(crate) size: u64,
}

// Written by hand, so that to let the troves go is a single call wherever a function ends early.
impl Drop for Sent {
    fn drop(self) {
        let Sent {
            troves: _troves,
            names: _names,
            size: _,
        } = self;
    }
}

// The sum. Where it has no room the answer is want of memory, since no machine holds so many bytes.
fn sum_of(one: u64, other: u64) -> Result<u64, OutOfMemory>
    ensures { IfOk result (λ sum. sum ≡ one + other) }
{
    one.checked_add(other).ok_or(OutOfMemory)
}

// Adds the name of a file's content, and answers the length of the item that comes with it.
fn add_content(names: &mut BTreeSet<[u8; 20]>, rec: &FileRec) -> Result<u64, OutOfMemory>
    ensures length { (before : List FileAt) → AreNamesOf before names.old → IfOk result (λ len. len ≡ content_length before rec.now) }
    ensures names { (before : List FileAt) (file : FileAt) → AreNamesOf before names.old → file.rec ≡ rec.now
        → OnOk result (AreNamesOf (before ++ file ∷ []) names.new) }
{
    let FileRec::File { size, name, .. } = rec else {
        return Ok(0);
    };
    if names.insert(*name)? {
        return Ok(CONTENT_HEAD_LEN + u64::from(*size));
    }
    Ok(0)
}

// Adds the names of the contents of files, and answers the length of the items that come with them.
fn add_contents(names: &mut BTreeSet<[u8; 20]>, files: &[FileAt]) -> Result<u64, OutOfMemory>
    ensures length { (before : List FileAt) → AreNamesOf before names.old → IfOk result (λ len. len ≡ contents_length before files.now) }
    ensures names { (before : List FileAt) → AreNamesOf before names.old → OnOk result (AreNamesOf (before ++ files.now) names.new) }
{
    let mut size = 0;
    for file in files {
        size = sum_of(size, add_content(names, &file.rec)?)?;
    }
    Ok(size)
}

// The length of a trove's item.
fn item_len(alloc: Global, trove: &Trove) -> Result<u64, OutOfMemory>
    ensures { IfOk result (λ len. len ≡ trove_length trove.now) }
{
    let mut stream = Bytes::new(alloc, b"")?;
    encode(alloc, trove, &mut stream)?;
    sum_of(HEAD_LEN, stream.get().len() as u64)
}

// Whether the trove has none of these ids, which strictly rise.
fn is_missing(ids: &[TroveId], trove: &Trove) -> bool
    requires { AreRefs ids.now }
    ensures { IsTrue result ↔ (has_one_of ids.now trove.now ≡ false) }
{
    match ids.binary_search(trove.id()) {
        Ok(_) => false,
        Err(_) => true,
    }
}

impl Sent {
    /// No troves.
    pub(crate) fn new(alloc: Global) -> Self
        ensures troves { result.troves.items ≡ [] }
        ensures summed { IsSummed result }
    {
        Sent {
            troves: Vec::new(alloc),
            names: BTreeSet::new(alloc),
            size: FRAME_LEN,
        }
    }

    /// How many troves there are, and how long the stream is.
    pub(crate) fn mark(&self) -> Mark
        ensures number { result.number ≡ length self.now.troves.items }
        ensures size { result.size ≡ self.now.size }
    {
        Mark {
            number: self.troves.len(),
            size: self.size,
        }
    }

    /// The troves.
    pub(crate) fn into_troves(self) -> Vec<Trove>
        ensures { result.items ≡ self.troves.items }
    {
        let Sent {
            troves,
            names: _names,
            size: _,
        } = self;
        troves
    }

    // Adds a trove.
    fn push(&mut self, alloc: Global, trove: &Trove) -> Result<(), OutOfMemory>
        requires { IsSummed self.old }
        ensures troves { OnOk result (self.new.troves.items ≡ self.old.troves.items ++ trove.now ∷ []) }
        ensures summed { OnOk result (IsSummed self.new) }
    {
        let item = item_len(alloc, trove)?;
        let contents = add_contents(&mut self.names, trove.files())?;
        self.size = sum_of(self.size, sum_of(item, contents)?)?;
        self.troves.push(trove.copy()?)?;
        Ok(())
    }

    /// Adds those of a commit's troves that have none of these ids, which strictly rise.
    pub(crate) fn push_missing(
        &mut self,
        alloc: Global,
        ids: &[TroveId],
        commit: &[Trove],
    ) -> Result<(), OutOfMemory>
        requires ids { AreRefs ids.now }
        requires summed { IsSummed self.old }
        ensures troves { OnOk result (self.new.troves.items ≡ self.old.troves.items ++ missing_of ids.now commit.now) }
        ensures summed { OnOk result (IsSummed self.new) }
    {
        for trove in commit {
            if is_missing(ids, trove) {
                self.push(alloc, trove)?;
            }
        }
        Ok(())
    }

    /// Why they can't be sent at once.
    pub(crate) fn too_much(&self) -> Option<Refusal>
        requires { IsSummed self.now }
        ensures { result ≡ too_much self.now.troves.items }
    {
        let number = self.troves.len();
        if number > PARTS_LIMIT {
            return Some(Refusal::TooLarge {
                what: What::ChangeSet,
                size: number as u64,
            });
        }
        if self.size > SENT_LIMIT {
            return Some(Refusal::TooLarge {
                what: What::ChangeSet,
                size: self.size,
            });
        }
        None
    }
}
