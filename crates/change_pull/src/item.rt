//! The value of an item, as far as it came.
ghost use Rattle.std.specs.Prelude.{◌≡◌, ◌<◌, ◌≤◌, ◌+◌, ◌++◌, [], None, List, Option, ℕ, IfErr, OnOk, length, drop, vec_len};
ghost use Rattle.sha1.specs.Sha1.{sha1, Holds};
ghost use Rattle.change_pull.specs.Gathered.{IsGathered, HasRoom, is_due};

use change_set::cny_base::OutOfMemory;
use change_set::{CONTENT, END};
use journal_log::tree_disk::PIECE;
use sha1::Sha1;
use std::alloc::Global;

/// The bytes of a content's name.
pub(crate) const NAME_LEN: usize = 20;

/// The item that isn't whole. A part's value is kept until it is whole; of a content only its name and one piece.
#[derive(Drop)]
pub(crate) struct Item {
    pub tag: u8,
    pub len: u32,
    // A part's value, or a content's name, as far as it came.
    pub kept: Vec<u8>,
    // It was given what came of a content's bytes.
    pub hasher: Sha1,
    // Those of them that weren't written yet.
    pub piece: Vec<u8>,
}

impl Item {
    pub(crate) fn new(alloc: Global) -> Self {
        Item {
            tag: END,
            len: 0,
            kept: Vec::new(alloc),
            hasher: Sha1::new(),
            piece: Vec::new(alloc),
        }
    }

    /// A value of this length begins.
    pub(crate) fn begin(&mut self, tag: u8, len: u32)
        ensures { IsGathered self.new tag len [] None }
    {
        self.tag = tag;
        self.len = len;
        self.kept.clear();
        self.hasher = Sha1::new();
        self.piece.clear();
    }

    /// How many bytes may come at once, so that a content's name ends with a piece of the value, and what isn't written yet
    /// has room.
    pub(crate) fn room(&self) -> usize
        ensures some { 0 < result }
        ensures room { (count : ℕ) → count ≤ result → HasRoom self.now count }
    {
        let kept = self.kept.len();
        let waiting = self.piece.len();
        if self.tag == CONTENT && kept < NAME_LEN {
            NAME_LEN - kept
        } else if waiting < PIECE {
            PIECE - waiting
        } else {
            1
        }
    }

    /// The next bytes of the value.
    pub(crate) fn add(&mut self, bytes: &[u8]) -> Result<(), OutOfMemory>
        requires { HasRoom self.old (length bytes.now) }
        ensures { (tag len : ℕ) (value : List ℕ) (written : Option (List ℕ)) → IsGathered self.old tag len value written
            → OnOk result (IsGathered self.new tag len (value ++ bytes.now) written) }
    {
        if self.tag == END {
            return Ok(());
        }
        if self.tag != CONTENT || self.kept.len() < NAME_LEN {
            self.kept.extend_from_slice(bytes)?;
            return Ok(());
        }
        self.hasher.update(bytes);
        self.piece.extend_from_slice(bytes)?;
        Ok(())
    }

    /// Whether what isn't written yet is to be written now: where there is a whole piece, or the value is whole.
    pub(crate) fn is_due(&self, whole: bool) -> bool
        ensures { result ≡ is_due self.now whole }
    {
        self.tag == CONTENT && self.kept.len() == NAME_LEN && (whole || self.piece.len() >= PIECE)
    }

    /// The name of a content's bytes, all of which came. It is for one call.
    pub(crate) fn digest(&mut self) -> [u8; 20]
        ensures name { (bytes : List ℕ) → Holds self.old.hasher bytes → result ≡ sha1 bytes }
        ensures same { self.new ≡ record self.old { hasher = self.new.hasher } }
    {
        std::mem::replace(&mut self.hasher, Sha1::new()).finalize()
    }
}
