//! Change sets that come in pieces.
ghost use Rattle.std.specs.Prelude.{◌≡◌, ◌≢◌, ◌<◌, ◌≤◌, ◌^◌, ◌++◌, [], List, ℕ, None, Some, Option, IfErr, IfOk, IsTrue, MatchResult, OnErr, OnOk, length};
ghost use Rattle.cny_stream.specs.Decided.{Decided, Undecided};
ghost use Rattle.change_set.specs.cny-base.declared.refusal.Refusal.{Refusal};
ghost use Rattle.change_set.specs.ChangeSet.{IsSetStream};
ghost use Rattle.change_set.specs.FirstFault.{IsFirstFault, IsFaultOf, IsRefusalOrMemory};
ghost use Rattle.journal_log.specs.cny-base.Below.{is_below};
ghost use Rattle.journal_log.specs.cny-base.Path.{is_path, root};
ghost use Rattle.journal_log.specs.tree-disk.Tree.{Name, Tree};
ghost use Rattle.change_pull.specs.Files.{HasRoomFrom, HoldsFiles, staged_of};
ghost use Rattle.change_pull.specs.Feeds.{Feeds, HasFeedCause};
ghost use Rattle.change_pull.specs.Given.{IsGiven, IsUndecided, IfRefused, UnlessFailing, count_of, set_in, told_stop};
ghost use Rattle.change_pull.specs.Incoming.{StandNumbered};
ghost use Rattle.change_pull.specs.Open.{IsOpen, files};

use crate::feeding::take_all;
use crate::halt::Halt;
use crate::item::Item;
use crate::reading::{MAGIC, Reading};
use crate::staged::StagedList;
use change_set::cny_base::{Fault, Path, Refusal, Stop};
use change_set::{Index, Parts, one_fault};
use cny_stream::Cutter;
use journal_log::tree_disk::TreeDisk;
use std::alloc::Global;

/// What a change set has that came in pieces: its parts, and where its contents stand.
pub struct Pulled {
    pub parts: Parts,
    /// In the order of the stream: that of number K, from 0, stands in the file K.
    pub staged: StagedList,
}

// Written by hand, so that to let a value go is a single call wherever a function ends early.
impl Drop for Pulled {
    fn drop(self) {
        let Pulled {
            parts: _parts,
            staged: _staged,
        } = self;
    }
}

/// A change set that comes in pieces.
#[derive(Drop)]
pub struct Pull {
    reading: Reading,
    // Why it was stopped.
    over: Option<Halt>,
}

impl Reading {
    // What was pulled, where the end was there, and nothing behind it.
    fn pulled(self) -> Result<Pulled, Fault>
        ensures value { (dir : Name) (given : List ℕ) (it : IsOpen self dir given) → IfOk result (λ pulled.
            IsSetStream it.set given × (pulled.parts ≡ it.set.parts) × (pulled.staged ≡ staged_of dir it.set.contents) × (it.written ≡ None)) }
        ensures few { (dir : Name) (given : List ℕ) (it : IsOpen self dir given) → OnOk result (length it.set.contents < 2 ^ 64) }
        ensures refused { (dir : Name) (given : List ℕ) → IsOpen self dir given → IfErr result (IsFaultOf given) }
    {
        // It has room in a count.
        let _count = self.staged.len();
        if !self.ended {
            return Err(Fault::Refused(Refusal::Malformed { at: self.given }));
        }
        let Reading {
            cutter: _,
            given: _,
            start: _,
            parts,
            index: _index,
            staged,
            item: _item,
            ended: _,
        } = self;
        Ok(Pulled {
            parts: Parts::new(parts),
            staged: StagedList::new(staged),
        })
    }
}

impl Pull {
    /// Nothing of a change set; takes no memory.
    pub fn new(alloc: Global) -> Self
        ensures given { (dir : Name) → IsGiven result dir [] }
        ensures none { told_stop result ≡ None }
        ensures empty { count_of result ≡ 0 }
    {
        Pull {
            reading: Reading {
                cutter: Cutter::new(MAGIC),
                given: 0,
                start: 0,
                parts: Vec::new(alloc),
                index: Index::new(alloc),
                staged: Vec::new(alloc),
                item: Item::new(alloc),
                ended: false,
            },
            over: None,
        }
    }

    /// Gives it the next bytes of the stream, and writes contents to the files of a directory, the first one to the file 0 and
    /// so on, in pieces of 64 KiB. A refusal comes exactly where what was given decides it, and again from then on, as does any
    /// other stop.
    ///
    /// The directory isn't `/` and has at most 1,013 bytes. Where the disk tells its tree it stands, and at the numbers that
    /// come nothing or a file.
    pub fn feed<D: TreeDisk>(
        &mut self,
        alloc: Global,
        disk: &mut D,
        dir: &Path,
        piece: &[u8],
    ) -> Result<(), Stop>
        requires short { length dir.now ≤ 1013 }
        requires not_root { dir.now ≢ root }
        requires room { told_stop self.old ≡ None → IsTrue D.disk.tells
            → HasRoomFrom (D.disk.reads disk.old) dir.now (count_of self.old) }
        // What was given before, and this piece, is what it was given; unless it failed.
        ensures given { (given : List ℕ) → IsGiven self.old dir.now given
            → UnlessFailing result (IsGiven self.new dir.now (given ++ piece.now)) }
        // Ok where nothing is decided, and else the refusal that is.
        ensures undecided { (given : List ℕ) → IsGiven self.old dir.now given
            → OnOk result (Undecided IsFirstFault (given ++ piece.now)) }
        ensures decided { (given : List ℕ) → IsGiven self.old dir.now given
            → IfErr result (IfRefused (Decided IsFirstFault (given ++ piece.now))) }
        // A stop is told again from then on, and nothing is done.
        ensures kept { MatchResult result (λ done. told_stop self.new ≡ None) (λ stop. told_stop self.new ≡ Some stop) }
        ensures again { (stop : Stop) → told_stop self.old ≡ Some stop → (result ≡ Err stop) × (self.new ≡ self.old) × (disk.new ≡ disk.old) }
        // Where the disk failed, its count of faults rose.
        ensures cause { told_stop self.old ≡ None → HasFeedCause (D.disk.faults disk.old) (D.disk.faults disk.new) result }
        // However it ends, only names below the directory change.
        ensures feeds { Feeds D.disk (is_below dir.now) disk.old disk.new }
        ensures room { IsTrue D.disk.tells → OnOk result (HasRoomFrom (D.disk.reads disk.new) dir.now (count_of self.new)) }
        // Where just the files stood there that are to stand, so they do.
        ensures stands { (given : List ℕ) (it : IsUndecided self.old dir.now given) → IsTrue D.disk.tells → HoldsFiles (D.disk.reads disk.old) dir.now (files it)
            → OnOk result ((now : IsUndecided self.new dir.now (given ++ piece.now)) × HoldsFiles (D.disk.reads disk.new) dir.now (files now)) }
    {
        match self.over {
            Some(halt) => Err(halt.stop()),
            None => match take_all(alloc, disk, dir, &mut self.reading, piece) {
                Ok(()) => Ok(()),
                Err(halt) => {
                    self.over = Some(halt);
                    Err(halt.stop())
                }
            },
        }
    }

    /// What was pulled, where all that it was given is the stream of a change set; otherwise the first fault. Takes no memory.
    pub fn end(self) -> Result<Pulled, Fault>
        // The parts, and the contents that stand in the files, are the change set.
        ensures value { (dir : Name) (given : List ℕ) (it : IsUndecided self dir given) → IfOk result (λ pulled. (tree : Tree)
            → HoldsFiles tree dir (files it) → IsSetStream (set_in tree pulled) given) }
        // Each content stands under its number, with its SHA-1 as its name and the size that is told.
        ensures staged { (dir : Name) (given : List ℕ) (it : IsUndecided self dir given) → IsTrue (is_path dir) → dir ≢ root
            → IfOk result (λ pulled. (tree : Tree) → HoldsFiles tree dir (files it) → StandNumbered dir pulled.staged tree) }
        ensures refused { (dir : Name) (given : List ℕ) → IsGiven self dir given → IfErr result (IsFaultOf given) }
        ensures exact { (dir : Name) (given : List ℕ) (refusal : Refusal) → IsGiven self dir given → IsFirstFault given refusal
            → MatchResult result (λ pulled. ⊥) (IsRefusalOrMemory refusal) }
    {
        one_fault();
        let Pull { reading, over } = self;
        match over {
            Some(halt) => Err(halt.fault()),
            None => reading.pulled(),
        }
    }
}
