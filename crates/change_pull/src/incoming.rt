//! Contents of a change set, wherever their bytes are: in memory, or in files of a disk.
ghost use Rattle.std.specs.Prelude.{◌≡◌, ◌<◌, ℕ, List, Option, IfErr, IsTrue, Ok, length};
ghost use Rattle.std.specs.FinMap.{get};
ghost use Rattle.std.specs.List.{list_any};
ghost use Rattle.std.specs.List.Sorted.{IsStrictlySortedBy};
ghost use Rattle.journal_log.specs.tree-disk.Clear.{is_within};
ghost use Rattle.journal_log.specs.tree-disk.Steps.{IsDiskStop, Tests};
ghost use Rattle.journal_log.specs.tree-disk.Tree.{Name, Tree};
ghost use Rattle.change_set.specs.ChangeSet.{content_cmp};
ghost use Rattle.change_set.specs.declared.change.Carried.{Carried};
ghost use Rattle.change_pull.specs.Incoming.{content_at, is_carried, or_no_bytes, HaveNames, StandStaged};
ghost use Rattle.change_pull.specs.IncomingLaws.{carried_many, carried_steady, staged_many, staged_steady};

use crate::staged::StagedList;
use change_set::CarriedList;
use change_set::cny_base::{Bytes, Stop};
use content_store::file_at;
use journal_log::tree_disk::TreeDisk;
use std::alloc::Global;

/// The contents of a change set, by their places in its order. Of each the name and the size are at hand, and its bytes where
/// they were read.
pub trait Incoming {
    /// How many there are.
    ghost many: { Self → ℕ };

    /// Whether these have their names.
    ghost named: { Self → List Carried → Type 0 };

    /// Whether these are the contents, by what a disk reads, on which they depend within a directory alone.
    ghost stand: { Self → Name → List Carried → Tree → Type 0 };

    /// The bytes of one of them, with what was read of it.
    ghost held: { Self → ℕ → Option (List ℕ) → List ℕ };

    /// How many there are.
    fn count(&self) -> usize
        ensures { result ≡ many self.now };

    /// The name of one of them.
    fn name(&self, place: usize) -> [u8; 20]
        requires { place < many self.now }
        ensures { (listed : List Carried) → named self.now listed → result ≡ (content_at listed place).name };

    /// Whether there is one of this name and this size. Where they rise by their names, it is found fast.
    fn has(&self, name: &[u8; 20], size: usize) -> bool
        ensures { (dir : Name) (listed : List Carried) (tree : Tree) → IsStrictlySortedBy content_cmp listed
            → stand self.now dir listed tree → result ≡ list_any (is_carried name.now size) listed };

    /// Reads the bytes of one of them, where they aren't in memory.
    fn read<D: TreeDisk>(
        &self,
        alloc: Global,
        disk: &mut D,
        place: usize,
    ) -> Result<Option<Bytes>, Stop>
        requires { place < many self.now }
        ensures tests { (dir : Name) (listed : List Carried) → named self.now listed
            → (IsTrue D.disk.tells → stand self.now dir listed (D.disk.reads disk.old))
            → Tests D.disk (held self.now place) (λ tree. Ok (content_at listed place).bytes) disk.old disk.new result }
        ensures stops { IfErr result IsDiskStop };

    /// The bytes of one of them, with what was read of it.
    fn bytes<'a>(&'a self, place: usize, read: &'a Option<Bytes>) -> &'a [u8]
        requires { place < many self.now }
        ensures { result.now ≡ held self.now place read.now };

    /// Those that have their names are as many.
    ghost counted: { (contents : Self) (listed : List Carried) → named contents listed → length listed ≡ many contents };

    /// They stay where nothing changes within the directory.
    ghost steady: { (contents : Self) (dir : Name) (listed : List Carried) (x y : Tree) → stand contents dir listed x
        → ((q : Name) → IsTrue (is_within dir q) → get y q ≡ get x q) → stand contents dir listed y };
}

impl Incoming for CarriedList {
    ghost many = { λ contents. length contents };

    ghost named = { λ contents listed. listed ≡ contents };

    ghost stand = { λ contents dir listed tree. listed ≡ contents };

    ghost held = { λ contents place read. (content_at contents place).bytes };

    fn count(&self) -> usize {
        self.get().len()
    }

    fn name(&self, place: usize) -> [u8; 20] {
        self.get()[place].name
    }

    fn has(&self, name: &[u8; 20], size: usize) -> bool {
        let contents = self.get();
        match contents.binary_search_by(|carried| carried.name.cmp(name)) {
            Ok(place) => contents[place].bytes.get().len() == size,
            Err(_) => false,
        }
    }

    fn read<D: TreeDisk>(
        &self,
        _alloc: Global,
        _disk: &mut D,
        _place: usize,
    ) -> Result<Option<Bytes>, Stop> {
        Ok(None)
    }

    fn bytes<'a>(&'a self, place: usize, _read: &'a Option<Bytes>) -> &'a [u8] {
        self.get()[place].bytes.get()
    }

    ghost counted = { carried_many };

    ghost steady = { carried_steady };
}

impl Incoming for StagedList {
    ghost many = { λ contents. length contents };

    ghost named = { λ contents listed. HaveNames contents listed };

    ghost stand = { λ contents dir listed tree. StandStaged contents dir listed tree };

    ghost held = { λ contents place read. or_no_bytes read };

    fn count(&self) -> usize {
        self.get().len()
    }

    fn name(&self, place: usize) -> [u8; 20] {
        self.get()[place].name
    }

    fn has(&self, name: &[u8; 20], size: usize) -> bool {
        let contents = self.get();
        match contents.binary_search_by(|one| one.name.cmp(name)) {
            Ok(place) => contents[place].size as usize == size,
            Err(_) => false,
        }
    }

    // Where no file stands there are no bytes.
    fn read<D: TreeDisk>(
        &self,
        alloc: Global,
        disk: &mut D,
        place: usize,
    ) -> Result<Option<Bytes>, Stop> {
        file_at(alloc, disk, &self.get()[place].path)
    }

    fn bytes<'a>(&'a self, _place: usize, read: &'a Option<Bytes>) -> &'a [u8] {
        match read {
            Some(bytes) => bytes.get(),
            None => &[],
        }
    }

    ghost counted = { staged_many };

    ghost steady = { staged_steady };
}
