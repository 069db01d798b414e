//! The contents that a job carries: in memory, or staged in files of the journal's directory.
ghost use Rattle.std.specs.Prelude.{◌≡◌, false, Option, List, IfOk, IfSome, None};
ghost use Rattle.std.specs.Option.{option_copied};
ghost use Rattle.std.specs.List.Sorted.{IsStrictlySortedBy};
ghost use Rattle.change_set.specs.declared.change.Carried as declared;
ghost use Rattle.change_set.specs.ChangeSet.{content_cmp};
ghost use Rattle.local_db.specs.cny-base.Reserved.{private_directory};
ghost use Rattle.local_db.specs.journal-log.Own.{staged};
ghost use Rattle.local_db.specs.journal-log.declared.put.Want as want;
ghost use Rattle.local_db.specs.tree-disk.Tree.{Tree};
ghost use Rattle.tree_scan.specs.declared.mark.Mark.TheVariants as mark;
ghost use Rattle.change_pull.specs.Incoming.{AreHashed, StandNumbered};
ghost use Rattle.job_targets.specs.Carrying.{IsCarriedOrNone, IsPlaceOrNone, IsWantOf};
ghost use Rattle.job_targets.specs.Contents.{carried_bytes, of_size};
ghost use Rattle.job_targets.specs.Old.{is_staged};
ghost use Rattle.job_targets.specs.CarryingLaws.{any_given, listed_in, no_condition};

use change_pull::{Staged, StagedList};
use change_set::Carried;
use local_db::cny_base::{Bytes, Mode, OutOfMemory};
use local_db::journal_log::Want;
use std::alloc::Global;

/// The contents that a job carries, wherever their bytes are.
pub trait Carries {
    /// What is so of them on every disk.
    ghost sound: { Self → Type 0 };

    /// They, by what a disk reads.
    ghost listed: { Self → Tree → List declared.Carried };

    /// What is so of them by what a disk reads.
    ghost stand: { Self → Tree → Type 0 };

    /// What is so of each write that takes one of them, or none.
    ghost gives: { Self → want.Want → Type 0 };

    /// A file of this mode, with the content of this size and SHA-1; none where no such content is carried.
    fn file(
        &self,
        alloc: Global,
        mode: Mode,
        size: u32,
        name: &[u8; 20],
    ) -> Result<Option<Want>, OutOfMemory>
        requires { sound self.now }
        ensures found { IfOk result (λ found. (tree : Tree) → stand self.now tree → IsCarriedOrNone (listed self.now tree) tree mode size name.now found) }
        ensures marked { IfOk result (λ found. IfSome found (IsWantOf (gives self.now) (mark.File mode size name.now))) };

    /// A write whose bytes are given takes none of them.
    ghost others: { (contents : Self) (w : want.Want) → is_staged w ≡ false → gives contents w };
}

/// Contents in memory.
#[derive(Drop)]
pub struct InMemory<'a> {
    pub contents: &'a [Carried],
}

// The content that is carried under a name, if it has this size.
fn carried_content<'a>(carried: &'a [Carried], size: u32, name: &[u8; 20]) -> Option<&'a [u8]>
    requires { IsStrictlySortedBy content_cmp carried.now }
    ensures { option_copied result ≡ of_size size (carried_bytes carried.now name.now) }
{
    match carried.binary_search_by(|content| content.name.cmp(name)) {
        Ok(place) => {
            let bytes = carried[place].bytes.get();
            if bytes.len() == size as usize {
                Some(bytes)
            } else {
                None
            }
        }
        Err(_) => None,
    }
}

impl<'a> Carries for InMemory<'a> {
    ghost sound = { λ c. AreHashed c.contents.now };

    ghost listed = { λ c tree. c.contents.now };

    ghost stand = { λ c tree. no_condition };

    ghost gives = { λ c w. is_staged w ≡ false };

    fn file(
        &self,
        alloc: Global,
        mode: Mode,
        size: u32,
        name: &[u8; 20],
    ) -> Result<Option<Want>, OutOfMemory> {
        match carried_content(self.contents, size, name) {
            Some(bytes) => {
                let bytes = Bytes::new(alloc, bytes)?;
                Ok(Some(Want::File { mode, bytes }))
            }
            None => Ok(None),
        }
    }

    ghost others = { λ c w given. given };
}

// The place of the staged content of this name, if it has this size.
fn place_of(contents: &[Staged], size: u32, name: &[u8; 20]) -> Option<usize>
    ensures { (tree : Tree) → StandNumbered (staged private_directory) contents.now tree → IsPlaceOrNone contents.now tree size name.now result }
{
    match contents.binary_search_by(|one| one.name.cmp(name)) {
        Ok(place) => {
            let its_size = contents[place].size;
            if its_size == size { Some(place) } else { None }
        }
        Err(_) => None,
    }
}

impl Carries for StagedList {
    ghost sound = { λ c. no_condition };

    ghost listed = { λ c tree. listed_in tree c };

    ghost stand = { λ c tree. StandNumbered (staged private_directory) c tree };

    ghost gives = { λ c w. no_condition };

    // A number that has no room in four bytes is want of memory, as it is of a log.
    fn file(
        &self,
        _alloc: Global,
        mode: Mode,
        size: u32,
        name: &[u8; 20],
    ) -> Result<Option<Want>, OutOfMemory> {
        let Some(place) = place_of(self.get(), size, name) else {
            return Ok(None);
        };
        let Ok(number) = u32::try_from(place) else {
            return Err(OutOfMemory);
        };
        Ok(Some(Want::Staged {
            mode,
            number,
            size,
            name: *name,
        }))
    }

    ghost others = { any_given };
}
