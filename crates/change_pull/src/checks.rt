//! What the next bytes of a change set give.
ghost use Rattle.std.specs.Prelude.{◌≡◌, ◌≢◌, ◌⊎◌, ◌↔◌, ◌≤◌, ◌+◌, ◌++◌, [], ◌∷◌, List, Option, None, ℕ, IfErr, IsTrue, OnOk, true, false, length};
ghost use Rattle.cny_stream.specs.Item.{item_bytes};
ghost use Rattle.cny_stream.specs.Cut.{head_of};
ghost use Rattle.cny_stream.specs.Decided.{Decided};
ghost use Rattle.change_set.specs.declared.change.Carried.{Carried};
ghost use Rattle.change_set.specs.declared.change.ChangeSet.{ChangeSet};
ghost use Rattle.change_set.specs.declared.change.Part.{Part};
ghost use Rattle.change_set.specs.FirstFault.{ComesAfter, IsFirstFault, IsItemOf};
ghost use Rattle.change_set.specs.Index.{IsIndexOf};
ghost use Rattle.change_set.specs.Reading.{last_name, IsNextOf};
ghost use Rattle.journal_log.specs.tree-disk.Tree.{Name};
ghost use Rattle.change_pull.specs.Files.{files_of, staged_from, staged_of};
ghost use Rattle.change_pull.specs.Front.{front_bytes, tags_behind_set};
ghost use Rattle.change_pull.specs.Gathered.{IsContentSoFar};
ghost use Rattle.change_pull.specs.Halts.{HaltsAt, IfRefusal, IsNoFault};
ghost use Rattle.change_pull.specs.Open.{HasKept, IsBegun, IsOpenWith, IsPushed, IsWhole};

use crate::halt::Halt;
use crate::reading::Reading;
use crate::staged::Staged;
use crate::write::path_of;
use change_set::cny_base::{CONTENT_ITEM_LIMIT, PARTS_LIMIT, Path, TextFault};
use change_set::trove_stream::{distinct_rels, distinct_troves};
use change_set::{CONTENT, CONTENT_TAGS, PART_TAGS, RELATIVE, TROVE, part_of};
use cny_stream::Event;
use std::alloc::Global;

/// The tags of the items that may come next.
pub(crate) fn tags_of(reading: &Reading) -> &'static [u8]
    ensures open { (dir : Name) (set : ChangeSet) → HasKept reading.now dir set → reading.now.ended ≡ false
        → result.now ≡ tags_behind_set set }
    ensures ended { reading.now.ended ≡ true → result.now ≡ [] }
{
    if reading.ended {
        &[]
    } else if reading.staged.is_empty() && reading.parts.len() < PARTS_LIMIT {
        PART_TAGS
    } else {
        CONTENT_TAGS
    }
}

/// Decides what the next bytes gave.
pub(crate) fn decide(
    alloc: Global,
    reading: &mut Reading,
    dir: &Path,
    event: Event,
) -> Result<(), Halt>
    requires { length dir.now ≤ 1013 }
    ensures calm { IfErr result IsNoFault }
    ensures grows { length reading.old.staged.items ≤ length reading.new.staged.items }
    ensures opens { (given : List ℕ) (files : List (List ℕ)) → IsPushed reading.old dir.now given event files
        → OnOk result (IsOpenWith reading.new dir.now given files) }
    ensures refused { (given : List ℕ) (files : List (List ℕ)) → IsPushed reading.old dir.now given event files
        → IfErr result (IfRefusal (Decided IsFirstFault given)) }
{
    match event {
        Event::More => Ok(()),
        Event::Begun => {
            reading.start = reading.given;
            Ok(())
        }
        Event::NoMagic => Err(Halt::Malformed { at: 0 }),
        Event::Unexpected => Err(Halt::Malformed { at: reading.start }),
        Event::Head { tag, len } => begin(alloc, reading, dir, tag, len),
        Event::Value { whole } => {
            if whole {
                finish(alloc, reading, dir)
            } else {
                Ok(())
            }
        }
    }
}

// Behind the head of an item.
fn begin(alloc: Global, reading: &mut Reading, dir: &Path, tag: u8, len: u32) -> Result<(), Halt>
    requires { length dir.now ≤ 1013 }
    ensures calm { IfErr result IsNoFault }
    ensures grows { length reading.old.staged.items ≤ length reading.new.staged.items }
    ensures opens { (set : ChangeSet) → IsBegun reading.old dir.now set tag len
        → OnOk result (IsOpenWith reading.new dir.now (front_bytes set ++ head_of tag len) (files_of set.contents None)) }
    ensures refused { (set : ChangeSet) → IsBegun reading.old dir.now set tag len
        → IfErr result (IfRefusal (Decided IsFirstFault (front_bytes set ++ head_of tag len))) }
{
    if tag == CONTENT && len > CONTENT_ITEM_LIMIT {
        return Err(Halt::TooLarge {
            size: u64::from(len - 20),
        });
    }
    reading.item.begin(tag, len);
    if len > 0 {
        return Ok(());
    }
    finish(alloc, reading, dir)
}

// Behind an item.
fn finish(alloc: Global, reading: &mut Reading, dir: &Path) -> Result<(), Halt>
    requires { length dir.now ≤ 1013 }
    ensures calm { IfErr result IsNoFault }
    ensures grows { length reading.old.staged.items ≤ length reading.new.staged.items }
    ensures opens { (set : ChangeSet) (tag : ℕ) (value : List ℕ) (written : Option (List ℕ)) → IsWhole reading.old dir.now set tag value written
        → OnOk result (IsOpenWith reading.new dir.now (front_bytes set ++ item_bytes tag value) (files_of set.contents written)) }
    ensures refused { (set : ChangeSet) (tag : ℕ) (value : List ℕ) (written : Option (List ℕ)) → IsWhole reading.old dir.now set tag value written
        → IfErr result (IfRefusal (Decided IsFirstFault (front_bytes set ++ item_bytes tag value))) }
{
    // A file record of an item with the stream of a part is one of that part.
    distinct_troves();
    distinct_rels();
    let tag = reading.item.tag;
    if tag == TROVE || tag == RELATIVE {
        return finish_part(alloc, reading);
    }
    if tag == CONTENT {
        return finish_content(alloc, reading, dir);
    }
    finish_set(reading)
}

// Behind the item of a part.
fn finish_part(alloc: Global, reading: &mut Reading) -> Result<(), Halt>
    requires { (reading.old.item.tag ≡ 0x10) ⊎ (reading.old.item.tag ≡ 0x11) }
    ensures calm { IfErr result IsNoFault }
    ensures grows { length reading.old.staged.items ≤ length reading.new.staged.items }
    ensures found { (parts : List Part) → IsIndexOf parts reading.old.index → OnOk result ((part : Part)
        × IsItemOf part (record { tag = reading.old.item.tag; value = reading.old.item.kept.items })
        × (reading.new.parts.items ≡ reading.old.parts.items ++ part ∷ []) × IsIndexOf (parts ++ part ∷ []) reading.new.index) }
    ensures same { OnOk result (reading.new ≡ record reading.old { parts = reading.new.parts; index = reading.new.index; start = reading.old.given }) }
    ensures bad { IfErr result (HaltsAt reading.old.start ((part : Part)
        → IsItemOf part (record { tag = reading.old.item.tag; value = reading.old.item.kept.items }) → ⊥)) }
{
    match part_of(alloc, reading.item.tag, reading.item.kept.as_slice()) {
        Ok(part) => {
            reading.index.add(&part)?;
            reading.parts.push(part)?;
            reading.start = reading.given;
            Ok(())
        }
        Err(TextFault::Bad) => Err(Halt::Malformed { at: reading.start }),
        Err(TextFault::Memory) => Err(Halt::Memory),
    }
}

// Whether the name comes after that of the last content.
fn comes_after(staged: &[Staged], name: &[u8; 20]) -> bool
    ensures { (dir : Name) (contents : List Carried) → staged.now ≡ staged_of dir contents
        → IsTrue result ↔ ComesAfter (last_name contents) name.now }
{
    match staged.last() {
        None => true,
        Some(last) => last.name < *name,
    }
}

// Behind the item of a content.
fn finish_content(alloc: Global, reading: &mut Reading, dir: &Path) -> Result<(), Halt>
    requires { length dir.now ≤ 1013 }
    ensures calm { IfErr result IsNoFault }
    ensures grows { length reading.old.staged.items ≤ length reading.new.staged.items }
    ensures found { (set : ChangeSet) (value : List ℕ) (written : Option (List ℕ)) → HasKept reading.old dir.now set
        → IsContentSoFar reading.old.item value written → reading.old.item.len ≡ length value
        → OnOk result ((content : Carried) × IsNextOf set.parts (last_name set.contents) value content
        × (reading.new.staged.items ≡ reading.old.staged.items ++ staged_from dir.now (length reading.old.staged.items) (content ∷ []))) }
    ensures same { OnOk result (reading.new ≡ record reading.old { staged = reading.new.staged; item = reading.new.item; start = reading.old.given }) }
    ensures bad { (set : ChangeSet) (value : List ℕ) (written : Option (List ℕ)) → HasKept reading.old dir.now set
        → IsContentSoFar reading.old.item value written → reading.old.item.len ≡ length value
        → IfErr result (HaltsAt reading.old.start ((content : Carried) → IsNextOf set.parts (last_name set.contents) value content → ⊥)) }
{
    let at = reading.start;
    let Some(size) = reading.item.len.checked_sub(20) else {
        return Err(Halt::Malformed { at });
    };
    let name = reading.item.digest();
    if reading.item.kept.as_slice() != name.as_slice() {
        return Err(Halt::Malformed { at });
    }
    if !reading.index.has(&name, size as usize) {
        return Err(Halt::Malformed { at });
    }
    if !comes_after(reading.staged.as_slice(), &name) {
        return Err(Halt::Malformed { at });
    }
    let path = path_of(alloc, dir, reading.staged.len())?;
    reading.staged.push(Staged { name, size, path })?;
    reading.start = reading.given;
    Ok(())
}

// Behind the item at the end.
fn finish_set(reading: &mut Reading) -> Result<(), Halt>
    ensures calm { IfErr result IsNoFault }
    ensures grows { length reading.old.staged.items ≤ length reading.new.staged.items }
    ensures empty { OnOk result (reading.old.item.len ≡ 0) }
    ensures same { OnOk result (reading.new ≡ record reading.old { ended = true; start = reading.old.given }) }
    ensures bad { IfErr result (HaltsAt reading.old.start (reading.old.item.len ≢ 0)) }
{
    if reading.item.len != 0 {
        return Err(Halt::Malformed { at: reading.start });
    }
    reading.ended = true;
    reading.start = reading.given;
    Ok(())
}
