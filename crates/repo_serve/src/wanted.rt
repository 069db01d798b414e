//! The contents that go with troves.
ghost use Rattle.std.specs.Prelude.{◌≡◌, ◌++◌, ◌∷◌, [], IfOk, List, MatchOption, MatchResult};
ghost use Rattle.std.specs.BTreeMap.{IsOrdered};
ghost use Rattle.std.specs.Cmp.Lexicographic.{slice_cmp};
ghost use Rattle.std.specs.Ordering.{nat_cmp};
ghost use Rattle.repo_load.specs.trove-parts.declared.files.FileAt.{FileAt};
ghost use Rattle.repo_load.specs.trove-stream.FilesOf.{files_of};
ghost use Rattle.repo_serve.specs.Wanted.{AreSizesOf, AreWanted, HasTwoSizes};

use repo_load::cny_base::OutOfMemory;
use repo_load::cny_stream::FileRec;
use repo_load::trove_parts::FileAt;
use repo_load::trove_stream::Trove;
use std::alloc::Global;
use std::collections::BTreeMap;

// Adds the content of a file. The answer is its name where another size stands with that already.
fn add_content(
    sizes: &mut BTreeMap<[u8; 20], u32>,
    rec: &FileRec,
) -> Result<Option<[u8; 20]>, OutOfMemory>
    ensures { (before : List FileAt) (file : FileAt) → AreSizesOf before sizes.old → file.rec ≡ rec.now
        → IfOk result (λ other. MatchOption other (AreSizesOf (before ++ file ∷ []) sizes.new) (HasTwoSizes (before ++ file ∷ []))) }
{
    let FileRec::File { size, name, .. } = rec else {
        return Ok(None);
    };
    let Some(before) = sizes.insert(*name, *size)? else {
        return Ok(None);
    };
    if before == *size {
        return Ok(None);
    }
    Ok(Some(*name))
}

// Adds the contents of files. The answer is the first name that has two sizes.
fn add_contents(
    sizes: &mut BTreeMap<[u8; 20], u32>,
    files: &[FileAt],
) -> Result<Option<[u8; 20]>, OutOfMemory>
    ensures { (before : List FileAt) → AreSizesOf before sizes.old
        → IfOk result (λ other. MatchOption other (AreSizesOf (before ++ files.now) sizes.new) (HasTwoSizes (before ++ files.now))) }
{
    for file in files {
        if let Some(name) = add_content(sizes, &file.rec)? {
            return Ok(Some(name));
        }
    }
    Ok(None)
}

// Adds the contents of troves. The answer is the first name that has two sizes.
fn add_all(
    sizes: &mut BTreeMap<[u8; 20], u32>,
    troves: &[Trove],
) -> Result<Option<[u8; 20]>, OutOfMemory>
    ensures { AreSizesOf [] sizes.old
        → IfOk result (λ other. MatchOption other (AreSizesOf (files_of troves.now) sizes.new) (HasTwoSizes (files_of troves.now))) }
{
    for trove in troves {
        if let Some(name) = add_contents(sizes, trove.files())? {
            return Ok(Some(name));
        }
    }
    Ok(None)
}

// The names with their sizes, in their order.
fn list_of(
    alloc: Global,
    sizes: &BTreeMap<[u8; 20], u32>,
) -> Result<Vec<([u8; 20], u32)>, OutOfMemory>
    ensures list { IfOk result (λ list. list.items ≡ sizes.now.entries) }
    ensures ordered { IsOrdered (slice_cmp nat_cmp) sizes.now }
{
    let mut list = Vec::new(alloc);
    for (name, size) in sizes.iter() {
        list.push((*name, *size))?;
    }
    Ok(list)
}

/// The contents that the troves record, by their names, each with its size; or the name of one with which two sizes are recorded.
pub(crate) fn wanted_by(
    alloc: Global,
    troves: &[Trove],
) -> Result<Result<Vec<([u8; 20], u32)>, [u8; 20]>, OutOfMemory>
    ensures { IfOk result (λ found. MatchResult found (λ wanted. AreWanted (files_of troves.now) wanted.items) (HasTwoSizes (files_of troves.now))) }
{
    let mut sizes = BTreeMap::new(alloc);
    if let Some(name) = add_all(&mut sizes, troves)? {
        return Ok(Err(name));
    }
    Ok(Ok(list_of(alloc, &sizes)?))
}
