//! Whether troves share no path but as a directory.
ghost use Rattle.std.specs.Prelude.{◌↔◌, ◌++◌, ◌∷◌, [], List, IfOk, IsTrue};
ghost use Rattle.std.specs.List.{AllPairs};
ghost use Rattle.trove_stream.specs.trove-parts.declared.files.FileAt.{FileAt};
ghost use Rattle.trove_stream.specs.trove-parts.Files.{AreFiles};
ghost use Rattle.local_db.specs.Installed.{SharesDirsAlone};
ghost use Rattle.local_db.specs.Sharing.{AreApart, AreNoted, IsApart};

use std::alloc::Global;
use std::collections::BTreeMap;
use trove_stream::Trove;
use trove_stream::cny_base::{Copies, OutOfMemory, Path};
use trove_stream::trove_parts::FileAt;

/// For each path, whether a directory is recorded there.
type Kinds = BTreeMap<Path, bool>;

// Notes a file, and answers whether it can be there with all that were noted before.
fn add_file(kinds: &mut Kinds, file: &FileAt) -> Result<bool, OutOfMemory>
    ensures apart { (before : List FileAt) → AreNoted before kinds.old
        → IfOk result (λ apart. IsTrue apart ↔ IsApart before file.now) }
    ensures noted { (before : List FileAt) → AreNoted before kinds.old
        → IfOk result (λ apart. IsTrue apart → AreNoted (before ++ file.now ∷ []) kinds.new) }
{
    let path = file.path.copy()?;
    let is_dir = file.rec.is_dir();
    let before = kinds.insert(path, is_dir)?;
    Ok(match before {
        None => true,
        Some(was_dir) => was_dir && is_dir,
    })
}

// Notes the files of a trove, and answers whether each can be there with all that were noted before.
fn add_files(kinds: &mut Kinds, files: &[FileAt]) -> Result<bool, OutOfMemory>
    requires { AreFiles files.now }
    ensures apart { (before : List FileAt) → AreNoted before kinds.old
        → IfOk result (λ apart. IsTrue apart ↔ AreApart before files.now) }
    ensures noted { (before : List FileAt) → AreNoted before kinds.old
        → IfOk result (λ apart. IsTrue apart → AreNoted (before ++ files.now) kinds.new) }
{
    for file in files {
        if !add_file(kinds, file)? {
            return Ok(false);
        }
    }
    Ok(true)
}

/// Whether at each path that two of the troves record, both record a directory.
pub(crate) fn share_dirs_alone(alloc: Global, troves: &[Trove]) -> Result<bool, OutOfMemory>
    ensures { IfOk result (λ share. IsTrue share ↔ AllPairs SharesDirsAlone troves.now) }
{
    let mut kinds = BTreeMap::new(alloc);
    for trove in troves {
        if !add_files(&mut kinds, trove.files())? {
            return Ok(false);
        }
    }
    Ok(true)
}
