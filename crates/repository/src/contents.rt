//! Contents of troves that are to be committed.
ghost use Rattle.std.specs.Prelude.{◌≡◌, List};
ghost use Rattle.std.specs.List.Sorted.{IsStrictlySortedBy};
ghost use Rattle.repo_load.specs.tree-disk.Tree.{Tree};
ghost use Rattle.change_set.specs.ChangeSet.{content_cmp};
ghost use Rattle.change_set.specs.declared.change.Carried.{Carried};
ghost use Rattle.repository.specs.Tests as tests;
ghost use Rattle.repository.specs.Tests.{files_of, lacks_content, missing_content};
ghost use Rattle.repository.specs.Verdict.{IsVerdict};
ghost use Rattle.repo_load.specs.Files.{repository_base};
ghost use Rattle.repo_load.specs.journal-log.Own.{staged};

use change_pull::Incoming;
use repo_index::Catalogue;
use repo_load::cny_base::{Fault, Refusal};
use repo_load::cny_stream::FileRec;
use repo_load::trove_parts::FileAt;
use repo_load::trove_stream::Trove;

// Whether a content of this name and this size is carried, or a committed trove records one.
fn has_source<I: Incoming>(
    committed: &Catalogue,
    contents: &I,
    name: &[u8; 20],
    size: usize,
) -> bool
    ensures { (listed : List Carried) (tree : Tree) → IsStrictlySortedBy content_cmp listed → I.stand contents.now (staged repository_base) listed tree
        → result ≡ tests.has_content_source committed.now.troves listed name.now size }
{
    let carried = contents.has(name, size);
    carried || committed.records_content(name, size)
}

// Whether the content of a file is carried or committed.
fn check_file<I: Incoming>(committed: &Catalogue, contents: &I, file: &FileAt) -> Result<(), Fault>
    ensures { (listed : List Carried) (tree : Tree) → IsStrictlySortedBy content_cmp listed → I.stand contents.now (staged repository_base) listed tree
        → IsVerdict (lacks_content committed.now.troves listed file.now.rec) result }
{
    match &file.rec {
        FileRec::Dir { .. } => Ok(()),
        FileRec::Link { .. } => Ok(()),
        FileRec::File { size, name, .. } => {
            if !has_source(committed, contents, name, *size as usize) {
                return Err(Fault::Refused(Refusal::MissingContent { name: *name }));
            }
            Ok(())
        }
    }
}

// The same for these files.
fn check_files<I: Incoming>(
    committed: &Catalogue,
    contents: &I,
    files: &[FileAt],
) -> Result<(), Fault>
    ensures { (listed : List Carried) (tree : Tree) → IsStrictlySortedBy content_cmp listed → I.stand contents.now (staged repository_base) listed tree
        → IsVerdict (missing_content committed.now.troves listed files.now) result }
{
    for file in files {
        check_file(committed, contents, file)?;
    }
    Ok(())
}

/// Whether each content that the troves record is carried or committed, with its size. `MissingContent` names the first one
/// that isn't.
pub(crate) fn check_contents<I: Incoming>(
    committed: &Catalogue,
    contents: &I,
    troves: &[Trove],
) -> Result<(), Fault>
    ensures { (listed : List Carried) (tree : Tree) → IsStrictlySortedBy content_cmp listed → I.stand contents.now (staged repository_base) listed tree
        → IsVerdict (missing_content committed.now.troves listed (files_of troves.now)) result }
{
    for trove in troves {
        check_files(committed, contents, trove.files())?;
    }
    Ok(())
}
