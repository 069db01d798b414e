//! Whether contents have the sizes that records tell.
ghost use Rattle.std.specs.Prelude.{IfNone, IfSome};
ghost use Rattle.std.specs.List.Sorted.{IsStrictlySortedBy};
ghost use Rattle.change_set.specs.ChangeSet.{content_cmp};
ghost use Rattle.repository.specs.BetweenSteps.{AllFit, FileFits, FileHasOther, FilesFit, FilesHaveOther, HasOther, IsNamed, IsOtherSize, IsUnnamed, SizeFits};

use change_set::Carried;
use repo_load::cny_stream::FileRec;
use repo_load::trove_parts::FileAt;
use repo_load::trove_stream::Trove;

// The content of this name, if there is one.
fn content_named<'a>(contents: &'a [Carried], name: &[u8; 20]) -> Option<&'a Carried>
    requires { IsStrictlySortedBy content_cmp contents.now }
    ensures some { IfSome result (λ content. IsNamed contents.now name.now content.now) }
    ensures none { IfNone result (IsUnnamed contents.now name.now) }
{
    match contents.binary_search_by(|content| content.name.cmp(name)) {
        Ok(place) => Some(&contents[place]),
        Err(_) => None,
    }
}

// Its name, if it has another size.
fn other_size(contents: &[Carried], name: &[u8; 20], size: u32) -> Option<[u8; 20]>
    requires { IsStrictlySortedBy content_cmp contents.now }
    ensures other { IfSome result (λ other. IsOtherSize contents.now name.now size other) }
    ensures fits { IfNone result (SizeFits contents.now name.now size) }
{
    let Some(content) = content_named(contents, name) else {
        return None;
    };
    if content.bytes.get().len() == size as usize {
        return None;
    }
    Some(*name)
}

// The content that the file records with another size.
fn other_of_file(contents: &[Carried], file: &FileAt) -> Option<[u8; 20]>
    requires { IsStrictlySortedBy content_cmp contents.now }
    ensures other { IfSome result (FileHasOther contents.now file.now) }
    ensures fits { IfNone result (FileFits contents.now file.now) }
{
    match &file.rec {
        FileRec::Dir { .. } => None,
        FileRec::File { size, name, .. } => other_size(contents, name, *size),
        FileRec::Link { .. } => None,
    }
}

// The first of them among the files.
fn other_of_files(contents: &[Carried], files: &[FileAt]) -> Option<[u8; 20]>
    requires { IsStrictlySortedBy content_cmp contents.now }
    ensures other { IfSome result (FilesHaveOther contents.now files.now) }
    ensures fits { IfNone result (FilesFit contents.now files.now) }
{
    for file in files {
        if let Some(name) = other_of_file(contents, file) {
            return Some(name);
        }
    }
    None
}

/// The name of a content that one of the troves records with another size than its own.
pub(crate) fn other_of_troves(contents: &[Carried], troves: &[Trove]) -> Option<[u8; 20]>
    requires { IsStrictlySortedBy content_cmp contents.now }
    ensures other { IfSome result (HasOther contents.now troves.now) }
    ensures fits { IfNone result (AllFit contents.now troves.now) }
{
    for trove in troves {
        if let Some(name) = other_of_files(contents, trove.files()) {
            return Some(name);
        }
    }
    None
}
