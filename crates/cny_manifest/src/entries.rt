//! The lines of directories, files and links.
ghost use Rattle.std.specs.Prelude.{◌≡◌, Some};
ghost use Rattle.manifest_troves.specs.cny-stream.Owner.{root_owner as root};
ghost use Rattle.cny_manifest.specs.Entries as spec;
ghost use Rattle.cny_manifest.specs.Reading.{ReadsAs, ReadsBy};

use crate::fields::{cut, field_of, mode_field, place_of, size_field, strip};
use manifest_troves::cny_base::{Mode, Path, Target, TextFault, text_of};
use manifest_troves::cny_stream::{Flags, Owner};
use std::alloc::Global;

/// What a `dir` line says.
#[derive(Drop)]
pub(crate) struct DirLine {
    pub mode: Mode,
    pub owner: Owner,
    pub path: Path,
}

/// What a `file` line says.
#[derive(Drop)]
pub(crate) struct FileLine {
    pub mode: Mode,
    pub size: u64,
    pub owner: Owner,
    pub flags: Flags,
    pub path: Path,
}

/// The path that these bytes are.
pub(crate) fn path_of(alloc: Global, text: &[u8]) -> Result<Path, TextFault>
    ensures { ReadsAs (spec.path_of text.now) result }
{
    Path::read_bytes(alloc, text)
}

/// The target on a line.
#[tactic(auto, unfolding(crate::specs::Entries::target_of))]
pub(crate) fn target_of(alloc: Global, line: &[u8]) -> Result<Target, TextFault>
    ensures { ReadsAs (spec.target_of line.now) result }
{
    match strip(b"target ", line) {
        Some(target) => Target::read_bytes(alloc, target),
        None => Err(TextFault::Bad),
    }
}

// The owner of these names.
fn owner_named(alloc: Global, user: &[u8], group: &[u8]) -> Result<Owner, TextFault>
    ensures { ReadsAs (spec.names_if (user.now, group.now)) result }
{
    let Some(user) = text_of(user) else {
        return Err(TextFault::Bad);
    };
    let Some(group) = text_of(group) else {
        return Err(TextFault::Bad);
    };
    Owner::new(alloc, user, group)
}

// The owner that `USER:GROUP` names.
#[tactic(auto, unfolding(crate::specs::Entries::owner_of))]
fn owner_of(alloc: Global, text: &[u8]) -> Result<Owner, TextFault>
    ensures { ReadsAs (spec.owner_of text.now) result }
{
    match place_of(b':', text) {
        Some(at) => {
            let (user, group) = cut(text, at);
            owner_named(alloc, user, group)
        }
        None => Err(TextFault::Bad),
    }
}

// The owner of all that names none.
fn root_owner(alloc: Global) -> Result<Owner, TextFault>
    ensures { ReadsAs (Some root) result }
{
    Owner::new(alloc, "root", "root")
}

// The owner where one is named, and what is behind it; else root.
#[tactic(auto, unfolding(crate::specs::Entries::owner_at))]
fn owner_at(alloc: Global, owners: bool, text: &[u8]) -> Result<(Owner, &[u8]), TextFault>
    ensures { ReadsBy (λ x. (x.0, x.1.now)) (spec.owner_at owners text.now) result }
{
    if !owners {
        return Ok((root_owner(alloc)?, text));
    }
    let Some((owner, rest)) = field_of(text) else {
        return Err(TextFault::Bad);
    };
    let owner = owner_of(alloc, owner)?;
    Ok((owner, rest))
}

/// What the fields of a `dir` line say.
#[tactic(auto, unfolding(crate::specs::Entries::dir_of))]
pub(crate) fn dir_of(alloc: Global, owners: bool, fields: &[u8]) -> Result<DirLine, TextFault>
    ensures { ReadsAs (spec.dir_of owners fields.now) result }
{
    let Some((mode, rest)) = field_of(fields) else {
        return Err(TextFault::Bad);
    };
    let Some(mode) = mode_field(mode) else {
        return Err(TextFault::Bad);
    };
    let (owner, rest) = owner_at(alloc, owners, rest)?;
    let path = path_of(alloc, rest)?;
    Ok(DirLine { mode, owner, path })
}

// Whether the word is at the front, and what is behind it then.
fn flag_at<'a>(word: &[u8], text: &'a [u8]) -> (bool, &'a [u8])
    ensures is { result.0 ≡ spec.begins_as word.now text.now }
    ensures rest { result.1.now ≡ spec.behind word.now text.now }
{
    match strip(word, text) {
        Some(rest) => (true, rest),
        None => (false, text),
    }
}

// The flags at the front, and what is behind them.
fn flags_at(text: &[u8]) -> (Flags, &[u8])
    ensures flags { result.0 ≡ spec.flags_of text.now }
    ensures rest { result.1.now ≡ spec.behind_flags text.now }
{
    let (config, rest) = flag_at(b"config ", text);
    let (initial, rest) = flag_at(b"initial ", rest);
    let (transient, rest) = flag_at(b"transient ", rest);
    let flags = Flags {
        config,
        initial,
        transient,
    };
    (flags, rest)
}

// What the fields behind the mode and the size say.
#[tactic(auto, unfolding(crate::specs::Entries::sized_file))]
fn sized_file(
    alloc: Global,
    owners: bool,
    mode: Mode,
    size: u64,
    text: &[u8],
) -> Result<FileLine, TextFault>
    ensures { ReadsAs (spec.sized_file owners mode size text.now) result }
{
    let (owner, rest) = owner_at(alloc, owners, text)?;
    let (flags, rest) = flags_at(rest);
    let path = path_of(alloc, rest)?;
    Ok(FileLine {
        mode,
        size,
        owner,
        flags,
        path,
    })
}

/// What the fields of a `file` line say.
#[tactic(auto, unfolding(crate::specs::Entries::file_of))]
pub(crate) fn file_of(alloc: Global, owners: bool, fields: &[u8]) -> Result<FileLine, TextFault>
    ensures { ReadsAs (spec.file_of owners fields.now) result }
{
    let Some((mode, rest)) = field_of(fields) else {
        return Err(TextFault::Bad);
    };
    let Some(mode) = mode_field(mode) else {
        return Err(TextFault::Bad);
    };
    let Some((size, rest)) = field_of(rest) else {
        return Err(TextFault::Bad);
    };
    let Some(size) = size_field(size) else {
        return Err(TextFault::Bad);
    };
    sized_file(alloc, owners, mode, size, rest)
}
