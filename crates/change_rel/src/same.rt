//! Whether two records are one.
ghost use Rattle.std.specs.Prelude.{◌≡◌, ◌↔◌, IsTrue};
ghost use Rattle.trove_stream.specs.cny-stream.declared.record.FileRec.TheVariants.{Dir, File, Link};

use trove_stream::cny_base::{Mode, Target};
use trove_stream::cny_stream::{FileRec, Flags, Owner};

fn is_same_owner(one: &Owner, other: &Owner) -> bool
    ensures { IsTrue result ↔ (one.now ≡ other.now) }
{
    let user = one.user() == other.user();
    let group = one.group() == other.group();
    user && group
}

fn is_same_mode(one: Mode, other: Mode) -> bool
    ensures { IsTrue result ↔ (one ≡ other) }
{
    one.bits() == other.bits()
}

fn are_same_flags(one: Flags, other: Flags) -> bool
    ensures { IsTrue result ↔ (one ≡ other) }
{
    one.config == other.config && one.initial == other.initial && one.transient == other.transient
}

/// Whether two names of contents are equal.
pub(crate) fn is_same_name(one: &[u8; 20], other: &[u8; 20]) -> bool
    ensures { IsTrue result ↔ (one.now ≡ other.now) }
{
    one.as_slice() == other.as_slice()
}

fn is_same_dir(mode: Mode, owner: &Owner, other: &FileRec) -> bool
    ensures { IsTrue result ↔ (Dir mode owner.now ≡ other.now) }
{
    match other {
        FileRec::Dir {
            mode: other_mode,
            owner: other_owner,
        } => {
            let modes = is_same_mode(mode, *other_mode);
            let owners = is_same_owner(owner, other_owner);
            modes && owners
        }
        FileRec::File { .. } => false,
        FileRec::Link { .. } => false,
    }
}

fn is_same_file(
    mode: Mode,
    owner: &Owner,
    flags: Flags,
    size: u32,
    name: &[u8; 20],
    other: &FileRec,
) -> bool
    ensures { IsTrue result ↔ (File mode owner.now flags size name.now ≡ other.now) }
{
    match other {
        FileRec::Dir { .. } => false,
        FileRec::File {
            mode: other_mode,
            owner: other_owner,
            flags: other_flags,
            size: other_size,
            name: other_name,
        } => {
            let modes = is_same_mode(mode, *other_mode);
            let owners = is_same_owner(owner, other_owner);
            let flags = are_same_flags(flags, *other_flags);
            let names = is_same_name(name, other_name);
            modes && owners && flags && size == *other_size && names
        }
        FileRec::Link { .. } => false,
    }
}

fn is_same_link(target: &Target, other: &FileRec) -> bool
    ensures { IsTrue result ↔ (Link target.now ≡ other.now) }
{
    match other {
        FileRec::Dir { .. } => false,
        FileRec::File { .. } => false,
        FileRec::Link {
            target: other_target,
        } => target.text() == other_target.text(),
    }
}

/// Whether two records are equal.
pub(crate) fn is_same_record(one: &FileRec, other: &FileRec) -> bool
    ensures { IsTrue result ↔ (one.now ≡ other.now) }
{
    match one {
        FileRec::Dir { mode, owner } => is_same_dir(*mode, owner, other),
        FileRec::File {
            mode,
            owner,
            flags,
            size,
            name,
        } => is_same_file(*mode, owner, *flags, *size, name, other),
        FileRec::Link { target } => is_same_link(target, other),
    }
}
