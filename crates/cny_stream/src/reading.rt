//! The record that some bytes spell.
ghost use Rattle.std.specs.Prelude.{◌≡◌, ◌↔◌, ◌==◌, ◌&&◌, not, true, false, Some, None, IfOk, IsErrOf, IfSome, IfNone};
ghost use Rattle.std.specs.Option.{option_map};
ghost use Rattle.cny_stream.specs.declared.encoding.Encoding.TheVariants.{Compact, Explicit};
ghost use Rattle.cny_stream.specs.declared.record.FileRec.{FileRec};
ghost use Rattle.cny_stream.specs.Owner as names;
ghost use Rattle.cny_stream.specs.Record.{IsFileRecord, IsRecordBytes, record_bytes, file_record_bytes, full_record_bytes};
ghost use Rattle.cny_stream.specs.Reading as spec;
ghost use Rattle.cny_stream.specs.Reading.{str_front, dir_at, file_at, link_at, kind_at, form_at, record_of};

use crate::encoding::Encoding;
use crate::owner::{Owner, ROOT, are_root, is_owner_word};
use crate::record::{FileRec, Flags};
use cny_base::{CONTENT_LIMIT, Mode, Target, TextFault, next_str};
use std::alloc::Global;

// An owner's names, whether they are root's, and what stands behind them.
#[derive(Clone, Copy)]
struct OwnerAt<'a> {
    user: &'a str,
    group: &'a str,
    is_root: bool,
    rest: &'a [u8],
}

// A str's value, and what stands behind it.
#[derive(Clone, Copy)]
struct StrAt<'a> {
    value: &'a [u8],
    rest: &'a [u8],
}

// The str at the front.
fn front_str(bytes: &[u8]) -> Option<StrAt<'_>>
    ensures { option_map (λ found. (found.value.now, found.rest.now)) result ≡ str_front bytes.now }
{
    let span = next_str(bytes, 0)?;
    Some(StrAt {
        value: &bytes[span.from..span.to],
        rest: &bytes[span.to..],
    })
}

// The text that is a user or a group; none where the bytes are neither.
fn owner_word(bytes: &[u8]) -> Option<&str>
    ensures some { IfSome result (λ text. (text.now ≡ bytes.now) × (names.is_owner_word bytes.now ≡ true)) }
    ensures none { IfNone result (names.is_owner_word bytes.now ≡ false) }
{
    let Ok(text) = str::from_utf8(bytes) else {
        return None;
    };
    if !is_owner_word(text) {
        return None;
    }
    Some(text)
}

// The owner at the front; root, where none is named.
fn owner_at(named: bool, bytes: &[u8]) -> Option<OwnerAt<'_>>
    ensures value { option_map (λ found. (record { user = found.user.now; group = found.group.now }, found.rest.now)) result ≡ spec.owner_at named bytes.now }
    ensures owner { IfSome result (λ found. names.is_owner (record { user = found.user.now; group = found.group.now }) ≡ true) }
    ensures root { IfSome result (λ found. found.is_root ≡ names.is_root (record { user = found.user.now; group = found.group.now })) }
{
    if !named {
        return Some(OwnerAt {
            user: ROOT,
            group: ROOT,
            is_root: true,
            rest: bytes,
        });
    }
    let first = front_str(bytes)?;
    let second = front_str(first.rest)?;
    let user = owner_word(first.value)?;
    let group = owner_word(second.value)?;
    Some(OwnerAt {
        user,
        group,
        is_root: are_root(user, group),
        rest: second.rest,
    })
}

// The directory of these fields. `Bad` exactly where they aren't those of one.
fn dir_of(
    alloc: Global,
    flags: u8,
    mode: u16,
    user: &str,
    group: &str,
    is_root: bool,
    rest: &[u8],
) -> Result<FileRec, TextFault>
    requires owner { names.is_owner (record { user = user.now; group = group.now }) ≡ true }
    requires root { is_root ≡ names.is_root (record { user = user.now; group = group.now }) }
    ensures value { IfOk result (λ rec. dir_at flags mode (record { user = user.now; group = group.now }) rest.now ≡ Some rec) }
    ensures bad { IsErrOf result TextFault.Bad
        ↔ (dir_at flags mode (record { user = user.now; group = group.now }) rest.now ≡ None) }
{
    let mode = Mode::new(mode).ok_or(TextFault::Bad)?;
    if flags != 0 || !rest.is_empty() {
        return Err(TextFault::Bad);
    }
    let owner = Owner::of_words(alloc, user, group, is_root)?;
    Ok(FileRec::Dir { mode, owner })
}

// The file of these fields. `Bad` exactly where they aren't those of one.
fn file_of(
    alloc: Global,
    flags: u8,
    mode: u16,
    user: &str,
    group: &str,
    is_root: bool,
    rest: &[u8],
) -> Result<FileRec, TextFault>
    requires owner { names.is_owner (record { user = user.now; group = group.now }) ≡ true }
    requires root { is_root ≡ names.is_root (record { user = user.now; group = group.now }) }
    ensures value { IfOk result (λ rec. file_at flags mode (record { user = user.now; group = group.now }) rest.now ≡ Some rec) }
    ensures bad { IsErrOf result TextFault.Bad
        ↔ (file_at flags mode (record { user = user.now; group = group.now }) rest.now ≡ None) }
{
    let mode = Mode::new(mode).ok_or(TextFault::Bad)?;
    let flags = Flags::of_bits(flags).ok_or(TextFault::Bad)?;
    if rest.len() != 24 {
        return Err(TextFault::Bad);
    }
    let (size, name) = rest.split_at(4);
    let size = u32::from_be_bytes([size[0], size[1], size[2], size[3]]);
    if size > CONTENT_LIMIT {
        return Err(TextFault::Bad);
    }
    let name = *name.as_array::<20>().ok_or(TextFault::Bad)?;
    let owner = Owner::of_words(alloc, user, group, is_root)?;
    Ok(FileRec::File {
        mode,
        owner,
        flags,
        size,
        name,
    })
}

// The link of these fields. `Bad` exactly where they aren't those of one.
fn link_of(alloc: Global, flags: u8, mode: u16, rest: &[u8]) -> Result<FileRec, TextFault>
    ensures value { IfOk result (λ rec. link_at flags mode rest.now ≡ Some rec) }
    ensures bad { IsErrOf result TextFault.Bad ↔ (link_at flags mode rest.now ≡ None) }
{
    if flags != 0 || mode != 0 {
        return Err(TextFault::Bad);
    }
    let found = front_str(rest).ok_or(TextFault::Bad)?;
    if !found.rest.is_empty() {
        return Err(TextFault::Bad);
    }
    Ok(FileRec::Link {
        target: Target::read_bytes(alloc, found.value)?,
    })
}

// The record of this kind. `Bad` exactly where the fields aren't those of one.
#[tactic(auto, unfolding(crate::specs::Reading::kind_at))]
fn of_kind(
    alloc: Global,
    kind: u8,
    flags: u8,
    mode: u16,
    user: &str,
    group: &str,
    is_root: bool,
    rest: &[u8],
) -> Result<FileRec, TextFault>
    requires owner { names.is_owner (record { user = user.now; group = group.now }) ≡ true }
    requires root { is_root ≡ names.is_root (record { user = user.now; group = group.now }) }
    ensures value { IfOk result (λ rec. kind_at kind flags mode (record { user = user.now; group = group.now }) rest.now ≡ Some rec) }
    ensures bad { IsErrOf result TextFault.Bad
        ↔ (kind_at kind flags mode (record { user = user.now; group = group.now }) rest.now ≡ None) }
{
    match kind {
        b'd' => dir_of(alloc, flags, mode, user, group, is_root, rest),
        b'f' => file_of(alloc, flags, mode, user, group, is_root, rest),
        b'l' => link_of(alloc, flags, mode, rest),
        _ => Err(TextFault::Bad),
    }
}

// Whether a record of this kind names its owner, who is root or not, as the encoding has it; a link names none.
fn is_named_rightly(encoding: Encoding, kind: u8, named: bool, is_root: bool) -> bool
    ensures { result ≡ spec.same (not (kind == 108) && names.names encoding is_root) named }
{
    let wanted = kind != b'l' && encoding.names(is_root);
    named == wanted
}

// The record behind the form. `Bad` exactly where there is none.
#[tactic(auto, unfolding(crate::specs::Reading::form_at))]
fn of_form(
    alloc: Global,
    encoding: Encoding,
    named: bool,
    kind: u8,
    flags: u8,
    mode: u16,
    rest: &[u8],
) -> Result<FileRec, TextFault>
    ensures value { IfOk result (λ rec. form_at encoding named kind flags mode rest.now ≡ Some rec) }
    ensures bad { IsErrOf result TextFault.Bad ↔ (form_at encoding named kind flags mode rest.now ≡ None) }
{
    let Some(found) = owner_at(named, rest) else {
        return Err(TextFault::Bad);
    };
    if !is_named_rightly(encoding, kind, named, found.is_root) {
        return Err(TextFault::Bad);
    }
    of_kind(
        alloc,
        kind,
        flags,
        mode,
        found.user,
        found.group,
        found.is_root,
        found.rest,
    )
}

// The record that the bytes spell. `Bad` exactly where they spell none.
fn record_in(alloc: Global, encoding: Encoding, bytes: &[u8]) -> Result<FileRec, TextFault>
    ensures value { IfOk result (λ rec. record_of encoding bytes.now ≡ Some rec) }
    ensures bad { IsErrOf result TextFault.Bad ↔ (record_of encoding bytes.now ≡ None) }
{
    match bytes {
        [form, kind, flags, high, low, rest @ ..] => {
            if *form != 1 && *form != 2 {
                return Err(TextFault::Bad);
            }
            let mode = u16::from_be_bytes([*high, *low]);
            of_form(alloc, encoding, *form == 2, *kind, *flags, mode, rest)
        }
        _ => Err(TextFault::Bad),
    }
}

/// The record that the bytes spell in this encoding, all of them. `Bad` exactly where they spell none, which is
/// exactly outside the grammar of file records.
pub fn decode_as(alloc: Global, encoding: Encoding, bytes: &[u8]) -> Result<FileRec, TextFault>
    ensures value { IfOk result (λ rec. bytes.now ≡ record_bytes encoding rec) }
    ensures ok { IfOk result IsFileRecord }
    ensures bad { IsErrOf result TextFault.Bad ↔ ¬ IsRecordBytes encoding bytes.now }
    // The bytes spell no other record.
    ensures only { IfOk result (λ read.
        (rec : FileRec) → IsFileRecord rec → bytes.now ≡ record_bytes encoding rec → read ≡ rec) }
{
    record_in(alloc, encoding, bytes)
}

/// The record that the bytes spell in the compact encoding, all of them. `Bad` exactly where they spell none.
pub fn decode(alloc: Global, bytes: &[u8]) -> Result<FileRec, TextFault>
    ensures value { IfOk result (λ rec. bytes.now ≡ file_record_bytes rec) }
    ensures ok { IfOk result IsFileRecord }
    ensures bad { IsErrOf result TextFault.Bad ↔ ¬ IsRecordBytes Compact bytes.now }
    // The bytes spell no other record.
    ensures only { IfOk result (λ read.
        (rec : FileRec) → IsFileRecord rec → bytes.now ≡ file_record_bytes rec → read ≡ rec) }
{
    decode_as(alloc, Encoding::Compact, bytes)
}

/// The record that the bytes spell in the explicit encoding, all of them. `Bad` exactly where they spell none.
pub fn decode_full(alloc: Global, bytes: &[u8]) -> Result<FileRec, TextFault>
    ensures value { IfOk result (λ rec. bytes.now ≡ full_record_bytes rec) }
    ensures ok { IfOk result IsFileRecord }
    ensures bad { IsErrOf result TextFault.Bad ↔ ¬ IsRecordBytes Explicit bytes.now }
    // The bytes spell no other record.
    ensures only { IfOk result (λ read.
        (rec : FileRec) → IsFileRecord rec → bytes.now ≡ full_record_bytes rec → read ≡ rec) }
{
    decode_as(alloc, Encoding::Explicit, bytes)
}
