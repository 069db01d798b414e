//! The lines of a file of the root: cut at the LFs, without what isn't read of them, and what stands behind their first word.
ghost use Rattle.std.specs.Prelude.{◌≡◌, ◌+◌, ◌≤◌, ◌==◌, true, false, drop, IfOk, length, map, MatchOption};
ghost use Rattle.std.specs.List.{slice_split};
ghost use Rattle.trove_spec.specs.Config as spec;
ghost use Rattle.trove_spec.specs.Config.{cleaned, has_key, without_front, without_back, without_cr};

use std::alloc::{AllocError, Global};

fn is_blank(byte: u8) -> bool
    ensures { result ≡ spec.is_blank byte }
{
    byte == b' ' || byte == b'\t'
}

/// The bytes without the blanks at the front.
pub fn trim_front(bytes: &[u8]) -> &[u8]
    ensures { result.now ≡ without_front bytes.now }
{
    let mut rest = bytes;
    while let [first, after @ ..] = rest {
        if !is_blank(*first) {
            return rest;
        }
        rest = after;
    }
    rest
}

// The bytes without the blanks at the end.
fn trim_back(bytes: &[u8]) -> &[u8]
    ensures { result.now ≡ without_back bytes.now }
{
    let mut rest = bytes;
    while let Some((last, before)) = rest.split_last() {
        if !is_blank(*last) {
            return rest;
        }
        rest = before;
    }
    rest
}

// The bytes without a CR at the end.
fn trim_cr(bytes: &[u8]) -> &[u8]
    ensures { result.now ≡ without_cr bytes.now }
{
    let Some((last, before)) = bytes.split_last() else {
        return bytes;
    };
    if *last == b'\r' { before } else { bytes }
}

/// A line without its CR and without blanks at its ends.
pub fn trimmed(line: &[u8]) -> &[u8]
    ensures { result.now ≡ cleaned line.now }
{
    trim_front(trim_back(trim_cr(line)))
}

fn ends_word(bytes: &[u8]) -> bool
    ensures { result ≡ spec.ends_word bytes.now }
{
    match bytes {
        [] => true,
        [first, ..] => is_blank(*first),
    }
}

/// What stands behind a key, where it is the first word of the line.
pub fn behind<'a>(key: &[u8], line: &'a [u8]) -> Option<&'a [u8]>
    ensures some { MatchOption result (has_key key.now line.now ≡ false) (λ rest. (has_key key.now line.now ≡ true) × (rest.now ≡ drop (length key.now) line.now)) }
{
    let Some(rest) = line.strip_prefix(key) else {
        return None;
    };
    if ends_word(rest) { Some(rest) } else { None }
}

/// The pieces between the LFs of a file.
pub fn pieces_of(alloc: Global, bytes: &[u8]) -> Result<Vec<&[u8]>, AllocError>
    ensures pieces { IfOk result (λ lines. map (λ line. line.now) lines.items ≡ slice_split (λ b. b == 10) bytes.now) }
    ensures few { IfOk result (λ lines. length lines.items ≤ length bytes.now + 1) }
{
    bytes.split(|byte| *byte == b'\n').collect(alloc)
}
