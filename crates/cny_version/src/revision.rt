//! Revisions and their texts.
ghost use Rattle.std.specs.Prelude.{◌≡◌, ◌≤◌, ◌<◌, ◌^◌, ◌+◌, ◌++◌, length, IfOk, OnOk, IsTrue, is_some, string_bytes};
ghost use Rattle.std.specs.List.{list_all};
ghost use Rattle.cny_version.specs.Revision as spec;
ghost use Rattle.cny_version.specs.Revision.{revision_text, is_revision};
ghost use Rattle.cny_version.specs.Reading.{Gives, revision_found};

use crate::count::{Count, count_len, is_count, push_count};
use crate::cut::cut;
use cny_base::{Copies, OutOfMemory, Text, TextFault};
use std::alloc::Global;

/// A revision: `upstream-source`, or `upstream-source-build` for what was built.
pub struct Revision {
    /// The version that the authors of the software gave it.
    pub upstream: Text,
    /// How often the recipe was changed for it.
    pub source: Count,
    /// How often it was built from that source.
    pub build: Option<Count>,
}

// Written by hand, so that to let a value go is a single call wherever a function ends early.
impl Drop for Revision {
    fn drop(self) {
        let Revision {
            upstream: _upstream,
            source: _source,
            build: _build,
        } = self;
    }
}

impl Revision {
    /// An equal revision.
    pub fn copy(&self) -> Result<Self, OutOfMemory>
        ensures { IfOk result (λ made. made ≡ self.now) }
    {
        let build = match &self.build {
            None => None,
            Some(count) => Some(count.copy()?),
        };
        Ok(Revision {
            upstream: self.upstream.copy()?,
            source: self.source.copy()?,
            build,
        })
    }
}

// A letter or digit, or one of `. _ + ~`.
fn is_upstream_byte(byte: u8) -> bool
    ensures { result ≡ spec.is_upstream_byte byte }
{
    byte.is_ascii_alphanumeric() || matches!(byte, b'.' | b'_' | b'+' | b'~')
}

fn are_upstream_bytes(bytes: &[u8]) -> bool
    ensures { result ≡ list_all spec.is_upstream_byte bytes.now }
{
    bytes.iter().all(|byte| is_upstream_byte(*byte))
}

fn is_upstream(bytes: &[u8]) -> bool
    ensures { result ≡ spec.is_upstream bytes.now }
{
    match bytes {
        [] => false,
        [first, rest @ ..] => first.is_ascii_alphanumeric() && are_upstream_bytes(rest),
    }
}

/// Whether the text is that of a revision at the depth.
#[tactic(auto, unfolding(crate::specs::Reading::revision_found))]
pub(crate) fn is_revision_text(text: &str, depth: u32) -> bool
    ensures { result ≡ is_some (revision_found depth text.now) }
{
    let Some((upstream, rest)) = cut(text, '-') else {
        return false;
    };
    if !is_upstream(upstream.as_bytes()) {
        return false;
    }
    match cut(rest, '-') {
        None => is_count(rest, depth),
        Some((source, build)) => is_count(source, depth) && is_count(build, depth),
    }
}

/// The revision at a depth with this text.
pub(crate) fn read_revision(alloc: Global, text: &str, depth: u32) -> Result<Revision, TextFault>
    ensures found { Gives result (revision_found depth text.now) }
    ensures text { IfOk result (λ revision. revision_text revision ≡ text.now) }
    ensures fits { IfOk result (λ revision. IsTrue (is_revision depth revision)) }
{
    read_parts(alloc, text, depth)
}

// The same, with what is found.
#[tactic(auto, unfolding(crate::specs::Reading::revision_found))]
fn read_parts(alloc: Global, text: &str, depth: u32) -> Result<Revision, TextFault>
    ensures { Gives result (revision_found depth text.now) }
{
    let (upstream, rest) = cut(text, '-').ok_or(TextFault::Bad)?;
    if !is_upstream(upstream.as_bytes()) {
        return Err(TextFault::Bad);
    }
    match cut(rest, '-') {
        None => {
            let source = Count::read(alloc, rest, depth)?;
            let upstream = Text::new(alloc, upstream)?;
            Ok(Revision {
                upstream,
                source,
                build: None,
            })
        }
        Some((source, build)) => {
            let source = Count::read(alloc, source, depth)?;
            let build = Count::read(alloc, build, depth)?;
            let upstream = Text::new(alloc, upstream)?;
            Ok(Revision {
                upstream,
                source,
                build: Some(build),
            })
        }
    }
}

/// Writes the text of a revision at the end of a text.
pub(crate) fn push_revision(text: &mut String, revision: &Revision) -> Result<(), OutOfMemory>
    ensures { OnOk result (string_bytes text.new ≡ string_bytes text.old ++ revision_text revision.now) }
{
    text.push_str(revision.upstream.get())?;
    text.push('-')?;
    push_count(text, revision.source.get())?;
    if let Some(build) = &revision.build {
        text.push('-')?;
        push_count(text, build.get())?;
    }
    Ok(())
}

/// The length of the text of a revision that fits the depth.
pub(crate) fn revision_len(revision: &Revision, depth: u32) -> usize
    requires fits { IsTrue (is_revision depth revision.now) }
    requires depth { depth ≤ 512 }
    ensures len { result ≡ length (revision_text revision.now) }
    ensures small { result < 2 ^ 63 + 2 ^ 20 }
{
    let source = count_len(revision.source.get());
    let build = match &revision.build {
        None => 0,
        Some(build) => 1 + count_len(build.get()),
    };
    revision.upstream.get().len() + 1 + source + build
}
