//! The words at the front of the lines behind the version's.
ghost use Rattle.std.specs.Prelude.{◌≡◌};
ghost use Rattle.cny_manifest.specs.Lines as spec;
ghost use Rattle.cny_manifest.specs.Reading.{Finds};

use crate::fields::{field_of, is_same};

/// The word of a line that is whole by itself.
#[derive(Clone, Copy)]
pub(crate) enum WholeLine {
    Flavor,
    Ref,
    Requires,
    Provides,
    Dir,
}

/// The word of a line behind the version's.
#[derive(Clone, Copy)]
pub(crate) enum Word {
    Whole(WholeLine),
    /// A content follows.
    File,
    /// A target follows.
    Link,
}

#[tactic(auto, unfolding(crate::specs::Lines::word_of))]
fn word_of(text: &[u8]) -> Option<Word>
    ensures { result ≡ spec.word_of text.now }
{
    if is_same(text, b"dir") {
        Some(Word::Whole(WholeLine::Dir))
    } else if is_same(text, b"file") {
        Some(Word::File)
    } else if is_same(text, b"link") {
        Some(Word::Link)
    } else if is_same(text, b"requires") {
        Some(Word::Whole(WholeLine::Requires))
    } else if is_same(text, b"provides") {
        Some(Word::Whole(WholeLine::Provides))
    } else if is_same(text, b"ref") {
        Some(Word::Whole(WholeLine::Ref))
    } else if is_same(text, b"flavor") {
        Some(Word::Whole(WholeLine::Flavor))
    } else {
        None
    }
}

/// The word of a line, and its fields.
pub(crate) fn word_at(line: &[u8]) -> Option<(Word, &[u8])>
    ensures { Finds (λ x. (x.0, x.1.now)) result (spec.word_at line.now) }
{
    let (first, fields) = field_of(line)?;
    let word = word_of(first)?;
    Some((word, fields))
}
