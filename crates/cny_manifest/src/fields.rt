//! Fields of a line.
ghost use Rattle.std.specs.Prelude.{◌≡◌, ◌<◌, ◌+◌, ◌==◌, length, take, drop, IfSome};
ghost use Rattle.std.specs.Str.{bytes_eq};
ghost use Rattle.std.specs.List.{position};
ghost use Rattle.cny_manifest.specs.Lines.{after, field_at, mode_of, size_of};
ghost use Rattle.cny_manifest.specs.Reading.{Finds};

use manifest_troves::cny_base::{Mode, read_decimal, read_octal};

/// Whether bytes are these.
pub(crate) fn is_same(bytes: &[u8], other: &[u8]) -> bool
    ensures { result ≡ bytes_eq bytes.now other.now }
{
    bytes == other
}

/// The first place of a byte.
pub(crate) fn place_of(byte: u8, bytes: &[u8]) -> Option<usize>
    ensures place { result ≡ position (λ b. b == byte) bytes.now }
    ensures within { IfSome result (λ at. at < length bytes.now) }
{
    bytes.iter().position(|b| *b == byte)
}

/// What is before a place and behind it.
#[tactic(auto, using(std::proofs::lemmas::List::take_rest))]
pub(crate) fn cut(bytes: &[u8], at: usize) -> (&[u8], &[u8])
    requires { at < length bytes.now }
    ensures front { result.0.now ≡ take at bytes.now }
    ensures back { result.1.now ≡ drop (at + 1) bytes.now }
{
    (&bytes[..at], &bytes[at + 1..])
}

/// What is behind a word.
pub(crate) fn strip<'a>(word: &[u8], text: &'a [u8]) -> Option<&'a [u8]>
    ensures { Finds (λ x. x.now) result (after word.now text.now) }
{
    text.strip_prefix(word)
}

/// The field at the front, and what is behind the space after it.
#[tactic(auto, unfolding(crate::specs::Lines::field_at))]
pub(crate) fn field_of(text: &[u8]) -> Option<(&[u8], &[u8])>
    ensures { Finds (λ x. (x.0.now, x.1.now)) result (field_at text.now) }
{
    match place_of(b' ', text) {
        Some(end) => Some(cut(text, end)),
        None => None,
    }
}

#[tactic(auto, unfolding(crate::specs::Lines::mode_of))]
pub(crate) fn mode_field(text: &[u8]) -> Option<Mode>
    ensures { Finds (λ x. x) result (mode_of text.now) }
{
    read_octal(text)
}

#[tactic(auto, unfolding(crate::specs::Lines::size_of))]
pub(crate) fn size_field(text: &[u8]) -> Option<u64>
    ensures { Finds (λ x. x) result (size_of text.now) }
{
    read_decimal(text)
}
