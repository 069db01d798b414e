//! The words of a line, and the size that it tells.
ghost use Rattle.std.specs.Prelude.{◌≡◌, ◌<◌, ◌+◌, ◌++◌, [], ◌∷◌, length, take, drop, true, IfSome, IfNone, OnOk, IfErr};
ghost use Rattle.std.specs.List.{list_all};
ghost use Rattle.cny_batch.specs.Words as spec;
ghost use Rattle.cny_batch.specs.Words.{parts_of};
ghost use Rattle.cny_batch.specs.Reading as reading;
ghost use Rattle.cny_batch.specs.Reading.{AreBehind, IsNoWord, IsPushed, ReadsAs};

use crate::line::Words;
use cny_base::{Text, TextFault, read_decimal};
use std::alloc::Global;

/// The words of a line, and the size of its input, where it tells one.
#[derive(Drop)]
pub(crate) struct Command {
    pub words: Words,
    pub size: Option<u64>,
}

// How many bytes stand behind the last `]`; all of them where there is none.
fn behind_brackets(text: &[u8]) -> usize
    ensures { AreBehind result text.now }
{
    let mut behind = 0;
    for byte in text {
        behind = if *byte == b']' { 0 } else { behind + 1 };
    }
    behind
}

// Whether what follows a byte is in brackets, where `closes` tells whether a `]` comes later.
fn is_in_brackets(before: bool, byte: u8, closes: bool) -> bool
    ensures { result ≡ spec.is_in_brackets before byte closes }
{
    match byte {
        b'[' => closes,
        b']' => false,
        _ => before,
    }
}

// The place of the first space that separates two words; none where all is one part. So many bytes stand behind the last `]`.
fn separator_of(text: &[u8], behind: usize) -> Option<usize>
    requires { AreBehind behind text.now }
    ensures within { IfSome result (λ at. at < length text.now) }
    ensures some { IfSome result (λ at. parts_of text.now ≡ take at text.now ∷ parts_of (drop (at + 1) text.now)) }
    ensures none { IfNone result (parts_of text.now ≡ text.now ∷ []) }
{
    let mut in_brackets = false;
    for (at, byte) in text.iter().enumerate() {
        let separates = *byte == b' ' && !in_brackets;
        if separates {
            return Some(at);
        }
        let closes = text.len() - at - 1 > behind;
        in_brackets = is_in_brackets(in_brackets, *byte, closes);
    }
    None
}

fn are_shown(bytes: &[u8]) -> bool
    ensures { result ≡ list_all spec.is_shown bytes.now }
{
    bytes.iter().all(|byte| *byte >= b' ' && *byte <= b'~')
}

fn is_word(part: &[u8]) -> bool
    ensures { result ≡ spec.is_word part.now }
{
    let shown = are_shown(part);
    part.len() >= 1 && shown
}

// Adds a word. `Bad` exactly where the part of the line is none.
fn push_word(alloc: Global, words: &mut Words, part: &[u8]) -> Result<(), TextFault>
    ensures ok { OnOk result (IsPushed words.old part.now words.new) }
    ensures err { IfErr result (IsNoWord part.now) }
{
    if !is_word(part) {
        return Err(TextFault::Bad);
    }
    let word = Text::read_bytes(alloc, part)?;
    words.push(word.into_string())?;
    Ok(())
}

// The size that a part of a line tells.
fn size_of(part: &[u8]) -> Option<u64>
    ensures { result ≡ spec.size_of part.now }
{
    match part {
        [b'<', digits @ ..] => read_decimal(digits),
        _ => None,
    }
}

// The size that the last part of a line tells, behind its words.
fn last_size(words: &Words, part: &[u8]) -> Option<u64>
    ensures { result ≡ spec.last_size (words.now ++ part.now ∷ []) }
{
    if words.get().is_empty() {
        return None;
    }
    size_of(part)
}

// Adds the last part of a line to the words before it, unless it tells a size.
fn end_words(alloc: Global, words: Words, part: &[u8]) -> Result<Command, TextFault>
    requires { list_all spec.is_word words ≡ true }
    ensures { ReadsAs (reading.command_by (words ++ part.now ∷ [])) result }
{
    let mut words = words;
    match last_size(&words, part) {
        Some(size) => Ok(Command {
            words,
            size: Some(size),
        }),
        None => {
            push_word(alloc, &mut words, part)?;
            Ok(Command { words, size: None })
        }
    }
}

// What is behind a place.
#[tactic(auto, using(std::proofs::lemmas::List::take_rest))]
fn behind_place(text: &[u8], at: usize) -> &[u8]
    requires { at < length text.now }
    ensures value { result.now ≡ drop (at + 1) text.now }
    ensures shorter { length result.now < length text.now }
{
    &text[at + 1..]
}

/// The words of a line and the size that it tells. `Bad` exactly where it has other parts than words.
pub(crate) fn command_of(alloc: Global, line: &[u8]) -> Result<Command, TextFault>
    ensures { ReadsAs (reading.command_of line.now) result }
{
    let behind = behind_brackets(line);
    let mut words = Words::new(Vec::new(alloc));
    let mut rest = line;
    'parts: while let Some(at) = separator_of(rest, behind) {
        push_word(alloc, &mut words, &rest[..at])?;
        rest = behind_place(rest, at);
    }
    end_words(alloc, words, rest)
}
