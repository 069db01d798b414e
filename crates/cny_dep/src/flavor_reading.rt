//! Reading the relaxed text of a flavor.
ghost use Rattle.std.specs.Prelude.{◌≡◌, true, take, drop, IfOk};
ghost use Rattle.std.specs.List.{list_all};
ghost use Rattle.std.specs.Option.{option_map};
ghost use Rattle.cny_base.specs.Name as name;
ghost use Rattle.cny_dep.specs.FlavorReading as reading;
ghost use Rattle.cny_dep.specs.FlavorReading.{Gives, flag_at, flags_at, ordered_flags_at, own_flags_at, set_at, sets_at, sets_part_at, sets_after_at, parts_at};

use crate::flavor_order::{MOST_FLAGS, ordered};
use crate::parts::{Flags, FlavorFlag, InstructionSet, InstructionSets, Parts, Sense};
use cny_base::{OutOfMemory, Text, TextFault};
use std::alloc::Global;

// The bytes after a first byte, where that is the one wanted.
fn after_byte(wanted: u8, bytes: &[u8]) -> Option<&[u8]>
    ensures { option_map (λ rest. rest.now) result ≡ reading.after_byte wanted bytes.now }
{
    match bytes {
        [first, rest @ ..] if *first == wanted => Some(rest),
        _ => None,
    }
}

fn skip_spaces(bytes: &[u8]) -> &[u8]
    ensures { result.now ≡ reading.skip_spaces bytes.now }
{
    let mut rest = bytes;
    while let [b' ', after @ ..] = rest {
        rest = after;
    }
    rest
}

// A letter or digit, or one of `_ - . +`.
fn is_word_byte(byte: u8) -> bool
    ensures { result ≡ name.is_word_byte byte }
{
    byte.is_ascii_alphanumeric() || matches!(byte, b'_' | b'-' | b'.' | b'+')
}

// How many bytes at the front may stand in a word.
fn word_len(bytes: &[u8]) -> usize
    ensures { result ≡ reading.word_len bytes.now }
{
    bytes.iter().take_while(|byte| is_word_byte(**byte)).count()
}

// The bytes at the front that may stand in a word, and the bytes after them.
fn split_word(bytes: &[u8]) -> (&[u8], &[u8])
    ensures word { result.0.now ≡ take (reading.word_len bytes.now) bytes.now }
    ensures rest { result.1.now ≡ drop (reading.word_len bytes.now) bytes.now }
    ensures passes { list_all name.is_word_byte result.0.now ≡ true }
{
    bytes.split_at(word_len(bytes))
}

// A text of bytes of words.
fn text_of(alloc: Global, bytes: &[u8]) -> Result<Text, OutOfMemory>
    requires { list_all name.is_word_byte bytes.now ≡ true }
    ensures { IfOk result (λ text. text ≡ bytes.now) }
{
    let mut text = String::new(alloc);
    for byte in bytes {
        text.push(char::from(*byte))?;
    }
    Ok(Text::from_string(text))
}

// A sense, and the bytes after it.
fn sense_of(bytes: &[u8]) -> (Sense, &[u8])
    ensures { (result.0, result.1.now) ≡ reading.sense_at bytes.now }
{
    match after_byte(b'~', bytes) {
        Some(rest) => match after_byte(b'!', rest) {
            Some(more) => (Sense::PreferNot, more),
            None => (Sense::Preferred, rest),
        },
        None => match after_byte(b'!', bytes) {
            Some(rest) => (Sense::Forbidden, rest),
            None => (Sense::Required, bytes),
        },
    }
}

// A flag at the front, and the bytes after it.
fn flag_of(alloc: Global, bytes: &[u8]) -> Result<(FlavorFlag, &[u8]), OutOfMemory>
    ensures { IfOk result (λ r. (r.0, r.1.now) ≡ flag_at bytes.now) }
{
    let (sense, rest) = sense_of(bytes);
    let (word, rest) = split_word(rest);
    let word = text_of(alloc, word)?;
    Ok((FlavorFlag { sense, word }, rest))
}

// The flags at the front as they are written, and the bytes after them.
fn written_flags(alloc: Global, bytes: &[u8]) -> Result<(Vec<FlavorFlag>, &[u8]), TextFault>
    ensures { Gives (λ r. (r.0.items, r.1.now)) result (flags_at 64 bytes.now) }
{
    let mut flags = Vec::new(alloc);
    let mut rest = bytes;
    for _ in 0..MOST_FLAGS {
        let (flag, after) = flag_of(alloc, rest)?;
        flags.push(flag)?;
        match after_byte(b',', after) {
            Some(more) => rest = skip_spaces(more),
            None => return Ok((flags, after)),
        }
    }
    Err(TextFault::Bad)
}

// The flags at the front in the order of their words, and the bytes after them.
#[tactic(auto, unfolding(crate::specs::FlavorReading::ordered_flags_at))]
fn flags_of(alloc: Global, bytes: &[u8]) -> Result<(Flags, &[u8]), TextFault>
    ensures { Gives (λ r. (r.0, r.1.now)) result (ordered_flags_at bytes.now) }
{
    let (flags, rest) = written_flags(alloc, bytes)?;
    Ok((Flags::new(ordered(flags)?), rest))
}

// The flags in parentheses at the front, none where there are no parentheses, and the bytes after them.
fn own_flags_of(alloc: Global, bytes: &[u8]) -> Result<(Flags, &[u8]), TextFault>
    ensures { Gives (λ r. (r.0, r.1.now)) result (own_flags_at bytes.now) }
{
    match after_byte(b'(', bytes) {
        None => Ok((Flags::new(Vec::new(alloc)), bytes)),
        Some(inner) => {
            let (flags, after) = flags_of(alloc, inner)?;
            match after_byte(b')', after) {
                Some(rest) => Ok((flags, rest)),
                None => Err(TextFault::Bad),
            }
        }
    }
}

// A set at the front, and the bytes after it.
#[tactic(auto, unfolding(crate::specs::FlavorReading::set_at))]
fn set_of(alloc: Global, bytes: &[u8]) -> Result<(InstructionSet, &[u8]), TextFault>
    ensures { Gives (λ r. (r.0, r.1.now)) result (set_at bytes.now) }
{
    let (word, after) = split_word(bytes);
    let word = text_of(alloc, word)?;
    let (flags, rest) = own_flags_of(alloc, after)?;
    Ok((InstructionSet { word, flags }, rest))
}

// The sets that the bytes are, as they are written.
fn written_sets(alloc: Global, bytes: &[u8]) -> Result<Vec<InstructionSet>, TextFault>
    ensures { Gives (λ sets. sets.items) result (sets_at 64 bytes.now) }
{
    let mut sets = Vec::new(alloc);
    let mut rest = bytes;
    for _ in 0..MOST_FLAGS {
        let (set, after) = set_of(alloc, rest)?;
        sets.push(set)?;
        if after.is_empty() {
            return Ok(sets);
        }
        match after_byte(b' ', after) {
            Some(more) => rest = skip_spaces(more),
            None => return Err(TextFault::Bad),
        }
    }
    Err(TextFault::Bad)
}

// The bytes after `is:`, where they begin so.
fn after_is(bytes: &[u8]) -> Option<&[u8]>
    ensures { option_map (λ rest. rest.now) result ≡ reading.after_is bytes.now }
{
    let rest = after_byte(b'i', bytes)?;
    let rest = after_byte(b's', rest)?;
    after_byte(b':', rest)
}

// The sets after `is:`, in the order of their words.
#[tactic(auto, unfolding(crate::specs::FlavorReading::sets_part_at))]
fn sets_part_of(alloc: Global, bytes: &[u8]) -> Result<InstructionSets, TextFault>
    ensures { Gives (λ sets. sets) result (sets_part_at bytes.now) }
{
    match after_is(bytes) {
        Some(rest) => {
            let sets = written_sets(alloc, skip_spaces(rest))?;
            Ok(InstructionSets::new(ordered(sets)?))
        }
        None => Err(TextFault::Bad),
    }
}

// The sets after the flags, in the order of their words.
#[tactic(auto, unfolding(crate::specs::FlavorReading::sets_after_at))]
fn sets_after_flags(alloc: Global, bytes: &[u8]) -> Result<InstructionSets, TextFault>
    ensures { Gives (λ sets. sets) result (sets_after_at bytes.now) }
{
    if bytes.is_empty() {
        return Ok(InstructionSets::new(Vec::new(alloc)));
    }
    match after_byte(b' ', bytes) {
        Some(rest) => sets_part_of(alloc, skip_spaces(rest)),
        None => Err(TextFault::Bad),
    }
}

/// The flags and sets that a relaxed text spells, each list in the order of its words.
#[tactic(auto, unfolding(crate::specs::FlavorReading::parts_at))]
pub(crate) fn parts_of(alloc: Global, bytes: &[u8]) -> Result<Parts, TextFault>
    ensures { Gives (λ parts. parts) result (parts_at bytes.now) }
{
    let no_flags = Flags::new(Vec::new(alloc));
    if bytes.is_empty() {
        let sets = InstructionSets::new(Vec::new(alloc));
        return Ok(Parts {
            flags: no_flags,
            sets,
        });
    }
    if after_is(bytes).is_some() {
        let sets = sets_part_of(alloc, bytes)?;
        return Ok(Parts {
            flags: no_flags,
            sets,
        });
    }
    let (flags, after) = flags_of(alloc, bytes)?;
    let sets = sets_after_flags(alloc, after)?;
    Ok(Parts { flags, sets })
}
