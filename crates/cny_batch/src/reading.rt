//! The lines of a batch.
ghost use Rattle.std.specs.Prelude.{◌≡◌, ℕ, List, Some, IfOk, IfErr, IfSome, MatchResult, ◌<◌, ◌≤◌, length, take};
ghost use Rattle.std.specs.List.{position};
ghost use Rattle.cny_base.specs.Refusals.{IsRefusalOrMemory};
ghost use Rattle.cny_batch.specs.declared.line.Line.{Line};
ghost use Rattle.cny_batch.specs.Batch.{is_feed, IsBatch};
ghost use Rattle.cny_batch.specs.FirstFault.{IsFirstFault, IsFaultOf};
ghost use Rattle.cny_batch.specs.Reading as spec;
ghost use Rattle.cny_batch.specs.Reading.{Gives};

use crate::fault::{ReadError, fault_at};
use crate::limits::{LINE_ROOM, LINES_LIMIT};
use crate::line::{Line, Lines};
use crate::words::{Command, command_of};
use cny_base::{Bytes, Fault, Refusal, TextFault};
use std::alloc::Global;

// So many bytes at the front, or all where there are fewer.
#[tactic(auto, using(std::proofs::lemmas::List::take_min))]
fn front_of(room: usize, bytes: &[u8]) -> &[u8]
    ensures front { result.now ≡ take room bytes.now }
    ensures shorter { length result.now ≤ length bytes.now }
{
    &bytes[..room.min(bytes.len())]
}

// The place of the first line feed.
fn feed_of(bytes: &[u8]) -> Option<usize>
    ensures place { result ≡ position is_feed bytes.now }
    ensures within { IfSome result (λ at. at < length bytes.now) }
{
    bytes.iter().position(|byte| *byte == b'\n')
}

// The text of the line at the front, and what is behind it.
fn text_of(rest: &[u8]) -> Result<(&[u8], &[u8]), ReadError>
    ensures read { Gives (λ x. (x.0.now, x.1.now)) result (spec.text_at rest.now) }
    ensures shorter { IfOk result (λ x. length x.1.now < length rest.now) }
{
    match feed_of(front_of(LINE_ROOM, rest)) {
        Some(end) => Ok((&rest[..end], &rest[end + 1..])),
        None => {
            if rest.len() < LINE_ROOM {
                return Err(ReadError::Malformed { left: 0 });
            }
            Err(fault_at(rest))
        }
    }
}

// The command of the line at the front, and what is behind it.
#[tactic(auto, unfolding(crate::specs::Reading::command_at))]
fn command_at(alloc: Global, rest: &[u8]) -> Result<(Command, &[u8]), ReadError>
    ensures read { Gives (λ x. (x.0, x.1.now)) result (spec.command_at rest.now) }
    ensures shorter { IfOk result (λ x. length x.1.now < length rest.now) }
{
    let (text, behind) = text_of(rest)?;
    match command_of(alloc, text) {
        Ok(command) => Ok((command, behind)),
        Err(TextFault::Bad) => Err(fault_at(rest)),
        Err(TextFault::Memory) => Err(ReadError::Memory),
    }
}

// The input at the front, which is empty where the line tells no size, and what is behind it.
#[tactic(auto, unfolding(crate::specs::Reading::input_at), using(std::proofs::lemmas::List::take_rest))]
fn input_of(size: Option<u64>, rest: &[u8]) -> Result<(&[u8], &[u8]), ReadError>
    ensures read { Gives (λ x. (x.0.now, x.1.now)) result (spec.input_at size rest.now) }
    ensures shorter { IfOk result (λ x. length x.1.now ≤ length rest.now) }
{
    let Some(size) = size else {
        return Ok((&rest[..0], rest));
    };
    if rest.len() as u64 <= size {
        return Err(ReadError::Malformed { left: 0 });
    }
    let size = size as usize;
    if rest[size] != b'\n' {
        return Err(fault_at(rest));
    }
    Ok((&rest[..size], &rest[size + 1..]))
}

// The line at the front with its input, and what is behind it.
#[tactic(auto, unfolding(crate::specs::Reading::line_at))]
fn line_of(alloc: Global, rest: &[u8]) -> Result<(Line, &[u8]), ReadError>
    ensures read { Gives (λ x. (x.0, x.1.now)) result (spec.line_at rest.now) }
    ensures shorter { IfOk result (λ x. length x.1.now < length rest.now) }
{
    let (Command { words, size }, behind) = command_at(alloc, rest)?;
    let (input, behind) = input_of(size, behind)?;
    let input = Bytes::new(alloc, input)?;
    Ok((Line { words, input }, behind))
}

// The lines.
fn lines_of(alloc: Global, bytes: &[u8]) -> Result<Lines, ReadError>
    ensures { Gives (λ x. x) result (spec.lines_at LINES_LIMIT bytes.now) }
{
    let mut lines = Vec::new(alloc);
    let mut rest = bytes;
    'lines: while !rest.is_empty() {
        if lines.len() == LINES_LIMIT {
            return Err(fault_at(rest));
        }
        let (line, behind) = line_of(alloc, rest)?;
        lines.push(line)?;
        rest = behind;
    }
    Ok(Lines::new(lines))
}

// The fault of so many bytes.
fn fault_of(total: usize, error: ReadError) -> Fault
    ensures { result ≡ spec.fault_of total error }
{
    match error {
        ReadError::Malformed { left } => Fault::Refused(Refusal::Malformed {
            at: total.saturating_sub(left) as u64,
        }),
        ReadError::Memory => Fault::Memory,
    }
}

/// The lines of a batch, each with its words and its input. Otherwise the bytes are refused as malformed at their first fault. Takes
/// time linear in their number, and copies each input once.
pub fn read_batch(alloc: Global, bytes: &[u8]) -> Result<Lines, Fault>
    // The bytes are a batch of the lines that are read.
    ensures value { IfOk result (λ lines. IsBatch lines bytes.now) }
    // Where the bytes are a batch of some lines, these are read, unless memory runs out.
    ensures only { (lines : List Line) → IsBatch lines bytes.now
        → MatchResult result (λ read. read ≡ lines) (λ fault. fault ≡ Fault.Memory) }
    // A refusal is at the first fault.
    ensures refused { IfErr result (IsFaultOf bytes.now) }
    // Where there is a fault, the first one is refused, unless memory runs out.
    ensures exact { (place : ℕ) → IsFirstFault bytes.now place
        → MatchResult result (λ read. ⊥) (IsRefusalOrMemory (Some (Refusal.Malformed place))) }
{
    match lines_of(alloc, bytes) {
        Ok(lines) => Ok(lines),
        Err(error) => Err(fault_of(bytes.len(), error)),
    }
}

/// Bytes are a batch of one list of lines at most, and have one first fault at most, and never both.
pub fn one_batch()
    ensures lines { (bytes : List ℕ) (a b : List Line) → IsBatch a bytes → IsBatch b bytes → a ≡ b }
    ensures excluded { (bytes : List ℕ) (a : List Line) (place : ℕ) → IsBatch a bytes → IsFirstFault bytes place → ⊥ }
    ensures fault { (bytes : List ℕ) (p q : ℕ) → IsFirstFault bytes p → IsFirstFault bytes q → p ≡ q }
{}
