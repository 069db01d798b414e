//! The troves and contents of a manifest.
ghost use Rattle.std.specs.Prelude.{◌≡◌, Bool, Ok, codes, All, IfOk, IfErr, MatchResult};
ghost use Rattle.manifest_troves.specs.cny-base.declared.refusal.Refusal.{Refusal};
ghost use Rattle.cny_manifest.specs.declared.made.Made.{Made};
ghost use Rattle.cny_manifest.specs.FirstFault as spec;
ghost use Rattle.cny_manifest.specs.FirstFault.{IsFirstFault, IsFaultOf, IsRefusalOrMemory};
ghost use Rattle.cny_manifest.specs.Grammar.{AtMagic, AtName, AtVersion, InBody};
ghost use Rattle.cny_manifest.specs.Lines.{line_at};
ghost use Rattle.cny_manifest.specs.Makes.{Makes, HasOwnContents};
ghost use Rattle.cny_manifest.specs.Reading.{Runs, StopsBy, IsEndOf, IsReadOf};
ghost use Rattle.manifest_troves.specs.Troves.{HasRisingNames};
ghost use Rattle.manifest_troves.specs.trove-stream.Trove.{IsTrove};

use crate::body::take_lines;
use crate::draft::Draft;
use crate::fault::{ReadError, Unread, fault_at};
use crate::head::{magic_of, name_of, version_of};
use crate::lines::line_of;
use crate::made::Made;
use manifest_troves::change_set::Carried;
use manifest_troves::cny_base::{Fault, Name, Refusal, TextFault, What};
use manifest_troves::{Troves, contents_of, troves_of};
use std::alloc::Global;

// Whether owners are named, by the first line, and what is behind it.
fn take_magic(bytes: &[u8]) -> Result<(bool, &[u8]), ReadError>
    ensures ok { IfOk result (λ read. Runs AtMagic bytes.now (AtName read.0) read.1.now) }
    ensures err { IfErr result (StopsBy AtMagic bytes.now) }
{
    let (line, behind) = line_of(bytes)?;
    match magic_of(line) {
        Some(owners) => Ok((owners, behind)),
        None => Err(fault_at(bytes)),
    }
}

// The name on the second line, and what is behind it.
fn take_name(alloc: Global, bytes: &[u8]) -> Result<(Name, &[u8]), ReadError>
    ensures ok { (owners : Bool) → IfOk result (λ read. Runs (AtName owners) bytes.now (AtVersion owners read.0) read.1.now) }
    ensures err { (owners : Bool) → IfErr result (StopsBy (AtName owners) bytes.now) }
{
    let (line, behind) = line_of(bytes)?;
    match name_of(alloc, line) {
        Ok(name) => Ok((name, behind)),
        Err(TextFault::Bad) => Err(fault_at(bytes)),
        Err(TextFault::Memory) => Err(ReadError::Memory),
    }
}

// What is read up to the version on the third line, and what is behind it.
fn take_version(
    alloc: Global,
    owners: bool,
    name: Name,
    bytes: &[u8],
) -> Result<(Draft, &[u8]), ReadError>
    ensures ok { IfOk result (λ read. Runs (AtVersion owners name) bytes.now (InBody read.0) read.1.now) }
    ensures err { IfErr result (StopsBy (AtVersion owners name) bytes.now) }
{
    let (line, behind) = line_of(bytes)?;
    match version_of(alloc, line) {
        Ok(version) => Ok((Draft::new(alloc, owners, name, version)?, behind)),
        Err(TextFault::Bad) => Err(fault_at(bytes)),
        Err(TextFault::Memory) => Err(ReadError::Memory),
    }
}

// What is read up to the version, and what is behind it.
fn take_head(alloc: Global, bytes: &[u8]) -> Result<(Draft, &[u8]), ReadError>
    ensures ok { IfOk result (λ read. Runs AtMagic bytes.now (InBody read.0) read.1.now) }
    ensures err { IfErr result (StopsBy AtMagic bytes.now) }
{
    let (owners, rest) = take_magic(bytes)?;
    let (name, rest) = take_name(alloc, rest)?;
    take_version(alloc, owners, name, rest)
}

// The troves and the contents, where nothing stands behind the line `end`.
fn end(
    alloc: Global,
    draft: Draft,
    rest: &[u8],
    behind: &[u8],
) -> Result<(Troves, Vec<Carried>), ReadError>
    requires { line_at rest.now ≡ Ok (codes "end", behind.now) }
    ensures ok { IfOk result (λ made. IsEndOf draft rest.now made.0 made.1.items) }
    ensures err { IfErr result (StopsBy (InBody draft) rest.now) }
{
    let (lines, contents) = draft.into_lines();
    match troves_of(alloc, lines) {
        Ok(troves) => {
            if !behind.is_empty() {
                return Err(fault_at(behind));
            }
            Ok((troves, contents))
        }
        Err(TextFault::Bad) => Err(fault_at(rest)),
        Err(TextFault::Memory) => Err(ReadError::Memory),
    }
}

// The troves of a manifest, and its contents as they come.
fn read_items(alloc: Global, bytes: &[u8]) -> Result<(Troves, Vec<Carried>), ReadError>
    ensures ok { IfOk result (λ made. IsReadOf bytes.now made.0 made.1.items) }
    ensures err { IfErr result (StopsBy AtMagic bytes.now) }
{
    let (mut draft, rest) = take_head(alloc, bytes)?;
    let (rest, behind) = take_lines(alloc, &mut draft, rest)?;
    end(alloc, draft, rest, behind)
}

// The refusal of a fault of so many bytes.
fn refusal_of(total: usize, fault: Unread) -> Refusal
    ensures { result ≡ spec.refusal_of total fault }
{
    match fault {
        Unread::At { left } => Refusal::Malformed {
            at: total.saturating_sub(left) as u64,
        },
        Unread::TooLarge { size } => Refusal::TooLarge {
            what: What::Content,
            size,
        },
    }
}

// The fault of so many bytes.
fn fault_of(total: usize, error: ReadError) -> Fault
    ensures { result ≡ spec.fault_from total error }
{
    match error {
        ReadError::Unread(fault) => Fault::Refused(refusal_of(total, fault)),
        ReadError::Memory => Fault::Memory,
    }
}

/// The troves and the contents that a manifest stands for. Otherwise the refusal of its first fault, with its kind and its
/// place, or of the first content that differs from an earlier one of its name.
pub fn read(alloc: Global, bytes: &[u8]) -> Result<Made, Fault>
    // What is made is what the bytes stand for.
    ensures value { IfOk result (Makes bytes.now) }
    // What the bytes stand for is made, unless memory runs out.
    ensures only { (made : Made) → Makes bytes.now made
        → MatchResult result (λ read. read ≡ made) (λ fault. fault ≡ Fault.Memory) }
    // A refusal is the first fault.
    ensures refused { IfErr result (IsFaultOf bytes.now) }
    // Where there is a fault, the first one is refused, unless memory runs out.
    ensures exact { (refusal : Refusal) → IsFirstFault bytes.now refusal
        → MatchResult result (λ read. ⊥) (IsRefusalOrMemory refusal) }
    // Each trove that is made keeps the rules of troves, and their names strictly rise.
    ensures troves { IfOk result (λ made. All IsTrove made.troves) }
    ensures rising { IfOk result (λ made. HasRisingNames made.troves) }
    // The contents are those of a change set of these troves.
    ensures contents { IfOk result HasOwnContents }
{
    match read_items(alloc, bytes) {
        Ok((troves, contents)) => {
            let contents = contents_of(alloc, contents)?;
            Ok(Made { troves, contents })
        }
        Err(error) => Err(fault_of(bytes.len(), error)),
    }
}
