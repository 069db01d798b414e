//! The lines of entries.
ghost use Rattle.std.specs.Prelude.{◌≡◌, ◌≤◌, ◌++◌, ◌∷◌, [], true, IfErr, IfOk, IsTrue, OnOk};
ghost use Rattle.cny_manifest.specs.Grammar.{IsLine};
ghost use Rattle.cny_manifest.specs.Spelling as spec;
ghost use Rattle.cny_pack.specs.Gives.{GivesLine};
ghost use Rattle.cny_pack.specs.Halts.{IsHalt, Never};
ghost use Rattle.tree_disk.specs.cny-base.Count.{Rose};
ghost use Rattle.tree_disk.specs.cny-base.Number.{octal_text};

use crate::stop::Halt;
use manifest_troves::cny_stream::{Flags, Owner};
use std::alloc::Global;
use tree_disk::cny_base::{Bytes, Mode, OutOfMemory, Path, Sink, Target, decimal, octal};

// As many bytes as no line has.
const LINE_ROOM: usize = 2049;

/// Whether the bytes can be a line: they are few enough, and none of them is a line feed.
pub(crate) fn is_line(text: &[u8]) -> bool
    ensures line { IsTrue result → IsLine text.now }
    ensures all { IsLine text.now → IsTrue result }
{
    text.len() < LINE_ROOM && !text.contains(&b'\n')
}

// Appends a user, a group and the space behind them.
fn push_owner(line: &mut Bytes, owner: &Owner) -> Result<(), OutOfMemory>
    ensures { OnOk result (line.new ≡ line.old ++ spec.owner_words true owner.now) }
{
    line.push_slice(owner.user().as_bytes())?;
    line.push_slice(b":")?;
    line.push_slice(owner.group().as_bytes())?;
    line.push_slice(b" ")
}

// Appends a mode and the space behind it.
fn push_mode(line: &mut Bytes, mode: Mode) -> Result<(), OutOfMemory>
    ensures { OnOk result (line.new ≡ line.old ++ (octal_text mode ++ 32 ∷ [])) }
{
    line.push_slice(&octal(mode))?;
    line.push_slice(b" ")
}

// Appends the word of a flag that is set, with the space behind it.
fn push_if(line: &mut Bytes, word: &[u8], is_set: bool) -> Result<(), OutOfMemory>
    ensures { OnOk result (line.new ≡ line.old ++ spec.word_if is_set word.now) }
{
    if is_set {
        line.push_slice(word)?;
    }
    Ok(())
}

/// The line of a directory.
pub(crate) fn dir_line(
    alloc: Global,
    path: &Path,
    mode: Mode,
    owner: &Owner,
) -> Result<Bytes, OutOfMemory>
    ensures { IfOk result (λ line. line ≡ spec.dir_line true path.now mode owner.now) }
{
    let mut line = Bytes::new(alloc, b"dir ")?;
    push_mode(&mut line, mode)?;
    push_owner(&mut line, owner)?;
    line.push_slice(path.text().as_bytes())?;
    Ok(line)
}

/// The line of a file of this size.
pub(crate) fn file_line(
    alloc: Global,
    path: &Path,
    mode: Mode,
    owner: &Owner,
    flags: Flags,
    size: u64,
) -> Result<Bytes, OutOfMemory>
    ensures { IfOk result (λ line. line ≡ spec.file_line true path.now mode owner.now flags size) }
{
    let mut line = Bytes::new(alloc, b"file ")?;
    push_mode(&mut line, mode)?;
    line.push_slice(decimal(alloc, size)?.get().as_bytes())?;
    line.push_slice(b" ")?;
    push_owner(&mut line, owner)?;
    push_if(&mut line, b"config ", flags.config)?;
    push_if(&mut line, b"initial ", flags.initial)?;
    push_if(&mut line, b"transient ", flags.transient)?;
    line.push_slice(path.text().as_bytes())?;
    Ok(line)
}

/// The line with the path of a link.
pub(crate) fn link_line(alloc: Global, path: &Path) -> Result<Bytes, OutOfMemory>
    ensures { IfOk result (λ line. line ≡ spec.link_line path.now) }
{
    let mut line = Bytes::new(alloc, b"link ")?;
    line.push_slice(path.text().as_bytes())?;
    Ok(line)
}

/// The line with the target of a link.
pub(crate) fn target_line(alloc: Global, target: &Target) -> Result<Bytes, OutOfMemory>
    ensures { IfOk result (λ line. line ≡ spec.target_line target.now) }
{
    let mut line = Bytes::new(alloc, b"target ")?;
    line.push_slice(target.text().as_bytes())?;
    Ok(line)
}

/// Writes a line and the line feed behind it.
pub(crate) fn give_line<S: Sink>(out: &mut S, line: Bytes) -> Result<(), Halt>
    requires { IsLine line }
    ensures given { OnOk result (GivesLine line (S.sink.written out.old) (S.sink.written out.new)) }
    ensures later { S.sink.faults out.old ≤ S.sink.faults out.new }
    ensures stops { IfErr result (IsHalt Never ⊥ (Rose (S.sink.faults out.old) (S.sink.faults out.new))) }
{
    let mut line = line;
    line.push_slice(b"\n")?;
    out.give(line.get())?;
    Ok(())
}
