//! What the manifests are written with.
ghost use Rattle.std.specs.Prelude.{◌≡◌, ◌++◌, IfOk, OnOk, string_bytes};
ghost use Rattle.cny_batch.specs.Manifests.{file_entry};
ghost use Rattle.cny_batch.specs.Manifests as spec;

use cny_base::{Bytes, OutOfMemory};
use std::alloc::Global;

/// The version of a round.
#[tactic(auto, unfolding(crate::specs::Manifests::version_of))]
pub fn version_of(alloc: Global, round: u64) -> Result<String, OutOfMemory>
    ensures { IfOk result (λ text. string_bytes text ≡ spec.version_of round) }
{
    Ok(format!(in alloc; "/demo.example.com@ex:devel/1.0-{round}-1")?)
}

/// Appends the line with the version of a round.
#[tactic(auto, unfolding(crate::specs::Manifests::version_line))]
pub fn push_version(alloc: Global, out: &mut Bytes, round: u64) -> Result<(), OutOfMemory>
    ensures { OnOk result (out.new ≡ out.old ++ spec.version_line round) }
{
    let version = version_of(alloc, round)?;
    let text = format!(in alloc; "version {version}\n")?;
    push_text(out, text.as_str())
}

/// Appends a text.
pub fn push_text(out: &mut Bytes, text: &str) -> Result<(), OutOfMemory>
    ensures { OnOk result (out.new ≡ out.old ++ text.now) }
{
    out.push_slice(text.as_bytes())
}

/// Appends the entry of a file, its flags with a space behind each.
#[tactic(auto, using(std::proofs::lemmas::List::append_assoc))]
pub fn push_file(
    alloc: Global,
    out: &mut Bytes,
    mode: &str,
    flags: &str,
    path: &str,
    content: &[u8],
) -> Result<(), OutOfMemory>
    ensures { OnOk result (out.new ≡ out.old ++ file_entry mode.now flags.now path.now content.now) }
{
    let size = content.len();
    let line = format!(in alloc; "file {mode} {size} {flags}{path}\n")?;
    push_text(out, line.as_str())?;
    out.push_slice(content)?;
    push_text(out, "\n")
}
