//! The model file.
ghost use Rattle.std.specs.Prelude.{◌≡◌, ◌+◌, ◌-◌, ◌^◌, ◌<◌, ◌≤◌, IfOk, IfErr, length, map};
ghost use Rattle.repo_index.specs.cny-base.declared.limits.TheConstants.{CONFIG_LIMIT};
ghost use Rattle.repo_index.specs.cny-base.declared.refusal.Fault.TheVariants as fault;
ghost use Rattle.repo_index.specs.cny-base.declared.refusal.Refusal.TheVariants as refusal;
ghost use Rattle.sys_model.specs.declared.model.Model.{Model};
ghost use Rattle.sys_model.specs.Model.{lines_of, IsModelOf, IsBadModelOrMemory};

use crate::directive::{ModelLine, read_directive};
use crate::line::is_read;
use repo_index::cny_base::{Fault, ListOf, Refusal, TextFault};
use std::alloc::Global;
use trove_spec::{pieces_of, trimmed};

/// What the lines of a model file say, without those that say nothing.
pub type ModelLines = ListOf<ModelLine>;

/// A model file: what the system is to have, told line by line.
#[derive(Drop)]
pub struct Model {
    pub lines: ModelLines,
}

// The refusal for the line of this place, counted from 0.
fn bad_line(place: usize) -> Fault
    requires { place < 2 ^ 32 - 1 }
    ensures { result ≡ fault.Refused (refusal.BadModel (place + 1)) }
{
    Fault::Refused(Refusal::BadModel {
        line: place as u32 + 1,
    })
}

// What these lines say.
fn model_of(alloc: Global, pieces: &[&[u8]]) -> Result<Model, Fault>
    requires { length pieces.now < 2 ^ 32 - 1 }
    ensures value { IfOk result (IsModelOf (map (λ line. line.now) pieces.now)) }
    ensures only { IfOk result (λ model. (other : Model) → IsModelOf (map (λ line. line.now) pieces.now) other → model ≡ other) }
    ensures fault { IfErr result (IsBadModelOrMemory (map (λ line. line.now) pieces.now)) }
{
    let mut lines = Vec::new(alloc);
    for (place, piece) in pieces.iter().enumerate() {
        let line = trimmed(*piece);
        if is_read(line) {
            match read_directive(alloc, line) {
                Ok(said) => lines.push(said)?,
                Err(TextFault::Memory) => return Err(Fault::Memory),
                Err(TextFault::Bad) => return Err(bad_line(place)),
            }
        }
    }
    Ok(Model {
        lines: ModelLines::new(lines),
    })
}

impl Model {
    /// What the bytes of a model file say, of which there are at most 65,536. A line is `install` and a specification, `update` and
    /// a specification, or `erase` and a name, with spaces or tabs between; one CR at its end, and spaces and tabs at both ends,
    /// don't count, and a line that is empty or begins with `#` says nothing, whatever its bytes. `BadModel` exactly where a line
    /// is none of these, with the number of the first such line, counted from 1.
    pub fn read(alloc: Global, bytes: &[u8]) -> Result<Self, Fault>
        requires { length bytes.now ≤ CONFIG_LIMIT }
        ensures value { IfOk result (IsModelOf (lines_of bytes.now)) }
        // They say nothing else.
        ensures only { IfOk result (λ model. (other : Model) → IsModelOf (lines_of bytes.now) other → model ≡ other) }
        ensures fault { IfErr result (IsBadModelOrMemory (lines_of bytes.now)) }
    {
        let pieces = pieces_of(alloc, bytes)?;
        model_of(alloc, pieces.as_slice())
    }
}
