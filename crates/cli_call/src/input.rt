//! Reading the input to its end.
ghost use Rattle.std.specs.Prelude.{◌≡◌, ◌⊎◌, ◌≤◌, ◌+◌, ◌-◌, ◌<◌, IfOk, IsErrOf, length, OnErr, List, ℕ, ◌++◌};
ghost use Rattle.std.specs.Io.KnownBytes.{Consumes, IsAtEnd};
ghost use Rattle.cny_laws.specs.system-core.cny-base.Count.{Rose};
ghost use Rattle.repo_load.specs.cny-base.Flow.{source_state};
ghost use Rattle.cli_call.specs.Input.{ReadsInput};
ghost use Rattle.cny_laws.specs.Input.{input_limit, IsOfSome};
ghost use Rattle.cny_laws.specs.Reading.{ReadsGiven};

use cny_laws::Failure;
use cny_laws::system_core::cny_base::{Bytes, INPUT_LIMIT, Refusal, What};
use repo_load::cny_base::{FlowFault, Source};
use std::alloc::Global;

const PIECE: usize = 4096;

// Takes some more bytes, but none past one byte behind the limit, and answers how many.
fn take_more<I: Source>(input: &mut I, bytes: &mut Vec<u8>) -> Result<usize, Failure>
    requires { length bytes.old.items ≤ input_limit }
    ensures taken { IfOk result (λ count. (taken : List ℕ) × (length taken ≡ count) × (bytes.new.items ≡ bytes.old.items ++ taken) × Consumes (I.source.left input.old) (I.source.left input.new) taken) }
    ensures end { IfOk result (λ count. count ≡ 0 → IsAtEnd (I.source.left input.new)) }
    ensures limit { length bytes.new.items ≤ input_limit + 1 }
    ensures later { I.source.faults input.old ≤ I.source.faults input.new }
    ensures failed { IsErrOf result Failure.InputFault → Rose (I.source.faults input.old) (I.source.faults input.new) }
    ensures err { OnErr result (IsErrOf result Failure.InputFault ⊎ IsErrOf result Failure.Memory) }
{
    let mut piece = [0u8; PIECE];
    let room = PIECE.min(INPUT_LIMIT + 1 - bytes.len());
    match input.take(&mut piece[..room]) {
        Ok(count) => {
            bytes.extend_from_slice(&piece[..count])?;
            Ok(count)
        }
        Err(FlowFault::Failed) => Err(Failure::InputFault),
        Err(FlowFault::Memory) => Err(Failure::Memory),
    }
}

// Reads the input to its end, or to one byte past its limit.
fn read_input<I: Source>(alloc: Global, input: &mut I) -> Result<Bytes, Failure>
    ensures read { ReadsInput (I.source.left input.old) (I.source.left input.new) result }
    // Also where the source doesn't tell what it has.
    ensures some { IsOfSome result }
    ensures later { I.source.faults input.old ≤ I.source.faults input.new }
    ensures failed { IsErrOf result Failure.InputFault → Rose (I.source.faults input.old) (I.source.faults input.new) }
{
    let mut bytes = Vec::new(alloc);
    loop {
        if take_more(input, &mut bytes)? == 0 {
            return Ok(Bytes::from_vec(bytes));
        }
        if bytes.len() > INPUT_LIMIT {
            return Err(Failure::Refused(Refusal::TooLarge {
                what: What::Input,
                size: INPUT_LIMIT as u64 + 1,
            }));
        }
    }
}

/// Reads what a command is given: the whole input, where it takes one, and else nothing.
pub fn read_given<I: Source>(
    alloc: Global,
    takes_input: bool,
    input: &mut I,
) -> Result<Bytes, Failure>
    ensures { ReadsGiven takes_input (source_state I.source input.old) (source_state I.source input.new) result }
{
    if !takes_input {
        return Ok(Bytes::from_vec(Vec::new(alloc)));
    }
    read_input(alloc, input)
}
