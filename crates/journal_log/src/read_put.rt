//! One put of a log, read from its item.
ghost use Rattle.std.specs.Prelude.{◌≡◌, ◌≤◌, ◌++◌, ℕ, List, drop, IfOk, IsErrOf, IfSome, IfNone};
ghost use Rattle.std.specs.Int.{to_be_bytes, w16};
ghost use Rattle.tree_disk.specs.cny-base.StrField.{FitsStr, str};
ghost use Rattle.journal_log.specs.declared.put.Put.{Put};
ghost use Rattle.journal_log.specs.PutItem.{IsPutItem};
ghost use Rattle.journal_log.specs.TwoStrs.{AreTwoStrs, HasTail};

use crate::encode::{DIR, LINK, NOTHING, STAGED};
use crate::put::{Put, Want};
use std::alloc::Global;
use tree_disk::cny_base::{Bytes, Mode, Path, Span, Target, TextFault, next_str};

/// The put that an item with this tag and value spells. `Bad` exactly where it spells none.
pub(crate) fn read_put(alloc: Global, tag: u8, value: &[u8]) -> Result<Put, TextFault>
    ensures ok { IfOk result (λ put. IsPutItem put tag value.now) }
    ensures bad { IsErrOf result TextFault.Bad → (p : Put) → IsPutItem p tag value.now → ⊥ }
{
    match tag {
        NOTHING => read_nothing(alloc, value),
        DIR => read_dir(alloc, value),
        LINK => read_link(alloc, value),
        STAGED => read_staged(alloc, value),
        _ => Err(TextFault::Bad),
    }
}

fn read_nothing(alloc: Global, value: &[u8]) -> Result<Put, TextFault>
    ensures ok { IfOk result (λ put. IsPutItem put 0x30 value.now) }
    ensures bad { IsErrOf result TextFault.Bad → (p : Put) → IsPutItem p 0x30 value.now → ⊥ }
{
    let path = Path::read_bytes(alloc, value)?;
    Ok(Put {
        path,
        want: Want::Nothing,
    })
}

fn read_dir(alloc: Global, value: &[u8]) -> Result<Put, TextFault>
    ensures ok { IfOk result (λ put. IsPutItem put 0x31 value.now) }
    ensures bad { IsErrOf result TextFault.Bad → (p : Put) → IsPutItem p 0x31 value.now → ⊥ }
{
    let mode = read_mode(value).ok_or(TextFault::Bad)?;
    let path = Path::read_bytes(alloc, &value[2..])?;
    Ok(Put {
        path,
        want: Want::Dir { mode },
    })
}

fn read_link(alloc: Global, value: &[u8]) -> Result<Put, TextFault>
    ensures ok { IfOk result (λ put. IsPutItem put 0x32 value.now) }
    ensures bad { IsErrOf result TextFault.Bad → (p : Put) → IsPutItem p 0x32 value.now → ⊥ }
{
    let Some((first, second)) = two_strs(value) else {
        return Err(TextFault::Bad);
    };
    let path = Path::read_bytes(alloc, &value[first.from..first.to])?;
    let target = Target::read_bytes(alloc, &value[second.from..second.to])?;
    Ok(Put {
        path,
        want: Want::Link { target },
    })
}

// Where the values of two `str` fields stand that are all of the bytes.
fn two_strs(value: &[u8]) -> Option<(Span, Span)>
    ensures some { IfSome result (λ spans. AreTwoStrs value.now spans.0 spans.1) }
    ensures none { IfNone result ((a b : List ℕ) → FitsStr a → FitsStr b → value.now ≡ str a ++ str b → ⊥) }
{
    let first = next_str(value, 0)?;
    let second = next_str(value, first.to)?;
    if second.to != value.len() {
        return None;
    }
    Some((first, second))
}

fn read_staged(alloc: Global, value: &[u8]) -> Result<Put, TextFault>
    ensures ok { IfOk result (λ put. IsPutItem put 0x34 value.now) }
    ensures bad { IsErrOf result TextFault.Bad → (p : Put) → IsPutItem p 0x34 value.now → ⊥ }
{
    let mode = read_mode(value).ok_or(TextFault::Bad)?;
    let Some(text) = next_str(value, 2) else {
        return Err(TextFault::Bad);
    };
    let Some(tail) = read_tail(&value[text.to..]) else {
        return Err(TextFault::Bad);
    };
    let path = Path::read_bytes(alloc, &value[text.from..text.to])?;
    let name = tail.name;
    Ok(Put {
        path,
        want: Want::Staged {
            mode,
            number: tail.number,
            size: tail.size,
            name,
        },
    })
}

// What an item tells of a staged file behind the path.
#[derive(Drop)]
struct Tail {
    number: u32,
    size: u32,
    name: [u8; 20],
}

// The number, the size and the digest that are all of the bytes.
fn read_tail(value: &[u8]) -> Option<Tail>
    ensures some { IfSome result (λ tail. HasTail value.now tail.number tail.size tail.name) }
    ensures none { IfNone result ((number size : ℕ) (name : List ℕ) → HasTail value.now number size name → ⊥) }
{
    let (number, rest) = value.split_first_chunk::<4>()?;
    let (size, rest) = rest.split_first_chunk::<4>()?;
    let name = *rest.as_array::<20>()?;
    Some(Tail {
        number: u32::from_be_bytes(*number),
        size: u32::from_be_bytes(*size),
        name,
    })
}

/// The mode in the first two bytes; none where there are fewer, or where it is above 0o7777.
pub fn read_mode(value: &[u8]) -> Option<Mode>
    ensures some { IfSome result (λ mode. value.now ≡ to_be_bytes w16 mode ++ drop 2 value.now) }
    ensures within { IfSome result (λ mode. mode ≤ 4095) }
    ensures none { IfNone result ((mode : ℕ) (rest : List ℕ) → mode ≤ 4095 → value.now ≡ to_be_bytes w16 mode ++ rest → ⊥) }
{
    if value.len() < 2 {
        return None;
    }
    Mode::new(u16::from_be_bytes([value[0], value[1]]))
}
