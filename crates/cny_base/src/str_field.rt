//! The field of a stream that holds a value of fewer than 65,536 bytes: the length in two bytes, the high byte first, and the value.
ghost use Rattle.std.specs.Prelude.{◌≡◌, ◌≤◌, ◌+◌, ◌++◌, List, ℕ, length, drop, OnOk, OnErr, IfSome, IsSomeAnd};
ghost use Rattle.cny_base.specs.StrField.{FitsStr, IsStrAt, str, str_len};

use crate::bytes::Bytes;
use crate::text::OutOfMemory;

/// Where a value stands in the bytes: from `from` up to `to`.
#[derive(Clone, Copy)]
pub struct Span {
    pub from: usize,
    pub to: usize,
}

/// Appends the field of a value; on want of memory `out` is as before.
pub fn put_str(out: &mut Bytes, value: &[u8]) -> Result<(), OutOfMemory>
    requires { FitsStr value.now }
    ensures ok { OnOk result (out.new ≡ out.old ++ str value.now) }
    ensures err { OnErr result (out.new ≡ out.old) }
{
    let before = out.get().len();
    out.push_slice(&(value.len() as u16).to_be_bytes())?;
    let put = out.push_slice(value);
    if put.is_err() {
        out.truncate(before);
    }
    put
}

// The length of the value of the field at the front.
fn value_len(bytes: &[u8]) -> Option<usize>
    ensures { result ≡ str_len bytes.now }
{
    if bytes.len() < 2 {
        return None;
    }
    let (front, rest) = bytes.split_at(2);
    let len = u16::from_be_bytes([front[0], front[1]]) as usize;
    if rest.len() < len {
        return None;
    }
    Some(len)
}

/// Where the value of the field that begins at `at` stands; None where the bytes end inside the field. Takes no memory.
pub fn next_str(bytes: &[u8], at: usize) -> Option<Span>
    requires { at ≤ length bytes.now }
    // What is found is spelled so.
    ensures found { IfSome result (λ s. IsStrAt bytes.now at s.from s.to) }
    // What is spelled so is found.
    ensures only { (value rest : List ℕ) → FitsStr value → drop at bytes.now ≡ str value ++ rest
        → IsSomeAnd result (λ s. (s.from ≡ at + 2) × (s.to ≡ at + 2 + length value)) }
{
    let len = value_len(&bytes[at..])?;
    let from = at + 2;
    Some(Span {
        from,
        to: from + len,
    })
}
