//! Decimal numbers.
ghost use Rattle.std.specs.Prelude.{◌≡◌, ◌<◌, ◌^◌, IfOk, IsTrue, Some, None, if◌then◌else◌};
ghost use Rattle.std.specs.Fmt as fmt;
ghost use Rattle.std.specs.List.{list_all};
ghost use Rattle.cny_base.specs.Number.{is_digit, is_decimal, decimal_value};

use crate::text::{OutOfMemory, Text};
use itoa::Buffer;
use std::alloc::Global;

/// A number in decimal digits, without leading zeros.
pub fn decimal(alloc: Global, n: u64) -> Result<Text, OutOfMemory>
    ensures text { IfOk result (λ text. text ≡ fmt.decimal n) }
    ensures form { n < 10 ^ 19 → IsTrue (is_decimal (fmt.decimal n)) }
    ensures back { decimal_value (fmt.decimal n) ≡ n }
{
    Text::new(alloc, Buffer::new().format(n))
}

fn are_digits(bytes: &[u8]) -> bool
    ensures { result ≡ list_all is_digit bytes.now }
{
    bytes.iter().all(|byte| byte.is_ascii_digit())
}

fn is_decimal(bytes: &[u8]) -> bool
    ensures { result ≡ is_decimal bytes.now }
{
    match bytes {
        [] => false,
        [first, rest @ ..] => {
            let digits = are_digits(bytes);
            rest.len() <= 18 && digits && (rest.is_empty() || *first != b'0')
        }
    }
}

/// The number that 1 to 19 decimal digits write, with no leading zero but in `0`; none exactly
/// where the bytes are anything else.
pub fn read_decimal(bytes: &[u8]) -> Option<u64>
    ensures { result ≡ (if is_decimal bytes.now then Some (decimal_value bytes.now) else None) }
{
    if !is_decimal(bytes) {
        return None;
    }
    str::from_utf8(bytes).ok()?.parse().ok()
}
