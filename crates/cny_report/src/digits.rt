//! Names of contents as texts.
ghost use Rattle.std.specs.Prelude.{◌≡◌, IfOk, string_bytes};
ghost use Rattle.hex.specs.Hex.{encode_lower};

use std::alloc::{AllocError, Global};

/// The 40 hexadecimal digits of a content's name.
pub(crate) fn digits_of(alloc: Global, name: &[u8; 20]) -> Result<String, AllocError>
    ensures { IfOk result (λ digits. string_bytes digits ≡ encode_lower name.now) }
{
    hex::encode(alloc, name.as_slice())
}
