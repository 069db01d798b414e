//! Permission bits of files and directories, and their text of four octal digits.
ghost use Rattle.std.specs.Prelude.{◌≡◌, ◌+◌, ◌≤◌, ◌<◌, IfSome, IfNone, IsTrue, Some, None, if◌then◌else◌};
ghost use Rattle.cny_base.specs.Number.{is_octal_text, octal_value, octal_text, is_octal_digit};

use std::marker::Model;

/// The permission bits of a file or directory, at most 0o7777.
// In another crate a pattern on a tuple that takes a mode by value out of an enum gets no proof
// from this version of the kit: match on references there, as `match (&seen, wanted)`.
#[derive(Clone, Copy, PartialEq, Eq)]
pub struct Mode {
    bits: u16,
}

impl Model for Mode {
    ghost use Rattle.std.specs.Prelude.{ℕ, ◌≤◌};

    ghost Value = { ℕ };

    ghost view = { λ a. a.bits };

    ghost invariant = { λ a. a.bits ≤ 4095 };

    ghost inverse = { λ bits. record { bits = bits } };
}

impl Mode {
    /// The mode of these bits; none exactly above 0o7777.
    pub fn new(bits: u16) -> Option<Self>
        ensures some { IfSome result (λ mode. mode ≡ bits) }
        ensures within { IfSome result (λ _. bits ≤ 4095) }
        ensures none { IfNone result (4095 < bits) }
    {
        if bits <= 0o7777 {
            Some(Mode { bits })
        } else {
            None
        }
    }

    /// Reading and writing for the owner alone.
    pub fn owner_only() -> Self
        ensures { result ≡ 384 }
    {
        Mode { bits: 0o600 }
    }

    /// The bits.
    pub fn bits(&self) -> u16
        ensures value { result ≡ self.now }
        ensures within { result ≤ 4095 }
    {
        self.bits
    }
}

// The octal digit of a number below 8.
fn digit(value: u16) -> u8
    requires { value < 8 }
    ensures { result ≡ 48 + value }
{
    b'0' + value as u8
}

/// The mode as four octal digits.
pub fn octal(mode: Mode) -> [u8; 4]
    ensures text { result ≡ octal_text mode }
    ensures form { IsTrue (is_octal_text result) }
    ensures back { octal_value result ≡ mode }
{
    let bits = mode.bits;
    [
        digit(bits / 512 % 8),
        digit(bits / 64 % 8),
        digit(bits / 8 % 8),
        digit(bits % 8),
    ]
}

fn is_octal_digit(byte: u8) -> bool
    ensures { result ≡ is_octal_digit byte }
{
    (b'0'..=b'7').contains(&byte)
}

/// The mode that four octal digits write; none exactly where the bytes are anything else.
pub fn read_octal(bytes: &[u8]) -> Option<Mode>
    ensures { result ≡ (if is_octal_text bytes.now then Some (octal_value bytes.now) else None) }
{
    match bytes {
        [a, b, c, d]
            if is_octal_digit(*a)
                && is_octal_digit(*b)
                && is_octal_digit(*c)
                && is_octal_digit(*d) => {
            let digit = |byte: u8| (byte - b'0') as u16;
            Mode::new(digit(*a) * 512 + digit(*b) * 64 + digit(*c) * 8 + digit(*d))
        }
        _ => None,
    }
}
