//! Source counts and build counts.
ghost use Rattle.std.specs.Prelude.{◌≡◌, ◌≤◌, ◌*◌, IfOk, OnOk, Some, None, is_some, length, string_bytes, ◌++◌};
ghost use Rattle.std.specs.Cmp.{partial_equiv_from_equiv};
ghost use Rattle.std.specs.Cmp.Lexicographic.{nat_list_eq_equiv};
ghost use Rattle.std.specs.Fmt.{decimal};
ghost use Rattle.std.specs.Str.{bytes_eq};
ghost use Rattle.cny_version.specs.Revision.{count_text};
ghost use Rattle.cny_version.specs.Reading.{Gives, pieces, number_found, count_found};

use crate::cut::cut;
use cny_base::{OutOfMemory, TextFault, read_decimal};
use itoa::Buffer;
use std::alloc::Global;
use std::marker::Model;

/// A source count or a build count: numbers that a text joins by `.`.
#[derive(Drop)]
pub struct Count {
    numbers: Vec<u32>,
}

impl Model for Count {
    ghost use Rattle.std.specs.Prelude.{List, ℕ};

    ghost Value = { List ℕ };

    ghost view = { λ a. a.numbers.items };
}

impl Count {
    /// The count of these numbers; takes no memory.
    pub fn new(numbers: Vec<u32>) -> Self
        ensures { result ≡ numbers.items }
    {
        Count { numbers }
    }

    /// The numbers as a `Vec`; takes no memory.
    pub fn into_vec(self) -> Vec<u32>
        ensures { result.items ≡ self }
    {
        self.numbers
    }

    /// The numbers.
    pub fn get(&self) -> &[u32]
        ensures { result.now ≡ self.now }
    {
        self.numbers.as_slice()
    }

    /// An equal count.
    pub fn copy(&self) -> Result<Self, OutOfMemory>
        ensures { IfOk result (λ made. made ≡ self.now) }
    {
        Ok(Count {
            numbers: self.numbers.clone()?,
        })
    }

    /// The count at a depth with this text.
    pub(crate) fn read(alloc: Global, text: &str, depth: u32) -> Result<Self, TextFault>
        ensures { Gives result (count_found depth (pieces 46 text.now)) }
    {
        let mut numbers = Vec::new(alloc);
        let mut rest = text;
        let mut room = depth;
        while let Some((first, after)) = cut(rest, '.') {
            if room == 0 {
                return Err(TextFault::Bad);
            }
            let number = number(first).ok_or(TextFault::Bad)?;
            numbers.push(number)?;
            room -= 1;
            rest = after;
        }
        let last = number(rest).ok_or(TextFault::Bad)?;
        if last == 0 {
            return Err(TextFault::Bad);
        }
        numbers.push(last)?;
        Ok(Count { numbers })
    }
}

// Counts are equal where their numbers are.
impl PartialEq for Count {
    ghost eq = { bytes_eq };

    ghost laws = { partial_equiv_from_equiv nat_list_eq_equiv };

    fn eq(&self, other: &Count) -> bool {
        self.numbers.as_slice() == other.numbers.as_slice()
    }
}

impl Eq for Count {
    ghost laws = { nat_list_eq_equiv };
}

// The number below 2 ^ 32 that a decimal text writes.
fn number(text: &str) -> Option<u32>
    ensures { result ≡ number_found text.now }
{
    let value = read_decimal(text.as_bytes())?;
    u32::try_from(value).ok()
}

/// Whether the text is that of a count at the depth.
pub(crate) fn is_count(text: &str, depth: u32) -> bool
    ensures { result ≡ is_some (count_found depth (pieces 46 text.now)) }
{
    let mut rest = text;
    let mut room = depth;
    while let Some((first, after)) = cut(rest, '.') {
        if room == 0 {
            return false;
        }
        let Some(_number) = number(first) else {
            return false;
        };
        room -= 1;
        rest = after;
    }
    match number(rest) {
        Some(last) => last != 0,
        None => false,
    }
}

/// Writes the text of a count at the end of a text.
pub(crate) fn push_count(text: &mut String, numbers: &[u32]) -> Result<(), OutOfMemory>
    ensures { OnOk result (string_bytes text.new ≡ string_bytes text.old ++ count_text numbers.now) }
{
    if let [first, rest @ ..] = numbers {
        text.push_str(Buffer::new().format(*first))?;
        for number in rest {
            text.push('.')?;
            text.push_str(Buffer::new().format(*number))?;
        }
    }
    Ok(())
}

// How many digits a number has.
fn decimal_len(number: u32) -> usize
    ensures len { result ≡ length (decimal number) }
    ensures short { result ≤ 10 }
{
    Buffer::new().format(number).len()
}

/// The length of the text of a count.
pub(crate) fn count_len(numbers: &[u32]) -> usize
    requires { length numbers.now ≤ 1024 }
    ensures len { result ≡ length (count_text numbers.now) }
    ensures short { result ≤ 11 * length numbers.now }
{
    let [first, rest @ ..] = numbers else {
        return 0;
    };
    let mut size = decimal_len(*first);
    for number in rest {
        size += 1 + decimal_len(*number);
    }
    size
}
