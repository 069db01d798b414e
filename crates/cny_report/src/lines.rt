//! Lines of values, and of lists of them.
ghost use Rattle.std.specs.Prelude.{◌≡◌, ◌++◌, List, ℕ, IfOk, OnOk, string_bytes};
ghost use Rattle.std.specs.List.{flat_map};

use std::alloc::Global;
use update_job::cny_base::{OutOfMemory, Text};

/// A value that is told in a line, or in several.
pub(crate) trait Line {
    /// What is written for it, up to its last line feed.
    ghost line: { Self → List ℕ };

    /// Appends what is written for it.
    fn push(&self, alloc: Global, out: &mut String) -> Result<(), OutOfMemory>
        ensures { OnOk result (string_bytes out.new ≡ string_bytes out.old ++ line self.now) };
}

/// Appends, for each value in the order given, the word and what is written for it.
pub(crate) fn push_lines<T: Line>(
    alloc: Global,
    out: &mut String,
    word: &str,
    values: &[T],
) -> Result<(), OutOfMemory>
    ensures { OnOk result (string_bytes out.new ≡ string_bytes out.old ++ flat_map (λ value. word.now ++ T.line value) values.now) }
{
    for value in values {
        out.push_str(word)?;
        value.push(alloc, out)?;
    }
    Ok(())
}

/// The same as a text.
pub(crate) fn lines_text<T: Line>(
    alloc: Global,
    word: &str,
    values: &[T],
) -> Result<Text, OutOfMemory>
    ensures { IfOk result (λ text. text ≡ flat_map (λ value. word.now ++ T.line value) values.now) }
{
    let mut text = String::new(alloc);
    push_lines(alloc, &mut text, word, values)?;
    Ok(Text::from_string(text))
}
