//! Patterns of paths.
ghost use Rattle.std.specs.Prelude.{◌≡◌, Some, IfOk, IsErrOf, OnOk};
ghost use Rattle.cny_pack.specs.Patterns as spec;

use std::alloc::Global;
use tree_disk::cny_base::{Path, Text, TextFault};

/// A pattern of paths: a path, or one with a `*` in it, which stands for any bytes, also for none and for slashes.
#[derive(Drop)]
pub struct Pattern {
    pub before: Text,
    /// What is behind the `*`, where there is one.
    pub after: Option<Text>,
}

impl Pattern {
    /// The pattern with this text. `Bad` where there is more than one `*`.
    pub fn read(alloc: Global, text: &str) -> Result<Self, TextFault>
        ensures value { IfOk result (λ pattern. spec.IsPatternOf text.now pattern.before pattern.after) }
        ensures bad { IsErrOf result TextFault.Bad → spec.HasTwoStars text.now }
    {
        match text.split_once('*') {
            None => Ok(Pattern {
                before: Text::new(alloc, text)?,
                after: None,
            }),
            Some((before, after)) => Pattern::with_star(alloc, before, after),
        }
    }

    // The pattern of what is before a `*` and behind it.
    fn with_star(alloc: Global, before: &str, after: &str) -> Result<Self, TextFault>
        ensures value { IfOk result (λ pattern. (pattern.before ≡ before.now) × (pattern.after ≡ Some after.now)) }
        ensures single { OnOk result (spec.HasNoStar after.now) }
        ensures bad { IsErrOf result TextFault.Bad → spec.HasStar after.now }
    {
        match after.split_once('*') {
            None => Ok(Pattern {
                before: Text::new(alloc, before)?,
                after: Some(Text::new(alloc, after)?),
            }),
            Some((_between, _rest)) => Err(TextFault::Bad),
        }
    }

    /// Whether the path is one of the pattern's.
    pub fn is_match(&self, path: &Path) -> bool
        ensures { result ≡ spec.is_match self.now path.now }
    {
        match &self.after {
            None => self.before.get().as_bytes() == path.text().as_bytes(),
            Some(after) => is_between(
                self.before.get().as_bytes(),
                after.get().as_bytes(),
                path.text().as_bytes(),
            ),
        }
    }
}

// Whether the text begins and ends so, with no byte in both.
fn is_between(before: &[u8], after: &[u8], text: &[u8]) -> bool
    ensures { result ≡ spec.is_between before.now after.now text.now }
{
    match text.strip_prefix(before) {
        None => false,
        Some(rest) => rest.ends_with(after),
    }
}

/// Whether the path is one of those of a pattern.
pub(crate) fn is_any(patterns: &[Pattern], path: &Path) -> bool
    ensures { result ≡ spec.is_any patterns.now path.now }
{
    patterns.iter().any(|pattern| pattern.is_match(path))
}
