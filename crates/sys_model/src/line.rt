//! Which lines of a model file say something, and what stands behind their first word. The lines are cut as those of a configuration.
ghost use Rattle.std.specs.Prelude.{◌≡◌, true, false, MatchOption};
ghost use Rattle.trove_spec.specs.Config.{has_key};
ghost use Rattle.sys_model.specs.Model.{is_read, text_behind};

use trove_spec::trim_front;

/// Whether a line says something: it isn't empty and no comment.
pub(crate) fn is_read(line: &[u8]) -> bool
    ensures { result ≡ is_read line.now }
{
    match line {
        [] => false,
        [first, ..] => *first != b'#',
    }
}

/// What stands behind a word and the blanks after it, where it is the first word of the line.
pub(crate) fn behind<'a>(word: &[u8], line: &'a [u8]) -> Option<&'a [u8]>
    ensures some { MatchOption result (has_key word.now line.now ≡ false) (λ text. (has_key word.now line.now ≡ true) × (text.now ≡ text_behind word.now line.now)) }
{
    let Some(rest) = trove_spec::behind(word, line) else {
        return None;
    };
    Some(trim_front(rest))
}
