//! Versions in texts: the labels one after another, and whether a text is that of a version.
ghost use Rattle.std.specs.Prelude.{◌≡◌, ◌≤◌, ◌+◌, ◌&&◌, nat_le, IsTrue, MatchOption, IfSome, None, is_some, length};
ghost use Rattle.cny_version.specs.Label.{is_label};
ghost use Rattle.cny_version.specs.Reading.{pieces, revision_found, version_on, branch_at, version_found, depth_found, size_found};
ghost use Rattle.cny_version.specs.Slices.{parts_of};
ghost use Rattle.cny_version.specs.Steps.{IsStep};

use crate::cut::cut;
use crate::label::LabelText;
use crate::revision::is_revision_text;
use cny_base::VERSION_LIMIT;

/// The first label of a version's text, and what stands after the slash behind it. None where
/// the text begins in no such way.
pub(crate) fn first_label(whole: bool, text: &str) -> Option<(LabelText<'_>, &str)>
    ensures found { MatchOption result (version_found whole text.now ≡ None)
        (λ found. version_found whole text.now ≡ version_on whole (branch_at (parts_of found.0)) (pieces 47 found.1.now)) }
    ensures label { IfSome result (λ found. IsTrue (is_label (parts_of found.0))) }
{
    let Some((before, rest)) = cut(text, '/') else {
        return None;
    };
    if !before.is_empty() {
        return None;
    }
    let Some((first, rest)) = cut(rest, '/') else {
        return None;
    };
    match LabelText::NONE.next(whole, first) {
        Some(label) => Some((label, rest)),
        None => None,
    }
}

/// How a version's text goes on after a label and a slash.
pub(crate) enum Step<'a> {
    /// With a last piece, the revision.
    End,
    /// With a further label.
    Label {
        /// Nothing for a shadow, else the revision from which a branch leaves.
        between: &'a str,
        label: LabelText<'a>,
        rest: &'a str,
    },
    /// In no way that a version's text has.
    Bad,
}

/// How the text goes on after this label.
pub(crate) fn next_step<'a>(whole: bool, previous: &LabelText<'a>, text: &'a str) -> Step<'a>
    ensures { IsStep whole (parts_of previous.now) text.now result }
{
    let Some((between, rest)) = cut(text, '/') else {
        return Step::End;
    };
    let Some((piece, rest)) = cut(rest, '/') else {
        return Step::Bad;
    };
    match previous.next(whole, piece) {
        Some(label) => Step::Label {
            between,
            label,
            rest,
        },
        None => Step::Bad,
    }
}

// The depth behind a further label.
fn depth_after(depth: u32, between: &str) -> Option<u32>
    requires { depth ≤ 512 }
    ensures { result ≡ depth_found depth between.now }
{
    if between.is_empty() {
        Some(depth + 1)
    } else if is_revision_text(between, depth) {
        Some(depth)
    } else {
        None
    }
}

/// The length of a branch's text behind a further label, where it may be that of a version.
pub(crate) fn size_after(size: usize, between: &str, label: &LabelText<'_>) -> Option<usize>
    requires size { size ≤ 512 }
    requires label { IsTrue (is_label (parts_of label.now)) }
    ensures { result ≡ size_found size between.now (parts_of label.now) }
{
    let longer = size + (2 + between.len() + label.len());
    if longer <= VERSION_LIMIT {
        Some(longer)
    } else {
        None
    }
}

// Whether the text is that of the last revision, behind a branch's text of so many bytes.
fn is_last_revision(text: &str, depth: u32, size: usize) -> bool
    requires { size ≤ 512 }
    ensures { result ≡ (is_some (revision_found depth text.now) && nat_le (size + 1 + length text.now) 512) }
{
    let found = is_revision_text(text, depth);
    found && size + 1 + text.len() <= VERSION_LIMIT
}

/// Whether the text is that of a version, where that is asked for with whole labels.
pub(crate) fn is_version(whole: bool, text: &str) -> bool
    ensures { result ≡ is_some (version_found whole text.now) }
{
    let Some((mut label, mut rest)) = first_label(whole, text) else {
        return false;
    };
    let mut depth = 0;
    let mut size = 1 + label.len();
    'labels: loop {
        match next_step(whole, &label, rest) {
            Step::Bad => return false,
            Step::End => return is_last_revision(rest, depth, size),
            Step::Label {
                between,
                label: next,
                rest: after,
            } => {
                let Some(next_depth) = depth_after(depth, between) else {
                    return false;
                };
                let Some(next_size) = size_after(size, between, &next) else {
                    return false;
                };
                label = next;
                rest = after;
                depth = next_depth;
                size = next_size;
            }
        }
    }
}
