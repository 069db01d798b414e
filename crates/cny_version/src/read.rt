//! Versions made from their texts.
ghost use Rattle.std.specs.Prelude.{◌≤◌, ◌+◌, length, IsTrue};
ghost use Rattle.std.specs.Option.{option_map, option_and_then};
ghost use Rattle.cny_version.specs.Label.{label_text, is_label};
ghost use Rattle.cny_version.specs.Version.{branch_text, depth};
ghost use Rattle.cny_version.specs.Made.{branched};
ghost use Rattle.cny_version.specs.Reading.{Gives, revision_found, step_to, short_version, version_found};
ghost use Rattle.cny_version.specs.Slices.{parts_of};

use crate::branch::Branch;
use crate::label::{Label, LabelText};
use crate::revision::read_revision;
use crate::scan::{Step, first_label, next_step, size_after};
use crate::version::Version;
use cny_base::{TextFault, VERSION_LIMIT};
use std::alloc::Global;

// The branch onto a label that leaves from the revision of a text.
fn branch_from(
    alloc: Global,
    branch: Branch,
    between: &str,
    label: LabelText<'_>,
) -> Result<Branch, TextFault>
    requires label { IsTrue (is_label (parts_of label)) }
    requires short { length (branch_text branch) + (2 + length between.now + length (label_text (parts_of label))) ≤ 512 }
    ensures { Gives result (option_map (λ r. branched branch r (parts_of label.entry)) (revision_found (depth branch) between.now)) }
{
    let revision = read_revision(alloc, between, branch.depth())?;
    let label = Label::of(alloc, label)?;
    Ok(branch.leave(alloc, revision, label)?)
}

// The branch with a further label.
fn longer_branch(
    alloc: Global,
    branch: Branch,
    between: &str,
    label: LabelText<'_>,
) -> Result<Branch, TextFault>
    requires { IsTrue (is_label (parts_of label)) }
    ensures { Gives result (step_to branch between.now (parts_of label.entry)) }
{
    let Some(_longer) = size_after(branch.text().len(), between, &label) else {
        return Err(TextFault::Bad);
    };
    if between.is_empty() {
        let label = Label::of(alloc, label)?;
        Ok(branch.shadow(label)?)
    } else {
        branch_from(alloc, branch, between, label)
    }
}

// The version that a last piece makes of a branch.
fn last_version(alloc: Global, branch: Branch, piece: &str) -> Result<Version, TextFault>
    ensures { Gives result (option_and_then (λ r. short_version (record { branch = branch; revision = r })) (revision_found (depth branch) piece.now)) }
{
    if branch.text().len() + 1 + piece.len() > VERSION_LIMIT {
        return Err(TextFault::Bad);
    }
    let revision = read_revision(alloc, piece, branch.depth())?;
    Ok(Version::on(alloc, branch, revision)?)
}

/// The version with this text, whose labels are whole where that is asked for.
pub(crate) fn read_parts(alloc: Global, whole: bool, text: &str) -> Result<Version, TextFault>
    ensures { Gives result (version_found whole text.now) }
{
    let Some((mut label, mut rest)) = first_label(whole, text) else {
        return Err(TextFault::Bad);
    };
    let mut branch = Branch::at(alloc, Label::of(alloc, label)?)?;
    'labels: loop {
        match next_step(whole, &label, rest) {
            Step::Bad => return Err(TextFault::Bad),
            Step::End => return last_version(alloc, branch, rest),
            Step::Label {
                between,
                label: next,
                rest: after,
            } => {
                branch = longer_branch(alloc, branch, between, next)?;
                label = next;
                rest = after;
            }
        }
    }
}
