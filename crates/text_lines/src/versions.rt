//! Calls on labels, counts and versions.
ghost use Rattle.std.specs.Prelude.{IfSome, IsTrue};
ghost use Rattle.line_words.specs.cny-version.Revision.{is_revision};

use line_words::cny_report::cny_base::{Copies, VERSION_LIMIT};
use line_words::cny_version::{Count, Label, Revision, Version, next_revision};
use line_words::{Answer, Line};

// Numbers, with a dot between two.
fn numbers(numbers: &[u32], answer: &mut Answer) {
    let mut between = "";
    for number in numbers {
        answer.text(between);
        answer.number(u64::from(*number));
        between = ".";
    }
}

/// The text of a copy of a label.
pub fn label(label: &Label, answer: &mut Answer) {
    if let Some(copy) = answer.kept(label.copy()) {
        answer.ok(copy.text());
    }
}

fn told_count(count: &Count, answer: &mut Answer) {
    answer.tab();
    numbers(count.get(), answer);
}

/// A copy of the count of two numbers, and whether it is equal.
pub fn count_copy(given: [u32; 2], answer: &mut Answer) {
    let items = given.to_vec(answer.alloc());
    if let Some(items) = answer.kept(items) {
        compared_copy(&Count::new(items), answer);
    }
}

fn compared_copy(count: &Count, answer: &mut Answer) {
    if let Some(copy) = answer.kept(count.copy()) {
        answer.equality(copy == *count);
        told_count(&Count::new(copy.into_vec()), answer);
    }
}

// The parts of a revision.
fn push_revision(revision: &Revision, answer: &mut Answer) {
    answer.field(revision.upstream.get());
    told_count(&revision.source, answer);
    match &revision.build {
        Some(count) => told_count(count, answer),
        None => answer.field("none"),
    }
}

/// The text of a copy of a version, and its parts.
pub fn version(version: &Version, answer: &mut Answer) {
    if let Some(copy) = answer.kept(version.copy()) {
        parts(&copy, answer);
    }
}

fn parts(version: &Version, answer: &mut Answer) {
    answer.ok(version.text());
    answer.field(version.branch());
    answer.field(version.label().text());
    answer.field_number(u64::from(version.depth()));
    push_revision(version.revision(), answer);
}

/// `shadow_onto` of a version and a label.
pub fn shadow(version: &Version, label: &Label, answer: &mut Answer) {
    answer.outcome(version.shadow_onto(answer.alloc(), label), parts);
}

/// `branch_onto` of a version and a label.
pub fn branch(version: &Version, label: &Label, answer: &mut Answer) {
    answer.outcome(version.branch_onto(answer.alloc(), label), parts);
}

// The revision of a version, where that has the depth.
fn revision_at(version: &Version, deep: u32) -> Option<&Revision>
    ensures { IfSome result (λ r. IsTrue (is_revision deep r.now)) }
{
    if version.depth() != deep {
        return None;
    }
    Some(version.revision())
}

/// `with_revision` of a version and the revision of another one of its depth.
pub fn revise(version: &Version, other: &Version, answer: &mut Answer) {
    match revision_at(other, version.depth()) {
        Some(revision) => {
            answer.outcome(version.with_revision(answer.alloc(), revision), parts);
        }
        None => answer.unreadable(),
    }
}

// A revision that was made.
fn told_next(revision: &Revision, answer: &mut Answer) {
    answer.field("ok");
    push_revision(revision, answer);
}

/// `next_revision` of the revision of a version, at the depth of another one and after its revision.
pub fn next(wanted: &Version, latest: &Version, answer: &mut Answer) {
    let wanted = wanted.revision();
    let revision = latest.revision();
    if wanted.build.is_some() && revision.build.is_none() {
        return answer.unreadable();
    }
    let next = next_revision(answer.alloc(), wanted, latest.depth(), Some(revision));
    answer.outcome(next, told_next);
}

fn first_after(wanted: &Version, deep: u32, answer: &mut Answer) {
    // A version is less deep than its text is long.
    if deep as usize > VERSION_LIMIT {
        return answer.unreadable();
    }
    let next = next_revision(answer.alloc(), wanted.revision(), deep, None);
    answer.outcome(next, told_next);
}

/// `next_revision` of the revision of a version at a depth, with none before it.
pub fn first(line: &mut Line, answer: &mut Answer) {
    if let Some(wanted) = line.value::<Version>(0) {
        first_after(&wanted, line.small(1), answer);
    }
}
