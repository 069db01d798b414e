//! Calls on manifests: what one makes, as a text.
use cny_manifest::{Made, component_of, read};
use line_words::cny_dep::Dep;
use line_words::cny_report::change_set::Carried;
use line_words::cny_report::cny_base::{Copies, Mode};
use line_words::cny_report::cny_stream::{FileRec, Owner};
use line_words::cny_report::trove_parts::FileAt;
use line_words::cny_report::trove_stream::Trove;
use line_words::{Answer, Line};

/// A longer text is told by its digest.
pub const LONGEST: usize = 4_000;

fn push_deps(answer: &mut Answer, front: &str, deps: &[Dep]) {
    for dep in deps {
        answer.text(front);
        answer.text(dep.text());
    }
}

// The mode and the names of an owner.
fn push_owned(answer: &mut Answer, mode: Mode, owner: &Owner) {
    let (user, group, bits) = (owner.user(), owner.group(), mode.bits());
    answer.formatted(format!(in answer.alloc(); "{bits} {user}:{group} "));
}

fn push_file(answer: &mut Answer, file: &FileAt) {
    match &file.rec {
        FileRec::Dir { mode, owner } => {
            answer.text("; dir ");
            push_owned(answer, *mode, owner);
            answer.text(file.path.text());
        }
        FileRec::File {
            mode,
            owner,
            flags,
            size,
            name,
        } => {
            answer.text("; file ");
            push_owned(answer, *mode, owner);
            answer.flags(*flags);
            answer.formatted(format!(in answer.alloc(); " {size} "));
            answer.hex(name.as_slice());
            answer.text(" ");
            answer.text(file.path.text());
        }
        FileRec::Link { target } => {
            answer.texts(&["; link ", file.path.text(), " to ", target.text()]);
        }
    }
}

fn push_trove(answer: &mut Answer, trove: &Trove) {
    answer.text("; trove ");
    answer.id(trove.id());
    answer.ids("; ref ", trove.refs());
    push_deps(answer, "; requires ", trove.requires_());
    push_deps(answer, "; provides ", trove.provides());
    for file in trove.files() {
        push_file(answer, file);
    }
}

fn push_content(answer: &mut Answer, content: &Carried) {
    answer.text("; content ");
    answer.hex(content.name.as_slice());
    answer.text(" ");
    answer.number(content.bytes.get().len() as u64);
}

fn push_made(answer: &mut Answer, made: &Made) {
    answer.text("ok");
    for trove in made.troves.get() {
        push_trove(answer, trove);
    }
    for content in made.contents.get() {
        push_content(answer, content);
    }
}

/// What a manifest makes, as a text or the digest of a longer one, or why it is refused.
pub fn manifest(answer: &mut Answer, bytes: &[u8], longest: usize) {
    if let Some(made) = answer.given(read(answer.alloc(), bytes)) {
        push_copied(answer, &made, longest);
    }
}

fn push_copied(answer: &mut Answer, made: &Made, longest: usize) {
    if let Some(copy) = answer.kept(made.copy()) {
        let mut text = answer.apart();
        push_made(&mut text, &copy);
        push_short(answer, &text, longest);
    }
}

// The text itself, or its length and its digest.
fn push_short(answer: &mut Answer, text: &Answer, longest: usize) {
    if text.get().len() <= longest {
        answer.add(text);
    } else {
        answer.text("ok ");
        answer.digest(text.get().as_bytes());
    }
}

/// The component to which a path falls, that of a directory or of anything else.
pub fn component(answer: &mut Answer, line: &mut Line, dir: bool) {
    if let Some(path) = line.path(0) {
        answer.text(component_of(&path, dir));
    }
}
