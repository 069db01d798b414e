//! What troves reach, moved onto labels.
use line_words::cny_version::Label;
use line_words::{Answer, Line};
use repo_index::Catalogue;
use repo_index::cny_stream::FileRec;
use repo_index::trove_parts::TroveId;
use repo_index::trove_stream::{FileAt, Trove, Troves};
use repo_shadow::{Way, all_refer_within, moved};

// The first byte of the name of each content, behind a bar.
fn contents(files: &[FileAt], answer: &mut Answer) {
    for file in files {
        if let FileRec::File { name, .. } = &file.rec {
            answer.text("|");
            answer.number(u64::from(name[0]));
        }
    }
}

// The id, the contents and the references of a trove.
fn parts(trove: &Trove, answer: &mut Answer) {
    answer.id(trove.id());
    contents(trove.files(), answer);
    answer.ids("|", trove.refs());
}

fn troves(troves: &Troves, answer: &mut Answer) {
    answer.text("ok");
    for trove in troves.get() {
        answer.tab();
        parts(trove, answer);
    }
}

fn way_of(line: &mut Line) -> Way {
    match line.text(2) {
        "shadow" => Way::Shadow,
        "branch" => Way::Branch,
        _ => {
            line.unreadable();
            Way::Branch
        }
    }
}

/// `moved ID LABEL WAY`: the troves that come of it, where the catalogue's troves refer only to one another.
pub fn move_onto(catalogue: &Catalogue, line: &mut Line, answer: &mut Answer) {
    let root = line.value::<TroveId>(0);
    let label = line.value::<Label>(1);
    let way = way_of(line);
    if !all_refer_within(catalogue) {
        answer.text("refers outside");
    } else if let Some(root) = root {
        if let Some(label) = label {
            answer.outcome(moved(line.alloc(), catalogue, &root, &label, way), troves);
        }
    }
}
