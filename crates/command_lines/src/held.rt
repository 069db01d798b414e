//! What a repository holds.
use line_words::Answer;
use repo_index::Catalogue;
use repo_load::{base_path, content, load};
use repository::cny_stream::FileRec;
use repository::trove_parts::FileAt;
use root_words::Quiet;
use std::alloc::Global;
use tree_journal::recover;

// How many of the contents that these files record are there.
fn count_contents(alloc: Global, disk: &mut Quiet, catalogue: &Catalogue, files: &[FileAt]) -> u64 {
    let mut count: u64 = 0;
    for file in files {
        if let FileRec::File { name, .. } = &file.rec {
            if matches!(content(alloc, disk, catalogue, name), Ok(Some(_))) {
                count = count.saturating_add(1);
            }
        }
    }
    count
}

fn count_all(alloc: Global, disk: &mut Quiet, catalogue: &Catalogue) -> u64 {
    let mut count: u64 = 0;
    for trove in catalogue.troves() {
        count = count.saturating_add(count_contents(alloc, disk, catalogue, trove.files()));
    }
    count
}

/// How many commits and troves a catalogue has.
pub fn told_sizes(catalogue: &Catalogue, answer: &mut Answer) {
    answer.number(u64::from(catalogue.commits()));
    answer.text(" ");
    answer.number(catalogue.troves().len() as u64);
}

fn told_loaded(disk: &mut Quiet, answer: &mut Answer) {
    if let Some(catalogue) = answer.given(load(answer.alloc(), disk)) {
        answer.tab();
        told_sizes(&catalogue, answer);
        answer.text(" ");
        answer.number(count_all(answer.alloc(), disk, &catalogue));
    }
}

/// What a disk holds once it is recovered, as a field: how many commits and troves, and how many records of files whose contents stand.
pub fn told_held(disk: &mut Quiet, answer: &mut Answer) {
    if let Some(base) = answer.kept(base_path(answer.alloc())) {
        let recovered = recover(answer.alloc(), disk, &base);
        if answer.given(recovered).is_some() {
            told_loaded(disk, answer);
        }
    }
}
