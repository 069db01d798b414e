//! The calls on repositories. Each loads the catalogue of a disk first.
use crate::between::set_between;
use crate::commits::committed;
use content_store::Contents;
use line_words::{Answer, Line};
use repo_index::Catalogue;
use repo_load::{Counts, RepoContents, content, counts, load};
use repository::cny_base::{Bytes, Stop};
use root_words::{Quiet, disk_of};

// How many commits the catalogue has, and the ids of its troves.
fn told_catalogue(catalogue: &Catalogue, answer: &mut Answer) {
    answer.field("ok");
    answer.field_number(u64::from(catalogue.commits()));
    for trove in catalogue.troves() {
        answer.tab();
        answer.id(trove.id());
    }
}

fn told_counts(counts: &Counts, answer: &mut Answer) {
    answer.field("ok");
    for count in counts.get() {
        answer.field_number(*count);
    }
}

// A content, or none.
fn told_content(found: &Option<Bytes>, answer: &mut Answer) {
    answer.content(found, "none");
}

// `source TREE NAME`: the content of a name as a source of contents gives it; with a further argument the first call of the disk fails
// after the catalogue was loaded.
fn source(catalogue: &Catalogue, line: &mut Line, answer: &mut Answer) {
    let failing = u64::from(line.has(2));
    if let Some(mut disk) = disk_of(line, 0, failing) {
        let found = RepoContents::new(&mut disk, catalogue).find(line.alloc(), &line.digest(1));
        answer.outcome(found.map_err(Stop::from), told_content);
    }
}

// Answers a call with the catalogue that was loaded: `load TREE`, the catalogue; `counts TREE`, how many troves each commit has; `content
// TREE NAME`, the content of a name; or one of those that have a function of their own.
fn answered(disk: &mut Quiet, catalogue: &mut Catalogue, line: &mut Line, answer: &mut Answer) {
    let alloc = answer.alloc();
    match line.name() {
        "load" => told_catalogue(catalogue, answer),
        "counts" => answer.outcome(counts(alloc, disk, catalogue), told_counts),
        "content" => {
            let found = content(alloc, disk, catalogue, &line.digest(1));
            answer.outcome(found, told_content);
        }
        "source" => source(catalogue, line, answer),
        "between" => set_between(catalogue, line, answer),
        "commit" => committed(disk, catalogue, line, answer),
        _ => line.unreadable(),
    }
}

/// Answers a call on the repository in the disk of the first argument; of `load` with a further argument the first call of the disk
/// fails.
pub fn call(line: &mut Line, answer: &mut Answer) {
    let failing = u64::from(line.name() == "load" && line.has(1));
    if let Some(mut disk) = disk_of(line, 0, failing) {
        if let Some(mut catalogue) = answer.given(load(answer.alloc(), &mut disk)) {
            answered(&mut disk, &mut catalogue, line, answer);
        }
    }
}
