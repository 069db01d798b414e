//! Calls on the catalogue: what is added to it, and its look-ups.
use line_words::cny_version::Version;
use line_words::{Answer, Line};
use repo_index::Catalogue;
use repo_index::cny_base::{COMMITS_LIMIT, Copies, Name};
use repo_index::trove_parts::TroveId;
use repo_index::trove_stream::{Trove, Troves};
use trove_spec::expand;

/// `new`: the catalogue becomes an empty one.
pub fn new(catalogue: &mut Catalogue, line: &Line, answer: &mut Answer) {
    *catalogue = Catalogue::new(line.alloc());
    answer.text("ok");
}

/// `add TROVE`: `Catalogue::add`.
pub fn add(catalogue: &mut Catalogue, line: &mut Line, answer: &mut Answer) {
    if let Some(trove) = line.value::<Trove>(0) {
        answer.done(catalogue.add(line.alloc(), trove));
    }
}

/// `count_commit`: one commit more, where another may come, and how many there are.
pub fn count_commit(catalogue: &mut Catalogue, answer: &mut Answer) {
    if catalogue.commits() < COMMITS_LIMIT {
        catalogue.count_commit();
    }
    answer.number(catalogue.commits() as u64);
}

/// `copy`: the catalogue becomes a copy of itself, to which troves can still be added.
pub fn copy(catalogue: &mut Catalogue, answer: &mut Answer) {
    if let Some(copy) = answer.kept(catalogue.copy()) {
        *catalogue = copy;
        answer.text("ok");
    }
}

// `ok` and the ids of some troves, a field each.
fn ids(troves: &[Trove], answer: &mut Answer) {
    answer.text("ok");
    answer.trove_ids("\t", troves);
}

/// `troves`: the number of commits and the ids of all troves.
pub fn troves(catalogue: &Catalogue, answer: &mut Answer) {
    answer.number(catalogue.commits() as u64);
    answer.tab();
    ids(catalogue.troves(), answer);
}

// The id of a trove and how many files it has, or `none`.
fn trove(trove: Option<&Trove>, answer: &mut Answer) {
    match trove {
        None => answer.text("none"),
        Some(trove) => {
            answer.text("ok\t");
            answer.id(trove.id());
            answer.tab();
            answer.number(trove.files().len() as u64);
        }
    }
}

/// `find ID`: `Catalogue::find`.
pub fn find(catalogue: &Catalogue, line: &mut Line, answer: &mut Answer) {
    if let Some(id) = line.value::<TroveId>(0) {
        trove(catalogue.find(&id), answer);
    }
}

/// `place_of ID`: `Catalogue::place_of`.
pub fn place_of(catalogue: &Catalogue, line: &mut Line, answer: &mut Answer) {
    if let Some(id) = line.value::<TroveId>(0) {
        match catalogue.place_of(&id) {
            None => answer.text("none"),
            Some(place) => answer.number(place as u64),
        }
    }
}

/// `by_name NAME`: `Catalogue::by_name`.
pub fn by_name(catalogue: &Catalogue, line: &mut Line, answer: &mut Answer) {
    if let Some(name) = line.trove_name(0) {
        answer.text("ok");
        for place in catalogue.by_name(&name) {
            answer.field_number(*place as u64);
        }
    }
}

// The latest of a name and of the parts of a version: the source count only for the word `source`.
fn latest_like<'a>(
    catalogue: &'a Catalogue,
    name: &Name,
    version: &Version,
    asked: &str,
) -> Option<&'a Trove> {
    let revision = version.revision();
    let source = if asked == "source" {
        Some(&revision.source)
    } else {
        None
    };
    catalogue.latest(name, version.branch(), revision.upstream.get(), source)
}

/// `latest NAME VERSION ASKED`: `Catalogue::latest` of the branch, the upstream and, for the word `source`, the source count of
/// the version.
pub fn latest(catalogue: &Catalogue, line: &mut Line, answer: &mut Answer) {
    if let Some(name) = line.trove_name(0) {
        if let Some(version) = line.value::<Version>(1) {
            let found = latest_like(catalogue, &name, &version, line.text(2));
            trove(found, answer);
        }
    }
}

/// `has_content NAME`: `Catalogue::has_content`.
pub fn has_content(catalogue: &Catalogue, line: &mut Line, answer: &mut Answer) {
    let name = line.digest(0);
    answer.holds(catalogue.has_content(&name));
}

/// `ok` and the ids of the troves that some reach, a field each.
pub fn reached(troves: &Troves, answer: &mut Answer) {
    ids(troves.get(), answer);
}

/// `expand IDS`: the ids of what these troves reach.
pub fn expanded(catalogue: &Catalogue, line: &mut Line, answer: &mut Answer) {
    let roots = line.list::<TroveId>(0);
    answer.outcome(expand(line.alloc(), catalogue, roots.as_slice()), reached);
}
