//! The calls that commit change sets.
ghost use Rattle.repository.specs.change-set.ChangeSet.{HasContents};

use crate::held::{told_held, told_sizes};
use line_words::{Answer, Line};
use repo_index::Catalogue;
use repository::change_set::{ChangeSet, decode};
use repository::cny_base::Fault;
use repository::{TroveIds, commit};
use root_words::{Quiet, told_kept};

// The private directory of a repository.
const BASE: &str = "/conaryrepo";

// Ids, with a blank before each.
fn told_ids(ids: &TroveIds, answer: &mut Answer) {
    answer.field("ok");
    answer.ids(" ", ids.get());
}

fn commit_set(disk: &mut Quiet, catalogue: &mut Catalogue, set: &ChangeSet, answer: &mut Answer)
    requires { HasContents set.now }
{
    answer.outcome(commit(answer.alloc(), disk, catalogue, set), told_ids);
}

// Commits the change set of a stream, and tells the answer.
fn commit_bytes(disk: &mut Quiet, catalogue: &mut Catalogue, bytes: &[u8], answer: &mut Answer) {
    match decode(answer.alloc(), bytes) {
        Ok(set) => commit_set(disk, catalogue, &set, answer),
        Err(Fault::Refused(_)) => answer.unreadable(),
        Err(Fault::Memory) => answer.memory(),
    }
}

/// `commit TREE BYTES..`: commits change sets one after another: the answers, what the catalogue has then, what is loaded again, and
/// what stands.
pub fn committed(
    disk: &mut Quiet,
    catalogue: &mut Catalogue,
    line: &mut Line,
    answer: &mut Answer,
) {
    for place in 1..line.len() {
        commit_bytes(disk, catalogue, line.bytes(place), answer);
    }
    answer.tab();
    told_sizes(catalogue, answer);
    told_held(disk, answer);
    answer.tab();
    told_kept(&disk.tree, BASE, answer);
}
