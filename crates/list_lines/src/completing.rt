//! Calls on updates that complete themselves.
use crate::catalogue::reached;
use crate::specs::config_of;
use line_words::{Answer, Line};
use repo_index::Catalogue;
use repo_index::trove_parts::TroveId;
use sys_model::complete;

/// `completed TROVES IDS LABELS FLAVOR`: the ids of what an update of these roots brings which completes itself, for an installed list
/// and a configuration.
pub fn completed(catalogue: &Catalogue, line: &mut Line, answer: &mut Answer) {
    let roots = line.list::<TroveId>(1);
    if let Some(installed) = line.installed(0) {
        if let Some(config) = config_of(line, 2, 3) {
            let alloc = line.alloc();
            answer.outcome(
                complete(alloc, catalogue, &installed, roots.as_slice(), &config),
                reached,
            );
        }
    }
}
