//! What a job did.
use update_job::Changes;

/// What a job changed of the installed list, and its number: none where neither the tree nor the list changed.
#[derive(Drop)]
pub struct Done {
    pub changes: Changes,
    pub number: Option<u32>,
}
