//! What is kept of two disks that are open.

use local_db::Db;
use repo_index::Catalogue;

/// What is kept of two disks that are open.
#[derive(Drop)]
pub struct Opened {
    /// The installed troves of the root, and the numbers of its jobs.
    pub db: Db,
    /// The troves of the repository.
    pub catalogue: Catalogue,
}
