//! How jobs are taken back.
use job_targets::cny_base::ListOf;
use job_targets::journal_log::Puts;
use job_targets::trove_parts::TroveId;
use local_db::Db;

/// A list of ids.
pub type TroveIds = ListOf<TroveId>;

/// What is noted of a job: what it changed of the installed list, and how many paths.
#[derive(Drop)]
pub struct NotedJob {
    pub number: u32,
    /// Of the names whose trove the job changed, the ids of the troves before it, in the order of the names.
    pub before: TroveIds,
    /// Of the same names, the ids of the troves after it, in the order of the names.
    pub after: TroveIds,
    pub paths: u64,
}

/// Noted jobs, the newest first.
pub type NotedJobs = ListOf<NotedJob>;

/// The writes that take jobs back, and the database afterwards. (The database's own write isn't among them.)
#[derive(Drop)]
pub struct Back {
    pub puts: Puts,
    pub db: Db,
}
