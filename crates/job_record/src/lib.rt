//! The bytes of a job's record, as a root's tree holds them: read in both formats, and written in format 2 as they follow from the lists
//! before and after the job and the paths that it changed. A record is read as just the one that its bytes spell, and the bytes that are
//! made are those of the record between the two lists.
//!
//! What a record leaves to the lists of troves before and after its job is told by those.
#![tactic(auto)]

mod deltas;
mod entries;
mod fields;
mod file;
mod job_deltas;
mod laws;
mod making;
mod marks;
mod reading;
mod recorded;
mod writing;

pub use file::record_file;
pub use laws::{distinct_records, records_by_lists};
pub use making::record_bytes;
pub use reading::decode;
pub use writing::encode;
