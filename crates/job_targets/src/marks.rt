//! Fingerprints of what is to stand.
ghost use Rattle.std.specs.Prelude.{◌≡◌, false, IfOk};
ghost use Rattle.local_db.specs.journal-log.Targets.{node_of};
ghost use Rattle.tree_scan.specs.Marks.{fingerprint};
ghost use Rattle.job_targets.specs.Old.{is_staged};
ghost use Rattle.job_targets.specs.Wanted.{mark_of_want};

use local_db::cny_base::{Copies, OutOfMemory};
use local_db::journal_log::Want;
use tree_scan::{Mark, mark_file};

/// The fingerprint of what is to stand. Of a staged file it is what its mode, size and name tell.
pub fn mark_of(want: &Want) -> Result<Mark, OutOfMemory>
    ensures value { IfOk result (λ mark. mark ≡ mark_of_want want.now) }
    // Where the bytes of a file are given: the fingerprint of the node.
    ensures given { is_staged want.now ≡ false → IfOk result (λ mark. mark ≡ fingerprint (node_of want.now)) }
{
    match want {
        Want::Nothing => Ok(Mark::Nothing),
        Want::Dir { mode } => Ok(Mark::Dir { mode: *mode }),
        Want::File { mode, bytes } => Ok(mark_file(*mode, bytes.get())),
        Want::Link { target } => Ok(Mark::Link {
            target: target.copy()?,
        }),
        Want::Staged {
            mode,
            size,
            name,
            ..
        } => Ok(Mark::File {
            mode: *mode,
            size: u64::from(*size),
            name: *name,
        }),
    }
}
