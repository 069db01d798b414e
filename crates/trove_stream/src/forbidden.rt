//! Paths that no trove may record.
ghost use Rattle.std.specs.Prelude.{◌≡◌, MatchOption, IsOk, IsErrAnd, Option, Some, None, IfSome, IfNone};
ghost use Rattle.trove_stream.specs.Forbidden as spec;
ghost use Rattle.trove_stream.specs.Forbidden.{first_forbidden, IsReservedOrMemory};

use crate::trove::Trove;
use std::alloc::Global;
use trove_parts::FileAt;
use trove_parts::cny_base::{Fault, Path, Refusal, Text};

fn is_forbidden_file(file: &FileAt) -> bool
    ensures { result ≡ spec.is_forbidden_file file.now }
{
    file.path.is_forbidden(file.rec.is_dir())
}

// The path of the first file that no trove may record.
fn first_forbidden(files: &[FileAt]) -> Option<&Path>
    ensures some { IfSome result (λ path. first_forbidden files.now ≡ Some path.now) }
    ensures none { IfNone result (first_forbidden files.now ≡ None) }
{
    for file in files {
        if is_forbidden_file(file) {
            return Some(&file.path);
        }
    }
    None
}

/// Whether the trove records no path in the program's private directory, and none above it that isn't a directory.
/// `Reserved` names the first such path, in path order; where there is none, the answer is `Ok`, and no memory is taken.
pub fn check(alloc: Global, trove: &Trove) -> Result<(), Fault>
    ensures { MatchOption (first_forbidden trove.now.files) (IsOk result) (λ path. IsErrAnd result (IsReservedOrMemory path)) }
{
    let Some(path) = first_forbidden(trove.files()) else {
        return Ok(());
    };
    Err(Fault::Refused(Refusal::Reserved {
        path: Text::new(alloc, path.text())?,
    }))
}
