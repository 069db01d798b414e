//! Whether troves record a path that no trove may record.
ghost use Rattle.std.specs.Prelude.{◌↔◌, IfErr, IsOk};
ghost use Rattle.change_set.specs.Contents.{IfRefused};
ghost use Rattle.update_job.specs.Allowed.{AreAllowed, IsFirstReserved};

use change_set::cny_base::Fault;
use change_set::trove_stream::{Trove, check};
use std::alloc::Global;

/// Whether no trove records a path in the program's private directory, and none above it that isn't a directory. `Reserved`
/// names the first such path, in path order, of the first trove that has one; where there is none, the answer is `Ok`, and no
/// memory is taken.
pub fn check_allowed(alloc: Global, troves: &[Trove]) -> Result<(), Fault>
    ensures allowed { IsOk result ↔ AreAllowed troves.now }
    ensures reserved { IfErr result (IfRefused (IsFirstReserved troves.now)) }
{
    for trove in troves {
        check(alloc, trove)?;
    }
    Ok(())
}
