//! The troves that the parts of a change set make of the installed ones.
ghost use Rattle.std.specs.Prelude.{IfErr, IfOk};
ghost use Rattle.change_set.specs.Contents.{IfRefused};
ghost use Rattle.change_set.specs.Makes.{IsLedTo, LacksBase, LacksTrove, MakesTrove};
ghost use Rattle.update_job.specs.Made.{AreMade, base_in, IsFirstRefused, IsMade, IsPartRefused};

use change_rel::{apply, missing_base};
use change_set::Part;
use change_set::cny_base::{Copies, Fault};
use change_set::trove_stream::{Installed, RelTrove, Trove, Troves, check};
use std::alloc::Global;

// The trove to which a relative one leads from the installed trove of its name. Whether that has the id, `apply` tests.
fn led_to(alloc: Global, installed: &Installed, rel: &RelTrove) -> Result<Trove, Fault>
    ensures led { IfOk result (IsLedTo (base_in installed.now) rel.now) }
    ensures missing { IfErr result (IfRefused (LacksBase (base_in installed.now) rel.now)) }
{
    let Some(base) = installed.get(&rel.parts().old.name) else {
        return Err(missing_base(alloc, &rel.parts().old));
    };
    apply(alloc, base, rel)
}

// The trove that a part makes.
fn trove_of(alloc: Global, installed: &Installed, part: &Part) -> Result<Trove, Fault>
    ensures makes { IfOk result (MakesTrove (base_in installed.now) part.now) }
    ensures refused { IfErr result (IfRefused (LacksTrove (base_in installed.now) part.now)) }
{
    match part {
        Part::Whole(trove) => Ok(trove.copy()?),
        Part::Relative(rel) => led_to(alloc, installed, rel),
    }
}

// The same, where it records no forbidden path.
fn allowed_of(alloc: Global, installed: &Installed, part: &Part) -> Result<Trove, Fault>
    ensures made { IfOk result (IsMade installed.now part.now) }
    ensures refused { IfErr result (IfRefused (IsPartRefused installed.now part.now)) }
{
    let trove = trove_of(alloc, installed, part)?;
    check(alloc, &trove)?;
    Ok(trove)
}

/// The troves that the parts make of the installed ones, part by part. A relative part leads from the installed trove of its name,
/// and never from an earlier part. A trove may come again that is installed already, or that an earlier part makes.
///
/// The refusal is that of the first part that is refused: `MissingBase` with the id from which it leads, where no trove of that id
/// is installed, or no trove comes of it; `Reserved` with the first forbidden path of the trove that it makes.
pub fn applied(alloc: Global, installed: &Installed, parts: &[Part]) -> Result<Troves, Fault>
    ensures made { IfOk result (AreMade installed.now parts.now) }
    ensures refused { IfErr result (IfRefused (IsFirstRefused installed.now parts.now)) }
{
    let mut troves = Vec::new(alloc);
    for part in parts {
        troves.push(allowed_of(alloc, installed, part)?)?;
    }
    Ok(Troves::new(troves))
}
