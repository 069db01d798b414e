//! The installed list that a model wants.
ghost use Rattle.std.specs.Prelude.{IfOk};
ghost use Rattle.repo_index.specs.Catalogue.{AreCommitted};
ghost use Rattle.trove_spec.specs.AndThen.{EndsAs};
ghost use Rattle.sys_model.specs.Wanted.{Wants};

use crate::making::made;
use crate::model::Model;
use repo_index::Catalogue;
use repo_index::cny_base::Fault;
use repo_index::trove_stream::Installed;
use std::alloc::Global;
use trove_spec::Config;

/// The installed list that the model wants: what its lines make of the empty list, one after the other. `install` puts in the trove
/// that its specification means, and all that this one reaches by references, as an update does. `update` finds troves in the same
/// way; each of them whose name the list has takes that name's place, and nothing else changes. `erase` takes away the trove of its
/// name, as an erasure does.
///
/// The refusal is that of the first line that has one: `NoLabel` exactly where its specification names no label or version and the
/// configuration no label; `MissingTrove`, with the text as the line has it, exactly where nothing resolves it; `Exists` exactly
/// where what it means reaches two troves of one name; and `NotInstalled` exactly where `erase` has a name that the list hasn't.
pub fn wanted(
    alloc: Global,
    catalogue: &Catalogue,
    model: &Model,
    config: &Config,
) -> Result<Installed, Fault>
    ensures ends { EndsAs (Wants catalogue.now.troves config.now model.now.lines) result }
    // It holds committed troves alone.
    ensures committed { IfOk result (AreCommitted catalogue.now.troves) }
{
    let mut list = Installed::of_rising(Vec::new(alloc));
    for line in model.lines.get() {
        list = made(alloc, catalogue, config, &list, line)?;
    }
    Ok(list)
}
