//! A commit joined to the catalogue of those before it.
ghost use Rattle.std.specs.Prelude.{◌≡◌, ◌≢◌, ◌++◌, [], true, map, All, IfOk, None};
ghost use Rattle.repo_index.specs.trove-stream.Trove.{IsTrove};
ghost use Rattle.repo_index.specs.Catalogue.{found, with_trove};
ghost use Rattle.repo_load.specs.State.{IsAllowed, IsCommit};
ghost use Rattle.repo_load.specs.Loading as spec;
ghost use Rattle.repo_load.specs.Loading.{IsAnswer};

use crate::commit_reading::Troves;
use repo_index::Catalogue;
use repo_index::cny_base::{Fault, OutOfMemory};
use repo_index::trove_parts::{Deps, Files};
use repo_index::trove_stream::{Trove, TroveParts, check};
use std::alloc::Global;

// What is kept of a trove: its id and its references, and all else where it is kept whole.
fn kept(alloc: Global, whole: bool, trove: Trove) -> Trove
    ensures { result ≡ spec.kept whole trove }
{
    if whole {
        return trove;
    }
    let TroveParts {
        id,
        refs,
        files: _files,
        requires_: _requires,
        provides: _provides,
    } = trove.into_parts();
    Trove::from_parts(TroveParts {
        id,
        files: Files::new(Vec::new(alloc)),
        refs,
        requires_: Deps::new(Vec::new(alloc)),
        provides: Deps::new(Vec::new(alloc)),
    })
}

// Adds what is kept of a trove, and answers whether it may be added: it records no forbidden path, and none of its id stands there.
fn add_trove(
    alloc: Global,
    whole: bool,
    catalogue: &mut Catalogue,
    trove: Trove,
) -> Result<bool, OutOfMemory>
    ensures answer { IfOk result (IsAnswer (IsAllowed trove × (found trove.id catalogue.old.troves ≡ None))) }
    ensures added { IfOk result (λ added. added ≡ true → catalogue.new ≡ with_trove catalogue.old (spec.kept whole trove)) }
{
    match check(alloc, &trove) {
        Ok(()) => {}
        Err(Fault::Refused(_)) => return Ok(false),
        Err(Fault::Memory) => return Err(OutOfMemory),
    }
    match catalogue.add(alloc, kept(alloc, whole, trove)) {
        Ok(()) => Ok(true),
        Err(Fault::Refused(_)) => Ok(false),
        Err(Fault::Memory) => Err(OutOfMemory),
    }
}

/// Adds what is kept of the troves of a commit behind those of the commits before it, and answers whether it may follow them.
/// Where it doesn't, the catalogue has some of them.
pub(crate) fn add_troves(
    alloc: Global,
    whole: bool,
    catalogue: &mut Catalogue,
    troves: Troves,
) -> Result<bool, OutOfMemory>
    requires full { troves ≢ [] }
    requires troves { All IsTrove troves }
    ensures answer { IfOk result (IsAnswer (IsCommit catalogue.old.troves troves)) }
    ensures added { IfOk result (λ added. added ≡ true
        → catalogue.new ≡ record { commits = catalogue.old.commits; troves = catalogue.old.troves ++ map (spec.kept whole) troves }) }
{
    let mut left = troves.into_vec().into_iter();
    'troves: loop {
        let Some(trove) = left.next() else {
            return Ok(true);
        };
        if !add_trove(alloc, whole, catalogue, trove)? {
            return Ok(false);
        }
    }
}
