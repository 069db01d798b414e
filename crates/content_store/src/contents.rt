//! Contents that are found by their names, wherever they are kept.
ghost use Rattle.std.specs.Prelude.{◌≡◌, IfErr, IfOk, IfSome};
ghost use Rattle.sha1.specs.Sha1.{sha1};
ghost use Rattle.content_store.specs.declared.contents.FarStop.TheVariants as stop;
ghost use Rattle.content_store.specs.Contents.{empty_contents, empty_source, ContentsModel, IsSource, KeepsContents, stop_of_far, StopsFor};

use std::alloc::{AllocError, AllocFailed, Global};
use tree_disk::cny_base::{Bytes, Copies, OutOfMemory, Path, Stop};

/// Why a content isn't found.
#[derive(Drop)]
pub enum FarStop {
    /// Where the contents are kept there was a fault: its count rose.
    Failed,
    /// A file there isn't in its grammar or fails a cross-check.
    Damaged { path: Path },
    /// No memory was left.
    Memory,
}

impl Copies for FarStop {
    fn copy(&self) -> Result<Self, OutOfMemory> {
        Ok(match self {
            FarStop::Failed => FarStop::Failed,
            FarStop::Damaged { path } => FarStop::Damaged { path: path.copy()? },
            FarStop::Memory => FarStop::Memory,
        })
    }
}

impl From<OutOfMemory> for FarStop {
    ghost from_gives = { λ _ made. made ≡ stop.Memory };

    fn from(_: OutOfMemory) -> Self {
        FarStop::Memory
    }
}

impl From<AllocError> for FarStop {
    ghost from_gives = { λ _ made. made ≡ stop.Memory };

    fn from(_: AllocError) -> Self {
        FarStop::Memory
    }
}

impl<T: Drop> From<AllocFailed<T>> for FarStop {
    ghost from_gives = { λ _ made. made ≡ stop.Memory };

    fn from(_: AllocFailed<T>) -> Self {
        FarStop::Memory
    }
}

impl From<FarStop> for Stop {
    ghost from_gives = { λ far made. made ≡ stop_of_far far };

    fn from(far: FarStop) -> Self {
        match far {
            FarStop::Failed => Stop::FarFailed,
            FarStop::Damaged { path } => Stop::FarDamaged { path },
            FarStop::Memory => Stop::Memory,
        }
    }
}

/// Contents that are found by their SHA-1.
///
/// What is kept can be known of some alone. So it may tell the map from names to contents, and which paths fail a
/// cross-check; it counts its faults. Of each name it says what a search of it may answer, and a damaged content changes no
/// answer but that of its own name.
pub trait Contents {
    /// What it means: its map, what may be answered to a name, which paths fail a cross-check, how often it failed, and what
    /// searches lead from one to another.
    ghost contents: { ContentsModel Self };

    /// The content of a name, and none where there is no content of that name.
    ///
    /// `Failed` comes only where the count of faults rose, and `Damaged` names a path that fails a cross-check, where that
    /// is told, and comes only where no answer to this name may be given.
    fn find(&mut self, alloc: Global, name: &[u8; 20]) -> Result<Option<Bytes>, FarStop>
        // Where a map is told that is what the map has.
        ensures found { IfOk result (contents.answers self.old name.now) }
        // Also where no map is told.
        ensures named { IfOk result (λ found. IfSome found (λ bytes. sha1 bytes ≡ name.now)) }
        ensures stops { IfErr result (StopsFor contents self.old self.new name.now) }
        ensures keeps { KeepsContents contents self.old self.new };

    /// Searches follow one another, and the answers are those of each map that is told.
    ghost laws: { IsSource contents };
}

/// A source without contents.
#[derive(Clone, Copy)]
pub struct NoContents;

impl Contents for NoContents {
    ghost contents = { empty_contents };

    fn find(&mut self, _alloc: Global, _name: &[u8; 20]) -> Result<Option<Bytes>, FarStop> {
        Ok(None)
    }

    ghost laws = { empty_source };
}
