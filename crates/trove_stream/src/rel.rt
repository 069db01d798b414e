//! Relative troves.
ghost use Rattle.std.specs.Prelude.{◌≡◌, IfOk, OnOk, IfErr};
ghost use Rattle.trove_stream.specs.declared.rel.RelParts.{RelParts};
ghost use Rattle.trove_stream.specs.Rel.{AreParts, IsRel};

use crate::together::{are_parts, go_together};
use std::marker::Model;
use trove_parts::cny_base::{Copies, OutOfMemory, Paths, TextFault};
use trove_parts::{Deps, Files, Refs, TroveId};

/// The parts of a relative trove, which need not go together.
#[derive(Drop)]
pub struct RelParts {
    /// The id of the trove that it starts from.
    pub old: TroveId,
    /// The id of the trove that it leads to.
    pub fresh: TroveId,
    /// Paths that the new trove doesn't record.
    pub paths_gone: Paths,
    /// Files that are new, or whose records are.
    pub files_set: Files,
    pub refs_gone: Refs,
    pub refs_added: Refs,
    pub requires_gone: Deps,
    pub requires_added: Deps,
    pub provides_gone: Deps,
    pub provides_added: Deps,
}

impl Copies for RelParts {
    fn copy(&self) -> Result<Self, OutOfMemory> {
        let ids = copied(&self.old, &self.fresh)?;
        let files = copied(&self.paths_gone, &self.files_set)?;
        let refs = copied(&self.refs_gone, &self.refs_added)?;
        let required = copied(&self.requires_gone, &self.requires_added)?;
        let provided = copied(&self.provides_gone, &self.provides_added)?;
        Ok(RelParts::of_pairs(ids, files, refs, required, provided))
    }
}

impl RelParts {
    // The parts of these pairs.
    pub(crate) fn of_pairs(
        ids: Pair<TroveId, TroveId>,
        files: Pair<Paths, Files>,
        refs: Pair<Refs, Refs>,
        required: Pair<Deps, Deps>,
        provided: Pair<Deps, Deps>,
    ) -> Self
        ensures { result ≡ record {
          old = ids.old;
          fresh = ids.fresh;
          paths_gone = files.old;
          files_set = files.fresh;
          refs_gone = refs.old;
          refs_added = refs.fresh;
          requires_gone = required.old;
          requires_added = required.fresh;
          provides_gone = provided.old;
          provides_added = provided.fresh;
        } }
    {
        let (old, fresh) = ids.split();
        let (paths_gone, files_set) = files.split();
        let (refs_gone, refs_added) = refs.split();
        let (requires_gone, requires_added) = required.split();
        let (provides_gone, provides_added) = provided.split();
        RelParts {
            old,
            fresh,
            paths_gone,
            files_set,
            refs_gone,
            refs_added,
            requires_gone,
            requires_added,
            provides_gone,
            provides_added,
        }
    }
}

/// What belongs to the old trove, and what belongs to the new one.
pub(crate) struct Pair<A, B> {
    pub(crate) old: A,
    pub(crate) fresh: B,
}

impl<A: Drop, B: Drop> Drop for Pair<A, B> {
    fn drop(self) {
        let Pair {
            old: _old,
            fresh: _fresh,
        } = self;
    }
}

impl<A: Drop, B: Drop> Pair<A, B> {
    fn split(self) -> (A, B)
        ensures old { result.0 ≡ self.old }
        ensures fresh { result.1 ≡ self.fresh }
    {
        let Pair { old, fresh } = self;
        (old, fresh)
    }
}

// Equal values.
fn copied<A: Copies, B: Copies>(old: &A, fresh: &B) -> Result<Pair<A, B>, OutOfMemory>
    ensures old { IfOk result (λ made. made.old ≡ old.now) }
    ensures fresh { IfOk result (λ made. made.fresh ≡ fresh.now) }
{
    let old = old.copy()?;
    let fresh = fresh.copy()?;
    Ok(Pair { old, fresh })
}

/// What leads from one trove to another of its name: two ids of one name; paths that are gone, and others that are set
/// to a record; references, requirements and provides that are gone, and others that are added. Each list strictly
/// rises, and has any number of elements.
pub struct RelTrove {
    parts: RelParts,
}

// Written by hand, so that to let a value go is a single call.
impl Drop for RelTrove {
    fn drop(self) {
        let RelTrove { parts: _parts } = self;
    }
}

impl Model for RelTrove {
    ghost use Rattle.trove_stream.specs.declared.rel.RelParts.{RelParts};
    ghost use Rattle.trove_stream.specs.Rel.{IsRel};

    ghost Value = { RelParts };

    ghost view = { λ a. a.parts };

    ghost invariant = { λ a. IsRel a.parts };
}

impl RelTrove {
    /// The relative trove of these parts. `Bad` exactly where they aren't those of one: where a list doesn't strictly
    /// rise, a file's size is too great, the ids are equal or differ in their names, a path is both gone
    /// and set, or an element both gone and added. Takes no memory.
    pub fn make(parts: RelParts) -> Result<Self, TextFault>
        ensures value { IfOk result (λ made. made ≡ parts) }
        ensures rules { OnOk result (IsRel parts) }
        ensures bad { IfErr result (λ fault. (fault ≡ TextFault.Bad) × (IsRel parts → ⊥)) }
    {
        if !are_parts(&parts) {
            return Err(TextFault::Bad);
        }
        Self::of_parts(parts)
    }

    /// The relative trove of these parts, each of them valid by itself. `Bad` exactly where they don't go together.
    pub(crate) fn of_parts(parts: RelParts) -> Result<Self, TextFault>
        requires { AreParts parts }
        ensures value { IfOk result (λ made. made ≡ parts) }
        ensures rules { OnOk result (IsRel parts) }
        ensures bad { IfErr result (λ fault. (fault ≡ TextFault.Bad) × (IsRel parts → ⊥)) }
    {
        if !go_together(&parts) {
            return Err(TextFault::Bad);
        }
        Ok(RelTrove { parts })
    }

    /// The parts.
    pub fn parts(&self) -> &RelParts
        ensures value { result.now ≡ self.now }
        ensures rules { IsRel result.now }
    {
        &self.parts
    }

    /// The parts by value; takes no memory.
    pub fn into_parts(self) -> RelParts
        ensures value { result ≡ self }
        ensures rules { IsRel result }
    {
        let RelTrove { parts } = self;
        parts
    }
}

impl Copies for RelTrove {
    fn copy(&self) -> Result<Self, OutOfMemory> {
        Ok(RelTrove {
            parts: self.parts.copy()?,
        })
    }
}
