//! A round: what comes, which installed troves stay, and which troves may have a requirement that isn't met.
ghost use Rattle.std.specs.Prelude.{◌≤◌, ℕ, List, [], Contains, length, take, IfErr, IfOk, OnOk};
ghost use Rattle.trove_spec.specs.Expansion.{IsUnexpanded};
ghost use Rattle.update_job.specs.Lists.{HasTroveOf, IsErased};
ghost use Rattle.sys_model.specs.Growing.{HasMore, IsRenewed, IsRoundOf, ReachTwo};

use crate::known::Known;
use crate::noting::{doubt_places, doubt_troves, note_all};
use crate::reaching::reach;
use crate::view::Fresh;
use repo_index::Catalogue;
use repo_index::cny_base::{Fault, Name, OutOfMemory};
use repo_index::trove_parts::{Places, TroveId};
use repo_index::trove_stream::Installed;
use std::alloc::Global;
use std::collections::{BTreeMap, BTreeSet};
use trove_spec::expand;
use update_job::erased;

/// What the rounds keep from one to the next.
pub(crate) struct Round {
    // The places of what the roots reach, in the order in which they were found.
    pub(crate) places: Places,
    // The same by their names.
    pub(crate) fresh: Fresh,
    // Those of their names that are installed.
    pub(crate) replaced: Vec<Name>,
    // The installed troves that stay when those of these names are taken away.
    pub(crate) kept: Installed,
    // The names of the troves that may have a requirement that isn't met.
    pub(crate) doubted: BTreeSet<Name>,
}

// Written by hand, so that to let a value go is a single call wherever a function ends early.
impl Drop for Round {
    fn drop(self) {
        let Round {
            places: _places,
            fresh: _fresh,
            replaced: _replaced,
            kept: _kept,
            doubted: _doubted,
        } = self;
    }
}

// The installed troves that stay when those of these names, which are installed, are taken away.
fn staying(
    alloc: Global,
    installed: &Installed,
    replaced: &[Name],
) -> Result<Installed, OutOfMemory>
    requires { (name : List ℕ) → Contains replaced.now name → HasTroveOf installed.now name }
    ensures { IfOk result (IsErased installed.now replaced.now) }
{
    match erased(alloc, installed, replaced) {
        Ok(kept) => Ok(kept),
        Err(Fault::Memory) => Err(OutOfMemory),
        Err(Fault::Refused(_)) => unreachable!(),
    }
}

// The refusal of roots that reach two troves of one name.
fn refused(alloc: Global, catalogue: &Catalogue, roots: &[TroveId]) -> Fault
    requires { ReachTwo catalogue.now.troves roots.now }
    ensures { IsUnexpanded catalogue.now.troves roots.now result }
{
    match expand(alloc, catalogue, roots) {
        Ok(_) => unreachable!(),
        Err(fault) => fault,
    }
}

impl Round {
    // The round without roots: nothing comes, and all that is installed stays.
    fn empty(alloc: Global, known: &Known<'_>) -> Result<Self, OutOfMemory>
        ensures { IfOk result (IsRoundOf known.now.catalogue.now.troves known.now.installed.now []) }
    {
        let kept = staying(alloc, known.installed, &[])?;
        let mut doubted = BTreeSet::new(alloc);
        doubt_troves(&mut doubted, kept.troves())?;
        Ok(Round {
            places: Places::new(alloc),
            fresh: BTreeMap::new(alloc),
            replaced: Vec::new(alloc),
            kept,
            doubted,
        })
    }

    /// The round of these roots.
    pub(crate) fn first(alloc: Global, known: &Known<'_>, roots: &[TroveId]) -> Result<Self, Fault>
        ensures value { IfOk result (IsRoundOf known.now.catalogue.now.troves known.now.installed.now roots.now) }
        ensures fault { IfErr result (IsUnexpanded known.now.catalogue.now.troves roots.now) }
    {
        let mut round = Round::empty(alloc, known)?;
        round.grow(alloc, known, roots, 0)?;
        Ok(round)
    }

    // Finds out anew which installed troves stay, and doubts all troves.
    fn renew(&mut self, alloc: Global, known: &Known<'_>) -> Result<(), OutOfMemory>
        requires { (name : List ℕ) → Contains self.old.replaced.items name → HasTroveOf known.now.installed.now name }
        ensures { OnOk result (IsRenewed known.now.catalogue.now.troves known.now.installed.now self.old self.new) }
    {
        self.kept = staying(alloc, known.installed, self.replaced.as_slice())?;
        doubt_troves(&mut self.doubted, self.kept.troves())?;
        doubt_places(&mut self.doubted, known.catalogue, self.places.as_slice())?;
        Ok(())
    }

    /// Makes the round of the roots before this one that of all these roots.
    pub(crate) fn grow(
        &mut self,
        alloc: Global,
        known: &Known<'_>,
        roots: &[TroveId],
        from: usize,
    ) -> Result<(), Fault>
        requires within { from ≤ length roots.now }
        requires before { IsRoundOf known.now.catalogue.now.troves known.now.installed.now (take from roots.now) self.old }
        ensures ok { OnOk result (IsRoundOf known.now.catalogue.now.troves known.now.installed.now roots.now self.new) }
        ensures more { OnOk result (HasMore self.old.places self.new.places) }
        ensures fault { IfErr result (IsUnexpanded known.now.catalogue.now.troves roots.now) }
    {
        // No two troves of the repository have one id.
        let _all = known.catalogue.troves();
        let before = self.places.len();
        let replaced = self.replaced.len();
        reach(known.catalogue, roots, from, &mut self.places)?;
        let noted = note_all(
            known.catalogue,
            known.installed,
            &self.places.as_slice()[before..],
            &mut self.fresh,
            &mut self.doubted,
            &mut self.replaced,
        )?;
        if !noted {
            return Err(refused(alloc, known.catalogue, roots));
        }
        if replaced < self.replaced.len() {
            self.renew(alloc, known)?;
        }
        Ok(())
    }
}
