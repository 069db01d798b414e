//! The catalogue.
ghost use Rattle.std.specs.Prelude.{◌≡◌, ◌+◌, ◌<◌, ℕ, Some, None, slice_get, IfSome, IfOk, IfErr, OnOk, OnErr};
ghost use Rattle.std.specs.Option.{option_copied};
ghost use Rattle.trove_stream.specs.cny-base.declared.limits.TheConstants.{COMMITS_LIMIT};
ghost use Rattle.repo_index.specs.Catalogue as spec;
ghost use Rattle.repo_index.specs.Catalogue.{no_commits, with_trove, with_commit, found, places_of, named, HasDistinctIds, IsExistsOrMemory};
ghost use Rattle.repo_index.specs.Places.{IsPlaceOf, troves_at, HasIdAt};

use crate::index::Index;
use crate::search::{latest_among, place_by_id, trove_at};
use cny_version::Count;
use std::alloc::Global;
use std::marker::Model;
use trove_stream::Trove;
use trove_stream::cny_base::{Copies, Fault, Name, OutOfMemory, Refusal};
use trove_stream::trove_parts::{TroveId, distinct_ids, id_text};

/// The troves of a repository in the order in which they were committed, and how many commits it has.
///
/// A place is the number of a trove in that order, from 0. Every look-up answers what a search of all troves does; it goes
/// through an index by id or by name, and takes no memory.
pub struct Catalogue {
    commits: u32,
    troves: Vec<Trove>,
    index: Index,
}

impl Model for Catalogue {
    ghost use Rattle.repo_index.specs.Catalogue.{CatalogueParts};

    ghost Value = { CatalogueParts };

    ghost use Rattle.repo_index.specs.Index.{IsIndexed};

    ghost view = { λ a. record { commits = a.commits; troves = a.troves.items } };

    ghost invariant = { λ a. IsIndexed a.troves.items a.index };
}

// Written by hand, so that to let a value go is a single call wherever a function ends early.
impl Drop for Catalogue {
    fn drop(self) {
        let Catalogue {
            commits: _commits,
            troves: _troves,
            index: _index,
        } = self;
    }
}

impl Catalogue {
    /// The catalogue without commits and troves.
    pub fn new(alloc: Global) -> Self
        ensures { result ≡ no_commits }
    {
        Catalogue {
            commits: 0,
            troves: Vec::new(alloc),
            index: Index::new(alloc),
        }
    }

    /// Adds a trove behind the others. `Exists`, with the text of its id, exactly where one of that id stands there
    /// already. An error changes nothing.
    pub fn add(&mut self, alloc: Global, trove: Trove) -> Result<(), Fault>
        ensures ok { OnOk result (self.new ≡ with_trove self.old trove) }
        ensures fresh { OnOk result (found trove.id self.old.troves ≡ None) }
        ensures fault { IfErr result (IsExistsOrMemory self.old.troves trove.id) }
        ensures err { OnErr result (self.new ≡ self.old) }
    {
        if self.find(trove.id()).is_some() {
            return Err(Fault::Refused(Refusal::Exists {
                trove: id_text(alloc, trove.id())?,
            }));
        }
        Ok(self.push(alloc, trove)?)
    }

    // Adds a trove whose id isn't there behind the others; an error changes nothing.
    fn push(&mut self, alloc: Global, trove: Trove) -> Result<(), OutOfMemory>
        requires { found trove.id self.old.troves ≡ None }
        ensures ok { OnOk result (self.new ≡ with_trove self.old trove) }
        ensures err { OnErr result (self.new ≡ self.old) }
    {
        self.troves.reserve(1)?;
        self.index.add(alloc, &trove, self.troves.len())?;
        self.troves.push(trove)?;
        Ok(())
    }

    /// How many commits there are.
    pub fn commits(&self) -> u32
        ensures { result ≡ self.now.commits }
    {
        self.commits
    }

    /// Counts one more commit.
    pub fn count_commit(&mut self)
        requires { self.old.commits < COMMITS_LIMIT }
        ensures { self.new ≡ with_commit self.old }
    {
        self.commits += 1;
    }

    /// All troves, in the order of their commits. No two have one id.
    pub fn troves(&self) -> &[Trove]
        ensures value { result.now ≡ self.now.troves }
        ensures distinct { HasDistinctIds self.now.troves }
    {
        self.troves.as_slice()
    }

    /// The trove at a place, if there is one.
    pub fn trove_at(&self, place: usize) -> Option<&Trove>
        ensures { option_copied result ≡ slice_get self.now.troves place }
    {
        trove_at(self.troves(), place)
    }

    /// The trove of this id, if there is one.
    pub fn find(&self, id: &TroveId) -> Option<&Trove>
        ensures { option_copied result ≡ found id.now self.now.troves }
    {
        match self.place_by_id(id) {
            Some(place) => self.trove_at(place),
            None => None,
        }
    }

    /// The place of the trove of this id, if there is one. It is the only one.
    pub fn place_of(&self, id: &TroveId) -> Option<usize>
        ensures place { IfSome result (IsPlaceOf self.now.troves id.now) }
        ensures only { (place : ℕ) → IsPlaceOf self.now.troves id.now place → result ≡ Some place }
    {
        // Ids that are equal by their texts are one id.
        distinct_ids();
        id.is_valid();
        let Some(place) = self.place_by_id(id) else {
            return None;
        };
        let Some(trove) = self.trove_at(place) else {
            return None;
        };
        trove.id().is_valid();
        Some(place)
    }

    // The place of the trove with the texts of this id, if there is one.
    fn place_by_id(&self, id: &TroveId) -> Option<usize>
        ensures distinct { HasDistinctIds self.now.troves }
        ensures place { IfSome result (HasIdAt self.now.troves id.now) }
        ensures only { (place : ℕ) → HasIdAt self.now.troves id.now place → result ≡ Some place }
    {
        place_by_id(self.troves(), self.index.ids(), id)
    }

    /// The places of the troves of this name, rising.
    pub fn by_name(&self, name: &Name) -> &[usize]
        ensures places { result.now ≡ places_of name.now self.now.troves }
        ensures troves { troves_at self.now.troves result.now ≡ named name.now self.now.troves }
    {
        self.index.places(name.text())
    }

    /// The last trove of this name whose branch has this text and whose last revision has this upstream and, where one is
    /// given, this source count.
    pub fn latest(
        &self,
        name: &Name,
        branch: &str,
        upstream: &str,
        source: Option<&Count>,
    ) -> Option<&Trove>
        ensures { option_copied result ≡ spec.latest name.now branch.now upstream.now (option_copied source.entry) self.now.troves }
    {
        latest_among(self.troves(), self.by_name(name), branch, upstream, source)
    }

    /// Whether some trove records a file whose contents have this name, which is their SHA-1.
    pub fn has_content(&self, name: &[u8; 20]) -> bool
        ensures { result ≡ spec.has_content name.now self.now.troves }
    {
        self.index.has(name)
    }

    /// Whether some trove records a file whose contents have this name and this size.
    pub fn records_content(&self, name: &[u8; 20], size: usize) -> bool
        ensures { result ≡ spec.records_content name.now size self.now.troves }
    {
        self.index.has_sized(name, size)
    }
}

impl Copies for Catalogue {
    fn copy(&self) -> Result<Self, OutOfMemory> {
        let alloc = *self.troves.allocator();
        copied(alloc, self.commits, self.troves())
    }
}

// A catalogue of copies of these troves, of which no two have one id.
fn copied(alloc: Global, commits: u32, troves: &[Trove]) -> Result<Catalogue, OutOfMemory>
    requires { HasDistinctIds troves.now }
    ensures { IfOk result (λ made. made ≡ record { commits = commits; troves = troves.now }) }
{
    let mut copies = Vec::new(alloc);
    let mut index = Index::new(alloc);
    for trove in troves {
        index.add(alloc, trove, copies.len())?;
        copies.push(trove.copy()?)?;
    }
    Ok(Catalogue {
        commits,
        troves: copies,
        index,
    })
}
