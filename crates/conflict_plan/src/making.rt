//! A plan in the making, from its last path to its first, with what its paths become by their names.
ghost use Rattle.std.specs.Prelude.{◌≡◌, ◌∷◌, ◌||◌, [], List, ℕ, Some, reverse, if◌then◌else◌, IfOk};
ghost use Rattle.std.specs.BTreeMap.{get};
ghost use Rattle.std.specs.BTreeSet.{contains};
ghost use Rattle.std.specs.Cmp.Lexicographic.{slice_cmp};
ghost use Rattle.std.specs.Ordering.{nat_cmp};
ghost use Rattle.tree_scan.specs.tree-disk.Tree.{same_name};
ghost use Rattle.conflict_plan.specs.Making as spec;
ghost use Rattle.conflict_plan.specs.Making.{fate_at, has_made};

use crate::planned::{Planned, PlannedList};
use std::alloc::Global;
use std::collections::{BTreeMap, BTreeSet};
use std::marker::Model;
use trove_stream::cny_base::{Copies, OutOfMemory, Path};
use trove_stream::cny_stream::FileRec;

/// What becomes of a planned path.
#[derive(Clone, Copy)]
pub enum Fate {
    /// Nothing is to stand there.
    Gone,
    /// A directory is.
    Dir,
    /// A file or a link is.
    Other,
}

/// A plan in the making, which contracts see as the list of its paths from the first to the last.
#[derive(Drop)]
pub struct Plan {
    // From the last path to the first.
    planned: Vec<Planned>,
    // What becomes of each.
    fates: BTreeMap<Path, Fate>,
    // The paths directly below which something is made or stays as a target.
    made_in: BTreeSet<Path>,
}

impl Model for Plan {
    ghost use Rattle.std.specs.Prelude.{List, reverse};
    ghost use Rattle.conflict_plan.specs.declared.planned.Planned.{Planned};
    ghost use Rattle.conflict_plan.specs.Making.{IsPlanOf};

    ghost Value = { List Planned };

    ghost view = { λ a. reverse a.planned.items };

    ghost invariant = { λ a. IsPlanOf (reverse a.planned.items) a.fates a.made_in };
}

// What is to stand, as a fate.
fn fate_of(want: &Option<FileRec>) -> Fate
    ensures { result ≡ spec.fate_of want.now }
{
    match want {
        None => Fate::Gone,
        Some(FileRec::Dir { .. }) => Fate::Dir,
        Some(FileRec::File { .. }) => Fate::Other,
        Some(FileRec::Link { .. }) => Fate::Other,
    }
}

// With what becomes of one more path.
fn with_fate(
    mut fates: BTreeMap<Path, Fate>,
    planned: &Planned,
) -> Result<BTreeMap<Path, Fate>, OutOfMemory>
    ensures { IfOk result (λ made. (path : List ℕ) → get (slice_cmp nat_cmp) made path
        ≡ (if same_name planned.now.path path then Some (spec.fate_of planned.now.want) else get (slice_cmp nat_cmp) fates path)) }
{
    let path = planned.path.copy()?;
    fates.insert(path, fate_of(&planned.want))?;
    Ok(fates)
}

// With the path above one more path, where that is to stand.
fn with_parent(
    alloc: Global,
    mut made_in: BTreeSet<Path>,
    planned: &Planned,
) -> Result<BTreeSet<Path>, OutOfMemory>
    ensures { IfOk result (λ made. (path : List ℕ) → contains (slice_cmp nat_cmp) made path
        ≡ (spec.makes_in planned.now path || contains (slice_cmp nat_cmp) made_in path)) }
{
    if planned.want.is_none() {
        return Ok(made_in);
    }
    let found = planned.path.parent_path(alloc)?;
    let Some(above) = found else {
        return Ok(made_in);
    };
    made_in.insert(above)?;
    Ok(made_in)
}

impl Plan {
    /// No path at all.
    pub fn new(alloc: Global) -> Self
        ensures { result ≡ [] }
    {
        Plan {
            planned: Vec::new(alloc),
            fates: BTreeMap::new(alloc),
            made_in: BTreeSet::new(alloc),
        }
    }

    /// With one more path in front.
    pub fn with(self, alloc: Global, planned: Planned) -> Result<Self, OutOfMemory>
        ensures { IfOk result (λ made. made ≡ planned ∷ self) }
    {
        let Plan {
            planned: mut all,
            fates,
            made_in,
        } = self;
        let fates = with_fate(fates, &planned)?;
        let made_in = with_parent(alloc, made_in, &planned)?;
        all.push(planned)?;
        Ok(Plan {
            planned: all,
            fates,
            made_in,
        })
    }

    /// What becomes of a path; none where it isn't planned.
    pub fn fate(&self, path: &Path) -> Option<Fate>
        ensures { result ≡ fate_at self.now path.now }
    {
        self.fates.get(path).copied()
    }

    /// Whether a planned path directly below this one is to stand.
    pub fn has_made(&self, path: &Path) -> bool
        ensures { result ≡ has_made self.now path.now }
    {
        self.made_in.contains(path)
    }

    /// The paths, from the last to the first.
    pub fn planned(&self) -> &[Planned]
        ensures { reverse result.now ≡ self.now }
    {
        self.planned.as_slice()
    }

    /// The paths as a list, from the first to the last; takes no memory.
    pub fn into_list(self) -> PlannedList
        ensures { result ≡ self }
    {
        let Plan { mut planned, .. } = self;
        planned.reverse();
        PlannedList::new(planned)
    }
}
