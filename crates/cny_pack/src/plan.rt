//! Which entries a manifest gets.
ghost use Rattle.std.specs.Prelude.{◌≡◌, ◌++◌, ◌∷◌, [], false, All, IfOk, IfErr, OnOk};
ghost use Rattle.std.specs.BTreeMap.{IsOrdered};
ghost use Rattle.std.specs.Cmp.Lexicographic.{slice_cmp};
ghost use Rattle.std.specs.Ordering.{nat_cmp};
ghost use Rattle.cny_pack.specs.Plan as spec;
ghost use Rattle.cny_pack.specs.Halts.{RefusesFirst};
ghost use Rattle.cny_pack.specs.Plan.{IsFit, RefusesOne};

use crate::pattern::Pattern;
use crate::stop::{PackStop, Unfit};
use crate::walk::Seen;
use std::alloc::Global;
use tree_disk::Look;
use tree_disk::cny_base::{CONTENT_LIMIT, Path};

/// What is made of what stands in the directory.
#[derive(Clone, Copy)]
pub struct Rules<'a> {
    /// Which files are configuration files.
    pub config: &'a [Pattern],
    /// Whether what can't be in a manifest is left out, where else it is refused.
    pub skip: bool,
}

/// What was seen at a path, and gets an entry.
#[derive(Drop)]
pub(crate) struct Sight {
    pub(crate) path: Path,
    pub(crate) look: Look,
}

// Why what was seen at a path can't be in a manifest; nothing where it can.
fn unfit_of(path: &Path, look: &Look) -> Option<Unfit>
    ensures { result ≡ spec.unfit_of path.now look.now }
{
    if path.is_forbidden(look.is_dir()) {
        return Some(Unfit::Reserved);
    }
    match look.size() {
        Some(size) if size > u64::from(CONTENT_LIMIT) => Some(Unfit::TooLarge { size }),
        _ => None,
    }
}

// Adds what was seen at a path, where it can be in a manifest.
fn add(sights: &mut Vec<Sight>, path: Path, look: Look, skip: bool) -> Result<(), PackStop>
    ensures added { OnOk result (sights.new.items ≡ sights.old.items ++ spec.sights_of ((path, look) ∷ [])) }
    ensures fit { skip ≡ false → OnOk result (IsFit (path, look)) }
    ensures refused { IfErr result (RefusesOne path look skip) }
{
    if let Some(why) = unfit_of(&path, &look) {
        if skip {
            return Ok(());
        }
        return Err(PackStop::Unfit { path, why });
    }
    if !look.is_nothing() {
        sights.push(Sight { path, look })?;
    }
    Ok(())
}

/// Of what was seen what gets an entry, in the order of paths.
pub(crate) fn plan(alloc: Global, seen: Seen, skip: bool) -> Result<Vec<Sight>, PackStop>
    ensures planned { IfOk result (λ sights. sights.items ≡ spec.sights_of seen.entries) }
    ensures fit { skip ≡ false → OnOk result (All IsFit seen.entries) }
    ensures refused { IfErr result (RefusesFirst seen.entries skip) }
    ensures ordered { IsOrdered (slice_cmp nat_cmp) seen }
{
    let mut sights = Vec::new(alloc);
    for (path, look) in seen {
        add(&mut sights, path, look, skip)?;
    }
    Ok(sights)
}
