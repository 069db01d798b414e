// What a crash leaves of a disk in memory.
ghost use Rattle.std.specs.Prelude.{◌≡◌, ◌≤◌, ◌<◌, ◌-◌, ◌||◌, true, drop, length, get_or, IfOk, OnOk};
ghost use Rattle.std.specs.List.{list_all};
ghost use Rattle.std.specs.BTreeSet.{contains_text};
ghost use Rattle.tree_nodes.specs.cny-base.Path.{is_path};
ghost use Rattle.tree_nodes.specs.tree-disk.Tree.{Name, WellFormed};
ghost use Rattle.tree_nodes.specs.tree-disk.Disk.{IsCrashImage, one_name, two_names};
ghost use Rattle.tree_nodes.specs.Crash.{IsPicked};
ghost use Rattle.tree_memory.specs.State as states;
ghost use Rattle.tree_memory.specs.State.{state_of};
ghost use Rattle.tree_memory.specs.Since.{any_names, keeps};

use crate::change::Change;
use crate::memory::apply;
use std::alloc::Global;
use std::collections::BTreeSet;
use tree_nodes::cny_base::{OutOfMemory, Path};
use tree_nodes::{Crash, NodeMap, Nodes};

fn settles(change: &Change) -> bool
    ensures { result ≡ states.settles change.now }
{
    matches!(change, Change::Sync | Change::Edit { .. })
}

// How many changes there are up to the last after which all counted as synced.
pub(crate) fn settled_at(changes: &[Change]) -> usize
    ensures within { result ≤ length changes.now }
    ensures after { list_all keeps (drop result changes.now) ≡ true }
    ensures last { (d : _) → 0 < result → states.settles (get_or changes.now (result - 1) d) ≡ true }
{
    let mut mark = changes.len();
    while mark > 0 {
        if settles(&changes[mark - 1]) {
            break;
        }
        mark -= 1;
    }
    mark
}

// The nodes after some changes.
pub(crate) fn replayed(
    alloc: Global,
    first: &Nodes,
    changes: &[Change],
) -> Result<NodeMap, OutOfMemory>
    ensures { IfOk result (λ nodes. nodes ≡ (state_of first.now changes.now).reads) }
{
    let mut nodes = NodeMap::from_list(alloc, first.get())?;
    let mut rest = changes;
    while let [change, after @ ..] = rest {
        apply(alloc, &mut nodes, change)?;
        rest = after;
    }
    Ok(nodes)
}

fn add_name(alloc: Global, names: &mut BTreeSet<String>, path: &Path) -> Result<(), OutOfMemory>
    ensures names { OnOk result ((p : Name) → contains_text names.new p ≡ (contains_text names.old p || one_name path.now p)) }
    ensures paths { OnOk result ((p : Name) → one_name path.now p ≡ true → is_path p ≡ true) }
{
    let name = String::from_str(alloc, path.text())?;
    names.insert(name)?;
    Ok(())
}

// Adds the names of a change.
fn add_names(
    alloc: Global,
    names: &mut BTreeSet<String>,
    change: &Change,
) -> Result<(), OutOfMemory>
    ensures names { OnOk result ((p : Name) → contains_text names.new p ≡ (contains_text names.old p || states.names_of change.now p)) }
    ensures paths { OnOk result ((p : Name) → states.names_of change.now p ≡ true → is_path p ≡ true) }
{
    match change {
        Change::Append { path, .. } => add_name(alloc, names, path),
        Change::Put { path, .. } => add_name(alloc, names, path),
        Change::SetMode { path, .. } => add_name(alloc, names, path),
        Change::Rename { from, to } => add_both(alloc, names, from, to),
        Change::Touch { path } => add_name(alloc, names, path),
        Change::TouchBoth { from, to } => add_both(alloc, names, from, to),
        Change::Sync => Ok(()),
        Change::Edit { path, .. } => add_name(alloc, names, path),
    }
}

fn add_both(
    alloc: Global,
    names: &mut BTreeSet<String>,
    from: &Path,
    to: &Path,
) -> Result<(), OutOfMemory>
    ensures names { OnOk result ((p : Name) → contains_text names.new p ≡ (contains_text names.old p || two_names from.now to.now p)) }
    ensures paths { OnOk result ((p : Name) → two_names from.now to.now p ≡ true → is_path p ≡ true) }
{
    add_name(alloc, names, from)?;
    add_name(alloc, names, to)?;
    Ok(())
}

// The names of some changes.
pub(crate) fn changed_names(
    alloc: Global,
    changes: &[Change],
) -> Result<BTreeSet<String>, OutOfMemory>
    ensures names { IfOk result (λ names. (p : Name) → contains_text names p ≡ any_names changes.now p) }
    ensures paths { IfOk result (λ names. (p : Name) → contains_text names p ≡ true → is_path p ≡ true) }
{
    let mut names = BTreeSet::new(alloc);
    let mut rest = changes;
    while let [change, after @ ..] = rest {
        add_names(alloc, &mut names, change)?;
        rest = after;
    }
    Ok(names)
}

// The crash image that a number picks, of a disk with this history and these nodes.
pub(crate) fn image_of(
    alloc: Global,
    first: &Nodes,
    changes: &[Change],
    nodes: &NodeMap,
    pick: u64,
) -> Result<NodeMap, OutOfMemory>
    requires told { nodes.now ≡ (state_of first.now changes.now).reads }
    requires tree { WellFormed nodes.now }
    ensures picked { let s = state_of first.now changes.now in IfOk result (IsPicked s.reads s.synced s.unsynced pick) }
    ensures image { let s = state_of first.now changes.now in IfOk result (IsCrashImage s.reads s.unsynced) }
    ensures zero { pick ≡ 0 → IfOk result (λ image. image ≡ nodes.now) }
{
    let mark = settled_at(changes);
    let (before, since) = changes.split_at(mark);
    let synced = replayed(alloc, first, before)?;
    let unsynced = changed_names(alloc, since)?;
    let crash = Crash {
        reads: nodes,
        synced: &synced,
        unsynced: &unsynced,
    };
    crash.image(alloc, pick)
}
