// A tree in memory.
ghost use Rattle.std.specs.Prelude.{◌≡◌, ◌++◌, ◌∷◌, [], false, IsTrue, IfOk, OnOk, OnErr};
ghost use Rattle.tree_nodes.specs.tree-disk.Rows.{can_remove, without};
ghost use Rattle.tree_nodes.specs.tree-disk.Tree.{WellFormed, put};
ghost use Rattle.tree_nodes.specs.Attempts.{IsTried};
ghost use Rattle.tree_nodes.specs.Codes.{WellFormed-prop, tree_set};
ghost use Rattle.tree_memory.specs.declared.change.Change.TheVariants.{Put, Sync};
ghost use Rattle.tree_memory.specs.State.{allows, state_of, tree_after};

use crate::change::Change;
use crate::crash;
use crate::turns::Turns;
use std::alloc::Global;
use tree_nodes::cny_base::{Copies, Fails, Node, OutOfMemory, Path};
use tree_nodes::tree_disk::node_ranges;
use tree_nodes::{NodeMap, Nodes};

/// A disk in memory.
#[derive(Drop)]
pub struct MemoryTree {
    pub(crate) first: Nodes,
    pub(crate) changes: Vec<Change>,
    pub(crate) nodes: NodeMap,
    pub(crate) turns: Turns,
    ghost told: { nodes ≡ (state_of first changes.items).reads } by { tree_set _ _ },
    ghost well_formed: { WellFormed nodes } by { WellFormed-prop nodes },
}

fn copy_of(node: &Option<Node>) -> Result<Option<Node>, OutOfMemory>
    ensures { IfOk result (λ copy. copy ≡ node.now) }
{
    match node {
        Some(node) => Ok(Some(node.copy()?)),
        None => Ok(None),
    }
}

// Does a change. Where no memory is left for it, it does nothing.
pub(crate) fn apply(alloc: Global, nodes: &mut NodeMap, change: &Change) -> Result<(), OutOfMemory>
    ensures ok { OnOk result (nodes.new ≡ tree_after change.now nodes.old) }
    ensures err { OnErr result (nodes.new ≡ nodes.old) }
{
    match change {
        Change::Append { path, bytes } => nodes.append(alloc, path, bytes.get()),
        Change::Put { path, node } => nodes.set(alloc, path.text(), copy_of(node)?),
        Change::SetMode { path, mode } => {
            nodes.set_mode(path, *mode);
            Ok(())
        }
        Change::Rename { from, to } => nodes.rename(alloc, from, to),
        Change::Edit { path, node } => nodes.set(alloc, path.text(), copy_of(node)?),
        _ => Ok(()),
    }
}

// Makes a directory or a link, or takes away what stands, where that is allowed, and answers whether it is.
fn try_put(
    alloc: Global,
    nodes: &mut NodeMap,
    path: &Path,
    node: &Option<Node>,
) -> Result<bool, OutOfMemory>
    requires tree { WellFormed nodes.old }
    ensures ok { IfOk result (IsTried (allows (Put path.now node.now) nodes.old) (put nodes.old path.now node.now) nodes.old nodes.new) }
    ensures err { OnErr result (nodes.new ≡ nodes.old) }
    ensures keeps { WellFormed nodes.new }
{
    let Some(node) = node else {
        return try_take(alloc, nodes, path);
    };
    node_ranges(node);
    if !nodes.can_make(path) {
        return Ok(false);
    }
    nodes.put(alloc, path.text(), node.copy()?)?;
    Ok(true)
}

// Takes away what stands where that is allowed, and answers whether it is.
fn try_take(alloc: Global, nodes: &mut NodeMap, path: &Path) -> Result<bool, OutOfMemory>
    requires tree { WellFormed nodes.old }
    ensures ok { IfOk result (IsTried (can_remove nodes.old path.now) (without nodes.old path.now) nodes.old nodes.new) }
    ensures err { OnErr result (nodes.new ≡ nodes.old) }
    ensures keeps { WellFormed nodes.new }
{
    if !nodes.can_remove(alloc, path)? {
        return Ok(false);
    }
    let _ = nodes.take(path.text());
    Ok(true)
}

// Does the change of a call where that is allowed, and answers whether it is.
fn try_apply(alloc: Global, nodes: &mut NodeMap, change: &Change) -> Result<bool, OutOfMemory>
    requires { WellFormed nodes.old }
    ensures ok { IfOk result (IsTried (allows change.now nodes.old) (tree_after change.now nodes.old) nodes.old nodes.new) }
    ensures err { OnErr result (nodes.new ≡ nodes.old) }
    ensures keeps { WellFormed nodes.new }
{
    match change {
        Change::Append { path, bytes } => nodes.try_append(alloc, path, bytes.get()),
        Change::Put { path, node } => try_put(alloc, nodes, path, node),
        Change::SetMode { path, mode } => Ok(nodes.try_set_mode(path, *mode)),
        Change::Rename { from, to } => nodes.try_rename(alloc, from, to),
        _ => Ok(false),
    }
}

impl MemoryTree {
    // Does the change of a call and keeps it, where it is allowed, and answers whether it is.
    pub(crate) fn try_record(&mut self, alloc: Global, change: Change) -> Result<bool, OutOfMemory>
        ensures value { IfOk result (λ done. done ≡ allows change (state_of self.old.first self.old.changes.items).reads) }
        ensures done { IfOk result (λ done. IsTrue done → self.new.changes.items ≡ self.old.changes.items ++ change ∷ []) }
        ensures refused { IfOk result (λ done. done ≡ false → self.new.changes.items ≡ self.old.changes.items) }
        ensures err { OnErr result (self.new.changes.items ≡ self.old.changes.items) }
        ensures first { self.new.first ≡ self.old.first }
        ensures turns { self.new.turns ≡ self.old.turns }
    {
        self.changes.reserve(1)?;
        if !try_apply(alloc, &mut self.nodes, &change)? {
            return Ok(false);
        }
        self.changes.push(change)?;
        Ok(true)
    }

    // Does a change and keeps it.
    pub(crate) fn record(&mut self, alloc: Global, change: Change) -> Result<(), OutOfMemory>
        requires { WellFormed (tree_after change (state_of self.old.first self.old.changes.items).reads) }
        ensures ok { OnOk result (self.new.changes.items ≡ self.old.changes.items ++ change ∷ []) }
        ensures err { OnErr result (self.new.changes.items ≡ self.old.changes.items) }
        ensures first { self.new.first ≡ self.old.first }
        ensures turns { self.new.turns ≡ self.old.turns }
    {
        self.changes.reserve(1)?;
        apply(alloc, &mut self.nodes, &change)?;
        self.changes.push(change)?;
        Ok(())
    }

    // Keeps that all counts as synced.
    pub(crate) fn settle(&mut self) -> Result<(), OutOfMemory>
        ensures ok { OnOk result (self.new.changes.items ≡ self.old.changes.items ++ Sync ∷ []) }
        ensures err { OnErr result (self.new.changes.items ≡ self.old.changes.items) }
        ensures first { self.new.first ≡ self.old.first }
        ensures turns { self.new.turns ≡ self.old.turns }
    {
        self.changes.push(Change::Sync)?;
        Ok(())
    }
}

/// Why a disk isn't made, or an edit isn't.
#[derive(Clone, Copy)]
pub enum TreeFault {
    /// The result wouldn't be a tree.
    NotATree,
    /// No memory was left.
    Memory,
}

impl From<OutOfMemory> for TreeFault {
    ghost use Rattle.tree_memory.specs.declared.memory.TreeFault.TheVariants.{Memory};

    ghost from_gives = { λ _ e. e ≡ Memory };

    fn from(_: OutOfMemory) -> Self {
        TreeFault::Memory
    }
}

impl MemoryTree {
    ghost use Rattle.std.specs.Prelude.{◌≤◌, IsErrOf, Some};
    ghost use Rattle.std.specs.FinMap.{get, from_entries};
    ghost use Rattle.std.specs.Option.{option_copied};
    ghost use Rattle.tree_nodes.specs.Start.{IsTree};
    ghost use Rattle.tree_nodes.specs.tree-disk.Disk.{Elapses};
    ghost use Rattle.tree_memory.specs.Memory.{state, memory_disk, calls_of, fails_of, faults_of, stop_of, Begins, IsEdited, IsSame};

    /// A disk with these nodes, all synced. Its calls fail at these numbers, the first being 1.
    /// `NotATree` comes exactly where the paths don't strictly rise, `/` isn't a directory, or a parent isn't one.
    pub fn new(alloc: Global, nodes: Nodes, fails: Fails) -> Result<Self, TreeFault>
        ensures value { IfOk result (Begins (from_entries nodes) fails) }
        ensures ok { OnOk result (IsTree nodes) }
        ensures not_a_tree { IsErrOf result TreeFault.NotATree → ¬ (IsTree nodes) }
    {
        let Some(map) = NodeMap::from_tree(alloc, &nodes)? else {
            return Err(TreeFault::NotATree);
        };
        Ok(MemoryTree {
            first: nodes,
            changes: Vec::new(alloc),
            nodes: map,
            turns: Turns::new(fails),
        })
    }

    /// What stands at a path.
    pub fn node(&self, path: &Path) -> Option<&Node>
        ensures { option_copied result ≡ get (state self.now).reads path.now }
    {
        self.nodes.node(path.text())
    }

    /// The present moment: how many changing calls, syncs and edits have been made.
    pub fn moment(&self) -> usize
        ensures { result ≡ memory_disk.now self.now }
    {
        self.changes.len()
    }

    /// The tree that others on the machine read at a moment that has passed, the first being 0.
    pub fn seen(&self, alloc: Global, moment: usize) -> Result<NodeMap, OutOfMemory>
        requires passed { moment ≤ memory_disk.now self.now }
        ensures { IfOk result (λ tree. tree ≡ memory_disk.reads_at self.now moment) }
    {
        crash::replayed(alloc, &self.first, &self.changes[..moment])
    }

    /// Puts a node, or takes away what stands, and lets all that the disk then reads count as synced.
    /// It is no call. `NotATree` comes exactly where the result wouldn't be a tree; after an error nothing has changed.
    pub fn edit(&mut self, alloc: Global, path: &Path, node: Option<Node>) -> Result<(), TreeFault>
        ensures ok { OnOk result (IsEdited (put (state self.old).reads path.now node) self.old self.new) }
        ensures tree { OnOk result (WellFormed (put (state self.old).reads path.now node)) }
        ensures err { OnErr result (IsSame self.old self.new) }
        ensures not_a_tree { IsErrOf result TreeFault.NotATree → ¬ (WellFormed (put (state self.old).reads path.now node)) }
    {
        if !self.nodes.can_edit(alloc, path, &node)? {
            return Err(TreeFault::NotATree);
        }
        let path = path.copy()?;
        self.record(alloc, Change::Edit { path, node })?;
        Ok(())
    }

    /// After so many further calls each call fails and changes nothing that is read; a stop set before is forgotten.
    pub fn stop_after(&mut self, calls: u32)
        ensures stop { stop_of self.new ≡ Some calls }
        ensures state { state self.new ≡ state self.old }
        ensures time { Elapses memory_disk self.old self.new }
        ensures calls { calls_of self.new ≡ calls_of self.old }
        ensures fails { fails_of self.new ≡ fails_of self.old }
        ensures faults { faults_of self.new ≡ faults_of self.old }
    {
        self.turns.left = Some(calls);
    }
}

impl MemoryTree {
    ghost use Rattle.tree_nodes.specs.tree-disk.Tree.{AgreesOutside};
    ghost use Rattle.tree_nodes.specs.tree-disk.Disk.{IsImageOf};
    ghost use Rattle.tree_nodes.specs.Crash.{IsPicked};
    ghost use Rattle.tree_memory.specs.Memory.{state, memory_disk, Begins};

    /// A disk as a crash now may leave this one: the crash image that a number picks, all synced, with no stop
    /// and no call that fails. The k-th unsynced name in path order goes by the number's digit k mod 32 in
    /// base 4, the lowest being digit 0: 0 means as it reads, 1 as at the last sync, 2 nothing, 3 a file of
    /// mode 0600 and three bytes EE. At `/`, and at a name above a standing one that isn't unsynced, a digit that
    /// gives no directory counts as 0. A name whose parent is no directory is dropped.
    pub fn crash(&self, alloc: Global, pick: u64) -> Result<MemoryTree, OutOfMemory>
        ensures picked { let s = state self.now in IfOk result (λ disk. IsPicked s.reads s.synced s.unsynced pick (state disk).reads) }
        ensures image { IfOk result (λ disk. IsImageOf memory_disk self.now (state disk).reads) }
        ensures zero { pick ≡ 0 → IfOk result (λ disk. (state disk).reads ≡ (state self.now).reads) }
        ensures begins { IfOk result (λ disk. Begins (state disk).reads [] disk) }

        // What isn't unsynced reads as at the last sync, so the images are those of the synced tree too.
        ensures agrees { let s = state self.now in AgreesOutside s.unsynced s.reads s.synced }
    {
        let nodes = crash::image_of(alloc, &self.first, &self.changes, &self.nodes, pick)?;
        let first = nodes.to_list(alloc)?;
        let fails = Fails::new(Vec::new(alloc));
        Ok(MemoryTree {
            first,
            changes: Vec::new(alloc),
            nodes,
            turns: Turns::new(fails),
        })
    }
}
