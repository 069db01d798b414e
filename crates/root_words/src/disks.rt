//! The disks of a line.
use crate::quiet::Quiet;
use line_words::{Line, Stop};
use std::alloc::Global;
use tree_memory::cny_base::{Fails, Mode, Node, OutOfMemory, Path};
use tree_memory::{MemoryTree, Nodes, TreeFault};

// The nodes of a line have to be a tree.
fn stop_of(fault: TreeFault) -> Stop {
    match fault {
        TreeFault::NotATree => Stop::Unreadable,
        TreeFault::Memory => Stop::Memory,
    }
}

// Appends a node of a list.
fn push_node(line: &mut Line, nodes: &mut Vec<(Path, Node)>, raw: &str) {
    if let Some((path, node)) = line.placed_of(raw) {
        if let Some(node) = line.some(node) {
            line.kept(nodes.push((path, node)));
        }
    }
}

// Appends the nodes at a place.
fn push_nodes(line: &mut Line, nodes: &mut Vec<(Path, Node)>, place: usize) {
    let raw = line.raw(place);
    if !raw.is_empty() && raw != "-" {
        for node in raw.split(';') {
            push_node(line, nodes, node);
        }
    }
}

/// The nodes at a place, as they are given; none of an empty argument and a hyphen.
pub fn nodes_of(line: &mut Line, place: usize) -> Nodes {
    let mut nodes = Vec::new(line.alloc());
    push_nodes(line, &mut nodes, place);
    Nodes::new(nodes)
}

// A disk of these nodes. Its call of this number fails; none does where it is 0.
fn disk_with(alloc: Global, nodes: Vec<(Path, Node)>, failing: u64) -> Result<Quiet, Stop> {
    let fails = Fails::new(vec![in alloc; failing]?);
    match MemoryTree::new(alloc, Nodes::new(nodes), fails) {
        Ok(tree) => Ok(Quiet::new(tree)),
        Err(fault) => Err(stop_of(fault)),
    }
}

/// The disk of `/` of mode 0755 and the nodes at a place. Its call of this number fails; none does where it is 0.
pub fn disk_of(line: &mut Line, place: usize, failing: u64) -> Option<Quiet> {
    let mut nodes = Vec::new(line.alloc());
    push_node(line, &mut nodes, "dir 0755 /");
    push_nodes(line, &mut nodes, place);
    let disk = disk_with(line.alloc(), nodes, failing);
    line.kept(disk)
}

/// A disk of `/` alone, for its owner. Its call of this number fails; none does where it is 0.
pub fn empty_disk(alloc: Global, failing: u64) -> Result<Quiet, Stop> {
    let mode = Mode::owner_only();
    let root = Path::read(alloc, "/")?;
    let nodes = vec![in alloc; (root, Node::Dir { mode })]?;
    disk_with(alloc, nodes, failing)
}

/// What the crash leaves of a tree that a number picks.
pub fn crashed(alloc: Global, tree: &MemoryTree, pick: u64) -> Result<Quiet, OutOfMemory> {
    Ok(Quiet::new(tree.crash(alloc, pick)?))
}

/// Another program puts a node, or takes away what stands. What isn't a tree then is unreadable.
pub fn edit(
    alloc: Global,
    tree: &mut MemoryTree,
    path: &Path,
    node: Option<Node>,
) -> Result<(), Stop> {
    match tree.edit(alloc, path, node) {
        Ok(()) => Ok(()),
        Err(fault) => Err(stop_of(fault)),
    }
}

/// The same with the node of a part of an argument, and the path behind it.
pub fn edit_at(tree: &mut MemoryTree, line: &mut Line, raw: &str) {
    if let Some((path, node)) = line.placed_of(raw) {
        let edited = edit(line.alloc(), tree, &path, node);
        line.kept(edited);
    }
}
