// A tree from a list of its nodes.
ghost use Rattle.std.specs.Prelude.{◌≡◌, true, false, IfOk, IfSome, IfNone};
ghost use Rattle.std.specs.List.{list_all};
ghost use Rattle.std.specs.FinMap.{from_entries};
ghost use Rattle.tree_disk.specs.Tree.{WellFormed};
ghost use Rattle.tree_nodes.specs.Start as start;
ghost use Rattle.tree_nodes.specs.Start.{IsTree};

use crate::Nodes;
use crate::map::NodeMap;
use std::alloc::Global;
use tree_disk::cny_base::{Copies, Node, OutOfMemory, Path, parent_of};

// Whether the paths strictly rise.
fn rises(nodes: &[(Path, Node)]) -> bool
    ensures { result ≡ start.rise nodes.now }
{
    let mut rest = nodes;
    while let [first, after @ ..] = rest {
        if let [next, ..] = after {
            if !first.0.cmp(&next.0).is_lt() {
                return false;
            }
        }
        rest = after;
    }
    true
}

// Whether the parent of each node is a directory.
fn parents_stand(nodes: &[(Path, Node)], map: &NodeMap) -> bool
    ensures { result ≡ list_all (start.stands_right map.now) nodes.now }
{
    let mut rest = nodes;
    while let [first, after @ ..] = rest {
        if !map.is_dir_at(parent_of(first.0.text())) {
            return false;
        }
        rest = after;
    }
    true
}

// Each node of a list is one that a disk can hold.
fn hold_nodes(nodes: &[(Path, Node)])
    ensures { list_all start.holds nodes.now ≡ true }
{
    let mut rest = nodes;
    while let [first, after @ ..] = rest {
        tree_disk::node_ranges(&first.1);
        rest = after;
    }
}

// Whether the nodes of a list are a tree: `/` is a directory, and so is each parent.
fn is_tree(nodes: &[(Path, Node)], map: &NodeMap) -> bool
    requires { map.now ≡ from_entries nodes.now }
    ensures tree { result ≡ true → WellFormed (from_entries nodes.now) }
    ensures no_tree { result ≡ false → ¬ (WellFormed (from_entries nodes.now)) }
{
    hold_nodes(nodes);
    let top = map.is_dir_at("/");
    let parents = parents_stand(nodes, map);
    top && parents
}

impl NodeMap {
    /// The nodes of a list. Of two at one path the first stands.
    pub fn from_list(alloc: Global, nodes: &[(Path, Node)]) -> Result<Self, OutOfMemory>
        ensures { IfOk result (λ map. map ≡ from_entries nodes.now) }
    {
        let mut map = NodeMap::new(alloc);
        let mut left = nodes.len();
        while left > 0 {
            left -= 1;
            let (path, node) = &nodes[left];
            map.put(alloc, path.text(), node.copy()?)?;
        }
        Ok(map)
    }

    /// The nodes of a list that is a tree: the paths strictly rise, `/` is a directory, and so is each parent.
    /// `None` where it isn't one.
    pub fn from_tree(alloc: Global, nodes: &Nodes) -> Result<Option<Self>, OutOfMemory>
        ensures tree { IfOk result (λ made. IfSome made (λ _. IsTree nodes.now)) }
        ensures map { IfOk result (λ made. IfSome made (λ map. map ≡ from_entries nodes.now)) }
        ensures no_tree { IfOk result (λ made. IfNone made (¬ (IsTree nodes.now))) }
    {
        let nodes = nodes.get();
        if !rises(nodes) {
            return Ok(None);
        }
        let map = NodeMap::from_list(alloc, nodes)?;
        if !is_tree(nodes, &map) {
            return Ok(None);
        }
        Ok(Some(map))
    }
}
