// The nodes of a tree, by the texts of their paths.
ghost use Rattle.std.specs.Prelude.{◌≡◌, IfOk, OnOk, OnErr, Some, None};
ghost use Rattle.std.specs.Option.{option_copied};
ghost use Rattle.std.specs.FinMap.{get, empty};
ghost use Rattle.tree_disk.specs.Tree.{put};
ghost use Rattle.tree_nodes.specs.Stored.{tree_of};

use std::alloc::Global;
use std::collections::BTreeMap;
use std::marker::Model;
use tree_disk::cny_base::{Copies, Node, OutOfMemory};

/// The nodes of a tree. Contracts see it as the tree.
#[derive(Drop)]
pub struct NodeMap {
    pub(crate) nodes: BTreeMap<String, Node>,
}

impl Model for NodeMap {
    ghost use Rattle.tree_disk.specs.Tree.{Tree};
    ghost use Rattle.tree_nodes.specs.Codes.{tree_code};
    ghost use Rattle.tree_nodes.specs.Stored.{tree_of};

    ghost Value = { Tree };

    ghost coded = { tree_code };

    ghost view = { λ a. tree_of a.nodes.entries };
}

// Puts a node at a path.
fn put_at(
    alloc: Global,
    nodes: &mut BTreeMap<String, Node>,
    path: &str,
    node: Node,
) -> Result<(), OutOfMemory>
    ensures ok { OnOk result (tree_of nodes.new.entries ≡ put (tree_of nodes.old.entries) path.now (Some node)) }
    ensures err { OnErr result (tree_of nodes.new.entries ≡ tree_of nodes.old.entries) }
{
    let name = String::from_str(alloc, path)?;
    nodes.insert(name, node)?;
    Ok(())
}

impl NodeMap {
    /// No nodes.
    pub fn new(alloc: Global) -> Self
        ensures { result ≡ empty }
    {
        NodeMap {
            nodes: BTreeMap::new(alloc),
        }
    }

    /// What stands at a path.
    pub fn node(&self, path: &str) -> Option<&Node>
        ensures { option_copied result ≡ get self.now path.now }
    {
        self.nodes.get(path)
    }

    /// Puts a node at a path. Without memory nothing is changed.
    pub fn put(&mut self, alloc: Global, path: &str, node: Node) -> Result<(), OutOfMemory>
        ensures ok { OnOk result (self.new ≡ put self.old path.now (Some node)) }
        ensures err { OnErr result (self.new ≡ self.old) }
    {
        put_at(alloc, &mut self.nodes, path, node)
    }

    /// Takes away what stands at a path.
    pub fn take(&mut self, path: &str) -> Option<Node>
        ensures node { result ≡ get self.old path.now }
        ensures rest { self.new ≡ put self.old path.now None }
    {
        self.nodes.remove(path)
    }

    /// A copy of what stands at a path.
    pub fn copy_at(&self, path: &str) -> Result<Option<Node>, OutOfMemory>
        ensures { IfOk result (λ node. node ≡ get self.now path.now) }
    {
        match self.node(path) {
            Some(node) => Ok(Some(node.copy()?)),
            None => Ok(None),
        }
    }
}
