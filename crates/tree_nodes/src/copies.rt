// The nodes as a list, and a copy of them.
ghost use Rattle.std.specs.Prelude.{◌≡◌, IfOk};
ghost use Rattle.std.specs.FinMap.{entries, from_entries};
ghost use Rattle.std.specs.BTreeMap.{IsOrdered};
ghost use Rattle.std.specs.String.{string_cmp};
ghost use Rattle.tree_disk.specs.Tree.{WellFormed};
ghost use Rattle.tree_nodes.specs.Stored.{by_bytes, tree_of};

use crate::Nodes;
use crate::map::NodeMap;
use std::alloc::Global;
use std::collections::BTreeMap;
use tree_disk::cny_base::{Copies, Node, OutOfMemory, Path, TextFault};

fn list_of(alloc: Global, nodes: &BTreeMap<String, Node>) -> Result<Vec<(Path, Node)>, OutOfMemory>
    requires { WellFormed (tree_of nodes.now.entries) }
    ensures list { IfOk result (λ list. list.items ≡ by_bytes nodes.now.entries) }
    ensures ordered { IsOrdered string_cmp nodes.now }
{
    let mut list = Vec::new(alloc);
    for (name, node) in nodes.iter() {
        let path = match Path::read(alloc, name.as_str()) {
            Ok(path) => path,
            Err(TextFault::Memory) => return Err(OutOfMemory),
            Err(TextFault::Bad) => unreachable!(),
        };
        list.push((path, node.copy()?))?;
    }
    Ok(list)
}

impl NodeMap {
    /// The nodes with their paths, in order.
    pub fn to_list(&self, alloc: Global) -> Result<Nodes, OutOfMemory>
        requires { WellFormed self.now }
        ensures list { IfOk result (λ list. list ≡ entries self.now) }
        ensures tree { IfOk result (λ list. from_entries list ≡ self.now) }
    {
        Ok(Nodes::new(list_of(alloc, &self.nodes)?))
    }

    /// An equal map.
    pub fn copy(&self, alloc: Global) -> Result<Self, OutOfMemory>
        requires { WellFormed self.now }
        ensures { IfOk result (λ made. made ≡ self.now) }
    {
        let list = list_of(alloc, &self.nodes)?;
        NodeMap::from_list(alloc, &list)
    }
}
