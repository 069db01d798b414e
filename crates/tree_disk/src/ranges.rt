// What the types of a node's parts say of it.
ghost use Rattle.std.specs.Prelude.{IsTrue};
ghost use Rattle.std.specs.List.{list_all};
ghost use Rattle.tree_disk.specs.Tree.{is_byte, is_node};

use cny_base::Node;

/// Each byte of a slice is below 256. It does nothing: its clause is for the proofs of its callers.
pub fn byte_ranges(bytes: &[u8])
    ensures { IsTrue (list_all is_byte bytes.now) }
{
    let _len = bytes.len();
}

/// Each node is one that a disk can hold. It does nothing: its clause is for the proofs of its callers.
pub fn node_ranges(node: &Node)
    ensures { IsTrue (is_node node.now) }
{
    match node {
        Node::Dir { mode } => {
            let _bits = mode.bits();
        }
        Node::File { mode, bytes } => {
            let _bits = mode.bits();
            byte_ranges(bytes.get());
        }
        Node::Link { target } => {
            let _text = target.text();
        }
    }
}
