// What the changing calls of a disk do to the nodes. Without memory each of them does nothing.
ghost use Rattle.std.specs.Prelude.{◌≡◌, ◌||◌, OnOk, OnErr, IfOk, Some, None, is_some, true, false};
ghost use Rattle.std.specs.FinMap.{get};
ghost use Rattle.tree_disk.specs.Tree.{Name, is_dir, is_file, put};
ghost use Rattle.tree_disk.specs.Tree as names;
ghost use Rattle.tree_nodes.specs.Stored.{tree_of};
ghost use Rattle.tree_disk.specs.Rows.{can_set_mode, grown, of_mode, with_append, with_mode, with_rename};

use crate::map::NodeMap;
use std::alloc::Global;
use std::collections::BTreeMap;
use std::mem;
use tree_disk::cny_base::{Bytes, Mode, Node, OutOfMemory, Path};

// A file of mode 0600.
pub(crate) fn new_file(alloc: Global, bytes: &[u8]) -> Result<Node, OutOfMemory>
    ensures { IfOk result (λ node. node ≡ grown None bytes.now) }
{
    let bytes = Bytes::new(alloc, bytes)?;
    let mode = Mode::owner_only();
    Ok(Node::File { mode, bytes })
}

// Adds bytes to a file; in the place of another node it makes a new one.
fn grow(alloc: Global, node: &mut Node, more: &[u8]) -> Result<(), OutOfMemory>
    ensures ok { OnOk result (node.new ≡ grown (Some node.old) more.now) }
    ensures err { OnErr result (node.new ≡ node.old) }
{
    match node {
        Node::File { bytes, .. } => bytes.push_slice(more),
        _ => {
            *node = new_file(alloc, more)?;
            Ok(())
        }
    }
}

// Another mode for a directory or a file; answers whether it is one.
fn change_mode(node: &mut Node, mode: Mode) -> bool
    ensures value { result ≡ (is_dir (Some node.old) || is_file (Some node.old)) }
    ensures node { Some node.new ≡ of_mode (Some node.old) mode }
{
    match node {
        Node::Dir { mode: old } => {
            *old = mode;
            true
        }
        Node::File { mode: old, .. } => {
            *old = mode;
            true
        }
        Node::Link { .. } => false,
    }
}

// Sets the mode of the directory or file at a path; answers whether one stands there.
pub(crate) fn set_mode_at(nodes: &mut BTreeMap<String, Node>, path: &str, mode: Mode) -> bool
    ensures value { result ≡ can_set_mode (tree_of nodes.old.entries) path.now }
    ensures node { tree_of nodes.new.entries ≡ with_mode (tree_of nodes.old.entries) path.now mode }
{
    match nodes.get_mut(path) {
        Some(node) => change_mode(node, mode),
        None => false,
    }
}

// Puts a node in the place of the one at a path, and answers that one.
pub(crate) fn exchange_at(nodes: &mut BTreeMap<String, Node>, path: &str, node: Node) -> Node
    requires { is_some (get (tree_of nodes.old.entries) path.now) ≡ true }
    ensures stood { get (tree_of nodes.old.entries) path.now ≡ Some result }
    ensures stands { tree_of nodes.new.entries ≡ put (tree_of nodes.old.entries) path.now (Some node) }
{
    match nodes.get_mut(path) {
        Some(place) => mem::replace(place, node),
        None => unreachable!(),
    }
}

// The same, where nobody asks for the one that stood there.
pub(crate) fn replace_at(nodes: &mut BTreeMap<String, Node>, path: &str, node: Node)
    requires { is_some (get (tree_of nodes.old.entries) path.now) ≡ true }
    ensures { tree_of nodes.new.entries ≡ put (tree_of nodes.old.entries) path.now (Some node) }
{
    let _ = exchange_at(nodes, path, node);
}

// Puts a node with more bytes in the place of the one at a path, or as it is where no memory is left.
pub(crate) fn put_grown(
    alloc: Global,
    nodes: &mut BTreeMap<String, Node>,
    path: &str,
    mut node: Node,
    bytes: &[u8],
) -> Result<(), OutOfMemory>
    requires { is_some (get (tree_of nodes.old.entries) path.now) ≡ true }
    ensures ok { OnOk result (tree_of nodes.new.entries ≡ put (tree_of nodes.old.entries) path.now (Some (grown (Some node) bytes.now))) }
    ensures err { OnErr result (tree_of nodes.new.entries ≡ put (tree_of nodes.old.entries) path.now (Some node)) }
{
    let done = grow(alloc, &mut node, bytes);
    replace_at(nodes, path, node);
    done
}

// Adds bytes to the file at a path, or makes one. The new file is put first, so that one search does where nothing stood.
fn append_at(
    alloc: Global,
    nodes: &mut BTreeMap<String, Node>,
    path: &str,
    bytes: &[u8],
) -> Result<(), OutOfMemory>
    ensures ok { OnOk result (tree_of nodes.new.entries ≡ with_append (tree_of nodes.old.entries) path.now bytes.now) }
    ensures err { OnErr result (tree_of nodes.new.entries ≡ tree_of nodes.old.entries) }
{
    let name = String::from_str(alloc, path)?;
    let file = new_file(alloc, bytes)?;
    let stood = nodes.insert(name, file)?;
    let Some(node) = stood else {
        return Ok(());
    };
    put_grown(alloc, nodes, path, node, bytes)
}

impl NodeMap {
    /// Puts a node at a path, or takes away what stands there.
    pub fn set(&mut self, alloc: Global, path: &str, node: Option<Node>) -> Result<(), OutOfMemory>
        ensures ok { OnOk result (self.new ≡ put self.old path.now node) }
        ensures err { OnErr result (self.new ≡ self.old) }
    {
        match node {
            Some(node) => self.put(alloc, path, node),
            None => {
                let _ = self.take(path);
                Ok(())
            }
        }
    }

    /// Adds bytes at the end of a file, or makes one of mode 0600.
    pub fn append(&mut self, alloc: Global, path: &Path, bytes: &[u8]) -> Result<(), OutOfMemory>
        ensures ok { OnOk result (self.new ≡ with_append self.old path.now bytes.now) }
        ensures err { OnErr result (self.new ≡ self.old) }
    {
        append_at(alloc, &mut self.nodes, path.text(), bytes)
    }

    /// Sets the mode of a directory or a file.
    pub fn set_mode(&mut self, path: &Path, mode: Mode)
        ensures { self.new ≡ with_mode self.old path.now mode }
    {
        let _ = set_mode_at(&mut self.nodes, path.text(), mode);
    }

    /// Moves what stands at a path to another; the node itself isn't copied.
    pub fn rename(&mut self, alloc: Global, from: &Path, to: &Path) -> Result<(), OutOfMemory>
        ensures ok { OnOk result (self.new ≡ with_rename self.old from.now to.now) }
        ensures err { OnErr result (self.new ≡ self.old) }
    {
        if from.cmp(to).is_eq() {
            let _ = self.take(from.text());
            return Ok(());
        }
        // The place comes first: it may find no memory, and moving a node into it takes none.
        self.make_place(alloc, to.text())?;
        let node = self.take(from.text());
        self.fill_place(to.text(), node);
        Ok(())
    }

    // Lets some node stand at a path.
    fn make_place(&mut self, alloc: Global, path: &str) -> Result<(), OutOfMemory>
        ensures stands { OnOk result (is_some (get self.new path.now) ≡ true) }
        ensures others { OnOk result ((q : Name) → names.same_name q path.now ≡ false → get self.new q ≡ get self.old q) }
        ensures err { OnErr result (self.new ≡ self.old) }
    {
        let mode = Mode::owner_only();
        self.put(alloc, path, Node::Dir { mode })
    }

    // Puts a node where one stands, or takes that one away.
    fn fill_place(&mut self, path: &str, node: Option<Node>)
        requires { is_some (get self.old path.now) ≡ true }
        ensures { self.new ≡ put self.old path.now node }
    {
        let Some(node) = node else {
            let _ = self.take(path);
            return;
        };
        replace_at(&mut self.nodes, path, node);
    }
}
