// In which trees each changing call is allowed.
ghost use Rattle.std.specs.Prelude.{◌≡◌, ◌||◌, ℕ, List, IsTrue, IfOk, is_some, not, false};
ghost use Rattle.std.specs.Option.{option_copied};
ghost use Rattle.std.specs.FinMap.{get};
ghost use Rattle.std.specs.List.{list_all};
ghost use Rattle.tree_disk.specs.cny-base.declared.node.Node.{Node};
ghost use Rattle.tree_disk.specs.cny-base.Path.{is_path};
ghost use Rattle.tree_disk.specs.Tree as names;
ghost use Rattle.tree_disk.specs.Tree.{WellFormed, put, is_byte, is_file, is_link, is_node, may_stand};
ghost use Rattle.tree_disk.specs.Rows as rows;
ghost use Rattle.tree_disk.specs.Rows.{with_append, with_node, without};
ghost use Rattle.tree_nodes.specs.Edit.{can_edit};

use crate::map::NodeMap;
use std::alloc::Global;
use tree_disk::cny_base::{Node, OutOfMemory, Path, parent_of};

// Whether two texts are equal.
pub(crate) fn same_name(a: &str, b: &str) -> bool
    ensures { result ≡ names.same_name a.now b.now }
{
    a.cmp(b).is_eq()
}

// What stands, or nothing, is what a disk can hold. It does nothing: its clause is for the proofs of its callers.
pub(crate) fn node_ranges(node: &Option<Node>)
    ensures { IsTrue (may_stand node.now) }
{
    if let Some(node) = node {
        tree_disk::node_ranges(node);
    }
}

// Nothing, or a file.
fn may_grow(node: Option<&Node>) -> bool
    ensures { result ≡ (not (is_some (option_copied node.entry)) || is_file (option_copied node.entry)) }
{
    matches!(node, None | Some(Node::File { .. }))
}

impl NodeMap {
    /// Whether a directory stands at a path.
    pub fn is_dir_at(&self, path: &str) -> bool
        ensures { result ≡ rows.is_dir_at self.now path.now }
    {
        matches!(self.node(path), Some(Node::Dir { .. }))
    }

    fn is_file_at(&self, path: &str) -> bool
        ensures { result ≡ rows.is_file_at self.now path.now }
    {
        matches!(self.node(path), Some(Node::File { .. }))
    }

    fn is_link_at(&self, path: &str) -> bool
        ensures { result ≡ is_link (get self.now path.now) }
    {
        matches!(self.node(path), Some(Node::Link { .. }))
    }

    fn is_empty_at(&self, path: &str) -> bool
        ensures { result ≡ rows.is_empty_at self.now path.now }
    {
        self.node(path).is_none()
    }

    fn allows_append(&self, path: &str) -> bool
        ensures { result ≡ rows.can_append self.now path.now }
    {
        let dir = self.is_dir_at(parent_of(path));
        let grows = may_grow(self.node(path));
        dir && grows
    }

    fn allows_make(&self, path: &str) -> bool
        ensures { result ≡ rows.can_make self.now path.now }
    {
        let dir = self.is_dir_at(parent_of(path));
        let empty = self.is_empty_at(path);
        dir && empty
    }

    /// Whether an append is allowed; it then leaves a tree.
    pub fn can_append(&self, path: &Path) -> bool
        requires { WellFormed self.now }
        ensures value { result ≡ rows.can_append self.now path.now }
        ensures keeps { IsTrue result → (bytes : List ℕ) → IsTrue (list_all is_byte bytes) → WellFormed (with_append self.now path.now bytes) }
    {
        self.allows_append(path.text())
    }

    /// Whether a directory or a link may be made; it then leaves a tree.
    pub fn can_make(&self, path: &Path) -> bool
        requires { WellFormed self.now }
        ensures value { result ≡ rows.can_make self.now path.now }
        ensures keeps { IsTrue result → (node : Node) → IsTrue (is_node node) → WellFormed (with_node self.now path.now node) }
    {
        self.allows_make(path.text())
    }

    fn allows_remove(&self, alloc: Global, path: &Path) -> Result<bool, OutOfMemory>
        requires { WellFormed self.now }
        ensures { IfOk result (λ can. can ≡ rows.can_remove self.now path.now) }
    {
        if same_name(path.text(), "/") {
            return Ok(false);
        }
        let file = self.is_file_at(path.text());
        let link = self.is_link_at(path.text());
        let dir = self.is_dir_at(path.text());
        let bare = dir && self.is_childless(alloc, path)?;
        Ok(file || link || bare)
    }

    /// Whether a removal is allowed; it then leaves a tree.
    pub fn can_remove(&self, alloc: Global, path: &Path) -> Result<bool, OutOfMemory>
        requires { WellFormed self.now }
        ensures value { IfOk result (λ can. can ≡ rows.can_remove self.now path.now) }
        ensures keeps { IfOk result (λ can. IsTrue can → WellFormed (without self.now path.now)) }
    {
        let can = self.allows_remove(alloc, path)?;
        Ok(can)
    }

    fn allows_edit(
        &self,
        alloc: Global,
        path: &Path,
        node: &Option<Node>,
    ) -> Result<bool, OutOfMemory>
        requires { WellFormed self.now }
        ensures value { IfOk result (λ can. can ≡ can_edit self.now path.now node.now) }
        ensures path { IfOk result (λ _. IsTrue (is_path path.now)) }
    {
        let dir = self.is_dir_at(parent_of(path.text()));
        if let Some(Node::Dir { .. }) = node {
            return Ok(dir);
        }
        if same_name(path.text(), "/") {
            return Ok(false);
        }
        let childless = self.is_childless(alloc, path)?;
        match node {
            None => Ok(childless),
            Some(_) => Ok(dir && childless),
        }
    }

    /// Whether the nodes are still a tree with this node, or with none, at a path.
    pub fn can_edit(
        &self,
        alloc: Global,
        path: &Path,
        node: &Option<Node>,
    ) -> Result<bool, OutOfMemory>
        requires { WellFormed self.now }
        ensures tree { IfOk result (λ can. IsTrue can → WellFormed (put self.now path.now node.now)) }
        ensures no_tree { IfOk result (λ can. can ≡ false → ¬ (WellFormed (put self.now path.now node.now))) }
    {
        node_ranges(node);
        let can = self.allows_edit(alloc, path, node)?;
        Ok(can)
    }
}
