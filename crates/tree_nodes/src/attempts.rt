// Changing calls of a disk, each tested and done in one pass: the search that finds a path serves the test and the change.
ghost use Rattle.std.specs.Prelude.{◌≡◌, ◌||◌, ◌&&◌, IfOk, IfErr, IfSome, IfNone, OnOk, OnErr, Some, true, false, is_some, string_bytes};
ghost use Rattle.std.specs.FinMap.{get};
ghost use Rattle.tree_disk.specs.cny-base.declared.node.Node.TheVariants.{Dir};
ghost use Rattle.tree_disk.specs.Tree as names;
ghost use Rattle.tree_disk.specs.Tree.{WellFormed, is_file, put};
ghost use Rattle.tree_disk.specs.Rows as rows;
ghost use Rattle.tree_disk.specs.Rows.{grown, is_empty_at, is_file_at, with_append, with_mode, with_rename};
ghost use Rattle.tree_nodes.specs.Attempts.{IsTried, can_leave, can_take};
ghost use Rattle.tree_nodes.specs.Stored.{tree_of};

use crate::conditions::same_name;
use crate::effects::{exchange_at, new_file, put_grown, replace_at, set_mode_at};
use crate::map::NodeMap;
use std::alloc::{AllocFailed, Global};
use std::collections::BTreeMap;
use std::mem;
use tree_disk::byte_ranges;
use tree_disk::cny_base::{Mode, Node, OutOfMemory, Path, parent_of};

// Puts the node back over which a new file was put, with more bytes where it is a file, and answers whether it is one.
fn put_back(
    alloc: Global,
    nodes: &mut BTreeMap<String, Node>,
    path: &str,
    node: Node,
    bytes: &[u8],
) -> Result<bool, OutOfMemory>
    requires { is_some (get (tree_of nodes.old.entries) path.now) ≡ true }
    ensures ok { IfOk result (IsTried (is_file (Some node)) (put (tree_of nodes.old.entries) path.now (Some (grown (Some node) bytes.now)))
        (put (tree_of nodes.old.entries) path.now (Some node)) (tree_of nodes.new.entries)) }
    ensures err { OnErr result (tree_of nodes.new.entries ≡ put (tree_of nodes.old.entries) path.now (Some node)) }
{
    if let Node::File { .. } = &node {
        put_grown(alloc, nodes, path, node, bytes)?;
        return Ok(true);
    }
    replace_at(nodes, path, node);
    Ok(false)
}

// Adds bytes to the file at a path, or makes one where nothing stands. The new file is put first: where nothing stood,
// that is all.
fn append_file(
    alloc: Global,
    nodes: &mut BTreeMap<String, Node>,
    path: &str,
    bytes: &[u8],
) -> Result<bool, OutOfMemory>
    ensures ok { IfOk result (IsTried (is_empty_at (tree_of nodes.old.entries) path.now || is_file_at (tree_of nodes.old.entries) path.now)
        (with_append (tree_of nodes.old.entries) path.now bytes.now) (tree_of nodes.old.entries) (tree_of nodes.new.entries)) }
    ensures err { OnErr result (tree_of nodes.new.entries ≡ tree_of nodes.old.entries) }
{
    let name = String::from_str(alloc, path)?;
    let file = new_file(alloc, bytes)?;
    let stood = nodes.insert(name, file)?;
    let Some(node) = stood else {
        return Ok(true);
    };
    put_back(alloc, nodes, path, node, bytes)
}

// Takes a file or a link out of its place, in which a directory then stands.
fn lift(place: &mut Node) -> Option<Node>
    ensures some { IfSome result (λ node. node ≡ place.old) }
    ensures moves { IfSome result (λ _. can_leave (Some place.old) ≡ true) }
    ensures left { IfSome result (λ _. place.new ≡ Dir 384) }
    ensures none { IfNone result (can_leave (Some place.old) ≡ false) }
    ensures same { IfNone result (place.new ≡ place.old) }
{
    if let Node::Dir { .. } = place {
        return None;
    }
    let mode = Mode::owner_only();
    Some(mem::replace(place, Node::Dir { mode }))
}

// Takes the file or link at a path out of its place, in which a directory then stands.
fn lift_at(nodes: &mut BTreeMap<String, Node>, path: &str) -> Option<Node>
    ensures some { IfSome result (λ node. get (tree_of nodes.old.entries) path.now ≡ Some node) }
    ensures moves { IfSome result (λ _. can_leave (get (tree_of nodes.old.entries) path.now) ≡ true) }
    ensures left { IfSome result (λ _. tree_of nodes.new.entries ≡ put (tree_of nodes.old.entries) path.now (Some (Dir 384))) }
    ensures none { IfNone result (can_leave (get (tree_of nodes.old.entries) path.now) ≡ false) }
    ensures same { IfNone result (tree_of nodes.new.entries ≡ tree_of nodes.old.entries) }
{
    match nodes.get_mut(path) {
        Some(place) => lift(place),
        None => None,
    }
}

// A node that wasn't put at a path: no memory was left, or a directory stands there.
#[derive(Drop)]
struct NotPut {
    node: Node,
    memory: bool,
}

// Where a node was put over a directory, puts that back.
fn undo_over(nodes: &mut BTreeMap<String, Node>, path: &str, stood: Node) -> Result<(), NotPut>
    requires { is_some (get (tree_of nodes.old.entries) path.now) ≡ true }
    ensures ok { OnOk result (tree_of nodes.new.entries ≡ tree_of nodes.old.entries) }
    ensures over { OnOk result (can_take (Some stood) ≡ true) }
    ensures refused { OnErr result (can_take (Some stood) ≡ false) }
    ensures memory { IfErr result (λ e. e.memory ≡ false) }
    ensures node { IfErr result (λ e. get (tree_of nodes.old.entries) path.now ≡ Some e.node) }
    ensures back { OnErr result (tree_of nodes.new.entries ≡ put (tree_of nodes.old.entries) path.now (Some stood)) }
{
    if let Node::Dir { .. } = &stood {
        let node = exchange_at(nodes, path, stood);
        return Err(NotPut {
            node,
            memory: false,
        });
    }
    Ok(())
}

// Puts a node at a path that the name spells, where no directory stands.
fn put_over(
    nodes: &mut BTreeMap<String, Node>,
    name: String,
    path: &str,
    node: Node,
) -> Result<(), NotPut>
    requires { string_bytes name ≡ path.now }
    ensures ok { OnOk result (tree_of nodes.new.entries ≡ put (tree_of nodes.old.entries) path.now (Some node)) }
    ensures over { OnOk result (can_take (get (tree_of nodes.old.entries) path.now) ≡ true) }
    ensures refused { IfErr result (λ e. e.memory ≡ false → can_take (get (tree_of nodes.old.entries) path.now) ≡ false) }
    ensures node { IfErr result (λ e. e.node ≡ node) }
    ensures same { OnErr result (tree_of nodes.new.entries ≡ tree_of nodes.old.entries) }
{
    let stood = match nodes.insert(name, node) {
        Ok(stood) => stood,
        Err(AllocFailed { value: (_, node) }) => return Err(NotPut { node, memory: true }),
    };
    let Some(stood) = stood else {
        return Ok(());
    };
    undo_over(nodes, path, stood)
}

// Moves the file or link at a path to another, where no directory stands at that.
fn move_over(
    alloc: Global,
    nodes: &mut BTreeMap<String, Node>,
    from: &str,
    to: &str,
) -> Result<bool, OutOfMemory>
    requires { names.same_name from.now to.now ≡ false }
    ensures ok { IfOk result (IsTried (can_leave (get (tree_of nodes.old.entries) from.now) && can_take (get (tree_of nodes.old.entries) to.now))
        (with_rename (tree_of nodes.old.entries) from.now to.now) (tree_of nodes.old.entries) (tree_of nodes.new.entries)) }
    ensures err { OnErr result (tree_of nodes.new.entries ≡ tree_of nodes.old.entries) }
{
    let name = String::from_str(alloc, to)?;
    let Some(node) = lift_at(nodes, from) else {
        return Ok(false);
    };
    if let Err(NotPut { node, memory }) = put_over(nodes, name, to, node) {
        replace_at(nodes, from, node);
        return if memory { Err(OutOfMemory) } else { Ok(false) };
    }
    let _ = nodes.remove(from);
    Ok(true)
}

impl NodeMap {
    /// Adds bytes at the end of a file, or makes one of mode 0600, where an append is allowed, and answers whether it is.
    pub fn try_append(
        &mut self,
        alloc: Global,
        path: &Path,
        bytes: &[u8],
    ) -> Result<bool, OutOfMemory>
        requires { WellFormed self.old }
        ensures ok { IfOk result (IsTried (rows.can_append self.old path.now) (with_append self.old path.now bytes.now) self.old self.new) }
        ensures err { OnErr result (self.new ≡ self.old) }
        ensures keeps { WellFormed self.new }
    {
        byte_ranges(bytes);
        if !self.is_dir_at(parent_of(path.text())) {
            return Ok(false);
        }
        append_file(alloc, &mut self.nodes, path.text(), bytes)
    }

    /// Sets the mode of a directory or a file, and answers whether one stands at the path.
    pub fn try_set_mode(&mut self, path: &Path, mode: Mode) -> bool
        requires { WellFormed self.old }
        ensures value { IsTried (rows.can_set_mode self.old path.now) (with_mode self.old path.now mode) self.old self.new result }
        ensures keeps { WellFormed self.new }
    {
        // Its clause says that it is at most 0o7777.
        let _bits = mode.bits();
        set_mode_at(&mut self.nodes, path.text(), mode)
    }

    /// Moves what stands at a path to another, where a rename is allowed, and answers whether it is. The node itself isn't
    /// copied.
    pub fn try_rename(&mut self, alloc: Global, from: &Path, to: &Path) -> Result<bool, OutOfMemory>
        requires { WellFormed self.old }
        ensures ok { IfOk result (IsTried (rows.can_rename self.old from.now to.now) (with_rename self.old from.now to.now) self.old self.new) }
        ensures err { OnErr result (self.new ≡ self.old) }
        ensures keeps { WellFormed self.new }
    {
        if same_name(from.text(), to.text()) {
            return Ok(false);
        }
        if !self.is_dir_at(parent_of(to.text())) {
            return Ok(false);
        }
        move_over(alloc, &mut self.nodes, from.text(), to.text())
    }
}
