// What stands below a directory, without a look at all other names.
ghost use Rattle.std.specs.Prelude.{◌≡◌, ◌++◌, ◌&&◌, not, IfOk, false, string_bytes};
ghost use Rattle.std.specs.BTreeMap.{IsOrdered};
ghost use Rattle.std.specs.BTreeSet.{contains_text};
ghost use Rattle.std.specs.FinMap.{keys};
ghost use Rattle.std.specs.List.{list_any};
ghost use Rattle.tree_disk.specs.cny-base.Below.{is_below};
ghost use Rattle.std.specs.String.{string_cmp};
ghost use Rattle.tree_disk.specs.cny-base.Path.{root};
ghost use Rattle.tree_disk.specs.Tree as names;
ghost use Rattle.tree_disk.specs.Tree.{WellFormed};
ghost use Rattle.tree_disk.specs.Rows as rows;
ghost use Rattle.tree_nodes.specs.Stored.{tree_of};
ghost use Rattle.tree_nodes.specs.Below as spec;

use crate::conditions::same_name;
use crate::map::NodeMap;
use std::alloc::Global;
use std::collections::btree_map::Range;
use std::collections::{BTreeMap, BTreeSet};
use tree_disk::cny_base::{Names, Node, OutOfMemory, Path, Text, last_name, parent_of};

// What stands before the slash in the names below a directory: nothing for `/`.
fn front(dir: &str) -> &str
    ensures { result.now ≡ spec.front dir.now }
{
    if same_name(dir, "/") { "" } else { dir }
}

fn joined(alloc: Global, front: &str, end: &str) -> Result<String, OutOfMemory>
    ensures { IfOk result (λ text. string_bytes text ≡ front.now ++ end.now) }
{
    let mut text = String::from_str(alloc, front)?;
    text.push_str(end)?;
    Ok(text)
}

// The entries whose names begin with a directory's path and a slash.
fn entries_with_prefix<'a>(
    alloc: Global,
    nodes: &'a BTreeMap<String, Node>,
    dir: &str,
) -> Result<Range<'a, String, Node>, OutOfMemory>
    ensures entries { IfOk result (λ range. range ≡ spec.entries_with_prefix dir.now nodes.now.entries) }
    ensures ordered { IfOk result (λ _. IsOrdered string_cmp nodes.now) }
{
    let front = front(dir);
    let lower = joined(alloc, front, "/")?;
    // `0` is the byte after the slash, so these names end before it.
    let upper = joined(alloc, front, "0")?;
    Ok(nodes.range(lower..upper))
}

fn is_child(dir: &str, name: &str) -> bool
    ensures { result ≡ names.is_child dir.now name.now }
{
    let top = same_name(name, "/");
    let below = same_name(parent_of(name), dir);
    !top && below
}

// Whether a directory other than `/` has no children. In a tree a name below it stands only where a child does.
fn is_childless(
    alloc: Global,
    nodes: &BTreeMap<String, Node>,
    dir: &Path,
) -> Result<bool, OutOfMemory>
    requires tree { WellFormed (tree_of nodes.now.entries) }
    requires other { names.same_name dir.now root ≡ false }
    ensures { IfOk result (λ childless. childless ≡ rows.is_childless (tree_of nodes.now.entries) dir.now) }
{
    let mut below = entries_with_prefix(alloc, nodes, dir.text())?;
    Ok(below.next().is_none())
}

fn children(alloc: Global, nodes: &BTreeMap<String, Node>, dir: &str) -> Result<Names, OutOfMemory>
    requires { WellFormed (tree_of nodes.now.entries) }
    ensures { IfOk result (λ found. found ≡ names.children (tree_of nodes.now.entries) dir.now) }
{
    let mut found = Vec::new(alloc);
    for (name, _) in entries_with_prefix(alloc, nodes, dir)? {
        if is_child(dir, name.as_str()) {
            found.push(Text::new(alloc, last_name(name.as_str()))?)?;
        }
    }
    Ok(Names::new(found))
}

impl NodeMap {
    /// The last names of a directory's children, in the order of their bytes.
    pub fn children(&self, alloc: Global, dir: &Path) -> Result<Names, OutOfMemory>
        requires { WellFormed self.now }
        ensures { IfOk result (λ found. found ≡ names.children self.now dir.now) }
    {
        children(alloc, &self.nodes, dir.text())
    }

    /// Whether a directory other than `/` has no children.
    pub fn is_childless(&self, alloc: Global, dir: &Path) -> Result<bool, OutOfMemory>
        requires tree { WellFormed self.now }
        requires other { names.same_name dir.now root ≡ false }
        ensures { IfOk result (λ childless. childless ≡ rows.is_childless self.now dir.now) }
    {
        is_childless(alloc, &self.nodes, dir)
    }
}

// Whether a name among these entries isn't one of the known ones.
fn has_other(mut entries: Range<'_, String, Node>, known: &BTreeSet<String>) -> bool
    ensures { result ≡ list_any (λ e. not (contains_text known.now (string_bytes e.0))) entries.entry }
{
    entries.any(|(name, _)| !known.contains(name.as_str()))
}

// Whether a name that isn't a known one stands below a directory other than `/`.
fn holds_other(
    alloc: Global,
    nodes: &BTreeMap<String, Node>,
    dir: &str,
    known: &BTreeSet<String>,
) -> Result<bool, OutOfMemory>
    requires { names.same_name dir.now root ≡ false }
    ensures { IfOk result (λ holds. holds ≡ list_any (λ q. not (contains_text known.now q) && is_below dir.now q) (keys (tree_of nodes.now.entries))) }
{
    let below = entries_with_prefix(alloc, nodes, dir)?;
    Ok(has_other(below, known))
}

impl NodeMap {
    /// Whether a name that isn't a known one stands below a directory other than `/`.
    pub(crate) fn holds_other(
        &self,
        alloc: Global,
        dir: &str,
        known: &BTreeSet<String>,
    ) -> Result<bool, OutOfMemory>
        requires { names.same_name dir.now root ≡ false }
        ensures { IfOk result (λ holds. holds ≡ list_any (λ q. not (contains_text known.now q) && is_below dir.now q) (keys self.now)) }
    {
        holds_other(alloc, &self.nodes, dir, known)
    }
}
