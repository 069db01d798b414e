// What a crash leaves of a tree.
ghost use Rattle.std.specs.Prelude.{◌≡◌, ◌&&◌, None, cond, map, not, string_bytes, IfOk, IsTrue, OnOk};
ghost use Rattle.std.specs.BTreeSet.{contains_text, IsOrdered};
ghost use Rattle.std.specs.String.{string_cmp};
ghost use Rattle.std.specs.FinMap.{get};
ghost use Rattle.tree_disk.specs.cny-base.Path.{is_path, parent};
ghost use Rattle.tree_disk.specs.Tree as names;
ghost use Rattle.tree_disk.specs.Tree.{Name, WellFormed, may_stand, put};
ghost use Rattle.tree_disk.specs.Disk.{IsCrashImage};
ghost use Rattle.tree_nodes.specs.Crash as spec;
ghost use Rattle.tree_nodes.specs.Crash.{HoldsNodes};

use crate::conditions::{node_ranges, same_name};
use crate::map::NodeMap;
use std::alloc::Global;
use std::collections::BTreeSet;
use tree_disk::cny_base::{Bytes, Mode, Node, OutOfMemory, parent_of};

/// A disk at a crash: what it reads, what it read at the last sync, and the names changed since.
#[derive(Clone, Copy)]
pub struct Crash<'a> {
    pub reads: &'a NodeMap,
    pub synced: &'a NodeMap,
    pub unsynced: &'a BTreeSet<String>,
}

// The digit of a number in base 4 at a place mod 32, counted from the lowest.
fn digit(pick: u64, place: u64) -> u64
    ensures { result ≡ spec.digit pick place }
{
    let mut rest = pick;
    for _ in 0..place % 32 {
        rest /= 4;
    }
    rest % 4
}

// A file of three bytes EE.
fn torn(alloc: Global) -> Result<Node, OutOfMemory>
    ensures { IfOk result (λ node. node ≡ spec.torn) }
{
    let bytes = Bytes::new(alloc, &[0xEE, 0xEE, 0xEE])?;
    let mode = Mode::owner_only();
    Ok(Node::File { mode, bytes })
}

fn is_dir(node: &Option<Node>) -> bool
    ensures { result ≡ names.is_dir node.now }
{
    matches!(node, Some(Node::Dir { .. }))
}

// The first node where the name is held and the second is no directory, and else the second.
fn choose(held: bool, dir: bool, back: Option<Node>, want: Option<Node>) -> Option<Node>
    ensures { result ≡ cond (held && not dir) back want }
{
    if held && !dir { back } else { want }
}

impl Crash<'_> {
    // Whether a name has to stay a directory: it is `/`, or lies above a standing one that isn't unsynced.
    fn is_held(&self, alloc: Global, name: &str) -> Result<bool, OutOfMemory>
        ensures { IfOk result (λ held. held ≡ spec.is_held self.now.reads.now (contains_text self.now.unsynced.now) name.now) }
    {
        if same_name(name, "/") {
            return Ok(true);
        }
        self.reads.holds_other(alloc, name, self.unsynced)
    }

    // What a digit means at a name.
    fn meant(&self, alloc: Global, digit: u64, name: &str) -> Result<Option<Node>, OutOfMemory>
        ensures { IfOk result (λ node. node ≡ spec.meant self.now.reads.now self.now.synced.now digit name.now) }
    {
        match digit {
            0 => self.reads.copy_at(name),
            1 => self.synced.copy_at(name),
            2 => Ok(None),
            _ => Ok(Some(torn(alloc)?)),
        }
    }

    // What stands at an unsynced name by a digit.
    fn picked(&self, alloc: Global, digit: u64, name: &str) -> Result<Option<Node>, OutOfMemory>
        ensures value { IfOk result (λ node. node ≡ spec.picked self.now.reads.now self.now.synced.now (contains_text self.now.unsynced.now) digit name.now) }
        ensures node { IfOk result (λ node. IsTrue (may_stand node)) }
    {
        let want = self.meant(alloc, digit, name)?;
        let held = self.is_held(alloc, name)?;
        let dir = is_dir(&want);
        let back = self.reads.copy_at(name)?;
        let node = choose(held, dir, back, want);
        node_ranges(&node);
        Ok(node)
    }

    // One unsynced name. Where its parent isn't a directory, nothing is left.
    fn leave_at(
        &self,
        alloc: Global,
        image: &mut NodeMap,
        digit: u64,
        name: &str,
    ) -> Result<(), OutOfMemory>
        ensures nodes { HoldsNodes image.old → OnOk result (HoldsNodes image.new) }
        ensures image { OnOk result (image.new ≡ put image.old name.now
            (cond (names.is_dir (get image.old (parent name.now))) (spec.picked self.now.reads.now self.now.synced.now (contains_text self.now.unsynced.now) digit name.now) None)) }
    {
        if !image.is_dir_at(parent_of(name)) {
            return image.set(alloc, name, None);
        }
        let node = self.picked(alloc, digit, name)?;
        image.set(alloc, name, node)
    }

    // All unsynced names in order.
    fn leave_all(&self, alloc: Global, image: &mut NodeMap, pick: u64) -> Result<(), OutOfMemory>
        ensures image { OnOk result (image.new ≡ spec.left_by self.now.reads.now self.now.synced.now (contains_text self.now.unsynced.now) pick 0 (map (λ k. string_bytes k) self.now.unsynced.now.keys) image.old) }
        ensures nodes { HoldsNodes image.old → OnOk result (HoldsNodes image.new) }
        ensures sorted { IsOrdered string_cmp self.now.unsynced.now }
    {
        let mut place = 0;
        for name in self.unsynced.iter() {
            self.leave_at(alloc, image, digit(pick, place), name.as_str())?;
            place += 1;
        }
        Ok(())
    }

    /// The crash image that a number picks: the k-th unsynced name in path order goes by the number's
    /// digit k mod 32 in base 4, the lowest being digit 0. 0 means as it reads, 1 as at the last sync, 2 nothing,
    /// 3 a file of mode 0600 and three bytes EE. At `/`, and at a name above a standing one that isn't unsynced,
    /// a digit that gives no directory counts as 0. A name whose parent is no directory is dropped.
    pub fn image(&self, alloc: Global, pick: u64) -> Result<NodeMap, OutOfMemory>
        requires tree { WellFormed self.now.reads.now }
        requires paths { (p : Name) → IsTrue (contains_text self.now.unsynced.now p) → IsTrue (is_path p) }
        ensures picked { IfOk result (spec.IsPicked self.now.reads.now self.now.synced.now (contains_text self.now.unsynced.now) pick) }
        ensures image { IfOk result (IsCrashImage self.now.reads.now (contains_text self.now.unsynced.now)) }
        ensures zero { pick ≡ 0 → IfOk result (λ image. image ≡ self.now.reads.now) }
    {
        let mut image = self.reads.copy(alloc)?;
        self.leave_all(alloc, &mut image, pick)?;
        Ok(image)
    }
}
