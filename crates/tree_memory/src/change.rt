// What changed a tree in memory, one change for each call and edit.
use std::alloc::Global;
use tree_nodes::NodeMap;
use tree_nodes::cny_base::{Bytes, Copies, Mode, Node, OutOfMemory, Path, Target};
use tree_nodes::tree_disk::byte_ranges;

/// One change. The disk keeps them all, since it tells what a crash at a moment that has passed may have left.
#[derive(Drop)]
pub(crate) enum Change {
    /// Adds bytes at the end of a file, or makes one.
    Append { path: Path, bytes: Bytes },
    /// Puts a node, or takes one away.
    Put { path: Path, node: Option<Node> },
    SetMode { path: Path, mode: Mode },
    Rename { from: Path, to: Path },
    /// A call that failed and left what stands at its name.
    Touch { path: Path },
    TouchBoth { from: Path, to: Path },
    /// A sync.
    Sync,
    /// A node put, or taken away, by another than the calls; then all counts as synced.
    Edit { path: Path, node: Option<Node> },
}

impl Change {
    ghost use Rattle.std.specs.Prelude.{◌≡◌, ◌&&◌, false, not, IfOk, Some, None};
    ghost use Rattle.tree_nodes.specs.cny-base.declared.node.Node.TheVariants.{Dir, Link};
    ghost use Rattle.tree_memory.specs.declared.change.Change.TheVariants.{Append, Put, SetMode, Rename};
    ghost use Rattle.tree_nodes.specs.tree-disk.Tree.{WellFormed};
    ghost use Rattle.tree_memory.specs.State.{allows, failed_change, settles, tree_after};
    ghost use Rattle.tree_memory.specs.Calls.{IsCall};

    pub(crate) fn append(alloc: Global, path: &Path, bytes: &[u8]) -> Result<Change, OutOfMemory>
        ensures { IfOk result (IsCall (Append path.now bytes.now)) }
    {
        let path = path.copy()?;
        let bytes = Bytes::new(alloc, bytes)?;
        Ok(Change::Append { path, bytes })
    }

    pub(crate) fn make_dir(path: &Path, mode: Mode) -> Result<Change, OutOfMemory>
        ensures { IfOk result (IsCall (Put path.now (Some (Dir mode)))) }
    {
        let path = path.copy()?;
        let node = Some(Node::Dir { mode });
        Ok(Change::Put { path, node })
    }

    pub(crate) fn make_link(path: &Path, target: &Target) -> Result<Change, OutOfMemory>
        ensures { IfOk result (IsCall (Put path.now (Some (Link target.now)))) }
    {
        let path = path.copy()?;
        let target = target.copy()?;
        let node = Some(Node::Link { target });
        Ok(Change::Put { path, node })
    }

    pub(crate) fn set_mode(path: &Path, mode: Mode) -> Result<Change, OutOfMemory>
        ensures { IfOk result (IsCall (SetMode path.now mode)) }
    {
        let path = path.copy()?;
        Ok(Change::SetMode { path, mode })
    }

    pub(crate) fn remove(path: &Path) -> Result<Change, OutOfMemory>
        ensures { IfOk result (IsCall (Put path.now None)) }
    {
        let path = path.copy()?;
        Ok(Change::Put { path, node: None })
    }

    pub(crate) fn rename(from: &Path, to: &Path) -> Result<Change, OutOfMemory>
        ensures { IfOk result (IsCall (Rename from.now to.now)) }
    {
        let from = from.copy()?;
        let to = to.copy()?;
        Ok(Change::Rename { from, to })
    }

    /// What a call does in its place that fails on these nodes: of an append that they allow, the first half, where no
    /// stop has come, and else nothing.
    pub(crate) fn failed(
        self,
        alloc: Global,
        nodes: &NodeMap,
        stopped: bool,
    ) -> Result<Change, OutOfMemory>
        requires call { settles self ≡ false }
        requires tree { WellFormed nodes.now }
        ensures value { IfOk result (λ failed. failed ≡ failed_change self (allows self nodes.now && not stopped)) }
        ensures keeps { IfOk result (λ failed. WellFormed (tree_after failed nodes.now)) }
    {
        match self {
            Change::Append { path, bytes } => {
                let bytes = bytes.get();
                byte_ranges(bytes);
                let allowed = nodes.can_append(&path);
                if stopped || !allowed {
                    return Ok(Change::Touch { path });
                }
                let bytes = Bytes::new(alloc, &bytes[..bytes.len() / 2])?;
                Ok(Change::Append { path, bytes })
            }
            Change::Put { path, .. } => Ok(Change::Touch { path }),
            Change::SetMode { path, .. } => Ok(Change::Touch { path }),
            Change::Rename { from, to } => Ok(Change::TouchBoth { from, to }),
            other => Ok(other),
        }
    }
}
