//! The two disks of a call.
use line_words::{Answer, Line, Stop};
use root_words::tree_memory::MemoryTree;
use root_words::tree_memory::cny_base::{self, Copies, OutOfMemory, Path};
use root_words::{Quiet, crashed, disk_of, edit, empty_disk, paths_of, told_kept, told_nodes};
use std::alloc::Global;
use tree_journal::recover;

/// One of the two disks.
#[derive(Clone, Copy)]
pub enum Side {
    Root,
    Repository,
}

impl Side {
    /// The disk of the first argument.
    pub fn of(line: &mut Line) -> Side {
        match line.raw(0) {
            "root" => Side::Root,
            "repo" => Side::Repository,
            _ => {
                line.unreadable();
                Side::Root
            }
        }
    }

    // The private directory of its journal.
    fn base(self) -> &'static str {
        match self {
            Side::Root => "/var/lib/conarydb",
            Side::Repository => "/conaryrepo",
        }
    }
}

/// The root and the repository.
pub struct Disks {
    pub root: Quiet,
    pub repo: Quiet,
}

// Written by hand, so that to let a value go is a single call wherever a function ends early.
impl Drop for Disks {
    fn drop(self) {
        let Disks {
            root: _root,
            repo: _repo,
        } = self;
    }
}

// Puts what stands at a path of a tree into a copy of it.
fn copy_node(tree: &MemoryTree, copy: &mut Quiet, alloc: Global, path: &Path) -> Result<(), Stop> {
    if let Some(node) = tree.node(path) {
        edit(alloc, &mut copy.tree, path, Some(node.copy()?))?;
    }
    Ok(())
}

// A disk with the same nodes, all synced. The call of this number fails.
fn copy_of(tree: &MemoryTree, alloc: Global, failing: u64) -> Result<Quiet, Stop> {
    let mut copy = empty_disk(alloc, failing)?;
    for path in &paths_of(alloc, tree)? {
        copy_node(tree, &mut copy, alloc, path)?;
    }
    Ok(copy)
}

// Whether a crash leaves just these nodes.
fn leaves(disk: &Quiet, pick: u64, nodes: &str, answer: &mut Answer) -> bool {
    let mut left = answer.apart();
    if let Some(image) = answer.kept(crashed(answer.alloc(), &disk.tree, pick)) {
        told_nodes(&image.tree, &mut left);
    }
    answer.keep_failure(&left);
    left.get() == nodes
}

/// Appends what stands on a disk, and whether crashes leave just that.
pub fn push_kept(name: &str, disk: &Quiet, answer: &mut Answer) {
    let mut nodes = answer.apart();
    told_nodes(&disk.tree, &mut nodes);
    // All unsynced names torn, and all as at the last sync.
    let (torn, old) = (u64::MAX, 0x5555_5555_5555_5555);
    let synced = leaves(disk, torn, nodes.get(), answer) && leaves(disk, old, nodes.get(), answer);
    answer.field(name);
    answer.text(if synced { " synced" } else { " unsynced" });
    answer.add(&nodes);
}

// Whether a recovery found a commit flag that was set.
fn push_recovery(recovered: Result<bool, cny_base::Stop>, answer: &mut Answer) {
    answer.field(match recovered {
        Ok(true) => "committed",
        Ok(false) => "at rest",
        Err(_) => "stuck",
    });
}

impl Disks {
    /// `ROOT_FAILS REPO_FAILS ROOT REPO`: the trees of a line, of which the calls of these numbers fail where they aren't 0.
    pub fn of(line: &mut Line) -> Option<Self> {
        let (root_fails, repo_fails) = (line.number(0), line.number(1));
        let root = disk_of(line, 2, root_fails)?;
        let repo = disk_of(line, 3, repo_fails)?;
        Some(Disks { root, repo })
    }

    /// One of the disks.
    pub fn side(&self, side: Side) -> &Quiet {
        match side {
            Side::Root => &self.root,
            Side::Repository => &self.repo,
        }
    }

    /// The same to be changed.
    pub fn side_mut(&mut self, side: Side) -> &mut Quiet {
        match side {
            Side::Root => &mut self.root,
            Side::Repository => &mut self.repo,
        }
    }

    // What the crash of one disk that the number picks leaves; the other one is left as it reads.
    fn left(&self, alloc: Global, side: Side, pick: u64) -> Result<Self, OutOfMemory> {
        let (root_pick, repo_pick) = match side {
            Side::Root => (pick, 0),
            Side::Repository => (0, pick),
        };
        let root = crashed(alloc, &self.root.tree, root_pick)?;
        let repo = crashed(alloc, &self.repo.tree, repo_pick)?;
        Ok(Disks { root, repo })
    }

    // The same nodes, all synced. The call of this number of one disk fails.
    fn copied(&self, alloc: Global, side: Side, failing: u64) -> Result<Self, Stop> {
        let mut copy = self.left(alloc, side, 0)?;
        *copy.side_mut(side) = copy_of(&self.side(side).tree, alloc, failing)?;
        Ok(copy)
    }

    /// What the crash of one disk that the number picks leaves; the other one is left as it reads.
    pub fn crash(&self, side: Side, pick: u64, answer: &mut Answer) -> Option<Self> {
        answer.kept(self.left(answer.alloc(), side, pick))
    }

    /// The same nodes, all synced. The call of this number of one disk fails.
    pub fn failing(&self, side: Side, number: u64, answer: &mut Answer) -> Option<Self> {
        answer.kept(self.copied(answer.alloc(), side, number))
    }

    /// Whether the recovery of what a crash of a disk leaves found a commit flag that was set, and what then stands but the
    /// journal's own files.
    pub fn push_recovered(&self, side: Side, pick: u64, answer: &mut Answer) {
        if let Some(base) = answer.kept(Path::read(answer.alloc(), side.base())) {
            let image = crashed(answer.alloc(), &self.side(side).tree, pick);
            if let Some(mut image) = answer.kept(image) {
                push_recovery(recover(answer.alloc(), &mut image, &base), answer);
                told_kept(&image.tree, side.base(), answer);
            }
        }
    }
}
