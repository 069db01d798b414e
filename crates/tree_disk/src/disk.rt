// The disk as the layers above see it: the tree that it reads, and what a crash may leave.
ghost use Rattle.std.specs.Prelude.{◌≡◌, ◌≤◌, Bool, length, IfOk, IsTrue};
ghost use Rattle.tree_disk.specs.declared.disk.DiskStop.TheVariants.{Memory};
ghost use Rattle.tree_disk.specs.Tree.{children};
ghost use Rattle.tree_disk.specs.Rows.{is_file_at, is_dir_at, can_append, can_make, can_set_mode, can_remove, can_rename, with_append, with_node, with_mode, without, with_rename, ReadsFrom, look_of};
ghost use Rattle.cny_base.specs.declared.node.Node.TheVariants.{Dir, Link};
ghost use Rattle.tree_disk.specs.Disk.{DiskModel, IsDisk, HasCause, Reads, Changes, Syncs, one_name, two_names, NamesOf};

use cny_base::{Copies, Mode, Names, OutOfMemory, Path, Target};
use std::alloc::{AllocError, AllocFailed, Global};

/// Why a call of a disk didn't do its work.
#[derive(Clone, Copy)]
pub enum DiskStop {
    /// The disk failed: its count of faults rose. A call that changes leaves anything at its own names, and
    /// changes no other; a call that reads and a sync change nothing.
    Failed,
    /// The tree doesn't allow the call. It comes only from a disk that tells its tree, and changes nothing.
    Refused,
    /// No memory was left. Nothing changed.
    Memory,
}

impl From<AllocError> for DiskStop {
    ghost from_gives = { λ _ e. e ≡ Memory };

    fn from(_: AllocError) -> Self {
        DiskStop::Memory
    }
}

impl<T: Drop> From<AllocFailed<T>> for DiskStop {
    ghost from_gives = { λ _ e. e ≡ Memory };

    fn from(_: AllocFailed<T>) -> Self {
        DiskStop::Memory
    }
}

impl From<OutOfMemory> for DiskStop {
    ghost from_gives = { λ _ e. e ≡ Memory };

    fn from(_: OutOfMemory) -> Self {
        DiskStop::Memory
    }
}

/// What stands at a path.
#[derive(Drop)]
pub enum Look {
    /// Nothing, or a name above it isn't a directory.
    Nothing,
    Dir { mode: Mode },
    /// A file of so many bytes.
    File { mode: Mode, size: u64 },
    Link { target: Target },
}

impl Look {
    ghost use Rattle.std.specs.Prelude.{◌≡◌};
    ghost use Rattle.tree_disk.specs.Looks.{sees_nothing, sees_dir, sees_file, sees_link, size_seen};

    /// Whether nothing stands there.
    pub fn is_nothing(&self) -> bool
        ensures { result ≡ sees_nothing self.now }
    {
        matches!(self, Look::Nothing)
    }

    /// Whether a directory stands there.
    pub fn is_dir(&self) -> bool
        ensures { result ≡ sees_dir self.now }
    {
        matches!(self, Look::Dir { .. })
    }

    /// Whether a file stands there.
    pub fn is_file(&self) -> bool
        ensures { result ≡ sees_file self.now }
    {
        matches!(self, Look::File { .. })
    }

    /// Whether a link stands there.
    pub fn is_link(&self) -> bool
        ensures { result ≡ sees_link self.now }
    {
        matches!(self, Look::Link { .. })
    }

    /// How many bytes the file has that stands there; none where no file stands.
    pub fn size(&self) -> Option<u64>
        ensures { result ≡ size_seen self.now }
    {
        match self {
            Look::File { size, .. } => Some(*size),
            _ => None,
        }
    }
}

impl Copies for Look {
    fn copy(&self) -> Result<Self, OutOfMemory> {
        Ok(match self {
            Look::Nothing => Look::Nothing,
            Look::Dir { mode } => Look::Dir { mode: *mode },
            Look::File { mode, size } => Look::File {
                mode: *mode,
                size: *size,
            },
            Look::Link { target } => Look::Link {
                target: target.copy()?,
            },
        })
    }
}

/// A disk that holds one tree of directories, files and links.
///
/// What a disk holds can be known of some disks alone, as one in memory; of a host's disk nothing is known
/// but its count of faults. So a disk says whether it tells its tree, and what its calls do to the tree
/// is promised where it does. That each call returns, and why it fails, is promised of every disk.
///
/// Each call has a condition on the tree as it reads. `Refused` comes only from a disk that tells its tree,
/// and only where the condition doesn't hold; and there `Ok` never comes.
///
/// A call that changes the tree has names of its own. It changes no other name. Until the next successful
/// `sync` they are unsynced, also where the call failed.
///
/// A crash leaves a well-formed tree in which each unsynced name holds anything or nothing, and every other
/// name what it held at the last successful `sync`. Nothing else is promised: no order of the calls, no
/// atomic write and no atomic rename. What the disk reads is one of these trees. Each tree that a crash
/// may have left at some moment is kept for good, so that a clause can speak of all moments of a run.
///
/// What others on the machine read meanwhile is told too: the tree that the disk read at each moment that
/// has passed. A call that ends well goes from the tree before it to the tree after it in one step. Where a
/// call failed, nothing is promised of its own names meanwhile; other names show what they did.
pub trait TreeDisk {
    /// What the disk means: whether it tells its tree, what it reads, which names are unsynced, its clock,
    /// what it read at each moment, what a crash since a moment may have left, and its count of faults.
    ghost disk: { DiskModel Self };

    /// What stands at the path. It is always allowed.
    fn look(&mut self, alloc: Global, path: &Path) -> Result<Look, DiskStop>
        ensures cause { HasCause disk Bool.true self.old self.new result }
        ensures told { Reads disk self.old self.new
            (IfOk result (λ look. look ≡ look_of (disk.reads self.old) path.now)) };

    /// Fills `buf` from a place in a file up to the file's end, and answers how many bytes that gave. What
    /// `buf` holds behind them stays. After an error `buf` holds anything. Allowed where a file stands.
    fn read_at(
        &mut self,
        alloc: Global,
        path: &Path,
        at: u64,
        buf: &mut [u8],
    ) -> Result<usize, DiskStop>
        ensures cause { HasCause disk (is_file_at (disk.reads self.old) path.now) self.old self.new result }
        // On every disk.
        ensures most { IfOk result (λ count. count ≤ length buf.old) }
        ensures told { Reads disk self.old self.new
            (IfOk result (λ count. ReadsFrom (disk.reads self.old) path.now at buf.old buf.new count)) };

    /// The last names of a directory's children, in the order of their bytes. Allowed where a directory
    /// stands.
    fn list(&mut self, alloc: Global, path: &Path) -> Result<Names, DiskStop>
        ensures cause { HasCause disk (is_dir_at (disk.reads self.old) path.now) self.old self.new result }
        // On every disk each joins with the path to a path.
        ensures names { IfOk result (NamesOf path.now) }
        ensures told { Reads disk self.old self.new
            (IfOk result (λ names. IsTrue (is_dir_at (disk.reads self.old) path.now)
            × (names ≡ children (disk.reads self.old) path.now))) };

    /// Adds bytes at the end of a file. Where nothing stands it first makes a file of mode 0600. Allowed
    /// where the parent is a directory, and nothing or a file stands.
    fn append(&mut self, alloc: Global, path: &Path, bytes: &[u8]) -> Result<(), DiskStop>
        ensures cause { HasCause disk (can_append (disk.reads self.old) path.now) self.old self.new result }
        ensures told { Changes disk (one_name path.now) (can_append (disk.reads self.old) path.now)
            (with_append (disk.reads self.old) path.now bytes.now) self.old self.new result };

    /// Makes a directory. Allowed where the parent is a directory and nothing stands.
    fn make_dir(&mut self, alloc: Global, path: &Path, mode: Mode) -> Result<(), DiskStop>
        ensures cause { HasCause disk (can_make (disk.reads self.old) path.now) self.old self.new result }
        ensures told { Changes disk (one_name path.now) (can_make (disk.reads self.old) path.now)
            (with_node (disk.reads self.old) path.now (Dir mode)) self.old self.new result };

    /// Makes a link. Allowed where the parent is a directory and nothing stands.
    fn make_link(&mut self, alloc: Global, path: &Path, target: &Target) -> Result<(), DiskStop>
        ensures cause { HasCause disk (can_make (disk.reads self.old) path.now) self.old self.new result }
        ensures told { Changes disk (one_name path.now) (can_make (disk.reads self.old) path.now)
            (with_node (disk.reads self.old) path.now (Link target.now)) self.old self.new result };

    /// Sets the mode of a directory or a file. Allowed where one of these stands.
    fn set_mode(&mut self, alloc: Global, path: &Path, mode: Mode) -> Result<(), DiskStop>
        ensures cause { HasCause disk (can_set_mode (disk.reads self.old) path.now) self.old self.new result }
        ensures told { Changes disk (one_name path.now) (can_set_mode (disk.reads self.old) path.now)
            (with_mode (disk.reads self.old) path.now mode) self.old self.new result };

    /// Takes away a file, a link or a directory without children. Allowed where one of these stands, but
    /// not at `/`.
    fn remove(&mut self, alloc: Global, path: &Path) -> Result<(), DiskStop>
        ensures cause { HasCause disk (can_remove (disk.reads self.old) path.now) self.old self.new result }
        ensures told { Changes disk (one_name path.now) (can_remove (disk.reads self.old) path.now)
            (without (disk.reads self.old) path.now) self.old self.new result };

    /// Moves a file or link, over a file or link that stands there. Allowed where one of these stands at
    /// `from`, the parent of `to` is a directory, nothing or one of these stands at `to`, and the two
    /// paths differ.
    fn rename(&mut self, alloc: Global, from: &Path, to: &Path) -> Result<(), DiskStop>
        ensures cause { HasCause disk (can_rename (disk.reads self.old) from.now to.now) self.old self.new result }
        ensures told { Changes disk (two_names from.now to.now) (can_rename (disk.reads self.old) from.now to.now)
            (with_rename (disk.reads self.old) from.now to.now) self.old self.new result };

    /// Waits until all changes are kept: after it no name is unsynced, and a crash leaves just what the disk
    /// reads. It is always allowed.
    fn sync(&mut self, alloc: Global) -> Result<(), DiskStop>
        ensures cause { HasCause disk Bool.true self.old self.new result }
        ensures told { Syncs disk self.old self.new result };

    /// The tree that the disk reads is well formed and is the one that it reads at the present moment, the
    /// clock counts the present moment among those that have passed, and since the present moment a crash
    /// may leave only what it may leave now.
    ghost laws: { IsDisk disk };
}
