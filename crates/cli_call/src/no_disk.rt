//! What a command is given in place of a disk that it doesn't work on.
ghost use Rattle.cny_laws.specs.system-core.tree-disk.Untold.{untold, untold_laws};

use cny_laws::system_core::cny_base::{Mode, Names, Path, Target};
use cny_laws::system_core::tree_disk::{DiskStop, Look, TreeDisk};
use std::alloc::Global;

/// No disk: it tells nothing, and each call of it ends as for want of memory, which is no fault.
#[derive(Clone, Copy)]
pub struct NoDisk;

impl TreeDisk for NoDisk {
    ghost disk = { untold (λ none. 0) };

    fn look(&mut self, _alloc: Global, _path: &Path) -> Result<Look, DiskStop> {
        Err(DiskStop::Memory)
    }

    fn read_at(
        &mut self,
        _alloc: Global,
        _path: &Path,
        _at: u64,
        _buf: &mut [u8],
    ) -> Result<usize, DiskStop> {
        Err(DiskStop::Memory)
    }

    fn list(&mut self, _alloc: Global, _path: &Path) -> Result<Names, DiskStop> {
        Err(DiskStop::Memory)
    }

    fn append(&mut self, _alloc: Global, _path: &Path, _bytes: &[u8]) -> Result<(), DiskStop> {
        Err(DiskStop::Memory)
    }

    fn make_dir(&mut self, _alloc: Global, _path: &Path, _mode: Mode) -> Result<(), DiskStop> {
        Err(DiskStop::Memory)
    }

    fn make_link(
        &mut self,
        _alloc: Global,
        _path: &Path,
        _target: &Target,
    ) -> Result<(), DiskStop> {
        Err(DiskStop::Memory)
    }

    fn set_mode(&mut self, _alloc: Global, _path: &Path, _mode: Mode) -> Result<(), DiskStop> {
        Err(DiskStop::Memory)
    }

    fn remove(&mut self, _alloc: Global, _path: &Path) -> Result<(), DiskStop> {
        Err(DiskStop::Memory)
    }

    fn rename(&mut self, _alloc: Global, _from: &Path, _to: &Path) -> Result<(), DiskStop> {
        Err(DiskStop::Memory)
    }

    fn sync(&mut self, _alloc: Global) -> Result<(), DiskStop> {
        Err(DiskStop::Memory)
    }

    ghost laws = { untold_laws (λ none. 0) };
}
