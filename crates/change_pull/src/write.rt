//! The files of contents.
ghost use Rattle.std.specs.Prelude.{◌≡◌, ◌<◌, ◌≤◌, ◌^◌, IfErr, IfOk, IsTrue, OnOk, length};
ghost use Rattle.journal_log.specs.cny-base.Path.{is_path};
ghost use Rattle.journal_log.specs.tree-disk.Disk.{one_name};
ghost use Rattle.journal_log.specs.tree-disk.Rows.{with_append};
ghost use Rattle.change_pull.specs.declared.halt.Halt.TheVariants as halts;
ghost use Rattle.change_pull.specs.Files.{HasRoomFrom, number_path};
ghost use Rattle.change_pull.specs.Halts.{halted_of, IsNoRefusal};
ghost use Rattle.change_pull.specs.Writes.{Writes};

use crate::halt::Halt;
use journal_log::cny_base::{Path, Stop, TextFault};
use journal_log::staged_path;
use journal_log::tree_disk::{TreeDisk, steps};
use std::alloc::Global;

/// The path of the file of this number.
pub(crate) fn path_of(alloc: Global, dir: &Path, number: usize) -> Result<Path, Halt>
    requires { length dir.now ≤ 1013 }
    ensures path { IfOk result (λ path. path ≡ number_path dir.now number) }
    ensures fits { OnOk result (number < 2 ^ 32) }
    ensures dir { IsTrue (is_path dir.now) }
    ensures memory { IfErr result (λ halt. halt ≡ halts.Memory) }
{
    // Its clause says that the directory is a path, so that the joined name is one.
    let _text = dir.text();
    let Ok(number) = u32::try_from(number) else {
        return Err(Halt::Memory);
    };
    match staged_path(alloc, dir, number) {
        Ok(path) => Ok(path),
        Err(TextFault::Memory) => Err(Halt::Memory),
        Err(TextFault::Bad) => unreachable!(),
    }
}

// How a call of a disk ended. (Of the stops it has a fault or want of memory alone.)
fn halted(answer: Result<(), Stop>) -> Result<(), Halt>
    ensures same { result ≡ halted_of answer }
    ensures fails { IfErr result IsNoRefusal }
{
    match answer {
        Ok(()) => Ok(()),
        Err(Stop::Failed) => Err(Halt::Failed),
        Err(Stop::Memory) => Err(Halt::Memory),
        Err(Stop::Refused(_refusal)) => Err(Halt::Memory),
        Err(Stop::Damaged { path: _path }) => Err(Halt::Memory),
        Err(Stop::FarFailed) => Err(Halt::Memory),
        Err(Stop::FarDamaged { path: _path }) => Err(Halt::Memory),
    }
}

/// Adds bytes at the end of the file of this number, which it makes where there is none.
pub(crate) fn write<D: TreeDisk>(
    alloc: Global,
    disk: &mut D,
    dir: &Path,
    number: usize,
    bytes: &[u8],
) -> Result<(), Halt>
    requires short { length dir.now ≤ 1013 }
    requires room { IsTrue D.disk.tells → HasRoomFrom (D.disk.reads disk.old) dir.now number }
    ensures fits { OnOk result (number < 2 ^ 32) }
    ensures dir { IsTrue (is_path dir.now) }
    ensures fails { IfErr result IsNoRefusal }
    ensures writes { Writes D.disk (one_name (number_path dir.now number))
        (λ tree. with_append tree (number_path dir.now number) bytes.now)
        disk.old disk.new result }
{
    let path = path_of(alloc, dir, number)?;
    halted(steps::append(alloc, disk, &path, bytes))
}
