//! Whether the troves keep their rules, before anything is written.
ghost use Rattle.std.specs.Prelude.{◌≡◌, All, IfErr, IfOk, IsTrue, OnOk};
ghost use Rattle.std.specs.List.{AllZip};
ghost use Rattle.tree_disk.specs.Looks.{sees_dir};
ghost use Rattle.tree_disk.specs.cny-base.Path.{is_path};
ghost use Rattle.manifest_troves.specs.cny-stream.Owner.{is_owner};
ghost use Rattle.manifest_troves.specs.cny-stream.Record.{is_dir};
ghost use Rattle.manifest_troves.specs.cny-stream.Record.{IsFileRecord};
ghost use Rattle.manifest_troves.specs.trove-parts.Files.{IsFileAt};
ghost use Rattle.cny_pack.specs.Halts.{IsJudgeStop};
ghost use Rattle.cny_pack.specs.Judged.{StandsFor, IsJudged};
ghost use Rattle.cny_pack.specs.Plan.{CanStand};

use crate::head::Head;
use crate::plan::Sight;
use crate::stop::PackStop;
use manifest_troves::cny_stream::{FileRec, Flags, Owner};
use manifest_troves::trove_parts::{FileAt, Files, Refs};
use manifest_troves::{TroveLines, troves_of};
use std::alloc::Global;
use tree_disk::Look;
use tree_disk::cny_base::{Bytes, Copies, OutOfMemory, Path, TextFault};

// Root, for a record of which the owner doesn't count.
fn any_owner(alloc: Global) -> Result<Owner, OutOfMemory>
    ensures { IfOk result (λ owner. IsTrue (is_owner owner)) }
{
    let owner = Owner::new(alloc, "root", "root").map_err(|_| OutOfMemory)?;
    let _root = owner.is_root();
    Ok(owner)
}

// A record of the kind and the size that were seen. Nothing else of it counts for the rules of troves.
fn record_of(alloc: Global, path: &Path, look: &Look) -> Result<FileRec, OutOfMemory>
    requires { CanStand (record { path = path.now; look = look.now }) }
    ensures kind { IfOk result (λ rec. is_dir rec ≡ sees_dir look.now) }
    ensures valid { IfOk result IsFileRecord }
    ensures path { IsTrue (is_path path.now) }
{
    let _path = path.text();
    match look {
        Look::Nothing => unreachable!(),
        Look::Dir { mode } => {
            let _mode = mode.bits();
            let owner = any_owner(alloc)?;
            Ok(FileRec::Dir { mode: *mode, owner })
        }
        Look::Link { target } => {
            let _target = target.text();
            let target = target.copy()?;
            Ok(FileRec::Link { target })
        }
        Look::File { mode, size } => {
            let _mode = mode.bits();
            Ok(FileRec::File {
                mode: *mode,
                owner: any_owner(alloc)?,
                flags: Flags {
                    config: false,
                    initial: false,
                    transient: false,
                },
                size: *size as u32,
                name: [0; 20],
            })
        }
    }
}

// What stands for what was seen at a path.
fn file_of(alloc: Global, sight: &Sight) -> Result<FileAt, OutOfMemory>
    requires { CanStand sight.now }
    ensures stands { IfOk result (StandsFor sight.now) }
    ensures valid { IfOk result IsFileAt }
{
    let rec = record_of(alloc, &sight.path, &sight.look)?;
    Ok(FileAt {
        path: sight.path.copy()?,
        rec,
    })
}

// The same of each, in their order.
fn files_of(alloc: Global, sights: &[Sight]) -> Result<Files, OutOfMemory>
    requires { All CanStand sights.now }
    ensures stand { IfOk result (AllZip StandsFor sights.now) }
    ensures valid { IfOk result (All IsFileAt) }
{
    let mut files = Vec::with_capacity(alloc, sights.len())?;
    for sight in sights {
        files.push(file_of(alloc, sight)?)?;
    }
    Ok(Files::new(files))
}

/// The text of the first lines. Refused just where the troves of these lines and of an entry for each sight don't keep the rules of troves.
/// The owners of the entries and the names of their contents don't count.
pub(crate) fn judge(alloc: Global, head: Head, sights: &[Sight]) -> Result<Bytes, PackStop>
    requires { All CanStand sights.now }
    ensures text { IfOk result (λ text. text ≡ head.text) }
    ensures judged { OnOk result (IsJudged head.id head.requires_ head.provides sights.now) }
    ensures stops { IfErr result (IsJudgeStop (IsJudged head.id head.requires_ head.provides sights.now → ⊥)) }
{
    let Head {
        text,
        id,
        requires_,
        provides,
    } = head;
    let files = files_of(alloc, sights)?;
    let lines = TroveLines {
        id,
        refs: Refs::new(Vec::new(alloc)),
        requires_,
        provides,
        files,
    };
    match troves_of(alloc, lines) {
        Ok(_) => Ok(text),
        Err(TextFault::Bad) => Err(PackStop::NoTroves),
        Err(TextFault::Memory) => Err(PackStop::Memory),
    }
}
