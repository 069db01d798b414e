//! The fingerprints that troves record.
ghost use Rattle.std.specs.Prelude.{◌≡◌, IfOk};
ghost use Rattle.tree_scan.specs.declared.mark.Mark.TheVariants as mark;
ghost use Rattle.tree_scan.specs.Marks.{fingerprint_of_record};
ghost use Rattle.local_db.specs.MarkBytes.{IsMark};

use tree_scan::Mark;
use trove_stream::cny_base::{Copies, Mode, OutOfMemory};
use trove_stream::cny_stream::FileRec;

// The fingerprint of a file.
fn file_mark(mode: Mode, size: u32, name: &[u8; 20]) -> Mark
    ensures value { result ≡ mark.File mode size name.now }
    ensures marked { IsMark result }
{
    let _bits = mode.bits();
    Mark::File {
        mode,
        size: u64::from(size),
        name: *name,
    }
}

/// The fingerprint of the node that a record describes.
pub fn mark_of_record(rec: &FileRec) -> Result<Mark, OutOfMemory>
    ensures value { IfOk result (λ mark. mark ≡ fingerprint_of_record rec.now) }
    ensures marked { IfOk result IsMark }
{
    match rec {
        FileRec::Dir { mode, .. } => {
            let _bits = mode.bits();
            Ok(Mark::Dir { mode: *mode })
        }
        FileRec::File {
            mode,
            size,
            name,
            ..
        } => Ok(file_mark(*mode, *size, name)),
        FileRec::Link { target } => {
            let _text = target.text();
            Ok(Mark::Link {
                target: target.copy()?,
            })
        }
    }
}
