//! The fields of a fingerprint.
ghost use Rattle.std.specs.Prelude.{ℕ, List, IfSome, IfNone};
ghost use Rattle.job_record.specs.Reading.{HasFileFields};

use local_db::cny_base::Mode;
use local_db::journal_log::read_mode;

/// The fields of a file's fingerprint.
#[derive(Clone, Copy)]
pub(crate) struct FileFields {
    pub(crate) mode: Mode,
    pub(crate) size: u32,
    pub(crate) name: [u8; 20],
}

// The mode, the size and the name in the first 26 bytes.
pub(crate) fn read_file(value: &[u8]) -> Option<FileFields>
    ensures some { IfSome result (λ fields. HasFileFields value.now fields.mode fields.size fields.name) }
    ensures none { IfNone result ((mode size : ℕ) (name : List ℕ) → HasFileFields value.now mode size name → ⊥) }
{
    let mode = read_mode(value)?;
    let (size, rest) = value[2..].split_first_chunk::<4>()?;
    let (name, _) = rest.split_first_chunk::<20>()?;
    Some(FileFields {
        mode,
        size: u32::from_be_bytes(*size),
        name: *name,
    })
}
