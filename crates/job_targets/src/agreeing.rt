//! Whether the old contents of a job can stand in one directory.
ghost use Rattle.std.specs.Prelude.{◌≡◌, ◌++◌, ◌∷◌, [], List, IfErr, OnOk};
ghost use Rattle.std.specs.Option.{option_copied};
ghost use Rattle.content_store.specs.Difference.{first_difference};
ghost use Rattle.job_targets.specs.declared.entry.Entry as declared;
ghost use Rattle.job_targets.specs.Agree.{AllAgree, AreNoted, Collides, IsCollisionOrMemory, IsFirstCollision, bytes_of};

use crate::entry::Entry;
use content_store::first_difference;
use local_db::cny_base::{Fault, Refusal};
use local_db::journal_log::Want;
use sha1::Sha1;
use std::alloc::Global;
use std::collections::BTreeMap;

/// Old contents by their SHA-1.
type Noted<'a> = BTreeMap<[u8; 20], &'a [u8]>;

// Two contents of one name: a collision where they differ.
fn check_same(name: [u8; 20], earlier: &[u8], bytes: &[u8]) -> Result<(), Fault>
    ensures same { OnOk result (earlier.now ≡ bytes.now) }
    ensures differ { IfErr result (IsCollisionOrMemory (λ collided at. (collided ≡ name) × (first_difference earlier.now bytes.now ≡ Some at))) }
{
    match first_difference(earlier, bytes) {
        Some(at) => Err(Fault::Refused(Refusal::Collision {
            name,
            at: at as u64,
        })),
        None => Ok(()),
    }
}

/// The bytes of the file that stood there; none where another node did, or none.
pub fn old_bytes(entry: &Entry) -> Option<&[u8]>
    ensures { option_copied result ≡ bytes_of entry.now.was }
{
    match &entry.was {
        Want::File { bytes, .. } => Some(bytes.get()),
        Want::Nothing => None,
        Want::Dir { .. } => None,
        Want::Link { .. } => None,
        Want::Staged { .. } => None,
    }
}

// Notes the old content of an entry. A collision where one of its SHA-1 was noted before and differs.
fn note<'a>(noted: &mut Noted<'a>, entry: &'a Entry) -> Result<(), Fault>
    ensures noted { (es : List declared.Entry) → AreNoted es noted.old → OnOk result (AreNoted (es ++ entry.now ∷ []) noted.new) }
    ensures agree { (es : List declared.Entry) → AreNoted es noted.old → AllAgree es → OnOk result (AllAgree (es ++ entry.now ∷ [])) }
    ensures collides { (es : List declared.Entry) → AreNoted es noted.old → IfErr result (IsCollisionOrMemory (Collides es entry.now)) }
{
    let Some(bytes) = old_bytes(entry) else {
        return Ok(());
    };
    let name = Sha1::digest(bytes);
    match noted.get(&name) {
        Some(earlier) => check_same(name, earlier, bytes),
        None => {
            noted.insert(name, bytes)?;
            Ok(())
        }
    }
}

/// Whether the old contents of the entries can be saved under their SHA-1 in one directory: `Collision` exactly for the first
/// entry whose old content has the SHA-1 of an earlier one and differs from it, with the first place at which they differ.
pub fn stashable(alloc: Global, entries: &[Entry]) -> Result<(), Fault>
    ensures agree { OnOk result (AllAgree entries.now) }
    ensures collides { IfErr result (IsCollisionOrMemory (IsFirstCollision entries.now)) }
{
    let mut noted = BTreeMap::new(alloc);
    for entry in entries {
        note(&mut noted, entry)?;
    }
    Ok(())
}
