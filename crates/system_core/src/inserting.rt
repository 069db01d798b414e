//! The write of the database, and write sets with one write more.
ghost use Rattle.std.specs.Prelude.{◌≡◌, ◌<◌, ◌≤◌, ◌∷◌, [], false, length, slice_index_or, take, All, IfOk, OnOk};
ghost use Rattle.std.specs.Cmp.Lexicographic.{slice_cmp};
ghost use Rattle.std.specs.Ordering.{nat_cmp};
ghost use Rattle.std.specs.declared.cmp.Ordering.TheVariants.{Less};
ghost use Rattle.rollback_stack.specs.journal-log.declared.put.Put as declared;
ghost use Rattle.rollback_stack.specs.journal-log.Targets.{is_target};
ghost use Rattle.local_db.specs.Steps.{IsUnion};
ghost use Rattle.system_core.specs.Inserting.{HasBytes, HasDatabaseRoom, put_of_db, without};

use local_db::{Db, database_path, encode_within};
use rollback_stack::cny_base::{Mode, OutOfMemory, Path};
use rollback_stack::journal_log::{Put, Puts, Want};
use rollback_stack::tree_disk::byte_ranges;
use std::alloc::Global;

/// The write of a database that has room, with mode 0644.
pub(crate) fn database_put(alloc: Global, db: &Db) -> Result<Put, OutOfMemory>
    requires { HasDatabaseRoom db.now }
    ensures value { IfOk result (λ put. put ≡ put_of_db db.now) }
    ensures bytes { OnOk result (HasBytes db.now) }
{
    let path = database_path(alloc)?;
    let bytes = encode_within(alloc, db)?;
    byte_ranges(bytes.get());
    let Some(mode) = Mode::new(0o644) else {
        unreachable!()
    };
    let want = Want::File { mode, bytes };
    Ok(Put { path, want })
}

// How many of the writes come before the first one whose path is behind this one.
fn place_of(puts: &[Put], path: &Path) -> usize
    ensures bound { result ≤ length puts.now }
    ensures before { All (λ (p : declared.Put). slice_cmp nat_cmp path.now p.path ≡ Less → ⊥) (take result puts.now) }
    ensures behind { (d : declared.Put) → result < length puts.now → slice_cmp nat_cmp path.now (slice_index_or puts.now result d).path ≡ Less }
{
    let mut at = 0;
    for put in puts {
        if *path < put.path {
            return at;
        }
        at += 1;
    }
    at
}

// Takes the write at a path out, where there is one.
fn remove_at(puts: &mut Vec<Put>, path: &Path)
    ensures { puts.new.items ≡ without path.now puts.old.items }
{
    puts.retain(|put| *path != put.path);
}

/// The write set with this write, in place of one at its path.
pub(crate) fn with_put(puts: Puts, put: Put) -> Result<Puts, OutOfMemory>
    ensures { is_target puts put.path ≡ false → IfOk result (λ all. IsUnion all puts (put ∷ [])) }
{
    let mut items = puts.into_vec();
    remove_at(&mut items, &put.path);
    let at = place_of(items.as_slice(), &put.path);
    items.insert(at, put)?;
    match Puts::new(items) {
        Some(puts) => Ok(puts),
        None => unreachable!(),
    }
}
