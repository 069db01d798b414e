//! A write set whose files take their bytes from staged files.
ghost use Rattle.std.specs.Prelude.{◌≡◌, IfOk, IfSome};
ghost use Rattle.journal_log.specs.Numbers.{staged_want, IsNumbered, IsNumberedNext, IsNextFree};
ghost use Rattle.journal_log.specs.declared.put.Want.TheVariants as want;

use crate::put::{Put, Puts, Want};
use crate::staged::StagedNumbers;
use sha1::Sha1;
use std::alloc::Global;
use tree_disk::cny_base::{Copies, Mode, OutOfMemory, Path};

/// The same write set, with `Want::Staged` in place of each `Want::File`: its number is the least
/// that no other write has, in path order. Where the length of a file has no room in four bytes, the
/// answer is want of memory.
pub fn numbered(alloc: Global, puts: &Puts) -> Result<Puts, OutOfMemory>
    ensures { IfOk result (IsNumbered puts.now) }
{
    let used = StagedNumbers::of(alloc, puts)?;
    let writes = puts.get();
    let mut from = 0;
    let mut items = Vec::new(alloc);
    for put in writes {
        items.push(numbered_put(&used, &mut from, put)?)?;
    }
    let Some(puts) = Puts::new(items) else {
        unreachable!()
    };
    Ok(puts)
}

// The write with its file's bytes staged under the least free number from `from` on, which is then
// the number behind it.
fn numbered_put(used: &StagedNumbers, from: &mut u64, put: &Put) -> Result<Put, OutOfMemory>
    ensures { IfOk result (IsNumberedNext used.now put.now from.old from.new) }
{
    let Want::File { mode, bytes } = &put.want else {
        return put.copy();
    };
    let Some(number) = next_free(used, *from) else {
        return Err(OutOfMemory);
    };
    *from = u64::from(number) + 1;
    staged_put(&put.path, *mode, bytes.get(), number)
}

// The least number from `from` on that isn't used, where it has room in four bytes.
fn next_free(used: &StagedNumbers, from: u64) -> Option<u32>
    ensures { IfSome result (IsNextFree used.now from) }
{
    let mut number = u32::try_from(from).ok()?;
    while used.contains(number) {
        number = number.checked_add(1)?;
    }
    Some(number)
}

// The write of a file that takes its bytes from the staged file with this number.
fn staged_put(path: &Path, mode: Mode, bytes: &[u8], number: u32) -> Result<Put, OutOfMemory>
    ensures { IfOk result (λ made. made ≡ record { path = path.now; want = staged_want number (want.File mode bytes.now) }) }
{
    let Ok(size) = u32::try_from(bytes.len()) else {
        return Err(OutOfMemory);
    };
    Ok(Put {
        path: path.copy()?,
        want: Want::Staged {
            mode,
            number,
            size,
            name: Sha1::digest(bytes),
        },
    })
}
