//! The bytes of the log of a write set.
ghost use Rattle.std.specs.Prelude.{◌≡◌, ◌≤◌, ◌++◌, [], false, IfOk, OnOk, IsTrue, All};
ghost use Rattle.std.specs.Int.{to_be_bytes, w16, w32};
ghost use Rattle.tree_disk.specs.cny-base.Path.{is_path};
ghost use Rattle.tree_disk.specs.cny-base.Target.{is_target};
ghost use Rattle.tree_disk.specs.cny-base.StrField.{str};
ghost use Rattle.journal_log.specs.Staged.{is_file_want, HaveNoBytes};
ghost use Rattle.journal_log.specs.WriteSet.{IsFormed, IsStagedForm};
ghost use Rattle.journal_log.specs.LogBytes.{put_tag, put_value, put_bytes, FitsPut, IsSpelled};

use crate::put::{Put, Puts, Want};
use cny_stream::put_item;
use std::alloc::Global;
use tree_disk::cny_base::{Bytes, Mode, OutOfMemory, Path, Target, put_str};

/// What a log begins with.
pub(crate) const MAGIC: &[u8] = b"CNYLG01\n";

/// The tags of a log's items.
pub(crate) const NOTHING: u8 = 0x30;

pub(crate) const DIR: u8 = 0x31;

pub(crate) const LINK: u8 = 0x32;

pub(crate) const STAGED: u8 = 0x34;

pub(crate) const END: u8 = 0x3f;

/// The log of a write set, which names staged files and holds no bytes of files: `numbered` makes
/// one. Where the number of puts or the length of one has no room in four bytes, the answer is want
/// of memory.
pub fn encode_log(alloc: Global, puts: &Puts) -> Result<Bytes, OutOfMemory>
    requires no_bytes { HaveNoBytes puts.now }
    ensures spelled { IfOk result (IsSpelled puts.now) }
    // What the types of the puts hold.
    ensures formed { OnOk result (All (λ p. IsTrue (is_path p.path)) puts.now × All (λ p. IsFormed p.want) puts.now) }
{
    let items = puts.get();
    let Ok(number) = u32::try_from(items.len()) else {
        return Err(OutOfMemory);
    };
    let mut out = Bytes::new(alloc, MAGIC)?;
    for put in items {
        push_put(alloc, &mut out, put)?;
    }
    put_item(&mut out, END, &number.to_be_bytes())?;
    Ok(out)
}

// Appends the item of one put.
fn push_put(alloc: Global, out: &mut Bytes, put: &Put) -> Result<(), OutOfMemory>
    requires no_bytes { is_file_want put.now.want ≡ false }
    ensures ok { OnOk result (out.new ≡ out.old ++ put_bytes put.now) }
    ensures fits { OnOk result (FitsPut put.now) }
    ensures path { OnOk result (IsTrue (is_path put.now.path)) }
    ensures formed { OnOk result (IsFormed put.now.want) }
{
    let value = value_of(alloc, put)?;
    if u32::try_from(value.get().len()).is_err() {
        return Err(OutOfMemory);
    }
    put_item(out, tag_of(&put.want), value.get())
}

fn tag_of(want: &Want) -> u8
    requires { is_file_want want.now ≡ false }
    ensures { result ≡ put_tag want.now }
{
    match want {
        Want::Nothing => NOTHING,
        Want::Dir { .. } => DIR,
        Want::Link { .. } => LINK,
        Want::Staged { .. } => STAGED,
        Want::File { .. } => unreachable!(),
    }
}

// The value of the item of a put.
fn value_of(alloc: Global, put: &Put) -> Result<Bytes, OutOfMemory>
    requires no_bytes { is_file_want put.now.want ≡ false }
    ensures ok { IfOk result (λ value. value ≡ put_value put.now.path put.now.want) }
    ensures path { OnOk result (IsTrue (is_path put.now.path)) }
    ensures formed { OnOk result (IsFormed put.now.want) }
{
    let path = &put.path;
    match &put.want {
        Want::Nothing => Ok(Bytes::new(alloc, path.text().as_bytes())?),
        Want::Dir { mode } => dir_value(alloc, path, *mode),
        Want::Link { target } => link_value(alloc, path, target),
        Want::Staged {
            mode,
            number,
            size,
            name,
        } => staged_value(alloc, path, *mode, *number, *size, name),
        Want::File { .. } => unreachable!(),
    }
}

fn dir_value(alloc: Global, path: &Path, mode: Mode) -> Result<Bytes, OutOfMemory>
    ensures ok { IfOk result (λ value. value ≡ to_be_bytes w16 mode ++ path.now) }
    ensures path { OnOk result (IsTrue (is_path path.now)) }
    ensures mode { OnOk result (mode ≤ 4095) }
{
    let mut value = Bytes::new(alloc, &mode.bits().to_be_bytes())?;
    value.push_slice(path.text().as_bytes())?;
    Ok(value)
}

fn link_value(alloc: Global, path: &Path, target: &Target) -> Result<Bytes, OutOfMemory>
    ensures ok { IfOk result (λ value. value ≡ str path.now ++ str target.now) }
    ensures path { OnOk result (IsTrue (is_path path.now)) }
    ensures target { OnOk result (IsTrue (is_target target.now)) }
{
    let mut value = Bytes::new(alloc, &[])?;
    put_str(&mut value, path.text().as_bytes())?;
    put_str(&mut value, target.text().as_bytes())?;
    Ok(value)
}

// How many bytes the value of a staged file's item has beside those of its path.
const STAGED_REST: usize = 32;

fn staged_value(
    alloc: Global,
    path: &Path,
    mode: Mode,
    number: u32,
    size: u32,
    name: &[u8; 20],
) -> Result<Bytes, OutOfMemory>
    ensures ok { IfOk result (λ value. value ≡ to_be_bytes w16 mode ++ (str path.now ++ (to_be_bytes w32 number ++ (to_be_bytes w32 size ++ name.now)))) }
    ensures path { OnOk result (IsTrue (is_path path.now)) }
    ensures form { OnOk result (IsStagedForm mode number size name.now) }
{
    let items = Vec::with_capacity(alloc, path.text().len() + STAGED_REST)?;
    let mut value = Bytes::from_vec(items);
    value.push_slice(&mode.bits().to_be_bytes())?;
    put_str(&mut value, path.text().as_bytes())?;
    value.push_slice(&number.to_be_bytes())?;
    value.push_slice(&size.to_be_bytes())?;
    value.push_slice(name)?;
    Ok(value)
}
