//! The names of the files.
ghost use Rattle.std.specs.Prelude.{◌≡◌, IfOk, IsTrue, string_bytes};
ghost use Rattle.trove_stream.specs.cny-base.Path.{is_path};
ghost use Rattle.trove_stream.specs.cny-base.Reserved.{private_directory};
ghost use Rattle.local_db.specs.Names as spec;

use itoa::Buffer;
use std::alloc::{AllocError, Global};
use trove_stream::cny_base::{OutOfMemory, Path, TextFault};

// The path of a text that is one.
fn path_of(alloc: Global, text: &str) -> Result<Path, OutOfMemory>
    requires { IsTrue (is_path text.now) }
    ensures { IfOk result (λ path. path ≡ text.now) }
{
    match Path::read(alloc, text) {
        Ok(path) => Ok(path),
        Err(TextFault::Memory) => Err(OutOfMemory),
        Err(TextFault::Bad) => unreachable!(),
    }
}

/// The private directory of a root, `/var/lib/conarydb`.
pub fn base_path(alloc: Global) -> Result<Path, OutOfMemory>
    ensures { IfOk result (λ path. path ≡ private_directory) }
{
    path_of(alloc, "/var/lib/conarydb")
}

/// The file of the database.
pub fn database_path(alloc: Global) -> Result<Path, OutOfMemory>
    ensures { IfOk result (λ path. path ≡ spec.database) }
{
    path_of(alloc, "/var/lib/conarydb/db")
}

fn record_text(alloc: Global, number: u32) -> Result<String, AllocError>
    ensures { IfOk result (λ text. string_bytes text ≡ spec.record_file number) }
{
    let mut text = String::from_str(alloc, "/var/lib/conarydb/r.")?;
    text.push_str(Buffer::new().format(number))?;
    Ok(text)
}

/// The file of the rollback record of the job of this number.
pub fn record_path(alloc: Global, number: u32) -> Result<Path, OutOfMemory>
    ensures { IfOk result (λ path. path ≡ spec.record_file number) }
{
    let text = record_text(alloc, number)?;
    path_of(alloc, text.as_str())
}

fn saved_text(alloc: Global, number: u32) -> Result<String, AllocError>
    ensures { IfOk result (λ text. string_bytes text ≡ spec.saved number) }
{
    let mut text = String::from_str(alloc, "/var/lib/conarydb/s.")?;
    text.push_str(Buffer::new().format(number))?;
    Ok(text)
}

/// The directory of the contents that the job of this number saved.
pub fn saved_path(alloc: Global, number: u32) -> Result<Path, OutOfMemory>
    ensures { IfOk result (λ path. path ≡ spec.saved number) }
{
    let text = saved_text(alloc, number)?;
    path_of(alloc, text.as_str())
}
