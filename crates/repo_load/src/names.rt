//! The names of the files.
ghost use Rattle.std.specs.Prelude.{◌≡◌, IfOk, IsTrue, string_bytes};
ghost use Rattle.repo_index.specs.cny-base.Path.{is_path};
ghost use Rattle.content_store.specs.Store as spec;
ghost use Rattle.repo_load.specs.Files.{commit_file, contents_dir, repository_base};

use itoa::Buffer;
use repo_index::cny_base::{OutOfMemory, Path, TextFault};
use std::alloc::{AllocError, Global};

// The path of a text that is one.
fn path_of(alloc: Global, text: &str) -> Result<Path, OutOfMemory>
    requires { IsTrue (is_path text.now) }
    ensures { IfOk result (λ path. path ≡ text.now) }
{
    match Path::read(alloc, text) {
        Ok(path) => Ok(path),
        Err(TextFault::Memory) => Err(OutOfMemory),
        Err(TextFault::Bad) => unreachable!(),
    }
}

/// The private directory of a repository, `/conaryrepo`.
pub fn base_path(alloc: Global) -> Result<Path, OutOfMemory>
    ensures { IfOk result (λ path. path ≡ repository_base) }
{
    path_of(alloc, "/conaryrepo")
}

/// The directory of the contents.
pub fn contents_path(alloc: Global) -> Result<Path, OutOfMemory>
    ensures { IfOk result (λ path. path ≡ contents_dir) }
{
    path_of(alloc, "/conaryrepo/c")
}

fn commit_text(alloc: Global, number: u64) -> Result<String, AllocError>
    ensures { IfOk result (λ text. string_bytes text ≡ commit_file number) }
{
    let mut text = String::from_str(alloc, "/conaryrepo/k.")?;
    text.push_str(Buffer::new().format(number))?;
    Ok(text)
}

/// The file of the commit of this number; numbers begin at 1.
pub fn commit_path(alloc: Global, number: u64) -> Result<Path, OutOfMemory>
    ensures { IfOk result (λ path. path ≡ commit_file number) }
{
    let text = commit_text(alloc, number)?;
    path_of(alloc, text.as_str())
}

fn content_text(alloc: Global, name: &[u8; 20]) -> Result<String, AllocError>
    ensures { IfOk result (λ text. string_bytes text ≡ spec.content_path contents_dir name.now) }
{
    let mut text = String::from_str(alloc, "/conaryrepo/c/")?;
    let digits = hex::encode(alloc, name.as_slice())?;
    text.push_str(digits.as_str())?;
    Ok(text)
}

/// The file of the content of a name.
pub fn content_path(alloc: Global, name: &[u8; 20]) -> Result<Path, OutOfMemory>
    ensures { IfOk result (λ path. path ≡ spec.content_path contents_dir name.now) }
{
    let text = content_text(alloc, name)?;
    path_of(alloc, text.as_str())
}
