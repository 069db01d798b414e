// Where contents stand.
ghost use Rattle.std.specs.Prelude.{◌≡◌, ◌≤◌, ◌<◌, IfErr, IfOk, IsTrue, length, string_bytes};
ghost use Rattle.hex.specs.Hex.{encode_lower};
ghost use Rattle.tree_disk.specs.cny-base.Path.{is_path};
ghost use Rattle.tree_disk.specs.cny-base.declared.stop.Stop.TheVariants as stop;
ghost use Rattle.tree_disk.specs.Tree.{Name};
ghost use Rattle.content_store.specs.Store.{content_path};

use std::alloc::{AllocError, Global};
use tree_disk::cny_base::{Path, Stop, TextFault};

/// The longest directory whose contents have paths: a path has at most 1,024 bytes, and a slash and 40 digits follow it.
/// The clauses write its value, 983.
pub const LONGEST_DIR: usize = 983;

// The digits of a name.
fn digits_of(alloc: Global, name: &[u8; 20]) -> Result<String, AllocError>
    ensures { IfOk result (λ digits. string_bytes digits ≡ encode_lower name.now) }
{
    hex::encode(alloc, name.as_slice())
}

/// Contents of two names stand at two paths, so that a store is a map. It does nothing: its clause is for the proofs of its
/// callers.
pub fn names_apart(name: &[u8; 20], other: &[u8; 20])
    ensures { (dir : Name) → content_path dir name.now ≡ content_path dir other.now → name.now ≡ other.now }
{
    let _name = name.as_slice();
    let _other = other.as_slice();
}

/// The path of the content of a name.
pub fn path_of(alloc: Global, dir: &Path, name: &[u8; 20]) -> Result<Path, Stop>
    requires short { length dir.now ≤ 983 }
    ensures path { IfOk result (λ path. path ≡ content_path dir.now name.now) }
    ensures is_path { IfOk result (λ path. IsTrue (is_path path)) }
    ensures dir { IsTrue (is_path dir.now) }
    ensures memory { IfErr result (λ e. e ≡ stop.Memory) }
{
    // Its clause says that the directory is a path, so that the joined name is one.
    let _text = dir.text();
    let digits = digits_of(alloc, name)?;
    match dir.join(alloc, digits.as_str()) {
        Ok(path) => Ok(path),
        Err(TextFault::Memory) => Err(Stop::Memory),
        Err(TextFault::Bad) => unreachable!(),
    }
}
