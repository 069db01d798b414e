//! Reading the configuration file.
ghost use Rattle.std.specs.Prelude.{◌≡◌, ◌≤◌, IfOk, length};
ghost use Rattle.repo_index.specs.cny-base.declared.limits.TheConstants.{CONFIG_LIMIT};
ghost use Rattle.tree_disk.specs.Steps.{Tests};
ghost use Rattle.trove_spec.specs.RootConfig as spec;
ghost use Rattle.trove_spec.specs.RootConfig.{config_file, ReadsConfig};

use crate::bounded::{read_within, too_large};
use crate::config::Config;
use repo_index::cny_base::{Bytes, CONFIG_LIMIT, OutOfMemory, Path, Stop, TextFault, What};
use std::alloc::Global;
use tree_disk::{TreeDisk, steps};

// Where the configuration file stands.
fn config_path(alloc: Global) -> Result<Path, OutOfMemory>
    ensures { IfOk result (λ path. path ≡ spec.config_path) }
{
    match Path::read(alloc, "/etc/conaryrc") {
        Ok(path) => Ok(path),
        Err(TextFault::Memory) => Err(OutOfMemory),
        Err(TextFault::Bad) => unreachable!(),
    }
}

// The bytes of the configuration file, none where no file stands.
fn config_bytes<T: TreeDisk>(alloc: Global, root: &mut T) -> Result<Bytes, Stop>
    ensures tests { Tests T.disk (λ bytes. bytes) config_file root.old root.new result }
    ensures most { IfOk result (λ bytes. length bytes ≤ CONFIG_LIMIT) }
{
    let path = config_path(alloc)?;
    let look = steps::look(alloc, root, &path)?;
    let Some(size) = look.size() else {
        return Ok(Bytes::from_vec(Vec::new(alloc)));
    };
    if size > CONFIG_LIMIT as u64 {
        return Err(too_large(What::Config, size));
    }
    read_within(alloc, root, &path, What::Config)
}

/// The configuration of a root, from the file `/etc/conaryrc`; where no file stands there, no labels and the empty flavor.
///
/// `TooLarge` comes exactly where the file has more than 65,536 bytes, with their number, and else `BadConfig` exactly where a
/// line with a key isn't in its grammar, with the number of the first such line. `Failed` comes only where the disk's count of
/// faults rose. Of the other stops want of memory alone comes, and no name changes, however it ends.
pub fn read_config<T: TreeDisk>(alloc: Global, root: &mut T) -> Result<Config, Stop>
    ensures { ReadsConfig T.disk root.old root.new result }
{
    let bytes = config_bytes(alloc, root)?;
    Ok(Config::read(alloc, bytes.get())?)
}
