//! Reading the model file of a root.
ghost use Rattle.std.specs.Prelude.{◌≡◌, ◌≤◌, IfOk, length};
ghost use Rattle.repo_index.specs.cny-base.declared.limits.TheConstants.{CONFIG_LIMIT};
ghost use Rattle.tree_disk.specs.Steps.{Tests};
ghost use Rattle.sys_model.specs.RootModel as spec;
ghost use Rattle.sys_model.specs.RootModel.{model_file, ReadsModel};

use crate::model::Model;
use repo_index::cny_base::{
    Bytes, CONFIG_LIMIT, OutOfMemory, Path, Refusal, Stop, TextFault, What,
};
use std::alloc::Global;
use tree_disk::{TreeDisk, steps};
use trove_spec::{read_within, too_large};

// Where the model file stands.
fn model_path(alloc: Global) -> Result<Path, OutOfMemory>
    ensures { IfOk result (λ path. path ≡ spec.model_path) }
{
    match Path::read(alloc, "/etc/conary/system-model") {
        Ok(path) => Ok(path),
        Err(TextFault::Memory) => Err(OutOfMemory),
        Err(TextFault::Bad) => unreachable!(),
    }
}

// The bytes of the model file.
fn model_bytes<T: TreeDisk>(alloc: Global, root: &mut T) -> Result<Bytes, Stop>
    ensures tests { Tests T.disk (λ bytes. bytes) model_file root.old root.new result }
    ensures most { IfOk result (λ bytes. length bytes ≤ CONFIG_LIMIT) }
{
    let path = model_path(alloc)?;
    let look = steps::look(alloc, root, &path)?;
    let Some(size) = look.size() else {
        return Err(Stop::Refused(Refusal::NoModel));
    };
    if size > CONFIG_LIMIT as u64 {
        return Err(too_large(What::Model, size));
    }
    read_within(alloc, root, &path, What::Model)
}

/// The model of a root, from the file `/etc/conary/system-model`.
///
/// `NoModel` comes exactly where no file stands there, else `TooLarge` exactly where it has more than 65,536 bytes, with their number,
/// and else `BadModel` exactly where a line isn't in its grammar, with the number of the first such line. `Failed` comes only where the
/// disk's count of faults rose. Of the other stops want of memory alone comes, and no name changes, however it ends.
pub fn read_model<T: TreeDisk>(alloc: Global, root: &mut T) -> Result<Model, Stop>
    ensures { ReadsModel T.disk root.old root.new result }
{
    let bytes = model_bytes(alloc, root)?;
    Ok(Model::read(alloc, bytes.get())?)
}
