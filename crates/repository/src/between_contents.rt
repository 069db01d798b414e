//! The bytes of the contents that are sent.
ghost use Rattle.std.specs.Prelude.{◌≡◌, true, All, IfOk, List, ℕ, map};
ghost use Rattle.repo_index.specs.Catalogue.{has_content};
ghost use Rattle.repo_load.specs.Contents.{IsDamagedContent};
ghost use Rattle.repo_load.specs.Looks.{Looks};
ghost use Rattle.repository.specs.Between.{carried_name, AreStoredIn};
ghost use Rattle.repository.specs.BetweenSteps.{IsDamagedAmong, IsHashed, IsStoredAs};

use change_set::{Carried, CarriedList};
use repo_index::Catalogue;
use repo_load::cny_base::Stop;
use repo_load::content;
use repo_load::tree_disk::TreeDisk;
use std::alloc::Global;

// The content of a name that a trove of the catalogue records.
fn read_content<D: TreeDisk>(
    alloc: Global,
    disk: &mut D,
    catalogue: &Catalogue,
    name: &[u8; 20],
) -> Result<Carried, Stop>
    requires { has_content name.now catalogue.now.troves ≡ true }
    ensures looks { Looks D.disk IsStoredAs (IsDamagedContent catalogue.now.troves name.now) disk.old disk.new result }
    ensures name { IfOk result (λ content. content.name ≡ name.now) }
    ensures hash { IfOk result IsHashed }
{
    match content(alloc, disk, catalogue, name)? {
        Some(bytes) => Ok(Carried { name: *name, bytes }),
        None => unreachable!(),
    }
}

/// The contents of these names, each of which a trove of the catalogue records.
pub(crate) fn read_contents<D: TreeDisk>(
    alloc: Global,
    disk: &mut D,
    catalogue: &Catalogue,
    names: &[[u8; 20]],
) -> Result<CarriedList, Stop>
    requires { All (λ (name : List ℕ). has_content name catalogue.now.troves ≡ true) names.now }
    ensures looks { Looks D.disk AreStoredIn (IsDamagedAmong catalogue.now.troves names.now) disk.old disk.new result }
    ensures names { IfOk result (λ contents. map carried_name contents ≡ names.now) }
    ensures hashes { IfOk result (All IsHashed) }
{
    let mut contents = Vec::new(alloc);
    for name in names {
        let content = read_content(alloc, disk, catalogue, name)?;
        contents.push(content)?;
    }
    Ok(CarriedList::new(contents))
}
