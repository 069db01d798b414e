//! The two disks of a call, opened.
ghost use Rattle.std.specs.Prelude.{IfOk};
ghost use Rattle.repo_load.specs.Files.{HoldsCatalogue};
ghost use Rattle.repo_load.specs.Loading.{HoldsSomeCatalogue, IsCatalogue};
ghost use Rattle.cli_call.specs.Runs.{OpensBoth, OpensForRoot};
ghost use Rattle.cny_laws.specs.Opening.{no_test, Opens};
ghost use Rattle.cny_laws.specs.RootOpening.{OpensSystem};
ghost use Rattle.cny_laws.specs.Stores.{repository_store};

use crate::stops::{on_repository, on_root};
use cny_laws::system_core::cny_base::Stop;
use cny_laws::system_core::tree_disk::TreeDisk;
use cny_laws::system_core::{ready, recover_disk};
use cny_laws::{Failure, Opened};
use local_db::Db;
use repo_index::Catalogue;
use repo_load::{base_path, load, tested};
use std::alloc::Global;

// Makes the root ready for a command, and answers its database.
fn open_root<T: TreeDisk>(alloc: Global, root: &mut T) -> Result<Db, Stop>
    ensures { OpensSystem T.disk root.old root.new result }
{
    let db = ready(alloc, root)?;
    Ok(db)
}

// Recovers the repository, and loads its catalogue.
fn open_repository<P: TreeDisk>(alloc: Global, repo: &mut P) -> Result<Catalogue, Stop>
    ensures opens { Opens repository_store P.disk no_test HoldsCatalogue repo.old repo.new result }
    ensures rules { IfOk result IsCatalogue }
{
    let directory = base_path(alloc)?;
    recover_disk(alloc, repo, &directory)?;
    load(alloc, repo)
}

// Recovers the repository, and tests its commits.
fn test_repository<P: TreeDisk>(alloc: Global, repo: &mut P) -> Result<(), Stop>
    ensures { Opens repository_store P.disk no_test (λ tree done. HoldsSomeCatalogue tree) repo.old repo.new result }
{
    let base = base_path(alloc)?;
    recover_disk(alloc, repo, &base)?;
    tested(alloc, repo)
}

/// Opens both disks, first the root.
pub fn open_disks<T: TreeDisk, P: TreeDisk>(
    alloc: Global,
    repo: &mut P,
    root: &mut T,
) -> Result<Opened, Failure>
    ensures { OpensBoth T.disk P.disk root.old root.new repo.old repo.new result }
{
    let db = on_root(open_root(alloc, root))?;
    let catalogue = on_repository(open_repository(alloc, repo))?;
    Ok(Opened { db, catalogue })
}

/// Opens both disks, first the root, for a command that works on the root alone. The commits of the repository are tested as when
/// they are loaded, and nothing is kept of them.
pub fn open_for_root<T: TreeDisk, P: TreeDisk>(
    alloc: Global,
    repo: &mut P,
    root: &mut T,
) -> Result<Opened, Failure>
    ensures { OpensForRoot T.disk P.disk root.old root.new repo.old repo.new result }
{
    let kept = on_root(open_root(alloc, root))?;
    on_repository(test_repository(alloc, repo))?;
    Ok(Opened {
        db: kept,
        catalogue: Catalogue::new(alloc),
    })
}
