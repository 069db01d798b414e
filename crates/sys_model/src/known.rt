//! The repository and the installed troves, with where to look in them for what meets a requirement.
ghost use Rattle.std.specs.Prelude.{◌≡◌, IfOk};
ghost use Rattle.sys_model.specs.Growing.{IsKnown};

use crate::providers::Providers;
use repo_index::Catalogue;
use repo_index::cny_base::OutOfMemory;
use repo_index::trove_stream::Installed;
use std::alloc::Global;

/// The repository and the installed troves, with where their troves stand by what they provide.
#[derive(Drop)]
pub(crate) struct Known<'a> {
    pub(crate) catalogue: &'a Catalogue,
    pub(crate) installed: &'a Installed,
    pub(crate) comers: Providers,
    pub(crate) stayers: Providers,
}

impl<'a> Known<'a> {
    /// The same of these.
    pub(crate) fn of(
        alloc: Global,
        catalogue: &'a Catalogue,
        installed: &'a Installed,
    ) -> Result<Self, OutOfMemory>
        ensures catalogue { IfOk result (λ known. known.catalogue.now ≡ catalogue.now) }
        ensures installed { IfOk result (λ known. known.installed.now ≡ installed.now) }
        ensures known { IfOk result IsKnown }
    {
        Ok(Known {
            catalogue,
            installed,
            comers: Providers::of(alloc, catalogue.troves())?,
            stayers: Providers::of(alloc, installed.troves())?,
        })
    }
}
