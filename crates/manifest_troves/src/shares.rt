//! What falls to each component of a package.
ghost use Rattle.std.specs.Prelude.{◌≡◌, ℕ, List, map, false, None, IfOk, OnOk, IsErrOf};
ghost use Rattle.std.specs.BTreeMap.{Updates};
ghost use Rattle.std.specs.Cmp.Lexicographic.{slice_cmp};
ghost use Rattle.std.specs.Option.{unwrap_or};
ghost use Rattle.std.specs.Ordering.{nat_cmp};
ghost use Rattle.std.specs.Str.{bytes_eq};
ghost use Rattle.change_set.specs.cny-base.Name.{is_name};
ghost use Rattle.manifest_troves.specs.Shares.{no_share, share_at, plus_if, plus, with_files, with_deps, share_of};
ghost use Rattle.manifest_troves.specs.Troves.{entry_component, HasBadName};

use crate::lines::{Added, DepKind, DepLine, DepLines};
use crate::policy::component_of;
use change_set::cny_base::{Name, OutOfMemory, TextFault};
use change_set::trove_parts::{Deps, FileAt, Files, Refs, TroveId};
use change_set::trove_stream::Trove;
use cny_dep::Dep;
use std::alloc::Global;
use std::collections::BTreeMap;
use std::marker::Model;

/// The entries that fall to a component, and what its lines say.
pub(crate) struct Share {
    files: Vec<FileAt>,
    requires_: Vec<Dep>,
    provides: Vec<Dep>,
}

// Written by hand, so that to let a value go is a single call.
impl Drop for Share {
    fn drop(self) {
        let Share {
            files: _files,
            requires_: _requires,
            provides: _provides,
        } = self;
    }
}

impl Model for Share {
    ghost use Rattle.manifest_troves.specs.Shares.{Shared};

    ghost Value = { Shared };

    ghost view = { λ a. record {
      files = a.files.items;
      requires_ = a.requires_.items;
      provides = a.provides.items;
    } };
}

impl Share {
    ghost use Rattle.change_set.specs.trove-stream.Trove.{IsTrove};
    ghost use Rattle.manifest_troves.specs.Shares as spec;
    ghost use Rattle.manifest_troves.specs.Shares.{trove_of};

    // Nothing.
    fn new(alloc: Global) -> Self
        ensures { result ≡ no_share }
    {
        Share {
            files: Vec::new(alloc),
            requires_: Vec::new(alloc),
            provides: Vec::new(alloc),
        }
    }

    fn push(&mut self, added: Added) -> Result<(), OutOfMemory>
        ensures { OnOk result (self.new ≡ spec.plus self.old added) }
    {
        match added {
            Added::File(file) => self.files.push(file)?,
            Added::Dep(DepKind::Requires, dep) => self.requires_.push(dep)?,
            Added::Dep(DepKind::Provides, dep) => self.provides.push(dep)?,
        }
        Ok(())
    }

    /// The component of this id that has it, with no room for more. `Bad` exactly where it doesn't keep the rules of troves.
    pub(crate) fn into_trove(self, alloc: Global, id: TroveId) -> Result<Trove, TextFault>
        ensures ok { IfOk result (λ trove. trove ≡ trove_of id self) }
        ensures is { IfOk result IsTrove }
        ensures bad { IsErrOf result TextFault.Bad → ¬ IsTrove (trove_of id self) }
    {
        let Share {
            mut files,
            mut requires_,
            mut provides,
        } = self;
        files.shrink_to_fit();
        requires_.shrink_to_fit();
        provides.shrink_to_fit();
        Trove::make(
            id,
            Files::new(files),
            Refs::new(Vec::new(alloc)),
            Deps::new(requires_),
            Deps::new(provides),
        )
    }
}

/// The shares of components, by their names.
pub(crate) type Shares = BTreeMap<Name, Share>;

// Takes out the share of this name; nothing where there is none.
fn take_share(alloc: Global, shares: &mut Shares, name: &Name) -> Share
    ensures value { result ≡ unwrap_or (share_at shares.old name.now) no_share }
    ensures rest { Updates (slice_cmp nat_cmp) shares.old shares.new name.now None }
{
    match shares.remove(name) {
        Some(share) => share,
        None => Share::new(alloc),
    }
}

// Adds something to the share of a name.
fn add(alloc: Global, shares: &mut Shares, name: Name, added: Added) -> Result<(), OutOfMemory>
    ensures { OnOk result ((other : List ℕ) → share_at shares.new other ≡ plus_if plus (bytes_eq name other) added (share_at shares.old other)) }
{
    let mut share = take_share(alloc, shares, &name);
    share.push(added)?;
    shares.insert(name, share)?;
    Ok(())
}

// The name of the component of a package to which the entry falls.
fn entry_name(alloc: Global, whole: &Name, file: &FileAt) -> Result<Name, TextFault>
    ensures ok { IfOk result (λ name. name ≡ entry_component whole.now file.now) }
    ensures bad { IsErrOf result TextFault.Bad → is_name (entry_component whole.now file.now) ≡ false }
{
    let mut text = String::from_str(alloc, whole.text())?;
    text.push(':')?;
    text.push_str(component_of(&file.path, file.rec.is_dir()))?;
    Name::read(alloc, text.as_str())
}

// Takes the entries, each to the component to which it falls.
fn take_files(
    alloc: Global,
    shares: &mut Shares,
    whole: &Name,
    files: Vec<FileAt>,
) -> Result<(), TextFault>
    ensures ok { OnOk result ((name : List ℕ) → share_at shares.new name ≡ with_files whole.now name (share_at shares.old name) files.items) }
    ensures bad { IsErrOf result TextFault.Bad → HasBadName (map (entry_component whole.now) files.items) }
{
    for file in files {
        let name = entry_name(alloc, whole, &file)?;
        add(alloc, shares, name, Added::File(file))?;
    }
    Ok(())
}

// Takes what is required, or what is provided.
fn take_deps(
    alloc: Global,
    shares: &mut Shares,
    kind: DepKind,
    lines: Vec<DepLine>,
) -> Result<(), OutOfMemory>
    ensures { OnOk result ((name : List ℕ) → share_at shares.new name ≡ with_deps kind name (share_at shares.old name) lines.items) }
{
    for line in lines {
        let DepLine { name, dep } = line;
        add(alloc, shares, name, Added::Dep(kind, dep))?;
    }
    Ok(())
}

/// The shares of a package's components. `Bad` only where an entry falls to a component whose name is none.
pub(crate) fn shares_of(
    alloc: Global,
    whole: &Name,
    files: Files,
    requires_: DepLines,
    provides: DepLines,
) -> Result<Shares, TextFault>
    ensures ok { IfOk result (λ shares. (name : List ℕ) → share_at shares name ≡ share_of whole.now files requires_ provides name) }
    ensures bad { IsErrOf result TextFault.Bad → HasBadName (map (entry_component whole.now) files) }
{
    let mut shares = BTreeMap::new(alloc);
    take_files(alloc, &mut shares, whole, files.into_vec())?;
    take_deps(alloc, &mut shares, DepKind::Requires, requires_.into_vec())?;
    take_deps(alloc, &mut shares, DepKind::Provides, provides.into_vec())?;
    Ok(shares)
}
