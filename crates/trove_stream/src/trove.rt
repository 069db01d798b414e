//! Troves.
ghost use Rattle.std.specs.Prelude.{◌≡◌, ◌↔◌, IfOk, IfErr, IsErrOf};
ghost use Rattle.trove_stream.specs.Trove.{HasLists, IsTrove};

use crate::parts::TroveParts;
use crate::rules::{has_lists, keeps_rules};
use cny_dep::Dep;
use std::marker::Model;
use trove_parts::cny_base::{Copies, OutOfMemory, TextFault};
use trove_parts::{Deps, FileAt, Files, Refs, TroveId};

/// A version of a component, of a package or of a group. A component holds files, and what it requires and provides; a
/// package refers to its components of the same version and flavor, a group to other troves. A component `NAME:source` has
/// no build count, every other trove has one.
pub struct Trove {
    parts: TroveParts,
}

// Written by hand, so that to let a value go is a single call.
impl Drop for Trove {
    fn drop(self) {
        let Trove { parts: _parts } = self;
    }
}

impl Model for Trove {
    ghost use Rattle.trove_stream.specs.declared.parts.TroveParts.{TroveParts};
    ghost use Rattle.trove_stream.specs.Trove.{IsTrove};

    ghost Value = { TroveParts };

    ghost view = { λ a. a.parts };

    ghost invariant = { λ a. IsTrove a.parts };
}

impl Trove {
    /// The trove of these parts. `Bad` exactly where they don't keep the rules of troves: the order and the limits of
    /// their lists, the greatest size of a file, what a trove of its kind holds, and whether it has a build count. Takes
    /// no memory.
    pub fn make(
        id: TroveId,
        files: Files,
        refs: Refs,
        requires_: Deps,
        provides: Deps,
    ) -> Result<Self, TextFault>
        ensures value { IfOk result (λ trove.
            trove ≡ record { id = id; files = files; refs = refs; requires_ = requires_; provides = provides }) }
        ensures ok { IfOk result IsTrove }
        ensures bad { IsErrOf result TextFault.Bad
            ↔ ¬ IsTrove (record { id = id; files = files; refs = refs; requires_ = requires_; provides = provides }) }
        ensures fault { IfErr result (λ fault. fault ≡ TextFault.Bad) }
    {
        let parts = TroveParts {
            id,
            files,
            refs,
            requires_,
            provides,
        };
        if !has_lists(&parts) {
            return Err(TextFault::Bad);
        }
        Trove::of_parts(parts)
    }

    // The trove of these parts, whose lists are in order. `Bad` exactly where they are those of none.
    pub(crate) fn of_parts(parts: TroveParts) -> Result<Self, TextFault>
        requires { HasLists parts }
        ensures value { IfOk result (λ trove. trove ≡ parts) }
        ensures ok { IfOk result IsTrove }
        ensures bad { IsErrOf result TextFault.Bad ↔ ¬ IsTrove parts }
        ensures fault { IfErr result (λ fault. fault ≡ TextFault.Bad) }
    {
        if !keeps_rules(&parts) {
            return Err(TextFault::Bad);
        }
        Ok(Trove { parts })
    }

    /// The trove of these parts, which are those of one. Takes no memory.
    pub fn from_parts(parts: TroveParts) -> Self
        requires { IsTrove parts }
        ensures { result ≡ parts }
    {
        Trove { parts }
    }

    /// Which trove it is.
    pub fn id(&self) -> &TroveId
        ensures value { result.now ≡ self.now.id }
        ensures trove { IsTrove self.now }
    {
        &self.parts.id
    }

    /// What it records of its paths, in path order.
    pub fn files(&self) -> &[FileAt]
        ensures value { result.now ≡ self.now.files }
        ensures trove { IsTrove self.now }
    {
        self.parts.files.get()
    }

    /// The troves to which it refers, in the order of ids.
    pub fn refs(&self) -> &[TroveId]
        ensures value { result.now ≡ self.now.refs }
        ensures trove { IsTrove self.now }
    {
        self.parts.refs.get()
    }

    /// What it requires of other troves, in the order of the texts.
    pub fn requires_(&self) -> &[Dep]
        ensures value { result.now ≡ self.now.requires_ }
        ensures trove { IsTrove self.now }
    {
        self.parts.requires_.get()
    }

    /// What it provides for others, in the order of the texts.
    pub fn provides(&self) -> &[Dep]
        ensures value { result.now ≡ self.now.provides }
        ensures trove { IsTrove self.now }
    {
        self.parts.provides.get()
    }

    /// Its parts; takes no memory.
    pub fn into_parts(self) -> TroveParts
        ensures value { result ≡ self }
        ensures trove { IsTrove result }
    {
        let Trove { parts } = self;
        parts
    }
}

impl Copies for Trove {
    fn copy(&self) -> Result<Self, OutOfMemory> {
        Ok(Trove {
            parts: self.parts.copy()?,
        })
    }
}
