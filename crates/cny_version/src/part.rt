//! Parts of versions.
ghost use Rattle.std.specs.Prelude.{◌≡◌};
ghost use Rattle.cny_version.specs.Version.{last_of};

use crate::label::Label;
use crate::revision::Revision;
use cny_base::{Copies, OutOfMemory, copies_of};
use std::marker::Model;

/// Labels, the first and the shadows of it, and a revision.
pub(crate) struct VersionPart {
    pub first: Label,
    pub shadows: Vec<Label>,
    pub revision: Revision,
}

impl Model for VersionPart {
    ghost use Rattle.cny_version.specs.Label.{LabelParts};
    ghost use Rattle.cny_version.specs.Version.{Part};

    ghost Value = { Part LabelParts };

    ghost view = { λ a. record { first = a.first; shadows = a.shadows.items; revision = a.revision } };
}

// Written by hand, so that to let a value go is a single call wherever a function ends early.
impl Drop for VersionPart {
    fn drop(self) {
        let VersionPart {
            first: _first,
            shadows: _shadows,
            revision: _revision,
        } = self;
    }
}

impl Copies for VersionPart {
    fn copy(&self) -> Result<Self, OutOfMemory> {
        Ok(VersionPart {
            first: self.first.copy()?,
            shadows: copies_of(*self.shadows.allocator(), &self.shadows)?,
            revision: self.revision.copy()?,
        })
    }
}

/// The last of some labels after a first one.
pub(crate) fn last_after<'a>(first: &'a Label, shadows: &'a [Label]) -> &'a Label
    ensures { result.now ≡ last_of first.now shadows.now }
{
    shadows.last().unwrap_or(first)
}
