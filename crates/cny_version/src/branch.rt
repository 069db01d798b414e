//! Branches: versions without their last revision.
ghost use Rattle.std.specs.Prelude.{◌≡◌, ◌≤◌, length, IfOk, IsTrue};
ghost use Rattle.cny_version.specs.Revision.{is_revision};
ghost use Rattle.cny_version.specs.Version.{WholeBranch, branch_text, last_label, depth, IsBranch};
ghost use Rattle.cny_version.specs.Made.{shadowed, branched};
ghost use Rattle.cny_version.specs.Reading.{branch_at};

use crate::label::Label;
use crate::part::{VersionPart, last_after};
use crate::revision::{Revision, push_revision};
use cny_base::{Copies, OutOfMemory, copies_of};
use std::alloc::Global;
use std::marker::Model;

/// The parts of a version before the last one, and the labels of the last one.
pub(crate) struct Branch {
    before: Vec<VersionPart>,
    first: Label,
    shadows: Vec<Label>,
    // How many shadows there are in all.
    depth: u32,
    text: String,
}

impl Model for Branch {
    ghost use Rattle.std.specs.Prelude.{◌≡◌, ◌≤◌, length, string_bytes};
    ghost use Rattle.cny_version.specs.Version.{WholeBranch, branch_text, depth, IsBranch};
    ghost use Rattle.cny_version.specs.Kept.{IsBranchWith};

    ghost Value = { WholeBranch };

    ghost view = { λ a. record { before = a.before.items; first = a.first; shadows = a.shadows.items } };

    ghost invariant = { λ a.
        let parts : WholeBranch = record { before = a.before.items; first = a.first; shadows = a.shadows.items } in
        IsBranchWith parts a.depth (string_bytes a.text) };
}

// Written by hand, so that to let a value go is a single call wherever a function ends early.
impl Drop for Branch {
    fn drop(self) {
        let Branch {
            before: _before,
            first: _first,
            shadows: _shadows,
            depth: _depth,
            text: _text,
        } = self;
    }
}

impl Branch {
    /// The branch that is a label alone.
    pub fn at(alloc: Global, label: Label) -> Result<Self, OutOfMemory>
        ensures { IfOk result (λ branch. branch ≡ branch_at label) }
    {
        let mut text = String::from_str(alloc, "/")?;
        text.push_str(label.text())?;
        Ok(Branch {
            before: Vec::new(alloc),
            first: label,
            shadows: Vec::new(alloc),
            depth: 0,
            text,
        })
    }

    /// The text of the branch.
    pub fn text(&self) -> &str
        ensures value { result.now ≡ branch_text self.now }
        ensures branch { IsBranch self.now }
        ensures short { length result.now ≤ 512 }
    {
        self.text.as_str()
    }

    /// How many shadows there are from the front.
    pub fn depth(&self) -> u32
        ensures depth { result ≡ depth self.now }
        ensures small { result ≤ 512 }
    {
        self.depth
    }

    /// The last label.
    pub fn label(&self) -> &Label
        ensures { result.now ≡ last_label self.now }
    {
        last_after(&self.first, &self.shadows)
    }

    /// The branch with one more shadow.
    pub fn shadow(self, label: Label) -> Result<Self, OutOfMemory>
        requires { length (branch_text (shadowed self label)) ≤ 512 }
        ensures { IfOk result (λ branch. branch ≡ shadowed self label) }
    {
        let Branch {
            before,
            first,
            mut shadows,
            depth,
            mut text,
        } = self;
        text.push_str("//")?;
        text.push_str(label.text())?;
        shadows.push(label)?;
        Ok(Branch {
            before,
            first,
            shadows,
            depth: depth + 1,
            text,
        })
    }

    /// The branch onto a label that leaves from this revision of the branch.
    pub fn leave(self, alloc: Global, revision: Revision, label: Label) -> Result<Self, OutOfMemory>
        requires fits { IsTrue (is_revision (depth self) revision) }
        requires short { length (branch_text (branched self revision label)) ≤ 512 }
        ensures { IfOk result (λ branch. branch ≡ branched self revision label) }
    {
        let Branch {
            mut before,
            first,
            shadows,
            depth,
            mut text,
        } = self;
        text.push('/')?;
        push_revision(&mut text, &revision)?;
        text.push('/')?;
        text.push_str(label.text())?;
        before.push(VersionPart {
            first,
            shadows,
            revision,
        })?;
        Ok(Branch {
            before,
            first: label,
            shadows: Vec::new(alloc),
            depth,
            text,
        })
    }

    /// An equal branch.
    pub fn copy(&self) -> Result<Self, OutOfMemory>
        ensures { IfOk result (λ made. made ≡ self.now) }
    {
        Ok(Branch {
            before: copies_of(*self.before.allocator(), &self.before)?,
            first: self.first.copy()?,
            shadows: copies_of(*self.shadows.allocator(), &self.shadows)?,
            depth: self.depth,
            text: self.text.clone()?,
        })
    }
}
