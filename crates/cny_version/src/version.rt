//! Versions.
ghost use Rattle.std.specs.Prelude.{◌≡◌, ◌≤◌, ◌<◌, ◌↔◌, length, IfOk, IfErr, IsErrOf, IsTrue};
ghost use Rattle.std.specs.Cmp.{partial_equiv_from_equiv, on_equiv};
ghost use Rattle.std.specs.Cmp.Lexicographic.{nat_list_eq_equiv};
ghost use Rattle.std.specs.Str.{bytes_eq};
ghost use Rattle.cny_base.specs.declared.refusal.Fault.TheVariants as fault;
ghost use Rattle.cny_base.specs.declared.refusal.Refusal.TheVariants as refusal;
ghost use Rattle.cny_base.specs.declared.refusal.What.TheVariants as what;
ghost use Rattle.cny_base.specs.declared.limits.TheConstants.{VERSION_LIMIT};
ghost use Rattle.cny_version.specs.Label.{LabelParts, label_text, is_label};
ghost use Rattle.cny_version.specs.Revision.{is_revision};
ghost use Rattle.cny_version.specs.Version.{WholeVersion, branch_text, version_text, last_label, depth, IsVersion, IsVersionText};
ghost use Rattle.cny_version.specs.Filled.{AbbreviatedVersion, filled, abbreviated_text, IsAbbreviationOf, IsAbbreviatedText};
ghost use Rattle.cny_version.specs.Made.{shadow_onto, branch_onto, with_revision};
ghost use Rattle.cny_version.specs.Reading.{Reads, version_found};
ghost use Rattle.cny_version.specs.TooLarge.{TooLargeOrMemory};

use crate::branch::Branch;
use crate::label::Label;
use crate::read::read_parts;
use crate::revision::{Revision, push_revision, revision_len};
use crate::scan::is_version;
use cny_base::{Copies, Fault, OutOfMemory, Refusal, TextFault, VERSION_LIMIT, What};
use std::alloc::Global;
use std::marker::Model;

/// A version: where a trove was made and which one it is there. Its text has at most 512 bytes.
pub struct Version {
    branch: Branch,
    revision: Revision,
    text: String,
}

impl Model for Version {
    ghost use Rattle.std.specs.Prelude.{◌≡◌, string_bytes};
    ghost use Rattle.cny_version.specs.Version.{WholeVersion, version_text, IsVersion};

    ghost Value = { WholeVersion };

    ghost view = { λ a. record { branch = a.branch; revision = a.revision } };

    ghost invariant = { λ a.
        let parts : WholeVersion = record { branch = a.branch; revision = a.revision } in
        (string_bytes a.text ≡ version_text parts) × IsVersion parts };
}

// Written by hand, so that to let a value go is a single call wherever a function ends early.
impl Drop for Version {
    fn drop(self) {
        let Version {
            branch: _branch,
            revision: _revision,
            text: _text,
        } = self;
    }
}

impl Version {
    /// The version with this text, in which a label after the first may leave out its host, or
    /// its host and namespace, where they are those of the label before it. `Bad` exactly where
    /// the text, filled up, isn't that of a version.
    pub fn read(alloc: Global, text: &str) -> Result<Self, TextFault>
        ensures value { IfOk result (λ version. IsAbbreviationOf version text.now) }
        ensures ok { IfOk result IsVersion }
        ensures only { (version : AbbreviatedVersion) → IsVersion (filled version) → text.now ≡ abbreviated_text version → IfOk result (λ read. read ≡ filled version) }
        ensures bad { IsErrOf result TextFault.Bad ↔ ¬ IsAbbreviatedText text.now }
        // A version's own text, with whole labels, is read as that version.
        ensures whole { (version : WholeVersion) → IsVersion version → text.now ≡ version_text version
            → IfOk result (λ read. read ≡ version) × ¬ IsErrOf result TextFault.Bad }
    {
        Version::found(alloc, false, text)
    }

    /// The version with this text, with whole labels. `Bad` exactly where the text isn't that of
    /// a version.
    pub fn read_whole(alloc: Global, text: &str) -> Result<Self, TextFault>
        ensures value { IfOk result (λ version. text.now ≡ version_text version) }
        ensures ok { IfOk result IsVersion }
        ensures only { (version : WholeVersion) → IsVersion version → text.now ≡ version_text version → IfOk result (λ read. read ≡ version) }
        ensures bad { IsErrOf result TextFault.Bad ↔ ¬ IsVersionText text.now }
    {
        Version::found(alloc, true, text)
    }

    /// Whether the text is that of a version, with whole labels; takes no memory.
    pub fn is_whole(text: &str) -> bool
        ensures { IsTrue result ↔ IsVersionText text.now }
    {
        is_version(true, text)
    }

    // What the readers answer, as what is found in the text.
    fn found(alloc: Global, whole: bool, text: &str) -> Result<Self, TextFault>
        ensures { Reads result (version_found whole text.now) }
    {
        if !is_version(whole, text) {
            return Err(TextFault::Bad);
        }
        read_parts(alloc, whole, text)
    }

    /// The version with this revision on a branch.
    pub(crate) fn on(alloc: Global, branch: Branch, revision: Revision) -> Result<Self, OutOfMemory>
        requires fits { IsTrue (is_revision (depth branch) revision) }
        requires short { length (version_text (record { branch = branch; revision = revision })) ≤ 512 }
        ensures { IfOk result (λ version. version ≡ record { branch = branch; revision = revision }) }
    {
        let mut text = String::from_str(alloc, branch.text())?;
        text.push('/')?;
        push_revision(&mut text, &revision)?;
        Ok(Version {
            branch,
            revision,
            text,
        })
    }

    /// The text of the version, with whole labels.
    pub fn text(&self) -> &str
        ensures value { result.now ≡ version_text self.now }
        ensures version { IsVersion self.now }
    {
        self.text.as_str()
    }

    /// The text of the branch: that of the version without its last revision and the `/` before it.
    pub fn branch(&self) -> &str
        ensures { result.now ≡ branch_text self.now.branch }
    {
        self.branch.text()
    }

    /// The last label.
    pub fn label(&self) -> &Label
        ensures { result.now ≡ last_label self.now.branch }
    {
        self.branch.label()
    }

    /// The last revision.
    pub fn revision(&self) -> &Revision
        ensures value { result.now ≡ self.now.revision }
        ensures fits { IsTrue (is_revision (depth self.now.branch) result.now) }
    {
        &self.revision
    }

    /// The depth of the last revision: how many shadows there are before it.
    pub fn depth(&self) -> u32
        ensures depth { result ≡ depth self.now.branch }
        ensures small { result ≤ 512 }
    {
        self.branch.depth()
    }

    /// The shadow of this version on a label: its branch, `//` and the label, and its revision.
    /// `TooLarge` exactly where that has more than 512 bytes; the size is their number.
    pub fn shadow_onto(&self, alloc: Global, label: &Label) -> Result<Self, Fault>
        ensures value { IfOk result (λ version. version ≡ shadow_onto self.now label.now) }
        ensures too_large { let size = length (version_text (shadow_onto self.now label.now)) in
            IsErrOf result (fault.Refused (refusal.TooLarge what.Version size)) ↔ (VERSION_LIMIT < size) }
        ensures fault { IfErr result (TooLargeOrMemory what.Version (length (version_text (shadow_onto self.now label.now)))) }
    {
        let size = self.text.len() + 2 + label.text().len();
        if size > VERSION_LIMIT {
            return Err(too_large(size));
        }
        Ok(self.shadow(alloc, label)?)
    }

    // The shadow on a label, which isn't too large.
    fn shadow(&self, alloc: Global, label: &Label) -> Result<Self, OutOfMemory>
        requires { length (version_text (shadow_onto self.now label.now)) ≤ 512 }
        ensures { IfOk result (λ version. version ≡ shadow_onto self.now label.now) }
    {
        let revision = self.revision.copy()?;
        let label = label.copy()?;
        let branch = self.branch.copy()?.shadow(label)?;
        Version::on(alloc, branch, revision)
    }

    /// The branch of this version onto a label: the version, `/` and the label, and its revision
    /// again. `TooLarge` exactly where that has more than 512 bytes; the size is their number.
    pub fn branch_onto(&self, alloc: Global, label: &Label) -> Result<Self, Fault>
        ensures value { IfOk result (λ version. version ≡ branch_onto self.now label.now) }
        ensures too_large { let size = length (version_text (branch_onto self.now label.now)) in
            IsErrOf result (fault.Refused (refusal.TooLarge what.Version size)) ↔ (VERSION_LIMIT < size) }
        ensures fault { IfErr result (TooLargeOrMemory what.Version (length (version_text (branch_onto self.now label.now)))) }
    {
        let revision_size = self.text.len() - self.branch.text().len();
        let size = self.text.len() + 1 + label.text().len() + revision_size;
        if size > VERSION_LIMIT {
            return Err(too_large(size));
        }
        Ok(self.leave(alloc, label)?)
    }

    // The branch onto a label, which isn't too large.
    fn leave(&self, alloc: Global, label: &Label) -> Result<Self, OutOfMemory>
        requires { length (version_text (branch_onto self.now label.now)) ≤ 512 }
        ensures { IfOk result (λ version. version ≡ branch_onto self.now label.now) }
    {
        let revision = self.revision.copy()?;
        let branch_revision = self.revision.copy()?;
        let label = label.copy()?;
        let branch = self.branch.copy()?.leave(alloc, branch_revision, label)?;
        Version::on(alloc, branch, revision)
    }

    /// The version on the same branch with another revision, which fits the depth. `TooLarge`
    /// exactly where that has more than 512 bytes; the size is their number.
    pub fn with_revision(&self, alloc: Global, revision: &Revision) -> Result<Self, Fault>
        requires { IsTrue (is_revision (depth self.now.branch) revision.now) }
        ensures value { IfOk result (λ version. version ≡ with_revision self.now revision.now) }
        ensures too_large { let size = length (version_text (with_revision self.now revision.now)) in
            IsErrOf result (fault.Refused (refusal.TooLarge what.Version size)) ↔ (VERSION_LIMIT < size) }
        ensures fault { IfErr result (TooLargeOrMemory what.Version (length (version_text (with_revision self.now revision.now)))) }
    {
        let size = self.branch.text().len() + 1 + revision_len(revision, self.branch.depth());
        if size > VERSION_LIMIT {
            return Err(too_large(size));
        }
        Ok(self.revised(alloc, revision)?)
    }

    // The version with another revision, which isn't too large.
    fn revised(&self, alloc: Global, revision: &Revision) -> Result<Self, OutOfMemory>
        requires fits { IsTrue (is_revision (depth self.now.branch) revision.now) }
        requires short { length (version_text (with_revision self.now revision.now)) ≤ 512 }
        ensures { IfOk result (λ version. version ≡ with_revision self.now revision.now) }
    {
        let revision = revision.copy()?;
        Version::on(alloc, self.branch.copy()?, revision)
    }

    /// An equal version.
    pub fn copy(&self) -> Result<Self, OutOfMemory>
        ensures { IfOk result (λ made. made ≡ self.now) }
    {
        Ok(Version {
            branch: self.branch.copy()?,
            revision: self.revision.copy()?,
            text: self.text.clone()?,
        })
    }
}

// Versions are equal where their texts are, and so where all their parts are (`distinct_texts`).
impl PartialEq for Version {
    ghost eq = { λ v w. bytes_eq (version_text v) (version_text w) };

    ghost laws = { partial_equiv_from_equiv (on_equiv version_text nat_list_eq_equiv) };

    fn eq(&self, other: &Version) -> bool {
        self.text.as_str() == other.text.as_str()
    }
}

impl Eq for Version {
    ghost laws = { on_equiv version_text nat_list_eq_equiv };
}

/// No two versions have one text, and no two labels.
pub fn distinct_texts()
    ensures versions { (v w : WholeVersion) → IsVersion v → IsVersion w → version_text v ≡ version_text w → v ≡ w }
    ensures labels { (l m : LabelParts) → IsTrue (is_label l) → IsTrue (is_label m) → label_text l ≡ label_text m → l ≡ m }
{}

// A version would have so many bytes.
fn too_large(size: usize) -> Fault
    ensures { result ≡ fault.Refused (refusal.TooLarge what.Version size) }
{
    Fault::Refused(Refusal::TooLarge {
        what: What::Version,
        size: size as u64,
    })
}
