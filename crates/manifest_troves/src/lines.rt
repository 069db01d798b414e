//! What the lines of a manifest say.
use change_set::cny_base::{ListOf, Name};
use change_set::trove_parts::{FileAt, Files, Refs, TroveId};
use cny_dep::Dep;

/// Whether a dependency is required or provided.
#[derive(Clone, Copy)]
pub enum DepKind {
    Requires,
    Provides,
}

/// What a line adds to a component.
#[derive(Drop)]
pub(crate) enum Added {
    File(FileAt),
    Dep(DepKind, Dep),
}

/// A trove by its name, and what it requires or provides.
#[derive(Drop)]
pub struct DepLine {
    pub name: Name,
    pub dep: Dep,
}

/// A list of such lines.
pub type DepLines = ListOf<DepLine>;

/// What the lines of a manifest say of its component, its package or its group, each list in the order of the lines.
#[derive(Drop)]
pub struct TroveLines {
    pub id: TroveId,
    /// The troves to which a group refers.
    pub refs: Refs,
    /// What a component, or each component of a package, requires of other troves.
    pub requires_: DepLines,
    /// What they provide for others.
    pub provides: DepLines,
    /// The entries of a component, or of all components of a package.
    pub files: Files,
}
