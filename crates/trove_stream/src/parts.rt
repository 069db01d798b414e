//! The parts of troves.
use trove_parts::cny_base::{Copies, OutOfMemory};
use trove_parts::{Deps, Files, Refs, TroveId};

/// What a trove holds, with the rules of troves kept or not.
#[derive(Drop)]
pub struct TroveParts {
    pub id: TroveId,
    /// What it records of its paths.
    pub files: Files,
    /// The troves to which it refers.
    pub refs: Refs,
    /// What it requires of other troves.
    pub requires_: Deps,
    /// What it provides for others.
    pub provides: Deps,
}

impl Copies for TroveParts {
    fn copy(&self) -> Result<Self, OutOfMemory> {
        let id = self.id.copy()?;
        let files = self.files.copy()?;
        let refs = self.refs.copy()?;
        let requires_ = self.requires_.copy()?;
        let provides = self.provides.copy()?;
        Ok(TroveParts {
            id,
            files,
            refs,
            requires_,
            provides,
        })
    }
}
