//! What a manifest makes.
use manifest_troves::Troves;
use manifest_troves::change_set::CarriedList;
use manifest_troves::cny_base::{Copies, OutOfMemory};

/// What a manifest makes: its troves, and the contents of their files.
#[derive(Drop)]
pub struct Made {
    /// By strictly rising names.
    pub troves: Troves,
    /// By strictly rising names, which are the SHA-1 of the bytes.
    pub contents: CarriedList,
}

impl Copies for Made {
    fn copy(&self) -> Result<Self, OutOfMemory> {
        Ok(Made {
            troves: self.troves.copy()?,
            contents: self.contents.copy()?,
        })
    }
}
