//! What a database tells.
use trove_stream::Installed;
use trove_stream::cny_base::{Copies, OutOfMemory};

/// What the database of a root tells: the installed troves, and the numbers of the oldest and of the newest job of its stack.
/// Where there is no job both are 0.
#[derive(Drop)]
pub struct Db {
    pub installed: Installed,
    pub oldest: u32,
    pub newest: u32,
}

impl Copies for Db {
    fn copy(&self) -> Result<Self, OutOfMemory> {
        Ok(Db {
            installed: self.installed.copy()?,
            oldest: self.oldest,
            newest: self.newest,
        })
    }
}
