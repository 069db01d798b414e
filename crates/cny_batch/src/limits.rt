//! The limits of a batch.

/// The most lines of a batch.
pub const LINES_LIMIT: usize = 65_536;

/// A line has fewer bytes, its line feed not counted.
pub(crate) const LINE_ROOM: usize = 65_537;
