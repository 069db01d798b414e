//! The formats of the files that store a system.

/// In which format the database and the records of a root are written.
#[derive(Clone, Copy)]
pub enum Format {
    /// Root owns each directory and each file, and no owner is named. It is read, and written no more.
    One,
    /// The owner of each directory and each file is named.
    Two,
}
