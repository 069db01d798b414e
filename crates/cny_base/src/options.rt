//! The options of a job.

/// What a job may do at paths at which it would otherwise be refused.
#[derive(Clone, Copy)]
pub struct Options {
    /// Replace what stands there.
    pub replace: bool,
    /// Keep an edited configuration file.
    pub keep: bool,
}
