//! The nodes of a tree.
use crate::bytes::Bytes;
use crate::list::Copies;
use crate::mode::Mode;
use crate::target::Target;
use crate::text::OutOfMemory;

/// What stands at a path.
pub enum Node {
    /// A directory.
    Dir { mode: Mode },
    /// A regular file with its contents.
    File { mode: Mode, bytes: Bytes },
    /// A symbolic link, which has no mode.
    Link { target: Target },
}

// Written by hand, so that to let a node go is a single call wherever a function ends early.
impl Drop for Node {
    fn drop(self) {
        match self {
            Node::Dir { mode: _ } => {}
            Node::File {
                mode: _,
                bytes: _bytes,
            } => {}
            Node::Link { target: _target } => {}
        }
    }
}

impl Copies for Node {
    fn copy(&self) -> Result<Self, OutOfMemory> {
        Ok(match self {
            Node::Dir { mode } => Node::Dir { mode: *mode },
            Node::File { mode, bytes } => Node::File {
                mode: *mode,
                bytes: bytes.copy()?,
            },
            Node::Link { target } => Node::Link {
                target: target.copy()?,
            },
        })
    }
}
