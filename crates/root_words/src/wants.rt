//! What is to stand at a path.
use journal_log::Want;
use line_words::Line;
use tree_memory::cny_base::{Copies, Node, OutOfMemory, Path};

// What is to stand where a node is like this one.
fn want_of(node: &Node) -> Result<Want, OutOfMemory> {
    match node {
        Node::Dir { mode } => Ok(Want::Dir { mode: *mode }),
        Node::File { mode, bytes } => Ok(Want::File {
            mode: *mode,
            bytes: bytes.copy()?,
        }),
        Node::Link { target } => Ok(Want::Link {
            target: target.copy()?,
        }),
    }
}

// What is to stand there. The line notes where no memory was left for that.
fn wanted(line: &mut Line, node: Option<&Node>) -> Option<Want> {
    match node {
        Some(node) => line.kept(want_of(node)),
        None => Some(Want::Nothing),
    }
}

/// The path behind a node, and what is to stand there: the node, or nothing.
pub fn placed_want(line: &mut Line, raw: &str) -> Option<(Path, Want)> {
    let (path, node) = line.placed_of(raw)?;
    let want = wanted(line, node.as_ref())?;
    Some((path, want))
}
