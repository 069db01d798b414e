// What the reading calls of a disk answer.
ghost use Rattle.std.specs.Prelude.{◌≡◌, ◌-◌, ◌++◌, min, length, take, drop, false, IfOk, IfSome, IfNone};
ghost use Rattle.tree_disk.specs.Rows as rows;

use crate::map::NodeMap;
use tree_disk::Look;
use tree_disk::cny_base::{Bytes, Copies, Node, OutOfMemory, Path};

fn size_of(bytes: &Bytes) -> u64
    ensures { result ≡ length bytes.now }
{
    bytes.get().len() as u64
}

// Copies the bytes from a place on, as far as there is room.
fn fill(bytes: &[u8], at: u64, buf: &mut [u8]) -> usize
    ensures count { result ≡ min (length buf.old) (length bytes.now - at) }
    ensures bytes { buf.new ≡ take result (drop at bytes.now) ++ drop result buf.old }
{
    let len = bytes.len() as u64;
    if at >= len {
        return 0;
    }
    let rest = &bytes[at as usize..];
    let count = rest.len().min(buf.len());
    buf[..count].copy_from_slice(&rest[..count]);
    count
}

impl NodeMap {
    /// What stands at a path, with a file's size.
    pub fn look(&self, path: &Path) -> Result<Look, OutOfMemory>
        ensures { IfOk result (λ look. look ≡ rows.look_of self.now path.now) }
    {
        Ok(match self.node(path.text()) {
            None => Look::Nothing,
            Some(Node::Dir { mode }) => Look::Dir { mode: *mode },
            Some(Node::File { mode, bytes }) => Look::File {
                mode: *mode,
                size: size_of(bytes),
            },
            Some(Node::Link { target }) => Look::Link {
                target: target.copy()?,
            },
        })
    }

    /// Fills a buffer from a place in a file; `None` where no file stands.
    pub fn read_at(&self, path: &Path, at: u64, buf: &mut [u8]) -> Option<usize>
        ensures some { IfSome result (λ count. rows.ReadsFrom self.now path.now at buf.old buf.new count) }
        ensures none { IfNone result (rows.is_file_at self.now path.now ≡ false) }
    {
        let Some(Node::File { bytes, .. }) = self.node(path.text()) else {
            return None;
        };
        Some(fill(bytes.get(), at, buf))
    }
}
