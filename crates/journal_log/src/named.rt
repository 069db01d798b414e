//! The paths that a log can name.
ghost use Rattle.std.specs.Prelude.{◌≡◌, ◌↔◌, ◌++◌, ◌<◌, false, IsTrue, IfSome, IfNone};
ghost use Rattle.tree_disk.specs.cny-base.Below.{begins_with};
ghost use Rattle.tree_disk.specs.cny-base.Path.{is_path};
ghost use Rattle.tree_disk.specs.Clear as clear;
ghost use Rattle.journal_log.specs.Own as own;
ghost use Rattle.journal_log.specs.WriteSet.{CanBeNamed};
ghost use Rattle.journal_log.specs.Joined.{front_of};

use tree_disk::cny_base::Path;

/// Whether a log in the private directory `base` can name a path: it is neither `/`, the directory
/// itself nor one of the journal's own files there. Takes no memory.
pub fn can_be_named(base: &Path, path: &Path) -> bool
    ensures named { IsTrue result ↔ CanBeNamed base.now path.now }
    ensures path { IsTrue (is_path path.now) }
{
    let (dir, text) = (base.text(), path.text());
    let is_root = text == "/";
    let is_base = text == dir;
    if is_root || is_base {
        return false;
    }
    !is_own_file(dir.as_bytes(), text.as_bytes())
}

// What follows a front of the bytes.
fn after<'a>(front: &[u8], bytes: &'a [u8]) -> Option<&'a [u8]>
    ensures some { IfSome result (λ rest. bytes.now ≡ front.now ++ rest.now) }
    ensures none { IfNone result (begins_with front.now bytes.now ≡ false) }
{
    bytes.strip_prefix(front)
}

// What follows a directory and the slash behind it.
fn inside<'a>(dir: &[u8], path: &'a [u8]) -> Option<&'a [u8]>
    ensures some { IfSome result (λ rest. path.now ≡ front_of dir.now ++ rest.now) }
    ensures none { IfNone result (begins_with (front_of dir.now) path.now ≡ false) }
{
    let rest = after(dir, path)?;
    if dir.len() == 1 {
        return Some(rest);
    }
    after(b"/", rest)
}

// Whether a path is this one or lies below it.
fn is_within(name: &[u8], path: &[u8]) -> bool
    ensures { result ≡ clear.is_within name.now path.now }
{
    let Some(rest) = after(name, path) else {
        return false;
    };
    match rest.first() {
        None => true,
        Some(byte) => *byte == b'/',
    }
}

// Whether a path is that of one of the journal's own files, or lies below one.
fn is_own_file(base: &[u8], path: &[u8]) -> bool
    ensures { result ≡ own.is_own_file base.now path.now }
{
    let Some(rest) = inside(base, path) else {
        return false;
    };
    let gate = is_within(b"gate", rest);
    let log = is_within(b"log", rest);
    let work = is_within(b"w", rest);
    if gate || log || work {
        return true;
    }
    is_within(b"p", rest)
}
