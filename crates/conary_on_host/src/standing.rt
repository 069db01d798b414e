//! What stands below a directory of the host.
use std::collections::BTreeMap;
use std::fs::{self, Files};
use std::io;
use std::os::unix::fs::{PermissionsExt, symlink};

/// The bits of a mode that say who may do what.
pub(crate) const PERMISSION_BITS: u32 = 0o7777;

/// The kind, the mode, and the bytes or the target of what stands at each path below a directory.
pub type Standing = BTreeMap<String, Vec<u8>>;

// A name below a directory.
fn join(rt: &HostRuntime, dir: &str, name: &str) -> io::Result<String> {
    let mut place = String::from_str(rt.alloc(), dir)?;
    place.push('/')?;
    place.push_str(name)?;
    Ok(place)
}

// The place of a path below a directory, which is "" for the directory itself.
fn place_of(rt: &HostRuntime, dir: &str, path: &str) -> io::Result<String> {
    let mut place = String::from_str(rt.alloc(), dir)?;
    place.push_str(path)?;
    Ok(place)
}

// Adds the paths of what stands in a directory.
fn add_children(
    rt: &HostRuntime,
    place: &str,
    path: &str,
    paths: &mut Vec<String>,
) -> io::Result<()> {
    if !fs::symlink_metadata(rt, place)?.is_dir() {
        return Ok(());
    }
    for entry in fs::read_dir(rt, place)? {
        let entry = entry?;
        paths.push(join(rt, path, entry.file_name())?)?;
    }
    Ok(())
}

// Adds the paths of what stands in the directory at a path, if it is one.
fn add_below(rt: &HostRuntime, dir: &str, path: &str, paths: &mut Vec<String>) -> io::Result<()> {
    let place = place_of(rt, dir, path)?;
    add_children(rt, place.as_str(), path, paths)
}

// The paths of all that stands below a directory, each directory before what is in it.
fn paths_below(rt: &HostRuntime, dir: &str) -> io::Result<Vec<String>> {
    let mut paths = Vec::new(rt.alloc());
    paths.push(String::new(rt.alloc()))?;
    for at in 0..usize::MAX {
        let Some(path) = paths.get(at) else {
            break;
        };
        let path = String::from_str(rt.alloc(), path.as_str())?;
        add_below(rt, dir, path.as_str(), &mut paths)?;
    }
    Ok(paths)
}

fn add_link(rt: &HostRuntime, place: &str, node: &mut Vec<u8>) -> io::Result<()> {
    node.push(b'l')?;
    let target = rt.read_link(rt.alloc(), place)?;
    node.extend_from_slice(target.as_str().as_bytes())?;
    Ok(())
}

fn add_bytes(rt: &HostRuntime, place: &str, node: &mut Vec<u8>) -> io::Result<()> {
    node.push(b'f')?;
    let bytes = fs::read(rt, place)?;
    node.extend_from_slice(bytes.as_slice())?;
    Ok(())
}

fn add_node(rt: &HostRuntime, place: &str, node: &mut Vec<u8>) -> io::Result<()> {
    let metadata = fs::symlink_metadata(rt, place)?;
    if metadata.is_symlink() {
        return add_link(rt, place, node);
    }
    let mode = metadata.permissions().mode() & PERMISSION_BITS;
    node.extend_from_slice(&mode.to_be_bytes())?;
    if metadata.is_file() {
        return add_bytes(rt, place, node);
    }
    Ok(())
}

// What stands at a path below a directory.
fn node_at(rt: &HostRuntime, dir: &str, path: &str) -> io::Result<Vec<u8>> {
    let mut node = Vec::new(rt.alloc());
    let place = place_of(rt, dir, path)?;
    add_node(rt, place.as_str(), &mut node)?;
    Ok(node)
}

fn add_standing(rt: &HostRuntime, dir: &str, path: &str, found: &mut Standing) -> io::Result<()> {
    let node = node_at(rt, dir, path)?;
    found.insert(String::from_str(rt.alloc(), path)?, node)?;
    Ok(())
}

/// What stands below a directory.
pub fn standing_in(rt: &HostRuntime, dir: &str) -> io::Result<Standing> {
    let mut found = Standing::new(rt.alloc());
    let paths = paths_below(rt, dir)?;
    for path in &paths {
        add_standing(rt, dir, path.as_str(), &mut found)?;
    }
    Ok(found)
}

fn copy_node(rt: &HostRuntime, from: &str, to: &str) -> io::Result<()> {
    let metadata = fs::symlink_metadata(rt, from)?;
    if metadata.is_symlink() {
        let target = rt.read_link(rt.alloc(), from)?;
        return symlink(rt, target.as_str(), to);
    }
    if metadata.is_dir() {
        fs::create_dir(rt, to)?;
    } else {
        fs::copy(rt, from, to)?;
    }
    fs::set_permissions(rt, to, metadata.permissions())
}

// Copies what stands at a path below a directory, without what is in it.
fn copy_path(rt: &HostRuntime, from: &str, to: &str, path: &str) -> io::Result<()> {
    let old = place_of(rt, from, path)?;
    let new = place_of(rt, to, path)?;
    copy_node(rt, old.as_str(), new.as_str())
}

/// Copies a directory with all below it to another name, in place of what stands there.
pub fn copy_all(rt: &HostRuntime, from: &str, to: &str) -> io::Result<()> {
    if fs::exists(rt, to)? {
        fs::remove_dir_all(rt, to)?;
    }
    let paths = paths_below(rt, from)?;
    for path in &paths {
        copy_path(rt, from, to, path.as_str())?;
    }
    Ok(())
}

// The first name of a path behind this directory.
fn name_in<'a>(path: &'a str, dir: &str) -> Option<&'a str> {
    let rest = path.strip_prefix(dir)?;
    if rest.is_empty() {
        return Some("");
    }
    let rest = rest.strip_prefix("/")?;
    match rest.split_once('/') {
        Some((name, _)) => Some(name),
        None => Some(rest),
    }
}

// The name of a path in one of the two private directories, which is "" for the directory itself.
fn private_name(path: &str) -> Option<&str> {
    match name_in(path, "/root/var/lib/conarydb") {
        Some(name) => Some(name),
        None => name_in(path, "/repo/conaryrepo"),
    }
}

/// Whether a path, here without its first slash, is one that is only cleared and written anew: a staged file, the work name, or
/// a content that may be left.
pub(crate) fn is_cleared(path: &str) -> bool {
    let name = match name_in(path, "root/var/lib/conarydb") {
        Some(name) => name,
        None => name_in(path, "repo/conaryrepo").unwrap_or(""),
    };
    matches!(name, "w" | "p" | "c") || name.starts_with("s.")
}

// Whether a path is a private directory, or one of the journal's own names in it, or below it.
fn is_own(path: &str) -> bool {
    matches!(private_name(path), Some("" | "gate" | "log" | "w" | "p"))
}

// Whether a path may be left by a job or a commit that never came to be: a content that was saved or brought, or its directory.
fn may_be_left(path: &str) -> bool {
    match private_name(path) {
        Some(name) => name == "c" || name.starts_with("s."),
        None => false,
    }
}

// The number of the job of which a private name holds the record or the saved contents.
fn number_of<'a>(path: &'a str, kind: &str) -> Option<&'a str> {
    private_name(path)?.strip_prefix(kind)
}

fn has_record(standing: &Standing, number: &str) -> bool {
    for path in standing.keys() {
        if number_of(path.as_str(), "r.") == Some(number) {
            return true;
        }
    }
    false
}

// Whether what stands at a path counts: it is none of the journal's own names, and no content that was saved for a job that was
// taken back.
fn counts(standing: &Standing, path: &str) -> bool {
    match number_of(path, "s.") {
        Some(number) => has_record(standing, number),
        None => !is_own(path),
    }
}

// Whether all of one that counts stands in the other in the same way.
fn holds_all(found: &Standing, wanted: &Standing) -> bool {
    for (path, node) in wanted.iter() {
        if counts(wanted, path.as_str()) && found.get(path.as_str()) != Some(node) {
            return false;
        }
    }
    true
}

/// Whether what was found is what is wanted, and beside it only what may be left.
pub fn agrees(found: &Standing, wanted: &Standing) -> bool {
    for path in found.keys() {
        let path = path.as_str();
        if !is_own(path) && !may_be_left(path) && wanted.get(path).is_none() {
            return false;
        }
    }
    holds_all(found, wanted)
}
