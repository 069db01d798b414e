//! What stands in a tree.
use line_words::{Answer, Stop};
use std::alloc::Global;
use tree_memory::MemoryTree;
use tree_memory::cny_base::{Copies, Path};
use tree_memory::tree_disk::{DiskStop, TreeDisk};

// More nodes than any of the trees has.
const MANY: usize = 1000;

// The paths of what stands directly below a path.
fn push_children(
    alloc: Global,
    tree: &mut MemoryTree,
    paths: &mut Vec<Path>,
    path: &Path,
) -> Result<(), Stop> {
    let names = match tree.list(alloc, path) {
        Ok(names) => names,
        Err(DiskStop::Refused) => return Ok(()),
        Err(_) => return Err(Stop::Memory),
    };
    for name in names.get() {
        paths.push(path.join(alloc, name.get())?)?;
    }
    Ok(())
}

fn path_at(paths: &[Path], place: usize) -> Result<Option<Path>, Stop> {
    match paths.get(place) {
        Some(path) => Ok(Some(path.copy()?)),
        None => Ok(None),
    }
}

// Appends the paths below those that are there, then the paths below these, and so on.
fn push_below(alloc: Global, tree: &mut MemoryTree, paths: &mut Vec<Path>) -> Result<(), Stop> {
    for place in 0..MANY {
        match path_at(paths, place)? {
            Some(path) => push_children(alloc, tree, paths, &path)?,
            None => return Ok(()),
        }
    }
    Err(Stop::Unreadable)
}

fn paths_in(alloc: Global, tree: &mut MemoryTree) -> Result<Vec<Path>, Stop> {
    let mut paths = vec![in alloc; Path::read(alloc, "/")?]?;
    push_below(alloc, tree, &mut paths)?;
    Ok(paths)
}

/// All paths at which something stands: `/`, those directly below it, those directly below these, and so on.
pub fn paths_of(alloc: Global, tree: &MemoryTree) -> Result<Vec<Path>, Stop> {
    let mut copy = tree.crash(alloc, 0)?;
    paths_in(alloc, &mut copy)
}

// Tells what stands at one of the paths of a tree, with a semicolon before it.
fn told_path(tree: &MemoryTree, path: &Path, answer: &mut Answer) {
    if let Some(node) = tree.node(path) {
        answer.text(";");
        answer.placed(path.text(), Some(node));
    }
}

/// Tells what stands at each path of a tree but `/` and those of which this holds, with a semicolon before each.
pub fn told_but<F: Fn(&str) -> bool>(tree: &MemoryTree, leaves_out: F, answer: &mut Answer)
    requires { F.IsAlwaysCallable leaves_out }
{
    let paths = paths_of(answer.alloc(), tree);
    for path in &answer.kept(paths).unwrap_or(Vec::new(answer.alloc())) {
        if path.text() != "/" && !leaves_out(path.text()) {
            told_path(tree, path, answer);
        }
    }
}

/// Tells what stands at each path of a tree but `/`.
pub fn told_nodes(tree: &MemoryTree, answer: &mut Answer) {
    told_but(tree, |_| false, answer);
}

// One of the own files of the journal with this private directory, or below them.
fn is_own(base: &str, path: &str) -> bool {
    match path.strip_prefix(base) {
        Some(rest) => {
            let log = rest.starts_with("/log") || rest.starts_with("/gate");
            log || rest.starts_with("/p") || rest.starts_with("/w")
        }
        None => false,
    }
}

/// The same, but for the own files of the journal with this private directory.
pub fn told_kept(tree: &MemoryTree, base: &str, answer: &mut Answer) {
    told_but(tree, |path| is_own(base, path), answer);
}
