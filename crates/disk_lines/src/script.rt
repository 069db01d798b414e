//! The steps of a script that are no calls of the disk.
use crate::disk;
use line_words::{Answer, Line};
use root_words::tree_memory::cny_base::{Fails, Path};
use root_words::tree_memory::{MemoryTree, TreeFault};
use root_words::{Quiet, crashed, nodes_of};

// What was made of a tree. Where it can't be one, there is none, and the answer tells so.
fn made_of<T: Drop>(made: Result<T, TreeFault>, answer: &mut Answer) -> Option<T> {
    match made {
        Ok(value) => {
            answer.field("ok");
            Some(value)
        }
        Err(TreeFault::NotATree) => {
            answer.field("no tree");
            None
        }
        Err(TreeFault::Memory) => {
            answer.memory();
            None
        }
    }
}

// `new NODES CALLS`: a disk of these nodes, whose calls of these numbers fail.
fn make_disk(disk: &mut Quiet, line: &mut Line, answer: &mut Answer) {
    let nodes = nodes_of(line, 0);
    let fails = Fails::new(line.list(1));
    if let Some(tree) = made_of(MemoryTree::new(line.alloc(), nodes, fails), answer) {
        *disk = Quiet::new(tree);
    }
}

// `edit NODE`: another than the calls puts a node, or takes one away.
fn edit(tree: &mut MemoryTree, line: &mut Line, answer: &mut Answer) {
    let raw = line.raw(0);
    if let Some((path, node)) = line.placed_of(raw) {
        made_of(tree.edit(line.alloc(), &path, node), answer);
    }
}

// What stands at the paths of an argument, each with its path.
fn push_nodes(tree: &MemoryTree, line: &mut Line, place: usize, answer: &mut Answer) {
    let paths: Vec<Path> = line.list(place);
    answer.field("is");
    for path in &paths {
        answer.tab();
        answer.placed(path.text(), tree.node(path));
    }
}

// `seen MOMENT PATHS`: what a reader saw at a moment that has passed.
fn push_seen(tree: &MemoryTree, line: &mut Line, answer: &mut Answer) {
    let moment = line.small(0) as usize;
    if moment > tree.moment() {
        return line.unreadable();
    }
    let paths: Vec<Path> = line.list(1);
    if let Some(nodes) = line.kept(tree.seen(line.alloc(), moment)) {
        answer.field("is");
        for path in &paths {
            answer.tab();
            answer.placed(path.text(), nodes.node(path.text()));
        }
    }
}

// `left PICK PATHS`: what a crash now leaves at these paths.
fn push_left(tree: &MemoryTree, line: &mut Line, answer: &mut Answer) {
    let left = crashed(line.alloc(), tree, line.number(0));
    if let Some(left) = line.kept(left) {
        push_nodes(&left.tree, line, 1, answer);
    }
}

// `crash PICK`: it comes.
fn crash(disk: &mut Quiet, line: &mut Line, answer: &mut Answer) {
    let left = crashed(line.alloc(), &disk.tree, line.number(0));
    if let Some(left) = line.kept(left) {
        *disk = left;
        answer.field("ok");
    }
}

// `stop CALLS`: after so many further calls each call fails.
fn stop(tree: &mut MemoryTree, line: &mut Line, answer: &mut Answer) {
    tree.stop_after(line.small(0));
    answer.field("ok");
}

/// Makes a step of a script.
pub fn call(disk: &mut Quiet, line: &mut Line, answer: &mut Answer) {
    match line.name() {
        "new" => make_disk(disk, line, answer),
        "edit" => edit(&mut disk.tree, line, answer),
        "at" => push_nodes(&disk.tree, line, 0, answer),
        "seen" => push_seen(&disk.tree, line, answer),
        "left" => push_left(&disk.tree, line, answer),
        "crash" => crash(disk, line, answer),
        "stop" => stop(&mut disk.tree, line, answer),
        "moment" => answer.field_number(disk.tree.moment() as u64),
        _ => disk::call(&mut disk.tree, line, answer),
    }
}
