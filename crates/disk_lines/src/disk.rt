//! The calls of a disk, with what they answer where the tree doesn't allow them.
use line_words::{Answer, Line};
use root_words::tree_memory::MemoryTree;
use root_words::tree_memory::cny_base::{Names, Path};
use root_words::tree_memory::tree_disk::{Look, TreeDisk};

// The most bytes that a line may read.
const ROOM: usize = 64;

/// Tells what a look shows: of a file its size.
pub fn told_look(look: &Look, answer: &mut Answer) {
    answer.ok("");
    match look {
        Look::Nothing => answer.text("nothing"),
        Look::Dir { mode } => answer.dir(*mode),
        Look::File { mode, size } => {
            answer.text("file ");
            answer.mode(*mode);
            answer.text(" ");
            answer.number(*size);
        }
        Look::Link { target } => answer.link(target.text()),
    }
}

/// Tells names in hexadecimal digits, each as a field.
pub fn told_names(names: &Names, answer: &mut Answer) {
    answer.field("ok");
    for name in names.get() {
        answer.field_hex(name.get().as_bytes());
    }
}

/// Tells how many bytes a read gave, and the whole buffer, which had bytes FF.
pub fn told_read(count: usize, buf: &[u8], answer: &mut Answer) {
    answer.field("ok");
    answer.field_number(count as u64);
    answer.field_hex(buf);
}

/// Tells `yes` or `no`.
pub fn told_holds(holds: &bool, answer: &mut Answer) {
    answer.holds(*holds);
}

// `read PATH AT LENGTH`: so many bytes from a place on, at most `ROOM`.
fn read(tree: &mut MemoryTree, path: &Path, line: &mut Line, answer: &mut Answer) {
    let at = line.number(1);
    let len = line.small(2) as usize;
    if len > ROOM {
        return line.unreadable();
    }
    let mut buf = [0xFF; ROOM];
    let read = tree.read_at(answer.alloc(), path, at, &mut buf[..len]);
    if let Some(count) = answer.given(read) {
        told_read(count, &buf[..len], answer);
    }
}

// `make_link PATH TARGET`.
fn make_link(tree: &mut MemoryTree, path: &Path, line: &mut Line, answer: &mut Answer) {
    if let Some(target) = line.target(1) {
        answer.done(tree.make_link(line.alloc(), path, &target));
    }
}

// `rename PATH PATH`.
fn rename(tree: &mut MemoryTree, path: &Path, line: &mut Line, answer: &mut Answer) {
    if let Some(to) = line.path(1) {
        answer.done(tree.rename(line.alloc(), path, &to));
    }
}

fn at_path(tree: &mut MemoryTree, path: &Path, line: &mut Line, answer: &mut Answer) {
    let alloc = line.alloc();
    match line.name() {
        "look" => answer.outcome(tree.look(alloc, path), told_look),
        "list" => answer.outcome(tree.list(alloc, path), told_names),
        "read" => read(tree, path, line, answer),
        "append" => answer.done(tree.append(alloc, path, line.bytes(1))),
        "make_dir" => answer.done(tree.make_dir(alloc, path, line.mode(1))),
        "set_mode" => answer.done(tree.set_mode(alloc, path, line.mode(1))),
        "make_link" => make_link(tree, path, line, answer),
        "remove" => answer.done(tree.remove(alloc, path)),
        "rename" => rename(tree, path, line, answer),
        _ => line.unreadable(),
    }
}

/// Makes a call of the disk.
pub fn call(tree: &mut MemoryTree, line: &mut Line, answer: &mut Answer) {
    if line.name() == "sync" {
        answer.done(tree.sync(line.alloc()));
    } else if let Some(path) = line.path(0) {
        at_path(tree, &path, line, answer);
    }
}
