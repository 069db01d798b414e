//! Lines of calls on roots. LABEL says what a line shows. A CALL is an argument: the name of a call and what it takes, with a `|`
//! between two.
use crate::failing::{Call, push_all, push_ready};
use crate::root::PRIVATE;
use line_words::{Answer, Line, Outcomes};
use root_words::tree_memory::MemoryTree;
use root_words::{disk_of, told_kept};
use system_core::cny_base::Path;

/// `run LABEL TREE CALL..`: the calls are made one after the other: the answers, what is ready then, and what stands.
pub fn run(line: &mut Line, answer: &mut Answer) {
    let Some(mut disk) = disk_of(line, 1, 0) else {
        return;
    };
    for place in 2..line.len() {
        if let Some(call) = Call::of(line, place) {
            let said = call.made(&mut disk, answer);
            answer.tab();
            answer.add(&said);
        }
    }
    answer.tab();
    push_ready(&mut disk, answer);
    answer.tab();
    told_kept(&disk.tree, PRIVATE, answer);
}

/// `stop LABEL TREE PICK CALL`: the call is cut off after each number of calls of the disk, the crash that the number picks is made
/// ready, and the call is made again.
pub fn cut_off(line: &mut Line, answer: &mut Answer) {
    if let Some(call) = Call::of(line, 3) {
        push_all(&call, true, line, answer);
    }
}

/// `fail LABEL TREE CALL`: each call of the disk fails in turn.
pub fn failing(line: &mut Line, answer: &mut Answer) {
    if let Some(call) = Call::of(line, 2) {
        push_all(&call, false, line, answer);
    }
}

// Appends what others read at a path at a moment that has passed, where it isn't what was read last.
fn push_moment(
    tree: &MemoryTree,
    path: &Path,
    moment: usize,
    last: &mut Outcomes,
    answer: &mut Answer,
) {
    if moment > tree.moment() {
        return answer.unreadable();
    }
    let nodes = tree.seen(answer.alloc(), moment);
    if let Some(nodes) = answer.kept(nodes) {
        let mut text = answer.apart();
        text.text(";");
        text.placed(path.text(), nodes.node(path.text()));
        if last.is_new(answer, &text) {
            answer.text(text.get());
        }
    }
}

// What others read at a path from the first moment of a tree to the present one.
fn push_seen(tree: &MemoryTree, path: &Path, answer: &mut Answer) {
    let mut last = Outcomes::new(answer.alloc());
    answer.tab();
    for moment in 0..=tree.moment() {
        push_moment(tree, path, moment, &mut last, answer);
    }
}

/// `seen LABEL TREE PATHS CALL`: the call's answer, and what others read at each of the paths meanwhile.
pub fn seen(line: &mut Line, answer: &mut Answer) {
    let paths = line.list::<Path>(2);
    if let Some(mut disk) = disk_of(line, 1, 0) {
        if let Some(call) = Call::of(line, 3) {
            let said = call.made(&mut disk, answer);
            answer.add(&said);
            for path in &paths {
                push_seen(&disk.tree, path, answer);
            }
        }
    }
}
