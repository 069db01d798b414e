//! Histories that are made: calls of the program, calls into which a crash falls, and edits by others, on two disks in memory.
ghost use Rattle.std.specs.Prelude.{◌≡◌, IfOk, OnOk, OnErr, List, ℕ};
ghost use Rattle.tree_memory.specs.Memory.{IsSame};
ghost use Rattle.outcome_laws.specs.Play.{edit_of, AreLeft, HasPlayed, IsMade, IsMissed, MeetsEdit, RanStopped, WasMade};
ghost use Rattle.outcome_laws.specs.Played.{IsPlayed};

use crate::streams::{KeptOutput, LineInput};
use conary_cli::cli_call::store_laws;
use conary_cli::cny_batch::Line;
use conary_cli::run;
use std::alloc::Global;
use tree_memory::cny_base::{Bytes, Copies, Node, OutOfMemory, Path};
use tree_memory::{MemoryTree, TreeFault};

/// What happens on two disks.
pub enum Event {
    /// The program is called with the words and the input of a line.
    Call {
        line: Line,
    },
    /// A crash falls into such a call: each disk stops after so many of its calls, and then both are what a crash leaves of them by
    /// the number.
    Stopped {
        line: Line,
        repo_calls: u32,
        root_calls: u32,
        pick: u64,
    },
    /// Others put a node at a path of the root, or take away what stands there.
    Edit {
        path: Path,
        node: Option<Node>,
    },
}

// Written by hand, so that to let an event go is a single call.
impl Drop for Event {
    fn drop(self) {
        match self {
            Event::Call { line: _line } => {}
            Event::Stopped {
                line: _line,
                repo_calls: _,
                root_calls: _,
                pick: _,
            } => {}
            Event::Edit {
                path: _path,
                node: _node,
            } => {}
        }
    }
}

// The status of a call into which a crash fell.
const STOPPED: u8 = 255;

// Calls the program with the words of a line and with this input, which is that of the line.
fn call_line(
    alloc: Global,
    line: &Line,
    input: Bytes,
    repo: &mut MemoryTree,
    root: &mut MemoryTree,
) -> u8
    requires { input ≡ line.now.input }
    ensures { (out : List ℕ) × WasMade line.now result out root.old root.new repo.old repo.new }
{
    let mut source = LineInput::new(alloc, input);
    let mut out = KeptOutput::new(alloc);
    let mut err = KeptOutput::new(alloc);
    run(
        alloc,
        line.words.get(),
        &mut source,
        &mut out,
        &mut err,
        repo,
        root,
    )
}

// Calls the program with a line. There is room for the status before anything is done.
fn make_call(
    alloc: Global,
    line: &Line,
    repo: &mut MemoryTree,
    root: &mut MemoryTree,
    statuses: &mut Bytes,
) -> Result<(), OutOfMemory>
    ensures ok { OnOk result (IsMade (Event.Call line.now) statuses.old statuses.new root.old root.new repo.old repo.new) }
    ensures err { OnErr result (IsMissed (Event.Call line.now) statuses.old statuses.new root.old root.new repo.old repo.new) }
{
    let input = line.input.copy()?;
    let place = statuses.get().len();
    statuses.push_slice(&[STOPPED])?;
    let status = call_line(alloc, line, input, repo, root);
    statuses.write_at(place, &[status]);
    Ok(())
}

// Calls the program with a line and its input, on disks of which each stops after so many calls.
fn run_stopped(
    alloc: Global,
    line: &Line,
    input: Bytes,
    repo_calls: u32,
    root_calls: u32,
    repo: &mut MemoryTree,
    root: &mut MemoryTree,
)
    requires { input ≡ line.now.input }
    ensures { (status : ℕ) × (out : List ℕ) × RanStopped line.now repo_calls root_calls status out root.old root.new repo.old repo.new }
{
    repo.stop_after(repo_calls);
    root.stop_after(root_calls);
    let _ = call_line(alloc, line, input, repo, root);
}

// Both disks become what a crash leaves of them. Both images are taken before either disk is replaced.
fn crash_both(
    alloc: Global,
    pick: u64,
    repo: &mut MemoryTree,
    root: &mut MemoryTree,
) -> Result<(), OutOfMemory>
    ensures ok { OnOk result (AreLeft pick root.old root.new repo.old repo.new) }
    ensures root { OnErr result (root.new ≡ root.old) }
    ensures repo { OnErr result (repo.new ≡ repo.old) }
{
    let repo_image = repo.crash(alloc, pick)?;
    let root_image = root.crash(alloc, pick)?;
    *repo = repo_image;
    *root = root_image;
    Ok(())
}

fn copy_of(node: &Option<Node>) -> Result<Option<Node>, OutOfMemory>
    ensures { IfOk result (λ copy. copy ≡ node.now) }
{
    match node {
        Some(node) => Ok(Some(node.copy()?)),
        None => Ok(None),
    }
}

// Puts a node, or takes away what stands, where others may do so.
fn make_edit(
    alloc: Global,
    path: &Path,
    node: &Option<Node>,
    root: &mut MemoryTree,
) -> Result<(), OutOfMemory>
    ensures ok { OnOk result (MeetsEdit (edit_of path.now node.now) root.old root.new) }
    ensures err { OnErr result (IsSame root.old root.new) }
{
    if path.is_reserved() || path.is_pinned() {
        return Ok(());
    }
    let node = copy_of(node)?;
    match root.edit(alloc, path, node) {
        Err(TreeFault::Memory) => Err(OutOfMemory),
        _ => Ok(()),
    }
}

// Makes one event.
fn make(
    alloc: Global,
    event: &Event,
    repo: &mut MemoryTree,
    root: &mut MemoryTree,
    statuses: &mut Bytes,
) -> Result<(), OutOfMemory>
    ensures ok { OnOk result (IsMade event.now statuses.old statuses.new root.old root.new repo.old repo.new) }
    ensures err { OnErr result (IsMissed event.now statuses.old statuses.new root.old root.new repo.old repo.new) }
{
    match event {
        Event::Call { line } => make_call(alloc, line, repo, root, statuses),
        Event::Stopped {
            line,
            repo_calls,
            root_calls,
            pick,
        } => {
            let input = line.input.copy()?;
            statuses.push_slice(&[STOPPED])?;
            run_stopped(alloc, line, input, *repo_calls, *root_calls, repo, root);
            crash_both(alloc, *pick, repo, root)
        }
        Event::Edit { path, node } => make_edit(alloc, path, node, root),
    }
}

// Makes the events in order, and appends a status for each call.
fn make_all(
    alloc: Global,
    events: &[Event],
    repo: &mut MemoryTree,
    root: &mut MemoryTree,
    statuses: &mut Bytes,
) -> Result<(), OutOfMemory>
    ensures { HasPlayed events.now result statuses.old statuses.new root.old root.new repo.old repo.new }
{
    let mut rest = events;
    while let [event, after @ ..] = rest {
        make(alloc, event, repo, root, statuses)?;
        rest = after;
    }
    Ok(())
}

/// Makes the events in order, and appends a status for each call.
///
/// The headline is its clause: from two disks of which whatever a crash leaves recovers to one state, every list of calls, edits and crashes
/// leads to disks that recover, also after a crash, to the fold of the events that were made, of whose calls those lines count that the
/// statuses tell, and what was written. Where an edit came before a recovery and lets the log be put no more, each call is refused until
/// another edit makes room.
pub fn play(
    alloc: Global,
    events: &[Event],
    repo: &mut MemoryTree,
    root: &mut MemoryTree,
    statuses: &mut Bytes,
) -> Result<(), OutOfMemory>
    ensures { IsPlayed events.now result statuses.old statuses.new root.old root.new repo.old repo.new }
{
    // What the disks store is told by the names that count.
    store_laws();
    make_all(alloc, events, repo, root, statuses)
}
