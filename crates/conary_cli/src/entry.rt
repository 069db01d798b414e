//! What the program does: it hands its words, the standard streams and two disks to `run`.
#![tactic(auto)]

ghost use Rattle.std.specs.Prelude.{◌≡◌, ◌≤◌, IfOk, IfErr};

use crate::program::run;
use cny_version::cny_base::{StdSink, StdSource};
use root_commands::cli_call::cny_base::{Fails, Mode, Node, OutOfMemory, Path, Text};
use root_commands::cli_call::tree_disk::TreeDisk;
use std::alloc::Global;
use std::env;
use std::io::ErrorKind;
use tree_host::HostTree;
use tree_memory::{MemoryTree, Nodes};

// The status where there is no memory for the words or the trees.
const OUT_OF_MEMORY: u8 = 7;

// Before the names of the directories of the root and the repository.
const DISK_OPTION: &str = "--disk";

/// Runs the words of the command line over the standard streams and two disks: directories of the host where `--disk` is the very
/// first word and two more follow, and else trees in memory, which are gone when the program ends. Answers the status of `run`,
/// and that of want of memory where there is none for the words or the trees.
pub fn start(rt: &HostRuntime) -> u8
    ensures { result ≤ 8 }
{
    status_of(start_words(rt))
}

// The status of `run`, or that of want of memory.
fn status_of(outcome: Result<u8, OutOfMemory>) -> u8
    ensures ran { IfOk outcome (λ status. result ≡ status) }
    ensures memory { IfErr outcome (λ _. result ≡ 7) }
{
    outcome.unwrap_or(OUT_OF_MEMORY)
}

// Runs the words of the command line.
fn start_words(rt: &HostRuntime) -> Result<u8, OutOfMemory>
    ensures { IfOk result (λ status. status ≤ 8) }
{
    let words = words_of(rt)?;
    match words.as_slice() {
        [option, root, repo, rest @ ..] if option.as_str() == DISK_OPTION => {
            run_on_host(rt, rest, root.as_str(), repo.as_str())
        }
        all => run_in_memory(rt, all),
    }
}

// The directory of the host of this name, which no other call has meanwhile: all calls of one that is in use fail.
fn host_tree<'a>(
    rt: &'a HostRuntime,
    name: &str,
) -> Result<HostTree<'a, HostRuntime>, OutOfMemory> {
    let alloc = rt.alloc();
    let name = Text::new(alloc, name)?;
    Ok(HostTree::locked(alloc, rt, name))
}

// Runs words over a repository, and the directory of this name as the root.
fn run_on_root<P: TreeDisk>(
    rt: &HostRuntime,
    words: &[String],
    root: &str,
    repo: &mut P,
) -> Result<u8, OutOfMemory>
    ensures { IfOk result (λ status. status ≤ 8) }
{
    let mut root = host_tree(rt, root)?;
    Ok(run_over(rt, words, repo, &mut root))
}

// Runs words over two directories of the host. The root is asked for last and used first, so of a directory that is given twice
// nothing is touched.
fn run_on_host(
    rt: &HostRuntime,
    words: &[String],
    root: &str,
    repo: &str,
) -> Result<u8, OutOfMemory>
    ensures { IfOk result (λ status. status ≤ 8) }
{
    let mut repo = host_tree(rt, repo)?;
    run_on_root(rt, words, root, &mut repo)
}

// Runs words over two trees in memory, which are gone when the program ends.
fn run_in_memory(rt: &HostRuntime, words: &[String]) -> Result<u8, OutOfMemory>
    ensures { IfOk result (λ status. status ≤ 8) }
{
    let alloc = rt.alloc();
    let mut repo = new_tree(alloc, &["/"])?;
    let mut root = new_tree(alloc, &["/", "/var", "/var/lib"])?;
    Ok(run_over(rt, words, &mut repo, &mut root))
}

// Runs words over two disks and the standard streams.
fn run_over<P: TreeDisk, T: TreeDisk>(
    rt: &HostRuntime,
    words: &[String],
    repo: &mut P,
    root: &mut T,
) -> u8
    ensures { result ≤ 8 }
{
    let mut input = StdSource::new(rt.stdin());
    let mut out = StdSink::new(rt.stdout());
    let mut err = StdSink::new(rt.stderr());
    run(
        rt.alloc(),
        words,
        &mut input,
        &mut out,
        &mut err,
        repo,
        root,
    )
}

// The words after the program's name. Words that aren't text are none, which is a usage error.
fn words_of(rt: &HostRuntime) -> Result<Vec<String>, OutOfMemory> {
    let mut words = Vec::new(rt.alloc());
    match env::args(rt) {
        Ok(args) => {
            for word in args.skip(1) {
                words.push(word)?;
            }
        }
        Err(e) if e.kind() == ErrorKind::OutOfMemory => return Err(OutOfMemory),
        Err(_) => {}
    }
    Ok(words)
}

// A tree of these directories.
fn new_tree(alloc: Global, dirs: &[&str]) -> Result<MemoryTree, OutOfMemory> {
    let mut nodes = Vec::new(alloc);
    for dir in dirs {
        let path = Path::read(alloc, dir).map_err(|_| OutOfMemory)?;
        let mode = Mode::new(0o755).ok_or(OutOfMemory)?;
        nodes.push((path, Node::Dir { mode }))?;
    }
    let none = Fails::new(Vec::new(alloc));
    MemoryTree::new(alloc, Nodes::new(nodes), none).map_err(|_| OutOfMemory)
}
