//! The files of a trove by what stands at their paths.
ghost use Rattle.std.specs.Prelude.{◌≡◌, ◌++◌, [], IfErr, IfOk, IsTrue, None, OnOk, Option, Some};
ghost use Rattle.std.specs.FinMap.{get};
ghost use Rattle.std.specs.List.{cons_option};
ghost use Rattle.update_job.specs.cny-stream.Owner.{root_owner};
ghost use Rattle.update_job.specs.cny-stream.Record.{has_name_and_size};
ghost use Rattle.tree_scan.specs.tree-disk.declared.disk.Look.TheVariants as look;
ghost use Rattle.tree_scan.specs.tree-disk.Rows.{look_of};
ghost use Rattle.tree_scan.specs.tree-disk.Steps.{Tests};
ghost use Rattle.tree_scan.specs.OnlyReads.{OnlyReads};
ghost use Rattle.root_edits.specs.Standing.{IsSizeStop};
ghost use Rattle.root_edits.specs.Standing as spec;
ghost use Rattle.root_edits.specs.Standing.{content_of_node, local_content, local_file, sights, too_large, too_large_node};
ghost use Rattle.root_edits.specs.Steps.{within_limit, Fits, HaveSeen, IsNameOf};

use sha1::Sha1;
use std::alloc::Global;
use std::mem;
use tree_scan::tree_disk::{Look, TreeDisk, node_ranges, steps};
use update_job::change_set::Carried;
use update_job::cny_base::{
    Bytes, CONTENT_LIMIT, Copies, Mode, Node, OutOfMemory, Path, Refusal, Stop, TextFault, What,
};
use update_job::cny_stream::{FileRec, Owner};
use update_job::trove_parts::{FileAt, Files};

// ---- what stands

// The file of this mode and size that stands at the path. `TooLarge` where it has more bytes than a content may have.
fn file_at<D: TreeDisk>(
    alloc: Global,
    disk: &mut D,
    path: &Path,
    mode: Mode,
    size: u64,
) -> Result<Option<Node>, Stop>
    requires { IsTrue D.disk.tells → look_of (D.disk.reads disk.old) path.now ≡ look.File mode size }
    ensures tests { Tests D.disk (λ node. node)
        (λ tree. within_limit (get tree path.now) (too_large_node (get tree path.now)))
        disk.old disk.new result }
    ensures fits { IfOk result Fits }
    ensures stops { IfErr result IsSizeStop }
{
    match steps::read_whole(alloc, disk, path, u64::from(CONTENT_LIMIT))? {
        Some(bytes) => {
            let node = Node::File { mode, bytes };
            node_ranges(&node);
            Ok(Some(node))
        }
        // Where the file grew since it was looked at, its size isn't known.
        None => Err(Stop::Refused(Refusal::TooLarge {
            what: What::Local,
            size: size.max(u64::from(CONTENT_LIMIT) + 1),
        })),
    }
}

// What stands at the path. `TooLarge` where it is a file of more bytes than a content may have.
fn node_at<D: TreeDisk>(alloc: Global, disk: &mut D, path: &Path) -> Result<Option<Node>, Stop>
    ensures tests { Tests D.disk (λ node. node)
        (λ tree. within_limit (get tree path.now) (too_large_node (get tree path.now)))
        disk.old disk.new result }
    ensures fits { IfOk result Fits }
    ensures stops { IfErr result IsSizeStop }
{
    match steps::look(alloc, disk, path)? {
        Look::Nothing => Ok(None),
        Look::Dir { mode } => {
            let node = Node::Dir { mode };
            node_ranges(&node);
            Ok(Some(node))
        }
        Look::File { mode, size } => file_at(alloc, disk, path, mode, size),
        Look::Link { target } => {
            let node = Node::Link { target };
            node_ranges(&node);
            Ok(Some(node))
        }
    }
}

// ---- its record

// The owner of all that names none.
fn root_owner(alloc: Global) -> Result<Owner, OutOfMemory>
    ensures { IfOk result (λ owner. owner ≡ root_owner) }
{
    match Owner::new(alloc, "root", "root") {
        Ok(owner) => Ok(owner),
        Err(TextFault::Memory) => Err(OutOfMemory),
        Err(TextFault::Bad) => unreachable!(),
    }
}

// The owner that the record names; root, where it is that of a link.
fn owner_of(alloc: Global, rec: &FileRec) -> Result<Owner, OutOfMemory>
    ensures { IfOk result (λ owner. owner ≡ spec.owner_of rec.now) }
{
    match rec {
        FileRec::Dir { owner, .. } => owner.copy(),
        FileRec::File { owner, .. } => owner.copy(),
        FileRec::Link { .. } => root_owner(alloc),
    }
}

// The SHA-1 of a file's bytes.
fn name_of(node: &Node) -> [u8; 20]
    ensures { IsNameOf result node.now }
{
    match node {
        Node::Dir { .. } => [0; 20],
        Node::File { bytes, .. } => Sha1::digest(bytes.get()),
        Node::Link { .. } => [0; 20],
    }
}

// The record of what stands where this one was.
fn record_of(
    alloc: Global,
    rec: &FileRec,
    node: &Node,
    name: [u8; 20],
) -> Result<FileRec, OutOfMemory>
    requires small { too_large_node (Some node.now) ≡ None }
    requires name { IsNameOf name node.now }
    ensures { IfOk result (λ made. made ≡ spec.record_of rec.now node.now) }
{
    Ok(match node {
        Node::Dir { mode } => FileRec::Dir {
            mode: *mode,
            owner: owner_of(alloc, rec)?,
        },
        Node::File { mode, bytes } => FileRec::File {
            mode: *mode,
            owner: owner_of(alloc, rec)?,
            flags: rec.flags(),
            size: bytes.get().len() as u32,
            name,
        },
        Node::Link { target } => FileRec::Link {
            target: target.copy()?,
        },
    })
}

// ---- the content that is carried

// Whether the record is that of a file with this content.
fn has_content(rec: &FileRec, size: usize, name: &[u8; 20]) -> bool
    ensures { result ≡ has_name_and_size name.now size rec.now }
{
    match rec {
        FileRec::Dir { .. } => false,
        FileRec::File {
            size: of_size,
            name: of_name,
            ..
        } => {
            let names = of_name.as_slice() == name.as_slice();
            *of_size as usize == size && names
        }
        FileRec::Link { .. } => false,
    }
}

// The content of a file that stands, unless the record has it already. It is taken out of the node, and not copied.
fn content_of(alloc: Global, rec: &FileRec, node: &mut Node, name: [u8; 20]) -> Option<Carried>
    requires { IsNameOf name node.old }
    ensures { result ≡ content_of_node rec.now (Some node.old) }
{
    match node {
        Node::Dir { .. } => None,
        Node::File { bytes, .. } => {
            if has_content(rec, bytes.get().len(), &name) {
                return None;
            }
            let bytes = mem::replace(bytes, Bytes::from_vec(Vec::new(alloc)));
            Some(Carried { name, bytes })
        }
        Node::Link { .. } => None,
    }
}

// ---- files

// Appends the file and the content of what stands at a recorded path.
fn push_node(
    alloc: Global,
    file: &FileAt,
    node: Node,
    files: &mut Vec<FileAt>,
    carried: &mut Vec<Carried>,
) -> Result<(), OutOfMemory>
    requires { too_large_node (Some node) ≡ None }
    ensures files { OnOk result (files.new.items ≡ files.old.items ++ cons_option (local_file (record { file = file.now; node = Some node })) []) }
    ensures carried { OnOk result (carried.new.items ≡ carried.old.items ++ cons_option (local_content (record { file = file.now; node = Some node })) []) }
{
    let mut node = node;
    let name = name_of(&node);
    let rec = record_of(alloc, &file.rec, &node, name)?;
    let path = file.path.copy()?;
    files.push(FileAt { path, rec })?;
    if let Some(content) = content_of(alloc, &file.rec, &mut node, name) {
        carried.push(content)?;
    }
    Ok(())
}

// The same, if anything stands there.
fn push_seen(
    alloc: Global,
    file: &FileAt,
    node: Option<Node>,
    files: &mut Vec<FileAt>,
    carried: &mut Vec<Carried>,
) -> Result<(), OutOfMemory>
    requires { too_large_node node ≡ None }
    ensures files { OnOk result (files.new.items ≡ files.old.items ++ cons_option (local_file (record { file = file.now; node = node })) []) }
    ensures carried { OnOk result (carried.new.items ≡ carried.old.items ++ cons_option (local_content (record { file = file.now; node = node })) []) }
{
    match node {
        Some(node) => push_node(alloc, file, node, files, carried),
        None => Ok(()),
    }
}

/// The files of what stands at recorded paths, and behind the contents that were there those that they carry. `TooLarge` for the
/// first path at which a file of more bytes stands than a content may have.
pub(crate) fn standing_files<D: TreeDisk>(
    alloc: Global,
    disk: &mut D,
    recorded: &[FileAt],
    carried: &mut Vec<Carried>,
) -> Result<Files, Stop>
    ensures finds { OnlyReads D.disk (λ tree files. Unit {0}) (λ tree refused. too_large (sights tree recorded.now) ≡ Some refused) disk.old disk.new result }
    ensures seen { IfOk result (λ files. HaveSeen D.disk.tells (D.disk.reads disk.old) recorded.now files carried.old.items carried.new.items) }
    ensures stops { IfErr result IsSizeStop }
{
    let mut files = Vec::new(alloc);
    for file in recorded {
        let node = node_at(alloc, disk, &file.path)?;
        push_seen(alloc, file, node, &mut files, carried)?;
    }
    Ok(Files::new(files))
}
