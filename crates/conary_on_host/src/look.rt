//! A look past the program at the directory `root`: its names, its nodes outside `var`, and the bytes of the file.
use crate::standing::PERMISSION_BITS;
use crate::told::Told;
use std::fs::{self, Metadata};
use std::io;
use std::os::unix::fs::PermissionsExt;
use tree_disk::cny_base::Mode;

fn add_names(rt: &HostRuntime, dir: &str, names: &mut Vec<String>) -> io::Result<()> {
    for entry in fs::read_dir(rt, dir)? {
        let entry = entry?;
        names.push(String::from_str(rt.alloc(), entry.file_name())?)?;
    }
    Ok(())
}

// The names in a directory, in the order of their bytes.
fn names_in(rt: &HostRuntime, dir: &str) -> io::Result<Vec<String>> {
    let mut names = Vec::new(rt.alloc());
    add_names(rt, dir, &mut names)?;
    names.sort()?;
    Ok(names)
}

// A line: a path, and what is said of it.
fn tell_line(told: &mut Told, path: &str, said: &str) {
    told.text(path);
    told.text(" ");
    told.text(said);
    told.text("\n");
}

fn tell_names(rt: &HostRuntime, told: &mut Told, dir: &str) {
    let Ok(names) = names_in(rt, dir) else {
        return told.fail();
    };
    for name in &names {
        tell_line(told, dir, name.as_str());
    }
}

fn kind_of(metadata: &Metadata) -> &'static str {
    if metadata.is_dir() {
        "directory "
    } else if metadata.is_file() {
        "file "
    } else {
        "other "
    }
}

fn tell_mode(told: &mut Told, bits: u32) {
    match Mode::new((bits & PERMISSION_BITS) as u16) {
        Some(mode) => told.mode(mode),
        None => told.fail(),
    }
}

fn tell_node(rt: &HostRuntime, told: &mut Told, path: &str) {
    let Ok(metadata) = fs::symlink_metadata(rt, path) else {
        return told.fail();
    };
    told.text(path);
    told.text(" ");
    told.text(kind_of(&metadata));
    tell_mode(told, metadata.permissions().mode());
    told.text("\n");
}

fn tell_bytes(rt: &HostRuntime, told: &mut Told, path: &str) {
    match fs::read_to_string(rt, path) {
        Ok(text) => tell_line(told, path, text.as_str()),
        Err(_) => told.fail(),
    }
}

/// Tells what stands in the directory `root` outside `var`.
pub fn tell_root(rt: &HostRuntime, told: &mut Told) {
    tell_names(rt, told, "root");
    tell_names(rt, told, "root/etc");
    tell_node(rt, told, "root/etc");
    tell_node(rt, told, "root/etc/foo");
    tell_bytes(rt, told, "root/etc/foo");
}
