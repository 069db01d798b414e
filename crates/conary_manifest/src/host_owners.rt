// Who owns what stands in a directory of the host.
use cny_pack::Owners;
use cny_pack::cny_base::{OutOfMemory, Path, TextFault, is_word};
use cny_pack::cny_stream::Owner;
use std::alloc::Global;
use std::collections::BTreeMap;
use std::fs::{self, Files, Metadata};
use std::io::{self, ErrorKind};
use std::os::unix::fs::MetadataExt;

// The most bytes that the name of a user or a group may have.
const OWNER_ROOM: usize = 32;

// Names by their numbers.
type Names = BTreeMap<u32, String>;

// The name and the number on a line of `/etc/passwd` or `/etc/group`.
fn named(line: &str) -> Option<(u32, &str)> {
    let (name, rest) = line.split_once(':')?;
    let (_, rest) = rest.split_once(':')?;
    let (number, _) = rest.split_once(':')?;
    let number = number.parse::<u32>().ok()?;
    Some((number, name))
}

// The names on such lines; of a number that several have, the first.
fn names_in(alloc: Global, text: &str) -> Result<Names, OutOfMemory> {
    let mut names = BTreeMap::new(alloc);
    for line in text.lines() {
        if let Some((number, name)) = named(line) {
            if !names.contains_key(&number) {
                names.insert(number, String::from_str(alloc, name)?)?;
            }
        }
    }
    Ok(names)
}

// The names of a file; none where it can't be read.
fn names_of(rt: &HostRuntime, file: &str) -> Result<Names, OutOfMemory> {
    let alloc = rt.alloc();
    match fs::read_to_string(rt, file) {
        Ok(text) => names_in(alloc, text.as_str()),
        Err(e) if e.kind() == ErrorKind::OutOfMemory => Err(OutOfMemory),
        Err(_) => Ok(BTreeMap::new(alloc)),
    }
}

/// The owners in a directory of the host, by the names that the host gives to their numbers, and by the numbers where it gives none that
/// an owner may have.
#[derive(Drop)]
pub(crate) struct HostOwners<'a> {
    rt: &'a HostRuntime,
    dir: &'a str,
    users: Names,
    groups: Names,
}

impl<'a> HostOwners<'a> {
    pub(crate) fn new(rt: &'a HostRuntime, dir: &'a str) -> Result<Self, OutOfMemory> {
        Ok(HostOwners {
            rt,
            dir,
            users: names_of(rt, "/etc/passwd")?,
            groups: names_of(rt, "/etc/group")?,
        })
    }

    fn metadata(&self, alloc: Global, path: &Path) -> Result<io::Result<Metadata>, OutOfMemory> {
        let mut place = String::from_str(alloc, self.dir)?;
        place.push_str(path.text())?;
        Ok(fs::symlink_metadata(self.rt, place.as_str()))
    }
}

// Whether a user or a group of a manifest may have this name.
fn can_own(name: &str) -> bool {
    name.len() <= OWNER_ROOM && is_word(name.as_bytes())
}

// The name of a number, or the number itself.
fn word_of(alloc: Global, names: &Names, number: u32) -> Result<String, OutOfMemory> {
    match names.get(&number) {
        Some(name) if can_own(name.as_str()) => Ok(String::from_str(alloc, name.as_str())?),
        _ => Ok(format!(in alloc; "{number}")?),
    }
}

// The owner of these numbers.
fn owner_of(
    alloc: Global,
    users: &Names,
    groups: &Names,
    user: u32,
    group: u32,
) -> Result<Option<Owner>, OutOfMemory> {
    let user = word_of(alloc, users, user)?;
    let group = word_of(alloc, groups, group)?;
    match Owner::new(alloc, user.as_str(), group.as_str()) {
        Ok(owner) => Ok(Some(owner)),
        Err(TextFault::Bad) => Ok(None),
        Err(TextFault::Memory) => Err(OutOfMemory),
    }
}

impl Owners for HostOwners<'_> {
    ghost owns = { λ path owner. Unit {0} };

    ghost lacks = { λ path. Unit {0} };

    fn owner_at(&mut self, alloc: Global, path: &Path) -> Result<Option<Owner>, OutOfMemory> {
        match self.metadata(alloc, path)? {
            Ok(metadata) => owner_of(
                alloc,
                &self.users,
                &self.groups,
                metadata.uid(),
                metadata.gid(),
            ),
            Err(_) => Ok(None),
        }
    }
}
