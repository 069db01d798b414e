//! Contents of a line, which may fail or be damaged.
use content_store::{Contents, FarStop};
use line_words::Line;
use sha1::Sha1;
use std::alloc::Global;
use std::collections::BTreeMap;
use tree_memory::cny_base::{Bytes, Copies, Path};

/// Contents by their SHA-1. It counts how often it was asked.
pub struct Far {
    pub contents: BTreeMap<[u8; 20], Bytes>,
    /// Each search fails.
    pub fails: bool,
    /// Each search ends at a damaged file.
    pub damaged: bool,
    pub faults: u64,
    pub finds: u64,
}

impl Drop for Far {
    fn drop(self) {
        let Far {
            contents: _contents,
            fails: _fails,
            damaged: _damaged,
            faults: _faults,
            finds: _finds,
        } = self;
    }
}

impl Contents for Far {
    ghost use Rattle.root_words.specs.Far.{far_contents, far_source};

    ghost contents = { far_contents (λ c. c.faults) };

    fn find(&mut self, alloc: Global, name: &[u8; 20]) -> Result<Option<Bytes>, FarStop> {
        self.finds = self.finds.saturating_add(1);
        if self.fails {
            self.faults = self.faults.saturating_add(1);
            return Err(FarStop::Failed);
        }
        if self.damaged {
            return match Path::read(alloc, "/c/damaged") {
                Ok(path) => Err(FarStop::Damaged { path }),
                Err(_) => Err(FarStop::Memory),
            };
        }
        match self.contents.get(name) {
            Some(bytes) if Sha1::digest(bytes.get()) == *name => Ok(Some(bytes.copy()?)),
            _ => Ok(None),
        }
    }

    ghost laws = { far_source (λ c. c.faults) };
}

fn push_content(line: &mut Line, contents: &mut BTreeMap<[u8; 20], Bytes>, raw: &str) {
    if let Some(bytes) = line.part::<Bytes>(raw) {
        line.kept(contents.insert(Sha1::digest(bytes.get()), bytes));
    }
}

/// The contents of the list at a place; `!fails` are some of which each search fails, `!damaged` some of which each search ends
/// at a damaged file.
pub fn far_of(line: &mut Line, place: usize) -> Far {
    let raw = line.raw(place);
    let mut contents = BTreeMap::new(line.alloc());
    if !raw.is_empty() && !raw.starts_with('!') {
        for part in raw.split(';') {
            push_content(line, &mut contents, part);
        }
    }
    Far {
        contents,
        fails: raw == "!fails",
        damaged: raw == "!damaged",
        faults: 0,
        finds: 0,
    }
}
