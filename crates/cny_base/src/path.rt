//! Paths of a tree.
ghost use Rattle.std.specs.Prelude.{◌≡◌, ◌↔◌, false, IfOk, OnOk, IsErrOf, IfSome, IsNone, IsTrue, Some, refl};
ghost use Rattle.std.specs.Cmp.{partial_equiv_from_equiv};
ghost use Rattle.std.specs.Cmp.Lexicographic.{slice_cmp, nat_list_cmp_total, nat_list_eq_equiv, texts_ties, texts_po};
ghost use Rattle.std.specs.Ordering.{nat_cmp};
ghost use Rattle.std.specs.Str.{bytes_eq};
ghost use Rattle.cny_base.specs.Path.{is_path, parent, join, root};
ghost use Rattle.cny_base.specs.Reserved.{is_reserved, is_pinned, is_forbidden};

use crate::list::Copies;
use crate::path_grammar;
use crate::text::{OutOfMemory, TextFault, text_of};
use std::alloc::Global;
use std::cmp::Ordering;
use std::marker::Model;

/// A path of a tree: `/`, or one or more parts of 1 to 255 bytes, each after a slash; at most
/// 1,024 bytes of UTF-8. A part has no control byte and is neither `.` nor `..`.
#[derive(Drop)]
pub struct Path {
    text: String,
}

impl Model for Path {
    ghost use Rattle.std.specs.Prelude.{List, ℕ, string_bytes, IsTrue};
    ghost use Rattle.cny_base.specs.Path.{is_path};

    ghost Value = { List ℕ };

    ghost view = { λ a. string_bytes a.text };

    ghost invariant = { λ a. IsTrue (is_path (string_bytes a.text)) };
}

impl Path {
    /// The path with this text. `Bad` exactly where the text isn't that of a path.
    pub fn read(alloc: Global, text: &str) -> Result<Self, TextFault>
        ensures value { IfOk result (λ path. path ≡ text.now) }
        ensures ok { OnOk result (IsTrue (is_path text.now)) }
        ensures bad { IsErrOf result TextFault.Bad ↔ (is_path text.now ≡ false) }
    {
        if !path_grammar::is_path(text) {
            return Err(TextFault::Bad);
        }
        Ok(Path {
            text: String::from_str(alloc, text)?,
        })
    }

    /// The path with these bytes as its text. `Bad` exactly where they aren't those of a path.
    #[tactic(auto, using(crate::proofs::Utf8::no_path))]
    pub fn read_bytes(alloc: Global, bytes: &[u8]) -> Result<Self, TextFault>
        ensures value { IfOk result (λ path. path ≡ bytes.now) }
        ensures ok { OnOk result (IsTrue (is_path bytes.now)) }
        ensures bad { IsErrOf result TextFault.Bad ↔ (is_path bytes.now ≡ false) }
    {
        Path::read(alloc, text_of(bytes).ok_or(TextFault::Bad)?)
    }

    /// The text of the path.
    pub fn text(&self) -> &str
        ensures value { result.now ≡ self.now }
        ensures path { IsTrue (is_path result.now) }
    {
        self.text.as_str()
    }

    /// The text of the path without its last name; `/` has none.
    pub fn parent(&self) -> Option<&str>
        ensures some { IfSome result (λ text. text.now ≡ parent self.now) }
        ensures none { IsNone result ↔ (self.now ≡ root) }
        ensures path { IsTrue (is_path self.now) }
    {
        let text = self.text.as_str();
        if text.len() == 1 {
            return None;
        }
        Some(path_grammar::parent_of(text))
    }

    /// The path without its last name; `/` has none.
    #[tactic(auto, using(crate::proofs::Parent::parent_is_path))]
    pub fn parent_path(&self, alloc: Global) -> Result<Option<Path>, OutOfMemory>
        ensures some { IfOk result (λ above. IfSome above (λ path. path ≡ parent self.now)) }
        ensures none { IfOk result (λ above. IsNone above ↔ (self.now ≡ root)) }
    {
        match self.parent() {
            None => Ok(None),
            Some(text) => Ok(Some(Path {
                text: String::from_str(alloc, text)?,
            })),
        }
    }

    /// The path and a last name, joined by a slash. `Bad` exactly where the result isn't a path.
    pub fn join(&self, alloc: Global, last: &str) -> Result<Path, TextFault>
        ensures value { IfOk result (λ path. path ≡ join self.now last.now) }
        ensures ok { OnOk result (IsTrue (is_path (join self.now last.now))) }
        ensures bad { IsErrOf result TextFault.Bad ↔ (is_path (join self.now last.now) ≡ false) }
    {
        if !path_grammar::can_join(self.text.as_str(), last) {
            return Err(TextFault::Bad);
        }
        let mut text = String::from_str(alloc, self.text.as_str())?;
        if text.len() > 1 {
            text.push('/')?;
        }
        text.push_str(last)?;
        Ok(Path { text })
    }

    /// Whether the path is the private directory of the program's database, or lies below it.
    pub fn is_reserved(&self) -> bool
        ensures { result ≡ is_reserved self.now }
    {
        path_grammar::is_reserved(self.text.as_str())
    }

    /// Whether no trove may record the path: it is reserved, or pinned and recorded as no directory.
    pub fn is_forbidden(&self, is_dir: bool) -> bool
        ensures { result ≡ is_forbidden self.now is_dir }
    {
        self.is_reserved() || (self.is_pinned() && !is_dir)
    }

    /// Whether the path is one of those above the private directory, which are always directories.
    pub fn is_pinned(&self) -> bool
        ensures { result ≡ is_pinned self.now }
    {
        path_grammar::is_pinned(self.text.as_str())
    }
}

impl Copies for Path {
    fn copy(&self) -> Result<Self, OutOfMemory> {
        Ok(Path {
            text: self.text.clone()?,
        })
    }
}

// Paths are equal where their bytes are, and their order is that of their bytes.
impl PartialEq for Path {
    ghost eq = { bytes_eq };

    ghost laws = { partial_equiv_from_equiv nat_list_eq_equiv };

    fn eq(&self, other: &Path) -> bool {
        self.text.as_str() == other.text.as_str()
    }
}

impl Eq for Path {
    ghost laws = { nat_list_eq_equiv };
}

impl PartialOrd for Path {
    ghost partial_cmp = { λ x y. Some (slice_cmp nat_cmp x y) };

    ghost laws = { texts_po };

    fn partial_cmp(&self, other: &Path) -> Option<Ordering> {
        Some(self.cmp(other))
    }
}

impl Ord for Path {
    ghost cmp = { slice_cmp nat_cmp };

    ghost total = { nat_list_cmp_total };

    ghost matches_partial_cmp = { λ x y. refl };

    ghost matches_eq = { texts_ties };

    fn cmp(&self, other: &Path) -> Ordering {
        self.text.as_str().cmp(other.text.as_str())
    }
}
