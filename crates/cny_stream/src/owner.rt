//! Owners of files and directories.
ghost use Rattle.std.specs.Prelude.{◌≡◌, ◌↔◌, true, false, IfOk, IsErrOf, IsTrue};
ghost use Rattle.std.specs.Cmp.{partial_equiv_from_equiv};
ghost use Rattle.cny_stream.specs.Owner as spec;
ghost use Rattle.cny_stream.specs.Owner.{is_owner, owner_eq, owner_equiv};

use cny_base::{Copies, OutOfMemory, Text, TextFault, is_word};
use std::alloc::Global;
use std::marker::Model;

// The user and the group of root.
pub(crate) const ROOT: &str = "root";

/// The user and the group that own a file or a directory, each a word of at most 32 bytes.
// Root's names aren't kept, so that most owners take no memory.
pub struct Owner {
    named: Option<(Text, Text)>,
}

// Written by hand, so that to let a value go is a single call.
impl Drop for Owner {
    fn drop(self) {
        let Owner { named: _named } = self;
    }
}

impl Model for Owner {
    ghost use Rattle.std.specs.Prelude.{IsTrue};
    ghost use Rattle.cny_stream.specs.Owner.{OwnerNames, names_of, is_owner};

    ghost Value = { OwnerNames };

    ghost view = { λ a. names_of a.named };

    ghost invariant = { λ a. IsTrue (is_owner (names_of a.named)) };
}

impl Owner {
    /// The owner of these names. `Bad` exactly where one isn't a word of at most 32 bytes.
    pub fn new(alloc: Global, user: &str, group: &str) -> Result<Self, TextFault>
        ensures value { IfOk result (λ owner. owner ≡ record { user = user.now; group = group.now }) }
        ensures bad { IsErrOf result TextFault.Bad ↔ (is_owner (record { user = user.now; group = group.now }) ≡ false) }
    {
        if !is_owner_word(user) || !is_owner_word(group) {
            return Err(TextFault::Bad);
        }
        Ok(Owner::of_words(alloc, user, group, are_root(user, group))?)
    }

    // The owner of these words, of which it is known whether they are root's.
    pub(crate) fn of_words(
        alloc: Global,
        user: &str,
        group: &str,
        is_root: bool,
    ) -> Result<Self, OutOfMemory>
        requires owner { is_owner (record { user = user.now; group = group.now }) ≡ true }
        requires root { is_root ≡ spec.is_root (record { user = user.now; group = group.now }) }
        ensures { IfOk result (λ owner. owner ≡ record { user = user.now; group = group.now }) }
    {
        if is_root {
            return Ok(Owner { named: None });
        }
        let user = Text::new(alloc, user)?;
        let group = Text::new(alloc, group)?;
        Ok(Owner {
            named: Some((user, group)),
        })
    }

    /// The user.
    pub fn user(&self) -> &str
        ensures value { result.now ≡ self.now.user }
        ensures owner { IsTrue (is_owner self.now) }
    {
        match &self.named {
            None => ROOT,
            Some((user, _)) => user.get(),
        }
    }

    /// The group.
    pub fn group(&self) -> &str
        ensures value { result.now ≡ self.now.group }
        ensures owner { IsTrue (is_owner self.now) }
    {
        match &self.named {
            None => ROOT,
            Some((_, group)) => group.get(),
        }
    }

    /// Whether user and group are both `root`.
    pub fn is_root(&self) -> bool
        ensures value { result ≡ spec.is_root self.now }
        ensures owner { IsTrue (is_owner self.now) }
    {
        match &self.named {
            None => true,
            Some((user, group)) => are_root(user.get(), group.get()),
        }
    }
}

impl Copies for Owner {
    fn copy(&self) -> Result<Self, OutOfMemory> {
        Ok(Owner {
            named: match &self.named {
                None => None,
                Some((user, group)) => Some((user.copy()?, group.copy()?)),
            },
        })
    }
}

// Owners are equal where their names are.
impl PartialEq for Owner {
    ghost eq = { owner_eq };

    ghost laws = { partial_equiv_from_equiv owner_equiv };

    fn eq(&self, other: &Owner) -> bool {
        if self.named.is_none() && other.named.is_none() {
            return true;
        }
        self.user() == other.user() && self.group() == other.group()
    }
}

impl Eq for Owner {
    ghost laws = { owner_equiv };
}

/// Whether the names are root's.
pub(crate) fn are_root(user: &str, group: &str) -> bool
    ensures { result ≡ spec.is_root (record { user = user.now; group = group.now }) }
{
    user == ROOT && group == ROOT
}

/// Whether the text is a word of at most 32 bytes.
pub(crate) fn is_owner_word(text: &str) -> bool
    ensures { result ≡ spec.is_owner_word text.now }
{
    let word = is_word(text.as_bytes());
    text.len() <= 32 && word
}
