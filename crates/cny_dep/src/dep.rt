//! Dependencies.
ghost use Rattle.std.specs.Prelude.{◌≡◌, ◌↔◌, List, ℕ, Option, [], IfOk, Some, IsErrOf, IsTrue, refl};
ghost use Rattle.std.specs.Cmp.{partial_equiv_from_equiv};
ghost use Rattle.std.specs.Cmp.Lexicographic.{nat_list_eq_equiv, nat_list_cmp_total};
ghost use Rattle.std.specs.declared.cmp.Ordering.TheVariants.{Equal};
ghost use Rattle.std.proofs.lemmas.Cmp.{on_equiv, on_total};
ghost use Rattle.cny_dep.specs.declared.class.Class.TheVariants.{Trove};
ghost use Rattle.cny_dep.specs.Dep.{Dependency, IsDependency, dep_text, with_group};
ghost use Rattle.cny_dep.specs.Listing.{group_text};
ghost use Rattle.cny_dep.specs.Part.{is_dep_name};
ghost use Rattle.cny_dep.specs.Order.{dep_eq, dep_cmp, dep_po, dep_ties};
ghost use Rattle.cny_dep.specs.Relaxed.{IsRelaxedText};

use crate::class::Class;
use crate::flag::{Flag, is_dep_name};
use crate::reading::{class_and_rest, listed_flags, name_and_group};
use crate::writing::text_of;
use cny_base::{Copies, ListOf, Name, OutOfMemory, Text, TextFault};
use std::alloc::Global;
use std::cmp::Ordering;
use std::marker::Model;

/// What a trove requires or provides: a class, a name and at most 64 flags, each above the one
/// before it by its bytes. A name is 1 to 1,024 bytes of visible ASCII without `(`, `)` and `,`,
/// a flag 1 to 255 of them.
pub struct Dep {
    class: Class,
    name: Text,
    flags: ListOf<Flag>,
    text: Text,
}

impl Model for Dep {
    ghost use Rattle.cny_dep.specs.Dep.{Dependency, IsWritten};

    ghost Value = { Dependency };

    ghost view = { λ a. record { class = a.class; name = a.name; flags = a.flags } };

    ghost invariant = { λ a. IsWritten (record { class = a.class; name = a.name; flags = a.flags }) a.text };
}

// Written by hand, so that to let a value go is a single call wherever a function ends early.
impl Drop for Dep {
    fn drop(self) {
        let Dep {
            class: _class,
            name: _name,
            flags: _flags,
            text: _text,
        } = self;
    }
}

impl Dep {
    // The dependency of these parts.
    fn make(alloc: Global, class: Class, name: &str, flags: Vec<Flag>) -> Result<Self, OutOfMemory>
        requires { IsDependency (record { class = class; name = name.now; flags = flags.items }) }
        ensures { IfOk result (λ dep. dep ≡ record { class = class; name = name.now; flags = flags.items }) }
    {
        let text = text_of(alloc, class, name, flags.as_slice())?;
        Ok(Dep {
            class,
            name: Text::new(alloc, name)?,
            flags: ListOf::new(flags),
            text,
        })
    }

    /// The dependency that the text stands for, where its flags may come in any order, and each
    /// two have one space or one comma between them. `Bad` only where it stands for none; always
    /// where it isn't a class, `: ` and a name, with or without something in parentheses behind
    /// it, while for wrong flags in them want of memory may be answered instead.
    pub fn read(alloc: Global, text: &str) -> Result<Self, TextFault>
        ensures value { IfOk result (λ dep. IsRelaxedText text.now dep) }
        ensures ok { IfOk result IsDependency }
        ensures bad { IsErrOf result TextFault.Bad
            → (dep : Dependency) → IsDependency dep → IsRelaxedText text.now dep → ⊥ }
        ensures early { ((class : Class) (name : List ℕ) (group : Option (List ℕ)) → IsTrue (is_dep_name name)
            → text.now ≡ with_group class name (group_text group) → ⊥) → IsErrOf result TextFault.Bad }
        // The text stands for no other dependency.
        ensures only { IfOk result (λ read.
            (dep : Dependency) → IsDependency dep → IsRelaxedText text.now dep → read ≡ dep) }
    {
        let (class, rest) = class_and_rest(text).ok_or(TextFault::Bad)?;
        let (name, group) = name_and_group(rest).ok_or(TextFault::Bad)?;
        if !is_dep_name(name.as_bytes()) {
            return Err(TextFault::Bad);
        }
        let flags = listed_flags(alloc, group)?;
        Ok(Dep::make(alloc, class, name, flags)?)
    }

    /// The dependency whose canonical text this is: its flags rise, and one space stands between
    /// each two. `Bad` only where it is the canonical text of none; always where it isn't a class,
    /// `: ` and a name, with or without something in parentheses behind it, while for wrong flags
    /// in them want of memory may be answered instead.
    pub fn read_whole(alloc: Global, text: &str) -> Result<Self, TextFault>
        ensures value { IfOk result (λ dep. text.now ≡ dep_text dep) }
        ensures ok { IfOk result IsDependency }
        ensures bad { IsErrOf result TextFault.Bad
            → (dep : Dependency) → IsDependency dep → text.now ≡ dep_text dep → ⊥ }
        ensures early { ((class : Class) (name : List ℕ) (group : Option (List ℕ)) → IsTrue (is_dep_name name)
            → text.now ≡ with_group class name (group_text group) → ⊥) → IsErrOf result TextFault.Bad }
        // The text is that of no other dependency.
        ensures only { IfOk result (λ read.
            (dep : Dependency) → IsDependency dep → text.now ≡ dep_text dep → read ≡ dep) }
    {
        let dep = Dep::read(alloc, text)?;
        if dep.text() != text {
            return Err(TextFault::Bad);
        }
        Ok(dep)
    }

    /// What each trove of this name provides: the class `trove`, the name, and no flags.
    pub fn of_trove(alloc: Global, name: &Name) -> Result<Self, OutOfMemory>
        ensures value { IfOk result (λ dep. dep ≡ record { class = Trove; name = name.now; flags = [] }) }
        ensures ok { IfOk result IsDependency }
    {
        Dep::make(alloc, Class::Trove, name.text(), Vec::new(alloc))
    }

    /// The class.
    pub fn class(&self) -> Class
        ensures { result ≡ self.now.class }
    {
        self.class
    }

    /// The name.
    pub fn name(&self) -> &str
        ensures { result.now ≡ self.now.name }
    {
        self.name.get()
    }

    /// The flags, in rising order.
    pub fn flags(&self) -> &[Flag]
        ensures value { result.now ≡ self.now.flags }
        ensures dependency { IsDependency self.now }
    {
        self.flags.get()
    }

    /// The canonical text.
    pub fn text(&self) -> &str
        ensures value { result.now ≡ dep_text self.now }
        ensures dependency { IsDependency self.now }
        // No other dependency has this text.
        ensures only { (dep : Dependency) → IsDependency dep → result.now ≡ dep_text dep → self.now ≡ dep }
    {
        self.text.get()
    }

    /// Which of the two comes first; neither only where they are one.
    pub fn order(&self, other: &Dep) -> Ordering
        ensures order { result ≡ dep_cmp self.now other.now }
        ensures equal { result ≡ Equal → self.now ≡ other.now }
    {
        self.text().cmp(other.text())
    }

    /// Whether the two are equal.
    pub fn is_same(&self, other: &Dep) -> bool
        ensures { IsTrue result ↔ (self.now ≡ other.now) }
    {
        self.text() == other.text()
    }

    /// A copy of the canonical text.
    pub fn write(&self) -> Result<Text, OutOfMemory>
        ensures value { IfOk result (λ text. text ≡ dep_text self.now) }
        ensures dependency { IsDependency self.now }
    {
        self.text.copy()
    }
}

impl Copies for Dep {
    fn copy(&self) -> Result<Self, OutOfMemory> {
        Ok(Dep {
            class: self.class,
            name: self.name.copy()?,
            flags: self.flags.copy()?,
            text: self.text.copy()?,
        })
    }
}

// Dependencies are equal where their canonical texts are, and their order is that of their texts.
impl PartialEq for Dep {
    ghost eq = { dep_eq };

    ghost laws = { partial_equiv_from_equiv (on_equiv dep_text nat_list_eq_equiv) };

    fn eq(&self, other: &Dep) -> bool {
        self.text == other.text
    }
}

impl Eq for Dep {
    ghost laws = { on_equiv dep_text nat_list_eq_equiv };
}

impl PartialOrd for Dep {
    ghost partial_cmp = { λ x y. Some (dep_cmp x y) };

    ghost laws = { dep_po };

    fn partial_cmp(&self, other: &Dep) -> Option<Ordering> {
        Some(self.cmp(other))
    }
}

impl Ord for Dep {
    ghost cmp = { dep_cmp };

    ghost total = { on_total dep_text nat_list_cmp_total };

    ghost matches_partial_cmp = { λ x y. refl };

    ghost matches_eq = { dep_ties };

    fn cmp(&self, other: &Dep) -> Ordering {
        self.text.get().cmp(other.text.get())
    }
}
