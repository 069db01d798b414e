//! The lines in front of the entries.
ghost use Rattle.std.specs.Prelude.{◌≡◌, ℕ, ◌∷◌, [], ◌++◌, false, All, Contains, IfErr, IfOk, IsTrue, List, OnOk};
ghost use Rattle.cny_dep.specs.Dep.{Dependency};
ghost use Rattle.cny_dep.specs.Spelling.{IsRelaxedText};
ghost use Rattle.cny_dep.specs.declared.parts.Parts.{Parts};
ghost use Rattle.cny_version.specs.Version.{WholeVersion};
ghost use Rattle.manifest_troves.specs.cny-base.Name.{is_name, kind_of_name};
ghost use Rattle.cny_manifest.specs.Body.{is_group_kind};
ghost use Rattle.cny_manifest.specs.Grammar.{kind_word, IsDepField, IsLine, IsVersionField};
ghost use Rattle.cny_manifest.specs.Spelling.{IsOwnLine};
ghost use Rattle.cny_pack.specs.Causes.{CanName, CanVersion, CanFlavor, CanFlavorPart, CanId, CanOwn, CanDep, HasBadDep, AreGood};
ghost use Rattle.cny_pack.specs.Halts as halts;
ghost use Rattle.cny_pack.specs.Halts.{IsUnread, IsHeadStop};
ghost use Rattle.cny_pack.specs.declared.head.DepWords.{DepWords};
ghost use Rattle.cny_pack.specs.Head.{AddsLine, AddsName, AddsVersion, AddsFlavor, AddsFlavorPart, AddsId, AddsDep, AddsDeps, AddsGiven, AreDeps, HasLine, SaysDep, dep_line_of, IsHead};

use crate::lines::is_line;
use crate::stop::{BadWord, PackStop};
use cny_dep::{Dep, Flavor};
use cny_manifest::is_own;
use cny_version::Version;
use manifest_troves::trove_parts::TroveId;
use manifest_troves::{DepLine, DepLines};
use std::alloc::Global;
use std::collections::BTreeSet;
use tree_disk::cny_base::{Bytes, Name, NameKind, TextFault};

// Components and dependencies, each pair once, by the names and then by the dependencies' texts.
type DepSet = BTreeSet<(Name, Dep)>;

/// A component and what it requires or provides, as they were given.
#[derive(Clone, Copy)]
pub struct DepWords<'a> {
    pub component: &'a str,
    pub dep: &'a str,
}

/// What a manifest says in front of its entries, as it was given.
#[derive(Clone, Copy)]
pub struct Words<'a> {
    /// Of a component, or of a package.
    pub name: &'a str,
    /// Its labels may be abbreviated.
    pub version: &'a str,
    pub flavor: Option<&'a str>,
    /// In any order, and of what is given twice once.
    pub requires_: &'a [DepWords<'a>],
    /// The same.
    pub provides: &'a [DepWords<'a>],
}

/// The lines in front of the entries, and what they say.
#[derive(Drop)]
pub(crate) struct Head {
    pub(crate) text: Bytes,
    pub(crate) id: TroveId,
    pub(crate) requires_: DepLines,
    pub(crate) provides: DepLines,
}

// What a word that isn't read makes of it all.
fn unread(fault: TextFault, word: BadWord) -> PackStop
    ensures { result ≡ halts.unread fault word }
{
    match fault {
        TextFault::Bad => PackStop::Word(word),
        TextFault::Memory => PackStop::Memory,
    }
}

// Appends a line and its line feed.
fn push_line(text: &mut Bytes, line: Bytes, word: BadWord) -> Result<(), PackStop>
    ensures added { OnOk result (AddsLine line text.old text.new) }
    ensures refused { IfErr result (IsUnread word (IsLine line → ⊥)) }
{
    if !is_line(line.get()) {
        return Err(PackStop::Word(word));
    }
    text.push_slice(line.get())?;
    Ok(text.push_slice(b"\n")?)
}

// The word in front of a name, and the space behind it.
fn kind_front(name: &Name) -> Result<&'static [u8], PackStop>
    ensures front { IfOk result (λ front. front.now ≡ kind_word (kind_of_name name.now) ++ 32 ∷ []) }
    ensures no_group { OnOk result (is_group_kind (kind_of_name name.now) ≡ false) }
    ensures refused { IfErr result (IsUnread BadWord.Name (is_group_kind (kind_of_name name.now) ≡ false → ⊥)) }
{
    match name.kind() {
        NameKind::Component => Ok(b"component "),
        NameKind::Package => Ok(b"package "),
        NameKind::Group => Err(PackStop::Word(BadWord::Name)),
    }
}

// The name with this text.
fn name_of(alloc: Global, text: &str, word: BadWord) -> Result<Name, PackStop>
    ensures value { IfOk result (λ name. name ≡ text.now) }
    ensures named { OnOk result (IsTrue (is_name text.now)) }
    ensures refused { IfErr result (IsUnread word (IsTrue (is_name text.now) → ⊥)) }
{
    match Name::read(alloc, text) {
        Ok(name) => Ok(name),
        Err(fault) => Err(unread(fault, word)),
    }
}

// The version with this text.
fn version_of(alloc: Global, text: &str) -> Result<Version, PackStop>
    ensures is { IfOk result (IsVersionField text.now) }
    ensures refused { IfErr result (IsUnread BadWord.Version ((version : WholeVersion) → IsVersionField text.now version → ⊥)) }
{
    match Version::read(alloc, text) {
        Ok(version) => Ok(version),
        Err(fault) => Err(unread(fault, BadWord::Version)),
    }
}

// The flavor with this text.
fn flavor_of(alloc: Global, text: &str) -> Result<Flavor, PackStop>
    ensures is { IfOk result (IsRelaxedText text.now) }
    ensures only { IfOk result (λ flavor. (parts : Parts) → IsRelaxedText text.now parts → flavor ≡ parts) }
    ensures refused { IfErr result (IsUnread BadWord.Flavor ((parts : Parts) → IsRelaxedText text.now parts → ⊥)) }
{
    match Flavor::read(alloc, text) {
        Ok(flavor) => Ok(flavor),
        Err(fault) => Err(unread(fault, BadWord::Flavor)),
    }
}

// The dependency with this text.
fn dep_of(alloc: Global, text: &str, word: BadWord) -> Result<Dep, PackStop>
    ensures is { IfOk result (IsDepField text.now) }
    ensures refused { IfErr result (IsUnread word ((dep : Dependency) → IsDepField text.now dep → ⊥)) }
{
    match Dep::read(alloc, text) {
        Ok(dep) => Ok(dep),
        Err(fault) => Err(unread(fault, word)),
    }
}

// The name of a component or a package, and its line.
fn push_name(alloc: Global, text: &mut Bytes, word: &str) -> Result<Name, PackStop>
    ensures added { IfOk result (AddsName word.now text.old text.new) }
    ensures refused { IfErr result (IsUnread BadWord.Name (CanName word.now → ⊥)) }
{
    let name = name_of(alloc, word, BadWord::Name)?;
    let mut line = Bytes::new(alloc, kind_front(&name)?)?;
    line.push_slice(word.as_bytes())?;
    push_line(text, line, BadWord::Name)?;
    Ok(name)
}

fn push_version(alloc: Global, text: &mut Bytes, word: &str) -> Result<Version, PackStop>
    ensures added { IfOk result (AddsVersion word.now text.old text.new) }
    ensures refused { IfErr result (IsUnread BadWord.Version (CanVersion word.now → ⊥)) }
{
    let version = version_of(alloc, word)?;
    let mut line = Bytes::new(alloc, b"version ")?;
    line.push_slice(word.as_bytes())?;
    push_line(text, line, BadWord::Version)?;
    Ok(version)
}

// The flavor that was given, and its line. It isn't empty.
fn push_flavor(alloc: Global, text: &mut Bytes, word: &str) -> Result<Flavor, PackStop>
    ensures added { IfOk result (AddsFlavor word.now text.old text.new) }
    ensures refused { IfErr result (IsUnread BadWord.Flavor (CanFlavor word.now → ⊥)) }
{
    let flavor = flavor_of(alloc, word)?;
    if flavor.text().is_empty() {
        return Err(PackStop::Word(BadWord::Flavor));
    }
    let mut line = Bytes::new(alloc, b"flavor ")?;
    line.push_slice(word.as_bytes())?;
    push_line(text, line, BadWord::Flavor)?;
    Ok(flavor)
}

// The flavor, and its line; no line where none was given.
fn push_flavor_part(alloc: Global, text: &mut Bytes, word: Option<&str>) -> Result<Flavor, PackStop>
    ensures added { IfOk result (AddsFlavorPart word.entry text.old text.new) }
    ensures can { OnOk result (CanFlavorPart word.entry) }
    ensures refused { IfErr result (IsUnread BadWord.Flavor (CanFlavorPart word.entry → ⊥)) }
{
    match word {
        None => Ok(Flavor::empty(alloc)?),
        Some(word) => push_flavor(alloc, text, word),
    }
}

// The first lines, up to that of the flavor.
fn push_id(alloc: Global, text: &mut Bytes, words: Words<'_>) -> Result<TroveId, PackStop>
    ensures added { IfOk result (AddsId words.entry text.old text.new) }
    ensures can { OnOk result (CanId words.entry) }
    ensures refused { IfErr result (IsHeadStop words.entry) }
{
    let name = push_name(alloc, text, words.name)?;
    let version = push_version(alloc, text, words.version)?;
    let flavor = push_flavor_part(alloc, text, words.flavor)?;
    Ok(TroveId {
        name,
        version,
        flavor,
    })
}

// A component of its own, and a dependency.
fn own_dep(
    alloc: Global,
    whole: &Name,
    words: DepWords<'_>,
    word: BadWord,
) -> Result<(Name, Dep), PackStop>
    ensures says { IfOk result (λ pair. SaysDep words.entry (dep_line_of pair)) }
    ensures own { IfOk result (λ pair. IsOwnLine whole.now (dep_line_of pair)) }
    ensures refused { IfErr result (IsUnread word (CanOwn whole.now words.entry → ⊥)) }
{
    let name = name_of(alloc, words.component, word)?;
    let dep = dep_of(alloc, words.dep, word)?;
    if !is_own(whole, &name) {
        return Err(PackStop::Word(word));
    }
    Ok((name, dep))
}

// What is required, or what is provided.
fn own_deps(
    alloc: Global,
    whole: &Name,
    given: &[DepWords<'_>],
    word: BadWord,
) -> Result<DepSet, PackStop>
    ensures are { IfOk result (λ deps. AreDeps whole.now given.now deps.keys) }
    ensures refused { IfErr result (IsUnread word ((words : DepWords) × Contains given.now words × (CanOwn whole.now words → ⊥))) }
{
    let mut deps = BTreeSet::new(alloc);
    for words in given {
        deps.insert(own_dep(alloc, whole, *words, word)?)?;
    }
    Ok(deps)
}

// The line of a component and a dependency.
fn push_dep(
    alloc: Global,
    text: &mut Bytes,
    front: &[u8],
    name: &Name,
    dep: &Dep,
    word: BadWord,
) -> Result<(), PackStop>
    ensures added { OnOk result (AddsDep front.now (record { name = name.now; dep = dep.now }) text.old text.new) }
    ensures refused { IfErr result (IsUnread word (HasLine front.now (record { name = name.now; dep = dep.now }) → ⊥)) }
{
    let mut line = Bytes::new(alloc, front)?;
    line.push_slice(b" ")?;
    line.push_slice(name.text().as_bytes())?;
    line.push_slice(b" ")?;
    line.push_slice(dep.text().as_bytes())?;
    push_line(text, line, word)?;
    Ok(())
}

// What is required, or provided, and the lines.
fn push_deps(
    alloc: Global,
    text: &mut Bytes,
    front: &[u8],
    deps: DepSet,
    word: BadWord,
) -> Result<DepLines, PackStop>
    ensures added { IfOk result (λ lines. AddsDeps front.now deps.keys text.old text.new lines) }
    ensures refused { IfErr result (IsUnread word ((pair : List ℕ × Dependency) × Contains deps.keys pair × (HasLine front.now (dep_line_of pair) → ⊥))) }
{
    let mut lines = Vec::new(alloc);
    for (name, dep) in deps {
        push_dep(alloc, text, front, &name, &dep, word)?;
        lines.push(DepLine { name, dep })?;
    }
    Ok(DepLines::new(lines))
}

// The given of one kind, and their lines.
fn push_given(
    alloc: Global,
    text: &mut Bytes,
    whole: &Name,
    front: &[u8],
    given: &[DepWords<'_>],
    word: BadWord,
) -> Result<DepLines, PackStop>
    ensures added { IfOk result (AddsGiven whole.now front.now given.now text.old text.new) }
    ensures can { OnOk result (All (CanDep front.now whole.now) given.now) }
    ensures refused { IfErr result (IsUnread word (HasBadDep front.now whole.now given.now)) }
{
    let deps = own_deps(alloc, whole, given, word)?;
    push_deps(alloc, text, front, deps, word)
}

/// The lines in front of the entries that these words give. Refused just where one of the words can't stand there: the first such.
pub(crate) fn head_of(alloc: Global, words: Words<'_>) -> Result<Head, PackStop>
    ensures head { IfOk result (IsHead words.entry) }
    ensures good { OnOk result (AreGood words.entry) }
    ensures refused { IfErr result (IsHeadStop words.entry) }
{
    let mut text = Bytes::new(alloc, b"manifest 2\n")?;
    let id = push_id(alloc, &mut text, words)?;
    let requires_ = push_given(
        alloc,
        &mut text,
        &id.name,
        b"requires",
        words.requires_,
        BadWord::Requires,
    )?;
    let provides = push_given(
        alloc,
        &mut text,
        &id.name,
        b"provides",
        words.provides,
        BadWord::Provides,
    )?;
    Ok(Head {
        text,
        id,
        requires_,
        provides,
    })
}
