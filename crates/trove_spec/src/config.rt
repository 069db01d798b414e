//! The configuration.
ghost use Rattle.std.specs.Prelude.{◌≡◌, ◌+◌, ◌-◌, ◌^◌, ◌<◌, ◌≤◌, ◌==◌, ◌↔◌, false, not, IsTrue, IfOk, IfErr, IsErrOf, List, length, map, filter};
ghost use Rattle.std.specs.List.{AllZip, slice_split, take_while};
ghost use Rattle.repo_index.specs.cny-base.declared.limits.TheConstants.{CONFIG_LIMIT};
ghost use Rattle.repo_index.specs.cny-base.declared.refusal.Fault.TheVariants as fault;
ghost use Rattle.repo_index.specs.cny-base.declared.refusal.Refusal.TheVariants as refusal;
ghost use Rattle.cny_version.specs.Label.{LabelParts};
ghost use Rattle.trove_spec.specs.Config as spec;
ghost use Rattle.trove_spec.specs.Config.{is_word_there, IsTextOf, IsPathSetting, IsRelaxedSetting, IsFlavorSetting, IsSetting, IsConfigOf, IsBadConfigOrMemory, no_config, with_setting, lines_of, is_before_section, as_space, without_front};
ghost use Rattle.trove_spec.specs.declared.config.Config.{Config};
ghost use Rattle.trove_spec.specs.declared.config.Setting.{Setting};

use crate::line::{behind, pieces_of, trim_front, trimmed};
use cny_dep::Flavor;
use cny_version::{Label, distinct_texts};
use repo_index::cny_base::{
    Copies, Fault, ListOf, OutOfMemory, Refusal, TextFault, copies_of, text_of,
};
use std::alloc::{AllocError, Global};

/// A list of labels.
pub type Labels = ListOf<Label>;

/// What the configuration file says: the labels on which a trove is looked for, in their order, and the system's flavor.
pub struct Config {
    pub labels: Labels,
    pub flavor: Flavor,
}

// What a line of the file says.
pub(crate) enum Setting {
    // Nothing: its first word is no key.
    Skipped,
    LabelPath(Labels),
    SystemFlavor(Flavor),
}

// Written by hand, so that to let a value go is a single call wherever a function ends early.
impl Drop for Setting {
    fn drop(self) {
        match self {
            Setting::Skipped => {}
            Setting::LabelPath(_labels) => {}
            Setting::SystemFlavor(_flavor) => {}
        }
    }
}

impl Setting {
    // Puts what the line says into a configuration.
    fn put(self, config: &mut Config)
        ensures { config.new ≡ with_setting config.old self }
    {
        match self {
            Setting::Skipped => {}
            Setting::LabelPath(labels) => config.labels = labels,
            Setting::SystemFlavor(flavor) => config.flavor = flavor,
        }
    }
}

// Written by hand, so that to let a value go is a single call wherever a function ends early.
impl Drop for Config {
    fn drop(self) {
        let Config {
            labels: _labels,
            flavor: _flavor,
        } = self;
    }
}

impl Config {
    /// The configuration without labels, with the empty flavor.
    pub fn empty(alloc: Global) -> Result<Self, OutOfMemory>
        ensures { IfOk result (λ config. config ≡ no_config) }
    {
        Ok(Config {
            labels: Labels::new(Vec::new(alloc)),
            flavor: Flavor::empty(alloc)?,
        })
    }

    /// What the bytes of a configuration file say, of which there are at most 65,536. Of a key that comes several times the last
    /// line counts. `BadConfig` exactly where a line with a key isn't in its grammar, with the number of the first such line.
    pub fn read(alloc: Global, bytes: &[u8]) -> Result<Self, Fault>
        requires { length bytes.now ≤ CONFIG_LIMIT }
        ensures value { IfOk result (IsConfigOf (lines_of bytes.now)) }
        // They say no other configuration.
        ensures only { IfOk result (λ config. (other : Config) → IsConfigOf (lines_of bytes.now) other → config ≡ other) }
        ensures fault { IfErr result (IsBadConfigOrMemory (lines_of bytes.now)) }
    {
        let pieces = pieces_of(alloc, bytes)?;
        config_of(alloc, before_section(pieces.as_slice()))
    }

    /// An equal configuration.
    pub fn copy(&self, alloc: Global) -> Result<Self, OutOfMemory>
        ensures { IfOk result (λ made. made ≡ self.now) }
    {
        Ok(Config {
            labels: Labels::new(copies_of(alloc, self.labels.get())?),
            flavor: self.flavor.copy()?,
        })
    }
}

fn begins_with_bracket(line: &[u8]) -> bool
    ensures { result ≡ spec.begins_with_bracket line.now }
{
    match line {
        [] => false,
        [first, ..] => *first == b'[',
    }
}

// The bytes behind their first blanks, with tabs read as spaces.
fn spaced(alloc: Global, bytes: &[u8]) -> Result<Vec<u8>, OutOfMemory>
    ensures { IfOk result (λ text. text.items ≡ map as_space (without_front bytes.now)) }
{
    let bytes = trim_front(bytes);
    Ok(
        bytes
            .iter()
            .map(|byte| if *byte == b'\t' { b' ' } else { *byte })
            .collect(alloc)?,
    )
}

// The pieces between the spaces of a text.
fn words_of(alloc: Global, text: &str) -> Result<Vec<&str>, AllocError>
    ensures { IfOk result (λ words. map (λ word. word.now) words.items ≡ slice_split (λ b. b == 32) text.now) }
{
    text.split(' ').collect(alloc)
}

// Whether another label would be one too many.
fn are_most(labels: &[Label]) -> bool
    ensures { IsTrue result ↔ (64 ≤ length labels.now) }
{
    labels.len() >= 64
}

// The labels of the words that aren't empty, at most 64.
fn labels_of(alloc: Global, words: &[&str]) -> Result<Labels, TextFault>
    ensures found { IfOk result (AllZip IsTextOf (filter is_word_there (map (λ word. word.now) words.now))) }
    ensures few { IfOk result (λ labels. length labels ≤ 64) }
    ensures bad { IsErrOf result TextFault.Bad → (labels : List LabelParts)
        → AllZip IsTextOf (filter is_word_there (map (λ word. word.now) words.now)) labels → length labels ≤ 64 → ⊥ }
{
    let mut labels = Vec::new(alloc);
    for word in words {
        if !word.is_empty() {
            if are_most(labels.as_slice()) {
                return Err(TextFault::Bad);
            }
            match Label::read(alloc, *word) {
                Ok(label) => labels.push(label)?,
                Err(fault) => return Err(fault),
            }
        }
    }
    Ok(Labels::new(labels))
}

// What a line that begins with the key of the label path sets.
fn path_setting(alloc: Global, value: &[u8]) -> Result<Setting, TextFault>
    ensures found { IfOk result (IsPathSetting (map as_space (without_front value.now))) }
    ensures only { IfOk result (λ made. (setting : Setting) → IsPathSetting (map as_space (without_front value.now)) setting → made ≡ setting) }
    ensures bad { IsErrOf result TextFault.Bad → (setting : Setting) → IsPathSetting (map as_space (without_front value.now)) setting → ⊥ }
{
    // No two labels have one text.
    distinct_texts();
    let bytes = spaced(alloc, value)?;
    let Some(text) = text_of(bytes.as_slice()) else {
        return Err(TextFault::Bad);
    };
    let words = words_of(alloc, text)?;
    Ok(Setting::LabelPath(labels_of(alloc, words.as_slice())?))
}

// The flavor with this relaxed text, as what a line sets.
fn relaxed_setting(alloc: Global, text: &str) -> Result<Setting, TextFault>
    ensures found { IfOk result (IsRelaxedSetting text.now) }
    ensures only { IfOk result (λ made. (setting : Setting) → IsRelaxedSetting text.now setting → made ≡ setting) }
    ensures bad { IsErrOf result TextFault.Bad → (setting : Setting) → IsRelaxedSetting text.now setting → ⊥ }
{
    match Flavor::read(alloc, text) {
        Ok(flavor) => Ok(Setting::SystemFlavor(flavor)),
        Err(fault) => Err(fault),
    }
}

// What a line that begins with the key of the flavor sets.
fn flavor_setting(alloc: Global, value: &[u8]) -> Result<Setting, TextFault>
    ensures found { IfOk result (IsFlavorSetting (map as_space (without_front value.now))) }
    ensures only { IfOk result (λ made. (setting : Setting) → IsFlavorSetting (map as_space (without_front value.now)) setting → made ≡ setting) }
    ensures bad { IsErrOf result TextFault.Bad → (setting : Setting) → IsFlavorSetting (map as_space (without_front value.now)) setting → ⊥ }
{
    let bytes = spaced(alloc, value)?;
    match text_of(bytes.as_slice()) {
        Some(text) => relaxed_setting(alloc, text),
        None => Err(TextFault::Bad),
    }
}

// What a line sets, without its CR and without blanks at its ends.
fn read_line(alloc: Global, line: &[u8]) -> Result<Setting, TextFault>
    ensures found { IfOk result (IsSetting line.now) }
    ensures only { IfOk result (λ made. (setting : Setting) → IsSetting line.now setting → made ≡ setting) }
    ensures bad { IsErrOf result TextFault.Bad → (setting : Setting) → IsSetting line.now setting → ⊥ }
{
    if let Some(value) = behind(b"installLabelPath", line) {
        return path_setting(alloc, value);
    }
    if let Some(value) = behind(b"flavor", line) {
        return flavor_setting(alloc, value);
    }
    Ok(Setting::Skipped)
}

// Whether the piece begins with `[`, behind blanks or not.
fn begins_section(piece: &[u8]) -> bool
    ensures { not result ≡ is_before_section piece.now }
{
    begins_with_bracket(trimmed(piece))
}

// The pieces before the first that begins with `[`.
fn before_section<'a, 'b>(pieces: &'b [&'a [u8]]) -> &'b [&'a [u8]]
    ensures lines { map (λ line. line.now) result.now ≡ take_while is_before_section (map (λ line. line.now) pieces.now) }
    ensures few { length result.now ≤ length pieces.now }
{
    for (place, piece) in pieces.iter().enumerate() {
        if begins_section(*piece) {
            return &pieces[..place];
        }
    }
    pieces
}

// The refusal for the line of this place, counted from 0.
fn bad_line(place: usize) -> Fault
    requires { place < 2 ^ 32 - 1 }
    ensures { result ≡ fault.Refused (refusal.BadConfig (place + 1)) }
{
    Fault::Refused(Refusal::BadConfig {
        line: place as u32 + 1,
    })
}

// What these lines say.
fn config_of(alloc: Global, lines: &[&[u8]]) -> Result<Config, Fault>
    requires { length lines.now < 2 ^ 32 - 1 }
    ensures value { IfOk result (IsConfigOf (map (λ line. line.now) lines.now)) }
    ensures only { IfOk result (λ config. (other : Config) → IsConfigOf (map (λ line. line.now) lines.now) other → config ≡ other) }
    ensures fault { IfErr result (IsBadConfigOrMemory (map (λ line. line.now) lines.now)) }
{
    let mut config = Config::empty(alloc)?;
    for (place, line) in lines.iter().enumerate() {
        match read_line(alloc, trimmed(*line)) {
            Ok(setting) => setting.put(&mut config),
            Err(TextFault::Memory) => return Err(Fault::Memory),
            Err(TextFault::Bad) => return Err(bad_line(place)),
        }
    }
    Ok(config)
}
