//! The words of the command line.
ghost use Rattle.std.specs.Prelude.{◌≡◌, ◌∷◌, [], ℕ, List, string_bytes, map, Result, Err, IfOk, IsErrOf, true, false};
ghost use Rattle.std.specs.List.{list_all};
ghost use Rattle.cny_version.specs.cny-base.Name.{is_name};
ghost use Rattle.cny_version.specs.cny-base.declared.text.TextFault.TheVariants as TextFault;
ghost use Rattle.trove_spec.specs.Spec.{IsSpecText};
ghost use Rattle.cny_laws.specs.declared.failure.Failure.{Failure};
ghost use Rattle.cli_words.specs.declared.words.Command.{Command};
ghost use Rattle.cli_words.specs.Words.{alone, AreGivenSpecs, AreSomething, AreWords, is_input, name_or_none, or_usage, IsUpdate, IsUpdateWith, update_form, update_of, update_option_at, update_options_at, update_with, behind, form_of_words, IsGiven, IsLabelWord, IsMove, IsSend, is_short_word, are_names, job_number, erase_of, erase_with, installed_of, local_of, verify_with, option_at, options_at, rollback_of, verify_of, changing_of, command_of, reading_of, repository_of, cook_of, install_of, list_of, mirror_of, sync_of, OrMemory, ReadsOnly, ReadsWords};

use cny_laws::Failure;
use cny_version::Label;
use cny_version::cny_base::{ListOf, Name, Options, Text, TextFault, read_decimal};
use repo_shadow::Way;
use std::alloc::Global;
use trove_spec::{GivenSpec, Spec};

// A word that is a specification has so many bytes at most.
const WORD_LIMIT: usize = 4_096;
// A command takes at most so many names, or specifications.
const LIST_LIMIT: usize = 64;

/// Names, in the order in which they were given.
pub type NameList = ListOf<Name>;

/// Specifications, in the order in which they were given.
pub type SpecList = ListOf<GivenSpec>;

/// A command with its words.
#[derive(Drop)]
pub enum Command {
    /// Installs the troves that a manifest makes.
    Install {
        options: Options,
    },
    /// Describes a change set.
    ShowChangeSet,
    /// Commits what a manifest makes, with the next version of its branch or as it is.
    Cook {
        next: bool,
    },
    /// Commits a change set.
    Commit,
    /// Lists committed troves, all or those of a name.
    ListCommitted {
        name: Option<Name>,
    },
    /// Installs what specifications mean and reach, or what completes them too.
    Update {
        specs: SpecList,
        options: Options,
        resolve: bool,
    },
    /// Installs the troves of a change set.
    UpdateByInput {
        options: Options,
    },
    /// Brings the installed troves to what the model file says.
    Sync {
        options: Options,
    },
    /// Takes the troves of these names away, also where their paths were edited or only where they weren't.
    Erase {
        names: NameList,
        replace: bool,
    },
    /// Undoes the newest job, or the jobs down to the one of a number.
    Rollback {
        number: Option<u32>,
    },
    /// Lists installed troves, all or that of a name.
    ListInstalled {
        name: Option<Name>,
    },
    /// Compares the tree with what is recorded of all installed troves, or of those of these names; where it is full, it tells in how many bytes a file differs.
    Verify {
        full: bool,
        names: NameList,
    },
    /// Lists the jobs that can be rolled back.
    ListJobs,
    /// Answers the local edits of the installed trove of a name as a relative change set.
    LocalChanges {
        name: Name,
    },
    /// Answers the change set that leads to what a specification means: from what another one means, or from nothing.
    SendChanges {
        from: Option<GivenSpec>,
        to: GivenSpec,
    },
    /// Answers a stream of requests with a stream of replies.
    Serve,
    /// Answers the stream that asks another repository for all troves but those that are committed.
    AskMirror,
    /// Commits the troves of a stream of replies.
    TakeMirror,
    /// Commits what a specification means as shadows on a label, or as branches onto it.
    Move {
        way: Way,
        label: Label,
        given: GivenSpec,
    },
}

// The options of `update`.
#[derive(Clone, Copy)]
struct UpdateOptions {
    // Those of a job.
    job: Options,
    // Whether the update is to complete itself.
    resolve: bool,
}

// The words that stand behind the first one.
#[derive(Clone, Copy)]
enum Form {
    // One specification or two.
    Specs,
    // A label and a specification.
    LabelAndSpec(Way),
    // Options, and specifications, at least one.
    Updates,
    // Those of the other commands, or of none.
    Others,
}

// With the first of the words, where it is an option that wasn't given before; and the words that are left.
fn option_at(options: Options, words: &[String]) -> (Options, &[String])
    ensures { (result.0, map string_bytes result.1.now) ≡ option_at options (map string_bytes words.now) }
{
    let [word, rest @ ..] = words else {
        return (options, words);
    };
    if word.as_str() == "--replace" && !options.replace {
        let options = Options {
            replace: true,
            keep: options.keep,
        };
        return (options, rest);
    }
    if word.as_str() == "--keep" && !options.keep {
        let options = Options {
            replace: options.replace,
            keep: true,
        };
        return (options, rest);
    }
    (options, words)
}

// The options at the front of the words, and the words that are left.
fn options_at(words: &[String]) -> (Options, &[String])
    ensures { (result.0, map string_bytes result.1.now) ≡ options_at (map string_bytes words.now) }
{
    let none = Options {
        replace: false,
        keep: false,
    };
    let (options, rest) = option_at(none, words);
    option_at(options, rest)
}

/// What takes no word, or none behind its options.
pub(crate) fn alone<X: Drop>(words: &[String], one: X) -> Result<X, Failure>
    ensures is { result ≡ alone one (map string_bytes words.now) }
    ensures reads { ReadsWords (alone one (map string_bytes words.now)) result }
{
    if words.is_empty() {
        return Ok(one);
    }
    Err(Failure::Usage)
}

// The words after `install`.
fn read_install(words: &[String]) -> Result<Command, Failure>
    ensures { ReadsWords (install_of (map string_bytes words.now)) result }
{
    let (options, rest) = options_at(words);
    alone(rest, Command::Install { options })
}

// Whether the words are `-` alone.
fn is_input(words: &[String]) -> bool
    ensures { result ≡ is_input (map string_bytes words.now) }
{
    let [word, rest @ ..] = words else {
        return false;
    };
    rest.is_empty() && word.as_str() == "-"
}

// With the first of the words, where it is an option of `update` that wasn't given before; and the words that are left.
fn update_option_at(options: UpdateOptions, words: &[String]) -> (UpdateOptions, &[String])
    ensures { (result.0, map string_bytes result.1.now) ≡ update_option_at options (map string_bytes words.now) }
{
    let [word, rest @ ..] = words else {
        return (options, words);
    };
    if word.as_str() == "--resolve" && !options.resolve {
        let options = UpdateOptions {
            job: options.job,
            resolve: true,
        };
        return (options, rest);
    }
    let (job, rest) = option_at(options.job, words);
    let options = UpdateOptions {
        job,
        resolve: options.resolve,
    };
    (options, rest)
}

// The options of `update` at the front of the words, and the words that are left.
fn update_options_at(words: &[String]) -> (UpdateOptions, &[String])
    ensures { (result.0, map string_bytes result.1.now) ≡ update_options_at (map string_bytes words.now) }
{
    let none = UpdateOptions {
        job: Options {
            replace: false,
            keep: false,
        },
        resolve: false,
    };
    let (options, rest) = update_option_at(none, words);
    let (options, rest) = update_option_at(options, rest);
    update_option_at(options, rest)
}

// The words after the options of `update`, where these are no specifications.
fn read_update_with(options: UpdateOptions, words: &[String]) -> Result<Command, Failure>
    ensures { ReadsWords (update_with options (map string_bytes words.now)) result }
{
    if is_input(words) && !options.resolve {
        return Ok(Command::UpdateByInput {
            options: options.job,
        });
    }
    Err(Failure::Usage)
}

// The words after `update`, where these are no specifications.
#[tactic(auto, unfolding(crate::specs::Words::update_of))]
fn read_update_by_input(words: &[String]) -> Result<Command, Failure>
    ensures { ReadsWords (update_of (map string_bytes words.now)) result }
{
    let (options, rest) = update_options_at(words);
    read_update_with(options, rest)
}

// The words after `sync`.
fn read_sync(words: &[String]) -> Result<Command, Failure>
    ensures { ReadsWords (sync_of (map string_bytes words.now)) result }
{
    let (options, rest) = options_at(words);
    alone(rest, Command::Sync { options })
}

// The names that the words are, in their order. `Bad` exactly where they are too many, or one of them isn't a name.
fn read_names(alloc: Global, words: &[String]) -> Result<NameList, TextFault>
    ensures value { IfOk result (λ names. names ≡ map string_bytes words.now) }
    ensures ok { IfOk result (λ names. are_names (map string_bytes words.now) ≡ true) }
    ensures bad { IsErrOf result TextFault.Bad → are_names (map string_bytes words.now) ≡ false }
{
    if words.len() > LIST_LIMIT {
        return Err(TextFault::Bad);
    }
    read_each(alloc, words)
}

fn read_each(alloc: Global, words: &[String]) -> Result<NameList, TextFault>
    ensures value { IfOk result (λ names. names ≡ map string_bytes words.now) }
    ensures ok { IfOk result (λ names. list_all is_name (map string_bytes words.now) ≡ true) }
    ensures bad { IsErrOf result TextFault.Bad → list_all is_name (map string_bytes words.now) ≡ false }
{
    let mut names = Vec::new(alloc);
    for word in words {
        names.push(Name::read(alloc, word.as_str())?)?;
    }
    Ok(ListOf::new(names))
}

// The names after the option of `erase`.
fn read_erased(alloc: Global, replace: bool, words: &[String]) -> Result<Command, Failure>
    ensures { ReadsWords (erase_with replace (map string_bytes words.now)) result }
{
    if words.is_empty() {
        return Err(Failure::Usage);
    }
    match read_names(alloc, words) {
        Ok(names) => Ok(Command::Erase { names, replace }),
        Err(TextFault::Bad) => Err(Failure::Usage),
        Err(TextFault::Memory) => Err(Failure::Memory),
    }
}

// The words after `erase`.
fn read_erase(alloc: Global, words: &[String]) -> Result<Command, Failure>
    ensures { ReadsWords (erase_of (map string_bytes words.now)) result }
{
    let [word, rest @ ..] = words else {
        return Err(Failure::Usage);
    };
    if word.as_str() == "--replace" {
        return read_erased(alloc, true, rest);
    }
    read_erased(alloc, false, words)
}

// The number of a job that a word is: `r.` and decimal digits.
fn job_number(word: &[u8]) -> Option<u32>
    ensures { result ≡ job_number word.now }
{
    let [b'r', b'.', digits @ ..] = word else {
        return None;
    };
    let number = u32::try_from(read_decimal(digits)?).ok()?;
    if number == 0 {
        return None;
    }
    Some(number)
}

// The words after `rollback`.
fn read_rollback(words: &[String]) -> Result<Command, Failure>
    ensures { ReadsWords (rollback_of (map string_bytes words.now)) result }
{
    let [word, rest @ ..] = words else {
        return Ok(Command::Rollback { number: None });
    };
    if !rest.is_empty() {
        return Err(Failure::Usage);
    }
    match job_number(word.as_bytes()) {
        Some(number) => Ok(Command::Rollback {
            number: Some(number),
        }),
        None => Err(Failure::Usage),
    }
}

// The name that the words are, where there is one.
fn name_or_none(alloc: Global, words: &[String]) -> Result<Option<Name>, Failure>
    ensures { ReadsWords (name_or_none (map string_bytes words.now)) result }
{
    let [word, rest @ ..] = words else {
        return Ok(None);
    };
    if !rest.is_empty() {
        return Err(Failure::Usage);
    }
    match Name::read(alloc, word.as_str()) {
        Ok(name) => Ok(Some(name)),
        Err(TextFault::Bad) => Err(Failure::Usage),
        Err(TextFault::Memory) => Err(Failure::Memory),
    }
}

// The words after `q`.
fn read_installed(alloc: Global, words: &[String]) -> Result<Command, Failure>
    ensures { ReadsWords (installed_of (map string_bytes words.now)) result }
{
    let name = name_or_none(alloc, words)?;
    Ok(Command::ListInstalled { name })
}

// The names after the option of `verify`.
fn read_verified(alloc: Global, full: bool, words: &[String]) -> Result<Command, Failure>
    ensures { ReadsWords (verify_with full (map string_bytes words.now)) result }
{
    match read_names(alloc, words) {
        Ok(names) => Ok(Command::Verify { full, names }),
        Err(TextFault::Bad) => Err(Failure::Usage),
        Err(TextFault::Memory) => Err(Failure::Memory),
    }
}

// The words after `verify`.
fn read_verify(alloc: Global, words: &[String]) -> Result<Command, Failure>
    ensures { ReadsWords (verify_of (map string_bytes words.now)) result }
{
    let [word, rest @ ..] = words else {
        return read_verified(alloc, false, words);
    };
    if word.as_str() == "--full" {
        return read_verified(alloc, true, rest);
    }
    read_verified(alloc, false, words)
}

// The words after `localcs`.
fn read_local(alloc: Global, words: &[String]) -> Result<Command, Failure>
    ensures { ReadsWords (local_of (map string_bytes words.now)) result }
{
    let [word, rest @ ..] = words else {
        return Err(Failure::Usage);
    };
    if !rest.is_empty() {
        return Err(Failure::Usage);
    }
    match Name::read(alloc, word.as_str()) {
        Ok(name) => Ok(Command::LocalChanges { name }),
        Err(TextFault::Bad) => Err(Failure::Usage),
        Err(TextFault::Memory) => Err(Failure::Memory),
    }
}

// The words after `cook`.
fn read_cook(words: &[String]) -> Result<Command, Failure>
    ensures { ReadsWords (cook_of (map string_bytes words.now)) result }
{
    let [word, rest @ ..] = words else {
        return Ok(Command::Cook { next: false });
    };
    if !rest.is_empty() {
        return Err(Failure::Usage);
    }
    if word.as_str() == "--next" {
        return Ok(Command::Cook { next: true });
    }
    Err(Failure::Usage)
}

// The words after `rq`.
fn read_list(alloc: Global, words: &[String]) -> Result<Command, Failure>
    ensures { ReadsWords (list_of (map string_bytes words.now)) result }
{
    let name = name_or_none(alloc, words)?;
    Ok(Command::ListCommitted { name })
}

// The words after `mirror`.
fn read_mirror(words: &[String]) -> Result<Command, Failure>
    ensures { ReadsWords (mirror_of (map string_bytes words.now)) result }
{
    let [word, rest @ ..] = words else {
        return Err(Failure::Usage);
    };
    if !rest.is_empty() {
        return Err(Failure::Usage);
    }
    if word.as_str() == "ask" {
        return Ok(Command::AskMirror);
    }
    if word.as_str() == "take" {
        return Ok(Command::TakeMirror);
    }
    Err(Failure::Usage)
}

// Whether a word may be a specification.
fn is_short(word: &str) -> bool
    ensures { result ≡ is_short_word word.now }
{
    word.len() <= WORD_LIMIT
}

// What the reading of a text answers, where other texts are usage.
fn or_usage<X>(read: Result<X, TextFault>) -> Result<X, Failure>
    ensures { result ≡ or_usage read }
{
    match read {
        Ok(value) => Ok(value),
        Err(TextFault::Bad) => Err(Failure::Usage),
        Err(TextFault::Memory) => Err(Failure::Memory),
    }
}

// The specification whose text a word is.
fn spec_of(alloc: Global, word: &str) -> Result<Spec, Failure>
    ensures { ReadsOnly (IsSpecText word.now) result }
{
    or_usage(Spec::read(alloc, word))
}

// The same with its text.
fn read_spec(alloc: Global, word: &str) -> Result<GivenSpec, Failure>
    ensures { ReadsOnly (IsGiven word.now) result }
{
    if !is_short(word) {
        return Err(Failure::Usage);
    }
    let spec = spec_of(alloc, word)?;
    let text = Text::new(alloc, word)?;
    Ok(GivenSpec { spec, text })
}

// The label whose text a word is.
fn read_label(alloc: Global, word: &str) -> Result<Label, Failure>
    ensures { ReadsOnly (IsLabelWord word.now) result }
{
    or_usage(Label::read(alloc, word))
}

// One word after `changeset`.
fn read_whole(alloc: Global, word: &str) -> Result<Command, Failure>
    ensures { ReadsOnly (IsSend (word.now ∷ [])) result }
{
    let to = read_spec(alloc, word)?;
    Ok(Command::SendChanges { from: None, to })
}

// Two words after `changeset`.
fn read_between(alloc: Global, word: &str, other: &str) -> Result<Command, Failure>
    ensures { ReadsOnly (IsSend (word.now ∷ other.now ∷ [])) result }
{
    let from = read_spec(alloc, word)?;
    let to = read_spec(alloc, other)?;
    Ok(Command::SendChanges {
        from: Some(from),
        to,
    })
}

// The words after `changeset`.
fn read_send(alloc: Global, words: &[String]) -> Result<Command, Failure>
    ensures { ReadsOnly (IsSend (map string_bytes words.now)) result }
{
    let [word, rest @ ..] = words else {
        return Err(Failure::Usage);
    };
    let [other, more @ ..] = rest else {
        return read_whole(alloc, word.as_str());
    };
    if !more.is_empty() {
        return Err(Failure::Usage);
    }
    read_between(alloc, word.as_str(), other.as_str())
}

// Two words after `shadow` or `branch`.
fn read_label_and_spec(alloc: Global, way: Way, word: &str, other: &str) -> Result<Command, Failure>
    ensures { ReadsOnly (IsMove way (word.now ∷ other.now ∷ [])) result }
{
    let label = read_label(alloc, word)?;
    let given = read_spec(alloc, other)?;
    Ok(Command::Move { way, label, given })
}

// The words after `shadow` or `branch`.
fn read_move(alloc: Global, way: Way, words: &[String]) -> Result<Command, Failure>
    ensures { ReadsOnly (IsMove way (map string_bytes words.now)) result }
{
    let [word, rest @ ..] = words else {
        return Err(Failure::Usage);
    };
    let [other, more @ ..] = rest else {
        return Err(Failure::Usage);
    };
    if !more.is_empty() {
        return Err(Failure::Usage);
    }
    read_label_and_spec(alloc, way, word.as_str(), other.as_str())
}

// The specifications that the words are, in their order.
fn read_specs(alloc: Global, words: &[String]) -> Result<SpecList, Failure>
    ensures { ReadsOnly (AreGivenSpecs (map string_bytes words.now)) result }
{
    let mut specs = Vec::new(alloc);
    for word in words {
        let given = read_spec(alloc, word.as_str())?;
        specs.push(given)?;
    }
    Ok(ListOf::new(specs))
}

// The words after the options of `update`.
fn read_updates(alloc: Global, options: UpdateOptions, words: &[String]) -> Result<Command, Failure>
    ensures { ReadsOnly (IsUpdateWith options (map string_bytes words.now)) result }
{
    if words.is_empty() {
        return Err(Failure::Usage);
    }
    if words.len() > LIST_LIMIT {
        return Err(Failure::Usage);
    }
    let specs = read_specs(alloc, words)?;
    Ok(Command::Update {
        specs,
        options: options.job,
        resolve: options.resolve,
    })
}

// The words after `update`, where these are specifications.
fn read_update(alloc: Global, words: &[String]) -> Result<Command, Failure>
    ensures { ReadsOnly (IsUpdate (map string_bytes words.now)) result }
{
    let (options, rest) = update_options_at(words);
    read_updates(alloc, options, rest)
}

// The commands of the repository, and the one that reads neither disk.
#[tactic(auto, unfolding(crate::specs::Words::repository_of))]
fn read_of_repository(alloc: Global, word: &str, rest: &[String]) -> Result<Command, Failure>
    ensures { ReadsWords (repository_of word.now (map string_bytes rest.now)) result }
{
    if word == "showcs" {
        return alone(rest, Command::ShowChangeSet);
    }
    if word == "cook" {
        return read_cook(rest);
    }
    if word == "commit" {
        return alone(rest, Command::Commit);
    }
    if word == "rq" {
        return read_list(alloc, rest);
    }
    if word == "serve" {
        return alone(rest, Command::Serve);
    }
    if word == "mirror" {
        return read_mirror(rest);
    }
    Err(Failure::Usage)
}

// The commands that only read the root.
#[tactic(auto, unfolding(crate::specs::Words::reading_of))]
fn read_reading(alloc: Global, word: &str, rest: &[String]) -> Result<Command, Failure>
    ensures { ReadsWords (reading_of word.now (map string_bytes rest.now)) result }
{
    if word == "q" {
        return read_installed(alloc, rest);
    }
    if word == "verify" {
        return read_verify(alloc, rest);
    }
    if word == "rblist" {
        return alone(rest, Command::ListJobs);
    }
    if word == "localcs" {
        return read_local(alloc, rest);
    }
    read_of_repository(alloc, word, rest)
}

// The commands that change the root.
#[tactic(auto, unfolding(crate::specs::Words::changing_of))]
fn read_changing(alloc: Global, word: &str, rest: &[String]) -> Result<Command, Failure>
    ensures { ReadsWords (changing_of word.now (map string_bytes rest.now)) result }
{
    if word == "install" {
        return read_install(rest);
    }
    if word == "erase" {
        return read_erase(alloc, rest);
    }
    if word == "rollback" {
        return read_rollback(rest);
    }
    if word == "update" {
        return read_update_by_input(rest);
    }
    if word == "sync" {
        return read_sync(rest);
    }
    read_reading(alloc, word, rest)
}

// The command that words are which hold no specification.
fn read_others(alloc: Global, words: &[String]) -> Result<Command, Failure>
    ensures { ReadsWords (command_of (map string_bytes words.now)) result }
{
    let [word, rest @ ..] = words else {
        return Err(Failure::Usage);
    };
    read_changing(alloc, word.as_str(), rest)
}

// What stands behind `update`: specifications, or something else.
fn update_form(words: &[String]) -> Form
    ensures { result ≡ update_form (map string_bytes words.now) }
{
    let (_, rest) = update_options_at(words);
    if is_input(rest) {
        return Form::Others;
    }
    Form::Updates
}

// What the first word says of the words behind it.
fn first_form(words: &[String]) -> Form
    ensures { result ≡ form_of_words (map string_bytes words.now) }
{
    let [word, rest @ ..] = words else {
        return Form::Others;
    };
    if word.as_str() == "changeset" {
        return Form::Specs;
    }
    if word.as_str() == "shadow" {
        return Form::LabelAndSpec(Way::Shadow);
    }
    if word.as_str() == "branch" {
        return Form::LabelAndSpec(Way::Branch);
    }
    if word.as_str() == "update" {
        return update_form(rest);
    }
    Form::Others
}

/// The words behind the first one.
pub(crate) fn words_behind(words: &[String]) -> &[String]
    ensures { map string_bytes result.now ≡ behind (map string_bytes words.now) }
{
    let [_, rest @ ..] = words else {
        return words;
    };
    rest
}

/// Each list of words is something: a command, or none for a reason. (Which of the two, no search tells without memory.)
pub fn some_words()
    ensures { (words : List (List ℕ)) → AreSomething words }
{}

/// The command that the words are, or why they are none.
pub fn read_words(alloc: Global, words: &[String]) -> Result<Command, Failure>
    // What is answered, the words are.
    ensures is { OrMemory (AreWords (map string_bytes words.now)) result }
    // What the words are is answered.
    ensures read { (expected : Result Command Failure) → AreWords (map string_bytes words.now) expected → ReadsWords expected result }
{
    let rest = words_behind(words);
    match first_form(words) {
        Form::Specs => read_send(alloc, rest),
        Form::LabelAndSpec(way) => read_move(alloc, way, rest),
        Form::Updates => read_update(alloc, rest),
        Form::Others => read_others(alloc, words),
    }
}
