//! Refusals as texts.
ghost use Rattle.std.specs.Prelude.{◌≡◌, ◌++◌, IfOk, string_bytes, codes};
ghost use Rattle.std.specs.Fmt.{decimal};
ghost use Rattle.hex.specs.Hex.{encode_lower};
ghost use Rattle.cny_report.specs.Refusals.{what_text, refusal_text};

use crate::digits::digits_of;
use std::alloc::{AllocError, Global};
use update_job::cny_base::{OutOfMemory, Refusal, Text, What};

fn text_of_what(what: What) -> &'static str
    ensures { result.now ≡ what_text what }
{
    match what {
        What::Input => "input",
        What::Content => "content",
        What::Local => "local",
        What::Database => "database",
        What::Config => "config",
        What::Commits => "commits",
        What::Count => "count",
        What::Version => "version",
        What::ChangeSet => "change set",
        What::Jobs => "jobs",
        What::Message => "message",
        What::Model => "model",
    }
}

fn too_large(alloc: Global, what: What, size: u64) -> Result<String, AllocError>
    ensures { IfOk result (λ text. string_bytes text ≡ codes "too large: " ++ what_text what ++ codes " " ++ decimal size) }
{
    let what = text_of_what(what);
    format!(in alloc; "too large: {what} {size}")
}

fn missing_content(alloc: Global, name: &[u8; 20]) -> Result<String, AllocError>
    ensures { IfOk result (λ text. string_bytes text ≡ codes "missing content " ++ encode_lower name.now) }
{
    let digits = digits_of(alloc, name)?;
    format!(in alloc; "missing content {digits}")
}

fn collision(alloc: Global, name: &[u8; 20], at: u64) -> Result<String, AllocError>
    ensures { IfOk result (λ text. string_bytes text ≡ codes "collision " ++ encode_lower name.now ++ codes " at " ++ decimal at) }
{
    let digits = digits_of(alloc, name)?;
    let text = format!(in alloc; "collision {digits} at {at}")?;
    Ok(text)
}

#[tactic(auto, using(std::proofs::lemmas::List::append_assoc))]
fn unmet(alloc: Global, name: &str, dep: &str) -> Result<String, AllocError>
    ensures { IfOk result (λ text. string_bytes text ≡ codes "unmet " ++ name.now ++ codes " " ++ dep.now) }
{
    let text = format!(in alloc; "unmet {name} {dep}")?;
    Ok(text)
}

#[tactic(auto, using(std::proofs::lemmas::List::append_assoc))]
fn owned(alloc: Global, path: &str, first: &str, second: &str) -> Result<String, AllocError>
    ensures { IfOk result (λ text. string_bytes text ≡ codes "owned " ++ path.now ++ codes " " ++ first.now ++ codes " " ++ second.now) }
{
    let text = format!(in alloc; "owned {path} {first} {second}")?;
    Ok(text)
}

// A text behind the words that say what it is.
fn told(alloc: Global, words: &str, text: &str) -> Result<String, AllocError>
    ensures { IfOk result (λ both. string_bytes both ≡ words.now ++ text.now) }
{
    format!(in alloc; "{words}{text}")
}

fn written(alloc: Global, refusal: &Refusal) -> Result<String, AllocError>
    ensures { IfOk result (λ text. string_bytes text ≡ refusal_text refusal.now) }
{
    match refusal {
        Refusal::Malformed { at } => format!(in alloc; "malformed at {at}"),
        Refusal::TooLarge { what, size } => too_large(alloc, *what, *size),
        Refusal::Exists { trove } => told(alloc, "exists ", trove.get()),
        Refusal::MissingTrove { spec } => told(alloc, "missing trove ", spec.get()),
        Refusal::MissingBase { trove } => told(alloc, "missing base ", trove.get()),
        Refusal::MissingContent { name } => missing_content(alloc, name),
        Refusal::Collision { name, at } => collision(alloc, name, *at),
        Refusal::MissingRef { name } => told(alloc, "missing ref ", name.get()),
        Refusal::NotInstalled { name } => told(alloc, "not installed ", name.get()),
        Refusal::Unmet { name, dep } => unmet(alloc, name.get(), dep.get()),
        Refusal::Owned {
            path,
            first,
            second,
        } => owned(alloc, path.get(), first.get(), second.get()),
        Refusal::Unowned { path } => told(alloc, "unowned ", path.get()),
        Refusal::Edited { path } => told(alloc, "edited ", path.get()),
        Refusal::Parent { path } => told(alloc, "parent ", path.get()),
        Refusal::StackEmpty => String::from_str(alloc, "stack empty"),
        Refusal::Reserved { path } => told(alloc, "reserved ", path.get()),
        Refusal::NoLabel => String::from_str(alloc, "no label"),
        Refusal::SameLabel { label } => told(alloc, "same label ", label.get()),
        Refusal::BadConfig { line } => format!(in alloc; "bad config line {line}"),
        Refusal::NoJob { number } => format!(in alloc; "no job r.{number}"),
        Refusal::NoModel => String::from_str(alloc, "no model"),
        Refusal::BadModel { line } => format!(in alloc; "bad model line {line}"),
    }
}

/// The text of a refusal, without a line feed.
pub fn refusal_text(alloc: Global, refusal: &Refusal) -> Result<Text, OutOfMemory>
    ensures value { IfOk result (λ text. text ≡ refusal_text refusal.now) }
{
    Ok(Text::from_string(written(alloc, refusal)?))
}
