//! Refusals as texts.
use line_words::cny_report::cny_base::{Refusal, Text, What};
use line_words::{Answer, Line};

fn what_of(line: &mut Line, place: usize) -> What {
    match line.text(place) {
        "Input" => What::Input,
        "Content" => What::Content,
        "Local" => What::Local,
        "Database" => What::Database,
        "Config" => What::Config,
        "Commits" => What::Commits,
        "Count" => What::Count,
        "Version" => What::Version,
        "ChangeSet" => What::ChangeSet,
        "Jobs" => What::Jobs,
        "Message" => What::Message,
        "Model" => What::Model,
        _ => {
            line.unreadable();
            What::Input
        }
    }
}

// A refusal of numbers and names of contents; none for another word.
fn plain(line: &mut Line) -> Option<Refusal> {
    Some(match line.text(0) {
        "Malformed" => Refusal::Malformed { at: line.number(1) },
        "TooLarge" => Refusal::TooLarge {
            what: what_of(line, 1),
            size: line.number(2),
        },
        "MissingContent" => Refusal::MissingContent {
            name: line.digest(1),
        },
        "Collision" => Refusal::Collision {
            name: line.digest(1),
            at: line.number(2),
        },
        "StackEmpty" => Refusal::StackEmpty,
        "NoLabel" => Refusal::NoLabel,
        "BadConfig" => Refusal::BadConfig {
            line: line.small(1),
        },
        "NoJob" => Refusal::NoJob {
            number: line.small(1),
        },
        "NoModel" => Refusal::NoModel,
        "BadModel" => Refusal::BadModel {
            line: line.small(1),
        },
        _ => return None,
    })
}

// A refusal of a trove, a specification or a path.
fn named(word: &str, text: Text) -> Option<Refusal> {
    Some(match word {
        "Exists" => Refusal::Exists { trove: text },
        "MissingTrove" => Refusal::MissingTrove { spec: text },
        "MissingBase" => Refusal::MissingBase { trove: text },
        "MissingRef" => Refusal::MissingRef { name: text },
        "NotInstalled" => Refusal::NotInstalled { name: text },
        "Unowned" => Refusal::Unowned { path: text },
        "Edited" => Refusal::Edited { path: text },
        "Parent" => Refusal::Parent { path: text },
        "Reserved" => Refusal::Reserved { path: text },
        "SameLabel" => Refusal::SameLabel { label: text },
        _ => return None,
    })
}

// The text at a place; an empty one where there is none.
fn text_of(line: &mut Line, place: usize) -> Text {
    let none = Text::from_string(String::new(line.alloc()));
    line.value(place).unwrap_or(none)
}

// A refusal of several texts, or of one.
fn of_texts(line: &mut Line) -> Option<Refusal> {
    let first = text_of(line, 1);
    match line.text(0) {
        "Unmet" => Some(Refusal::Unmet {
            name: first,
            dep: text_of(line, 2),
        }),
        "Owned" => Some(Refusal::Owned {
            path: first,
            first: text_of(line, 2),
            second: text_of(line, 3),
        }),
        word => named(word, first),
    }
}

/// `refusal_text` of a refusal.
pub fn text(answer: &mut Answer, line: &mut Line) {
    if let Some(refusal) = plain(line) {
        answer.refusal(&refusal);
    } else if let Some(refusal) = of_texts(line) {
        answer.refusal(&refusal);
    } else {
        line.unreadable();
    }
}
