//! Histories: events in the words of a line, which are made on the two disks.
use crate::disks::{Disks, push_kept};
use line_words::{Answer, Line};
use outcome_laws::conary_cli::cny_batch::{self, Words};
use outcome_laws::{Event, play};
use root_words::tree_memory::cny_base::{Bytes, text_of};

// The part of a text before its first `|`, and what is behind it.
fn first_part(raw: &str) -> (&str, &str) {
    raw.split_once('|').unwrap_or((raw, ""))
}

// A word of a call.
fn word_of(line: &mut Line, raw: &str) -> Option<String> {
    let bytes: Bytes = line.part(raw)?;
    let text = line.some(text_of(bytes.get()))?;
    line.kept(String::from_str(line.alloc(), text))
}

// `WORD|WORD..`
fn words_of(line: &mut Line, raw: &str) -> Option<Words> {
    let mut words = Vec::new(line.alloc());
    if !raw.is_empty() {
        for part in raw.split('|') {
            let word = word_of(line, part)?;
            line.kept(words.push(word))?;
        }
    }
    Some(Words::new(words))
}

// `INPUT|WORD|WORD..`: the input and the words of a call.
fn line_of(line: &mut Line, raw: &str) -> Option<cny_batch::Line> {
    let (input, words) = first_part(raw);
    let words = words_of(line, words)?;
    let input = line.part(input)?;
    Some(cny_batch::Line { words, input })
}

// `REPO_CALLS|ROOT_CALLS|PICK|INPUT|WORD..`
fn stopped_of(line: &mut Line, raw: &str) -> Option<Event> {
    let (repo_calls, rest) = first_part(raw);
    let (root_calls, rest) = first_part(rest);
    let (pick, rest) = first_part(rest);
    let repo_calls = line.part(repo_calls)?;
    let root_calls = line.part(root_calls)?;
    let pick = line.part(pick)?;
    let line = line_of(line, rest)?;
    Some(Event::Stopped {
        line,
        repo_calls,
        root_calls,
        pick,
    })
}

// `call|INPUT|WORD..`, `stopped|REPO_CALLS|ROOT_CALLS|PICK|INPUT|WORD..` or `edit|NODE PATH`.
fn event_of(line: &mut Line, raw: &str) -> Option<Event> {
    let (kind, rest) = first_part(raw);
    match kind {
        "call" => {
            let line = line_of(line, rest)?;
            Some(Event::Call { line })
        }
        "stopped" => stopped_of(line, rest),
        "edit" => {
            let (path, node) = line.placed_of(rest)?;
            Some(Event::Edit { path, node })
        }
        _ => None,
    }
}

/// `play EVENT..`: the events on the disks. Tells the statuses of the calls, and what stands then.
pub fn tell(line: &mut Line, disks: &mut Disks, answer: &mut Answer) {
    let events = line.each_from(0, event_of);
    let alloc = line.alloc();
    let mut statuses = Bytes::from_vec(Vec::new(alloc));
    let Disks { root, repo } = disks;
    let made = play(
        alloc,
        events.as_slice(),
        &mut repo.tree,
        &mut root.tree,
        &mut statuses,
    );
    if answer.kept(made).is_some() {
        answer.text("statuses");
        for status in statuses.get() {
            answer.text(" ");
            answer.number(u64::from(*status));
        }
        push_kept("root", &disks.root, answer);
        push_kept("repo", &disks.repo, answer);
    }
}
