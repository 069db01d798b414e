//! Calls on batches, and on the lines of the demo: the lines of one, as a text.
use crate::again::push_shown;
use cny_batch::{Line as BatchLine, Lines, line_count, line_of, read_batch};
use line_words::{Answer, Line};

// So many lines, and of each so many words, are shown.
const SHOWN: usize = 8;

// A longer word or input is told by its digest.
const LONGEST: usize = 400;

// No demo has more packages.
const MOST_PACKAGES: u64 = 200;

fn push_word(answer: &mut Answer, word: &str) {
    answer.text("|");
    if word.len() > LONGEST {
        answer.digest(word.as_bytes());
    } else {
        answer.text(word);
    }
}

fn push_line(answer: &mut Answer, line: &BatchLine) {
    let words = line.words.get();
    answer.text("; ");
    answer.number(words.len() as u64);
    for word in words.iter().take(SHOWN) {
        push_word(answer, word.as_str());
    }
    let input = line.input.get();
    if !input.is_empty() {
        answer.text(" < ");
        push_shown(answer, input, LONGEST);
    }
}

fn push_lines(lines: &Lines, answer: &mut Answer) {
    let lines = lines.get();
    answer.number(lines.len() as u64);
    for line in lines.iter().take(SHOWN) {
        push_line(answer, line);
    }
}

/// The lines of a batch, or why the bytes are refused.
pub fn batch(answer: &mut Answer, bytes: &[u8]) {
    answer.outcome(read_batch(answer.alloc(), bytes), push_lines);
}

/// How many lines the demo of so many packages has, and the one at a place, counted from 0.
pub fn demo(line: &mut Line, answer: &mut Answer) {
    let (packages, place) = (line.number(0), line.number(1));
    if packages > MOST_PACKAGES {
        line.unreadable();
        return;
    }
    answer.number(line_count(packages));
    let made = line_of(answer.alloc(), packages, place);
    if let Some(made) = answer.kept(made) {
        push_line(answer, &made);
    }
}
