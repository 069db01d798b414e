//! Calls on the texts of troves.
use line_words::cny_report::cny_base::{Name, OutOfMemory, Text};
use line_words::cny_report::trove_parts::TroveId;
use line_words::cny_report::trove_stream::Trove;
use line_words::cny_report::{committed_text, named_text, trove_text, troves_text};
use line_words::{Answer, Line};

/// A text of lines that takes memory.
pub fn told(text: Result<Text, OutOfMemory>, answer: &mut Answer) {
    if let Some(text) = answer.kept(text) {
        answer.lines(text.get(), "\t");
    }
}

/// `troves_text` of troves.
pub fn troves(line: &mut Line, answer: &mut Answer) {
    let troves = line.rest::<Trove>(0);
    told(troves_text(answer.alloc(), troves.as_slice()), answer);
}

fn those_named(name: &Name, line: &mut Line, answer: &mut Answer) {
    let troves = line.rest::<Trove>(1);
    told(named_text(answer.alloc(), name, troves.as_slice()), answer);
}

/// `named_text` of a name and troves.
pub fn named(line: &mut Line, answer: &mut Answer) {
    if let Some(name) = line.trove_name(0) {
        those_named(&name, line, answer);
    }
}

/// `committed_text` of ids.
pub fn committed(line: &mut Line, answer: &mut Answer) {
    let ids = line.rest::<TroveId>(0);
    told(committed_text(answer.alloc(), ids.as_slice()), answer);
}

/// `trove_text` of a trove.
pub fn trove(trove: &Trove, answer: &mut Answer) {
    told(trove_text(answer.alloc(), trove), answer);
}
