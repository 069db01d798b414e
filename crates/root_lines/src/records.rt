//! Calls on the bytes of rollback records.
use job_record::{decode, encode};
use line_words::{Answer, Line, Stop};
use local_db::{Delta, Format, Record, Told, ToldEntry};
use std::alloc::Global;
use system_core::cny_base::Bytes;

fn push_told(told: &Told, answer: &mut Answer) {
    match told {
        Told::Listed => answer.text("="),
        Told::Own(mark) => answer.mark(mark),
    }
}

fn told_entry(entry: &ToldEntry, answer: &mut Answer) {
    answer.field(entry.path.text());
    answer.text(" from ");
    push_told(&entry.before, answer);
    answer.text(" to ");
    push_told(&entry.after, answer);
}

fn told_delta(delta: &Delta, answer: &mut Answer) {
    match delta {
        Delta::Came(id) => {
            answer.field("came ");
            answer.id(id);
        }
        Delta::Was(trove) => {
            answer.field("was ");
            answer.id(trove.id());
        }
        Delta::Turned(rel) => {
            answer.field("turned ");
            answer.id(&rel.parts().old);
            answer.text(" ");
            answer.id(&rel.parts().fresh);
        }
    }
}

// Copies of the deltas.
fn push_deltas(deltas: &[Delta], answer: &mut Answer) {
    for delta in deltas {
        answer.copied(delta, told_delta);
    }
}

// Copies of the entries.
fn push_entries(entries: &[ToldEntry], answer: &mut Answer) {
    for entry in entries {
        answer.copied(entry, told_entry);
    }
}

fn told_record(found: &Record, answer: &mut Answer) {
    answer.number(u64::from(found.number));
    push_deltas(found.deltas.get(), answer);
    push_entries(found.entries.get(), answer);
}

fn format_in(line: &mut Line) -> Format {
    match line.raw(0) {
        "1" => Format::One,
        "2" => Format::Two,
        _ => {
            line.unreadable();
            Format::Two
        }
    }
}

/// `record FORMAT BYTES`: what the record of these bytes says: its number, deltas and entries.
pub fn record_told(line: &mut Line, answer: &mut Answer) {
    let format = format_in(line);
    answer.outcome(decode(answer.alloc(), format, line.bytes(1)), told_record);
}

// The bytes in format 2 of the record that these bytes are.
fn in_format_2(alloc: Global, format: Format, bytes: &[u8]) -> Result<Bytes, Stop> {
    let found = decode(alloc, format, bytes)?;
    Ok(encode(alloc, &found)?)
}

/// `rewritten FORMAT BYTES`: the bytes in format 2 of the record that these bytes are.
pub fn rewritten(line: &mut Line, answer: &mut Answer) {
    let format = format_in(line);
    let again = in_format_2(answer.alloc(), format, line.bytes(1));
    if let Some(again) = line.kept(again) {
        answer.hex(again.get());
    }
}
