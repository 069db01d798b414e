//! Calls on names, paths, targets, modes, numbers and fields of streams.
ghost use Rattle.update_job.specs.cny-base.StrField.{FitsStr};

use line_words::cny_report::cny_base::{
    Bytes, Mode, Name, NameKind, OutOfMemory, Path, Target, Text, last_name, next_str, parent_of,
    put_str, read_decimal,
};
use line_words::{Answer, Line};
use std::alloc::Global;

/// The text of a name, and its kind.
pub fn name(name: &Name, answer: &mut Answer) {
    answer.ok(name.text());
    answer.field(match name.kind() {
        NameKind::Component => "component",
        NameKind::Package => "package",
        NameKind::Group => "group",
    });
}

// The path above a path.
fn above(path: &Path, answer: &mut Answer) {
    let above = path.parent_path(answer.alloc());
    if let Some(above) = answer.kept(above) {
        answer.field(match &above {
            Some(above) => above.text(),
            None => "none",
        });
    }
}

/// The text of a path, its last name, the path above it, whether it is reserved, and whether it is fixed.
pub fn path(path: &Path, answer: &mut Answer) {
    answer.ok(path.text());
    answer.field(last_name(path.text()));
    answer.field(parent_of(path.text()));
    above(path, answer);
    answer.holds(path.is_reserved());
    answer.holds(path.is_pinned());
}

/// `is_forbidden` of a path: of a directory, and of anything else.
pub fn forbidden(path: &Path, answer: &mut Answer) {
    answer.holds(path.is_forbidden(true));
    answer.holds(path.is_forbidden(false));
}

/// `last_name` and `parent_of` of any text.
pub fn ends(text: &str, answer: &mut Answer) {
    answer.ok(last_name(text));
    answer.field(parent_of(text));
}

fn told_path(path: &Path, answer: &mut Answer) {
    answer.ok(path.text());
}

fn joined(path: &Path, last: &str, answer: &mut Answer) {
    answer.outcome(path.join(answer.alloc(), last), told_path);
}

/// `join` of a path and a last name.
pub fn join(line: &mut Line, answer: &mut Answer) {
    if let Some(path) = line.path(0) {
        joined(&path, line.text(1), answer);
    }
}

/// The text of a target.
pub fn target(target: &Target, answer: &mut Answer) {
    answer.ok(target.text());
}

/// The bits of a mode in decimal digits, and its octal text.
pub fn push_mode(mode: Mode, answer: &mut Answer) {
    answer.field_number(u64::from(mode.bits()));
    answer.tab();
    answer.mode(mode);
}

/// The bits and the text of a mode, where there is one.
pub fn mode(mode: Option<Mode>, answer: &mut Answer) {
    match mode {
        Some(mode) => {
            answer.field("ok");
            push_mode(mode, answer);
        }
        None => answer.field("none"),
    }
}

/// `Mode::new` of bits.
pub fn mode_of_bits(bits: u64, answer: &mut Answer) {
    match u16::try_from(bits) {
        Ok(bits) => mode(Mode::new(bits), answer),
        Err(_) => answer.unreadable(),
    }
}

/// `read_decimal` of bytes.
pub fn number(bytes: &[u8], answer: &mut Answer) {
    match read_decimal(bytes) {
        Some(number) => {
            answer.field("ok");
            answer.field_number(number);
        }
        None => answer.field("none"),
    }
}

// The bytes with the field of a value behind them.
fn with_field(alloc: Global, bytes: &[u8], value: &[u8]) -> Result<Bytes, OutOfMemory>
    requires { FitsStr value.now }
{
    let mut out = Bytes::new(alloc, bytes)?;
    put_str(&mut out, value)?;
    Ok(out)
}

/// `put_str` of a value behind other bytes.
pub fn put_field(bytes: &[u8], value: &[u8], answer: &mut Answer) {
    if value.len() > usize::from(u16::MAX) {
        return answer.unreadable();
    }
    let made = with_field(answer.alloc(), bytes, value);
    if let Some(made) = answer.kept(made) {
        answer.hex(made.get());
    }
}

/// `next_str` of bytes at a place.
pub fn next_field(bytes: &[u8], at: u64, answer: &mut Answer) {
    let at = at as usize;
    if at > bytes.len() {
        return answer.unreadable();
    }
    match next_str(bytes, at) {
        Some(span) => {
            answer.field("ok");
            answer.field_number(span.from as u64);
            answer.field_number(span.to as u64);
        }
        None => answer.field("none"),
    }
}

// ---- texts that are read from bytes

// `ok` and the digits of the bytes of a text.
fn digits(text: &str, answer: &mut Answer) {
    answer.field("ok");
    answer.field_hex(text.as_bytes());
}

/// The digits of a path.
pub fn path_digits(path: &Path, answer: &mut Answer) {
    digits(path.text(), answer);
}

/// The digits of a target.
pub fn target_digits(target: &Target, answer: &mut Answer) {
    digits(target.text(), answer);
}

/// The digits of a name.
pub fn name_digits(name: &Name, answer: &mut Answer) {
    digits(name.text(), answer);
}

/// The digits of a text.
pub fn text_digits(text: &Text, answer: &mut Answer) {
    digits(text.get(), answer);
}
