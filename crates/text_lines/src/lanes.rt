//! Calls that compare bytes.
ghost use Rattle.std.specs.Prelude.{◌≡◌, length};

use line_words::Answer;
use line_words::cny_report::cny_base::{count_different, equal, first_difference};

// The place of the first difference, and how many there are.
fn differences(first: &[u8], second: &[u8], answer: &mut Answer)
    requires { length first.now ≡ length second.now }
{
    answer.tab();
    match first_difference(first, second) {
        Some(place) => answer.number(place as u64),
        None => answer.text("none"),
    }
    answer.field_number(count_different(first, second) as u64);
}

/// `equal` of bytes and, where both have one length, `first_difference` and `count_different`.
pub fn compared(first: &[u8], second: &[u8], answer: &mut Answer) {
    answer.equality(equal(first, second));
    if first.len() == second.len() {
        differences(first, second, answer);
    }
}

fn flip(bytes: &mut Vec<u8>, place: usize) {
    if let Some(byte) = bytes.get_mut(place) {
        *byte ^= 0x80;
    }
}

// The bytes 0, 1 and so on against themselves with one difference, at each place.
fn at_each_place(first: &Vec<u8>, second: &mut Vec<u8>, answer: &mut Answer) {
    for place in 0..first.len() {
        flip(second, place);
        compared(first, second, answer);
        flip(second, place);
    }
    compared(first, second, answer);
}

fn numbered(answer: &mut Answer, length: u8) -> Vec<u8> {
    let mut bytes = Vec::new(answer.alloc());
    for value in 0..length {
        let pushed = bytes.push(value);
        answer.kept(pushed);
    }
    bytes
}

/// The bytes 0, 1 and so on, so many as is said, against themselves with one difference, at each place, then with none, and then
/// against one byte more.
pub fn of_length(length: u64, answer: &mut Answer) {
    let Ok(length) = u8::try_from(length) else {
        return answer.unreadable();
    };
    let mut first = numbered(answer, length);
    let mut second = numbered(answer, length);
    at_each_place(&first, &mut second, answer);
    let pushed = first.push(length);
    answer.kept(pushed);
    compared(&first, &second, answer);
}
