//! Calls on databases.
use crate::root::{push_db, root_of};
use line_words::{Answer, Line};
use local_db::{Db, decode, encode, load};
use rollback_stack::next_number;
use system_core::cny_base::{Bytes, Copies};

fn told_bytes(bytes: &Bytes, answer: &mut Answer) {
    answer.hex(bytes.get());
}

// The length and the SHA-1 of bytes.
fn told_digest(bytes: &Bytes, answer: &mut Answer) {
    answer.tab();
    answer.digest(bytes.get());
}

// What a copy of the database tells, and of its bytes in format 2.
fn told_copy(db: &Db, answer: &mut Answer) {
    if let Some(copy) = answer.kept(db.copy()) {
        push_db(&copy, answer);
        answer.outcome(encode(answer.alloc(), &copy), told_digest);
    }
}

/// `decode BYTES`: the numbers of the stack and the ids of the troves, and the length and the SHA-1 of the bytes in format 2.
pub fn decoded(line: &mut Line, answer: &mut Answer) {
    answer.outcome(decode(answer.alloc(), line.bytes(0)), told_copy);
}

fn database_in(line: &mut Line) -> Option<Db> {
    let db = decode(line.alloc(), line.bytes(0));
    line.kept(db)
}

/// `encode BYTES`: the bytes in format 2 of the database that these bytes are.
pub fn encoded(line: &mut Line, answer: &mut Answer) {
    if let Some(db) = database_in(line) {
        answer.outcome(encode(answer.alloc(), &db), told_bytes);
    }
}

/// `load FAILS TREE`: the database of a root, on a disk of which the call of the number FAILS fails; none for 0.
pub fn loaded(line: &mut Line, answer: &mut Answer) {
    if let Some(mut disk) = root_of(line) {
        answer.outcome(load(answer.alloc(), &mut disk), told_copy);
    }
}

fn told_number(number: &u32, answer: &mut Answer) {
    answer.number(u64::from(*number));
}

/// `next DATABASE`: the number of the next job.
pub fn next(line: &mut Line, answer: &mut Answer) {
    if let Some(db) = database_in(line) {
        answer.outcome(next_number(&db), told_number);
    }
}
