//! The answer that is written.
use crate::first_stop::FirstStop;
use crate::stop::Stop;
use cny_report::cny_base::{self, Bytes, Copies, Mode, OutOfMemory, Refusal, Text, decimal, octal};
use cny_report::cny_stream::Flags;
use cny_report::refusal_text;
use cny_report::trove_parts::{TroveId, id_text};
use cny_report::trove_stream::Trove;
use sha1::Sha1;
use std::alloc::{AllocError, Global};
use std::cmp::Ordering;

/// An answer. It remembers the first failure of those that append to it, which give nothing back.
pub struct Answer {
    alloc: Global,
    text: String,
    begun: bool,
    stop: FirstStop,
}

// Written by hand, so that to let a value go is a single call wherever a function ends early.
impl Drop for Answer {
    fn drop(self) {
        let Answer {
            alloc: _alloc,
            text: _text,
            begun: _begun,
            stop: _stop,
        } = self;
    }
}

impl Answer {
    /// Nothing yet.
    pub fn new(alloc: Global) -> Self {
        Answer {
            alloc,
            text: String::new(alloc),
            begun: false,
            stop: FirstStop::none(),
        }
    }

    /// What makes values.
    pub fn alloc(&self) -> Global {
        self.alloc
    }

    /// What was appended so far.
    pub fn get(&self) -> &str {
        self.text.as_str()
    }

    /// The text. The first failure, where there was one.
    pub fn end(self) -> Result<String, Stop> {
        let Answer {
            alloc: _alloc,
            text,
            begun: _begun,
            stop,
        } = self;
        match stop.end() {
            Ok(()) => Ok(text),
            Err(stop) => Err(stop),
        }
    }

    // ---- failures

    /// Remembers why there is no answer, where nothing failed before.
    pub fn note(&mut self, stop: Stop) {
        self.stop.note(stop);
    }

    /// No memory was left.
    pub fn memory(&mut self) {
        self.note(Stop::Memory);
    }

    /// The arguments aren't what the call takes.
    pub fn unreadable(&mut self) {
        self.note(Stop::Unreadable);
    }

    /// Whether something failed.
    pub fn failed(&self) -> bool {
        self.stop.failed()
    }

    /// What was made; none where it failed, which is remembered.
    pub fn kept<T: Drop, E: Into<Stop> + Drop>(&mut self, made: Result<T, E>) -> Option<T> {
        self.stop.kept(made)
    }

    // ---- texts

    /// Appends a text.
    pub fn text(&mut self, text: &str) {
        self.begun = true;
        if self.text.push_str(text).is_err() {
            self.memory();
        }
    }

    /// Begins a field: appends a tab, where anything stands before.
    pub fn tab(&mut self) {
        if self.begun {
            self.text("\t");
        }
    }

    /// Appends a text as a field.
    pub fn field(&mut self, text: &str) {
        self.tab();
        self.text(text);
    }

    /// Appends texts, one behind the other.
    pub fn texts(&mut self, texts: &[&str]) {
        for text in texts {
            self.text(text);
        }
    }

    /// Appends a text that takes memory.
    pub fn made(&mut self, text: Result<Text, OutOfMemory>) {
        if let Some(text) = self.kept(text) {
            self.text(text.get());
        }
    }

    /// Appends a text that was formatted.
    pub fn formatted(&mut self, text: Result<String, AllocError>) {
        if let Some(text) = self.kept(text) {
            self.text(text.as_str());
        }
    }

    /// Appends a number in decimal digits.
    pub fn number(&mut self, number: u64) {
        let digits = decimal(self.alloc, number);
        self.made(digits);
    }

    /// Appends a number in decimal digits as a field.
    pub fn field_number(&mut self, number: u64) {
        self.tab();
        self.number(number);
    }

    /// Appends bytes in hexadecimal digits.
    pub fn hex(&mut self, bytes: &[u8]) {
        let digits = hex::encode(self.alloc, bytes);
        self.formatted(digits);
    }

    /// Appends bytes in hexadecimal digits as a field.
    pub fn field_hex(&mut self, bytes: &[u8]) {
        self.tab();
        self.hex(bytes);
    }

    /// Appends the SHA-1 of bytes.
    pub fn sha1(&mut self, bytes: &[u8]) {
        self.hex(&Sha1::digest(bytes));
    }

    /// Appends the number of bytes, and their SHA-1.
    pub fn digest(&mut self, bytes: &[u8]) {
        self.number(bytes.len() as u64);
        self.text(" ");
        self.sha1(bytes);
    }

    /// Appends a mode in octal digits.
    pub fn mode(&mut self, mode: Mode) {
        if let Ok(digits) = str::from_utf8(&octal(mode)) {
            self.text(digits);
        }
    }

    /// Appends the text of an id.
    pub fn id(&mut self, id: &TroveId) {
        let text = id_text(self.alloc, id);
        self.made(text);
    }

    /// Appends the texts of ids, each behind a text.
    pub fn ids(&mut self, front: &str, ids: &[TroveId]) {
        for id in ids {
            self.text(front);
            self.id(id);
        }
    }

    /// Appends the texts of the ids of troves, each behind a text.
    pub fn trove_ids(&mut self, front: &str, troves: &[Trove]) {
        for trove in troves {
            self.text(front);
            self.id(trove.id());
        }
    }

    /// Appends a letter for each flag, or a dash.
    pub fn flags(&mut self, flags: Flags) {
        self.text(if flags.config { "c" } else { "-" });
        self.text(if flags.initial { "i" } else { "-" });
        self.text(if flags.transient { "t" } else { "-" });
    }

    /// Appends `yes` or `no` as a field.
    pub fn holds(&mut self, holds: bool) {
        self.field(if holds { "yes" } else { "no" });
    }

    /// Appends a text of lines, with a text for each line feed.
    pub fn lines(&mut self, text: &str, between: &str) {
        let mut lines = text.split('\n');
        if let Some(first) = lines.next() {
            self.text(first);
        }
        for line in lines {
            self.text(between);
            self.text(line);
        }
    }

    // ---- equality and order

    /// `same` or `different`.
    pub fn equality(&mut self, equal: bool) {
        self.field(if equal { "same" } else { "different" });
    }

    /// Whether two values are equal, and their order.
    pub fn order(&mut self, order: Ordering, equal: bool) {
        self.equality(equal);
        self.field(match order {
            Ordering::Less => "less",
            Ordering::Equal => "equal",
            Ordering::Greater => "greater",
        });
    }

    // ---- values

    /// `ok` and a text, each as a field.
    pub fn ok(&mut self, text: &str) {
        self.field("ok");
        self.field(text);
    }

    /// Tells a copy of a value.
    pub fn copied<T: Copies, F: FnOnce(&T, &mut Answer)>(&mut self, value: &T, tell: F)
        requires { F.IsAlwaysCallable tell }
    {
        if let Some(copy) = self.kept(value.copy()) {
            tell(&copy, self);
        }
    }

    /// `ok` and the digits of a content as fields, or a word where there is none.
    pub fn content(&mut self, found: &Option<Bytes>, none: &str) {
        match found {
            Some(bytes) => {
                self.field("ok");
                self.field_hex(bytes.get());
            }
            None => self.field(none),
        }
    }

    // ---- why a call has no value

    /// The text of a refusal as a field.
    pub fn refusal(&mut self, refusal: &Refusal) {
        let text = refusal_text(self.alloc, refusal);
        self.tab();
        self.made(text);
    }

    // Appends a word and a path as a field.
    fn damaged(&mut self, word: &str, path: &str) {
        self.field(word);
        self.text(path);
    }

    /// Appends why a call on disks stopped as a field: the text of a refusal, `failed`, `damaged PATH`, the last two behind `far ` for
    /// the other disk, or that no memory was left.
    pub fn stopped(&mut self, stop: &cny_base::Stop) {
        match stop {
            cny_base::Stop::Refused(refusal) => self.refusal(refusal),
            cny_base::Stop::Memory => self.memory(),
            cny_base::Stop::Failed => self.field("failed"),
            cny_base::Stop::Damaged { path } => self.damaged("damaged ", path.text()),
            cny_base::Stop::FarFailed => self.field("far failed"),
            cny_base::Stop::FarDamaged { path } => self.damaged("far damaged ", path.text()),
        }
    }

    // ---- answers apart

    /// An answer of its own, to be added or compared.
    pub fn apart(&self) -> Answer {
        Answer::new(self.alloc)
    }

    /// Remembers the failure of an answer that was made apart, where nothing failed before.
    pub fn keep_failure(&mut self, part: &Answer) {
        self.kept(part.stop.end());
    }

    /// Appends an answer that was made apart, with its failure.
    pub fn add(&mut self, part: &Answer) {
        self.text(part.get());
        self.keep_failure(part);
    }
}
