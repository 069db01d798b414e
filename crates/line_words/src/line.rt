//! The line that is read.
use crate::answer::Answer;
use crate::argument::Argument;
use crate::first_stop::FirstStop;
use crate::stop::Stop;
use crate::terms::bytes_of;
use crate::value::Value;
use cny_report::cny_base::{Copies, Mode, Name, Options, Path, Target, TextFault};
use cny_report::trove_stream::Installed;
use std::alloc::Global;

/// A line. It remembers the first failure of those that read its arguments, which give any value then and go on.
pub struct Line<'a> {
    alloc: Global,
    name: &'a str,
    arguments: &'a [Argument],
    stop: FirstStop,
}

// Written by hand, so that to let a value go is a single call wherever a function ends early.
impl Drop for Line<'_> {
    fn drop(self) {
        let Line {
            alloc: _alloc,
            name: _name,
            arguments: _arguments,
            stop: _stop,
        } = self;
    }
}

impl<'a> Line<'a> {
    /// The line of this text, with these arguments.
    pub fn new(alloc: Global, text: &'a str, arguments: &'a [Argument]) -> Self {
        let (name, _) = text.split_once('\t').unwrap_or((text, ""));
        Line {
            alloc,
            name,
            arguments,
            stop: FirstStop::none(),
        }
    }

    /// The name of the call.
    pub fn name(&self) -> &'a str {
        self.name
    }

    /// What makes values.
    pub fn alloc(&self) -> Global {
        self.alloc
    }

    /// How many arguments there are.
    pub fn len(&self) -> usize {
        self.arguments.len()
    }

    /// Whether there is an argument at a place.
    pub fn has(&self, place: usize) -> bool {
        place < self.arguments.len()
    }

    // ---- failures

    /// Remembers why the line has no answer, where nothing failed before.
    pub fn note(&mut self, stop: Stop) {
        self.stop.note(stop);
    }

    /// The line is no call, or an argument isn't what the call takes.
    pub fn unreadable(&mut self) {
        self.note(Stop::Unreadable);
    }

    /// Whether something failed.
    pub fn failed(&self) -> bool {
        self.stop.failed()
    }

    /// Whether all was read.
    pub fn end(&self) -> Result<(), Stop> {
        self.stop.end()
    }

    /// What was made or read; none where it failed, which is remembered.
    pub fn kept<T: Drop, E: Into<Stop> + Drop>(&mut self, made: Result<T, E>) -> Option<T> {
        self.stop.kept(made)
    }

    /// What there has to be: where there is none, the line is no call.
    pub fn some<T: Drop>(&mut self, found: Option<T>) -> Option<T> {
        if found.is_none() {
            self.unreadable();
        }
        found
    }

    // ---- arguments that are borrowed or copied

    /// The argument at a place as it stands in the line; an empty text where there is none.
    pub fn raw(&mut self, place: usize) -> &'a str {
        let arguments = self.arguments;
        match arguments.get(place) {
            Some(argument) => argument.raw.as_str(),
            None => {
                self.unreadable();
                ""
            }
        }
    }

    /// The bytes of the argument at a place; none where it is unreadable.
    pub fn bytes(&mut self, place: usize) -> &'a [u8] {
        let arguments = self.arguments;
        if let Some(argument) = arguments.get(place) {
            if let Some(bytes) = &argument.bytes {
                return bytes.get();
            }
        }
        self.unreadable();
        b""
    }

    /// The text of the argument at a place; an empty one where it is unreadable.
    pub fn text(&mut self, place: usize) -> &'a str {
        match str::from_utf8(self.bytes(place)) {
            Ok(text) => text,
            Err(_) => {
                self.unreadable();
                ""
            }
        }
    }

    /// The number at a place, below 2^64; 0 where it is unreadable.
    pub fn number(&mut self, place: usize) -> u64 {
        self.value::<u64>(place).unwrap_or(0)
    }

    /// The number at a place, below 2^32; 0 where it is unreadable.
    pub fn small(&mut self, place: usize) -> u32 {
        self.value::<u32>(place).unwrap_or(0)
    }

    /// The mode at a place, in octal digits; any where it is unreadable.
    pub fn mode(&mut self, place: usize) -> Mode {
        self.value::<Mode>(place).unwrap_or(Mode::owner_only())
    }

    /// The name of a content at a place, in hexadecimal digits; any where it is unreadable.
    pub fn digest(&mut self, place: usize) -> [u8; 20] {
        self.value::<[u8; 20]>(place).unwrap_or([0; 20])
    }

    // ---- arguments that are values of their own

    /// The value at a place.
    pub fn value<T: Value>(&mut self, place: usize) -> Option<T> {
        let bytes = self.bytes(place);
        let read = T::read(self.alloc, bytes);
        self.kept(read)
    }

    /// The path at a place.
    pub fn path(&mut self, place: usize) -> Option<Path> {
        self.value::<Path>(place)
    }

    /// The name of a trove at a place.
    pub fn trove_name(&mut self, place: usize) -> Option<Name> {
        self.value::<Name>(place)
    }

    /// The target of a link at a place.
    pub fn target(&mut self, place: usize) -> Option<Target> {
        self.value::<Target>(place)
    }

    /// What a reader of texts makes of the argument at a place.
    pub fn read<T: Drop, F: FnOnce(Global, &str) -> Result<T, TextFault>>(
        &mut self,
        place: usize,
        reader: F,
    ) -> Option<T>
        requires { F.IsAlwaysCallable reader }
    {
        let text = self.text(place);
        let read = reader(self.alloc, text);
        self.kept(read)
    }

    /// The value of a part of an argument, as it stands in the line.
    pub fn part<T: Value>(&mut self, raw: &str) -> Option<T> {
        let read = part_of(self.alloc, raw);
        self.kept(read)
    }

    // Appends what was read of a part; where that is none, the line is no call.
    fn push_read<T: Drop>(&mut self, parts: &mut Vec<T>, read: Option<T>) {
        if let Some(part) = self.some(read) {
            self.kept(parts.push(part));
        }
    }

    /// What a reader makes of each part of a list, with a semicolon between two; nothing of an empty one. Where it makes none of a
    /// part, the line is no call.
    pub fn each<T: Drop, F: Fn(&mut Line, &str) -> Option<T>>(
        &mut self,
        raw: &str,
        reader: F,
    ) -> Vec<T>
        requires { F.IsAlwaysCallable reader }
    {
        let mut parts = Vec::new(self.alloc);
        if !raw.is_empty() {
            for part in raw.split(';') {
                let read = reader(self, part);
                self.push_read(&mut parts, read);
            }
        }
        parts
    }

    /// What a reader makes of each argument from a place on. Where it makes none of one, the line is no call.
    pub fn each_from<T: Drop, F: Fn(&mut Line, &str) -> Option<T>>(
        &mut self,
        first: usize,
        reader: F,
    ) -> Vec<T>
        requires { F.IsAlwaysCallable reader }
    {
        let mut parts = Vec::new(self.alloc);
        for place in first..self.arguments.len() {
            let raw = self.raw(place);
            let read = reader(self, raw);
            self.push_read(&mut parts, read);
        }
        parts
    }

    /// The values of the list at a place, with a semicolon between two; none of an empty argument.
    pub fn list<T: Value>(&mut self, place: usize) -> Vec<T> {
        let raw = self.raw(place);
        self.each(raw, |line: &mut Line, raw: &str| line.part::<T>(raw))
    }

    /// The values of the arguments from a place on.
    pub fn rest<T: Value>(&mut self, first: usize) -> Vec<T> {
        self.each_from(first, |line: &mut Line, raw: &str| line.part::<T>(raw))
    }

    /// The installed list of the troves at a place.
    pub fn installed(&mut self, place: usize) -> Option<Installed> {
        let installed = Installed::new(self.list(place));
        self.some(installed)
    }

    /// Whether a word is one of those of the argument at a place, with a space between two.
    pub fn mentions(&mut self, place: usize, word: &str) -> bool {
        self.raw(place).split(' ').any(|one| one == word)
    }

    /// The options of which the argument at a place has the words `replace` and `keep`.
    pub fn options(&mut self, place: usize) -> Options {
        Options {
            replace: self.mentions(place, "replace"),
            keep: self.mentions(place, "keep"),
        }
    }

    // ---- calls on values

    /// Tells what a reader makes of the text of the first argument, or `bad`.
    pub fn reads<
        T: Drop,
        R: FnOnce(Global, &str) -> Result<T, TextFault>,
        F: FnOnce(&T, &mut Answer),
    >(&mut self, answer: &mut Answer, reader: R, tell: F)
        requires reads { R.IsAlwaysCallable reader }
        requires tells { F.IsAlwaysCallable tell }
    {
        let text = self.text(0);
        let read = reader(self.alloc, text);
        answer.outcome(read, tell);
    }

    /// The same, but tells a copy.
    pub fn reads_copy<
        T: Copies,
        R: FnOnce(Global, &str) -> Result<T, TextFault>,
        F: FnOnce(&T, &mut Answer),
    >(&mut self, answer: &mut Answer, reader: R, tell: F)
        requires reads { R.IsAlwaysCallable reader }
        requires tells { F.IsAlwaysCallable tell }
    {
        let text = self.text(0);
        if let Some(value) = answer.given(reader(self.alloc, text)) {
            answer.copied(&value, tell);
        }
    }

    /// Tells what a reader makes of the bytes of the first argument, or `bad`.
    pub fn reads_bytes<
        T: Drop,
        R: FnOnce(Global, &[u8]) -> Result<T, TextFault>,
        F: FnOnce(&T, &mut Answer),
    >(&mut self, answer: &mut Answer, reader: R, tell: F)
        requires reads { R.IsAlwaysCallable reader }
        requires tells { F.IsAlwaysCallable tell }
    {
        let bytes = self.bytes(0);
        let read = reader(self.alloc, bytes);
        answer.outcome(read, tell);
    }

    /// Calls with the value of the first argument.
    pub fn one<A: Value, F: FnOnce(&A, &mut Answer)>(&mut self, answer: &mut Answer, call: F)
        requires { F.IsAlwaysCallable call }
    {
        if let Some(first) = self.value(0) {
            call(&first, answer);
        }
    }

    /// Calls with the value at a place.
    pub fn with<A: Value, F: FnOnce(&A, &mut Line, &mut Answer)>(
        &mut self,
        place: usize,
        answer: &mut Answer,
        call: F,
    )
        requires { F.IsAlwaysCallable call }
    {
        if let Some(value) = self.value(place) {
            call(&value, self, answer);
        }
    }

    /// Calls with the values of the first two arguments.
    pub fn two<A: Value, B: Value, F: FnOnce(&A, &B, &mut Answer)>(
        &mut self,
        answer: &mut Answer,
        call: F,
    )
        requires { F.IsAlwaysCallable call }
    {
        if let Some(first) = self.value(0) {
            if let Some(second) = self.value(1) {
                call(&first, &second, answer);
            }
        }
    }
}

// The value of a part of an argument.
fn part_of<T: Value>(alloc: Global, raw: &str) -> Result<T, Stop> {
    let bytes = bytes_of(alloc, raw)?;
    T::read(alloc, bytes.get())
}
