//! Nodes and fingerprints as texts.
use crate::answer::Answer;
use cny_report::cny_base::{Mode, Node};
use tree_scan::Mark;

// The bytes of a file of more than so many aren't shown, but their SHA-1.
const FEW: usize = 40;
// Of a file of more than so many bytes only their number is shown.
const LARGE: usize = 1_000_000;

impl Answer {
    /// The bytes of a file: their digits, a hyphen for none, of more than 40 the number, a colon and the SHA-1, and of more than
    /// 1,000,000 the number.
    pub fn contents(&mut self, bytes: &[u8]) {
        if bytes.is_empty() {
            self.text("-");
        } else if bytes.len() <= FEW {
            self.hex(bytes);
        } else {
            self.many(bytes);
        }
    }

    // The number of bytes, and their SHA-1 where they aren't very many.
    fn many(&mut self, bytes: &[u8]) {
        self.number(bytes.len() as u64);
        if bytes.len() <= LARGE {
            self.text(":");
            self.sha1(bytes);
        }
    }

    /// `dir MODE`.
    pub fn dir(&mut self, mode: Mode) {
        self.text("dir ");
        self.mode(mode);
    }

    /// `file MODE CONTENTS`.
    pub fn file(&mut self, mode: Mode, bytes: &[u8]) {
        self.text("file ");
        self.mode(mode);
        self.text(" ");
        self.contents(bytes);
    }

    /// `link TARGET`.
    pub fn link(&mut self, target: &str) {
        self.text("link ");
        self.text(target);
    }

    /// A node.
    pub fn node(&mut self, node: &Node) {
        match node {
            Node::Dir { mode } => self.dir(*mode),
            Node::File { mode, bytes } => self.file(*mode, bytes.get()),
            Node::Link { target } => self.link(target.text()),
        }
    }

    /// What stands at a path, `nothing` where nothing does, and the path.
    pub fn placed(&mut self, path: &str, node: Option<&Node>) {
        match node {
            Some(node) => self.node(node),
            None => self.text("nothing"),
        }
        self.text(" ");
        self.text(path);
    }

    // `file MODE SIZE NAME`.
    fn file_mark(&mut self, mode: Mode, size: u64, name: &[u8; 20]) {
        self.text("file ");
        self.mode(mode);
        self.text(" ");
        self.number(size);
        self.text(" ");
        self.hex(name);
    }

    /// A fingerprint: `nothing`, `dir MODE`, `file MODE SIZE NAME` or `link TARGET`.
    pub fn mark(&mut self, mark: &Mark) {
        match mark {
            Mark::Nothing => self.text("nothing"),
            Mark::Dir { mode } => self.dir(*mode),
            Mark::File { mode, size, name } => self.file_mark(*mode, *size, name),
            Mark::Link { target } => self.link(target.text()),
        }
    }
}
