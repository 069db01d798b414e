//! Nodes of a line. A node is `dir MODE`, `file MODE CONTENTS`, `link TARGET` or `nothing`, its contents bytes as an
//! argument or a hyphen for none; one that stands in a tree has its path behind it. Nodes have a semicolon between two.
use crate::line::Line;
use cny_report::cny_base::{Bytes, Mode, Node, Path, Target};
use tree_scan::Mark;

fn words_of(text: &str) -> (&str, &str) {
    text.split_once(' ').unwrap_or((text, ""))
}

impl Line<'_> {
    // The bytes of a part of a node, or none for a hyphen.
    fn contents_of(&mut self, raw: &str) -> Option<Bytes> {
        self.part(if raw == "-" { "" } else { raw })
    }

    fn file_of(&mut self, raw: &str) -> Option<Node> {
        let (mode, contents) = words_of(raw);
        let mode: Mode = self.part(mode)?;
        let bytes = self.contents_of(contents)?;
        Some(Node::File { mode, bytes })
    }

    // The node of a part of an argument; none where nothing stands.
    fn node_of(&mut self, raw: &str) -> Option<Node> {
        let (kind, rest) = words_of(raw);
        match kind {
            "dir" => Some(Node::Dir {
                mode: self.part(rest)?,
            }),
            "file" => self.file_of(rest),
            "link" => Some(Node::Link {
                target: self.part(rest)?,
            }),
            "nothing" if rest.is_empty() => None,
            _ => {
                self.unreadable();
                None
            }
        }
    }

    /// The path behind a node, and the node; none of it where nothing stands.
    pub fn placed_of(&mut self, raw: &str) -> Option<(Path, Option<Node>)> {
        let (node, path) = raw.rsplit_once(' ').unwrap_or(("", raw));
        let path: Path = self.part(path)?;
        Some((path, self.node_of(node)))
    }

    fn file_mark_of(&mut self, raw: &str) -> Option<Mark> {
        let (mode, rest) = words_of(raw);
        let (size, name) = words_of(rest);
        Some(Mark::File {
            mode: self.part(mode)?,
            size: self.part(size)?,
            name: self.part(name)?,
        })
    }

    fn some_mark_of(&mut self, raw: &str) -> Option<Mark> {
        let (kind, rest) = words_of(raw);
        match kind {
            "dir" => Some(Mark::Dir {
                mode: self.part(rest)?,
            }),
            "file" => self.file_mark_of(rest),
            "link" => Some(Mark::Link {
                target: self.part(rest)?,
            }),
            "nothing" if rest.is_empty() => Some(Mark::Nothing),
            _ => {
                self.unreadable();
                None
            }
        }
    }

    /// The fingerprint of a part of an argument: `nothing`, `dir MODE`, `file MODE SIZE NAME` or `link TARGET`.
    pub fn mark_of(&mut self, raw: &str) -> Mark {
        self.some_mark_of(raw).unwrap_or(Mark::Nothing)
    }
}
