//! Answers calls of the whole program over two trees in memory, and calls on repositories. A line of standard input is the name of a
//! call and its arguments, with a tab before each; the line of standard output with its number is what the call answers. The line
//! `disks` sets up the trees of a root and of a repository, and `input` and `sinks` the standard streams; the lines behind it call the
//! program over these. Of the calls on repositories the first argument is the tree of one. Input and wanted output come from
//! tools/lines/command_lines.py, which is made from the rules of the documents alone.
#![tactic(auto)]

mod between;
mod commits;
mod disks;
mod held;
mod history;
mod reading;
mod setting;
mod streams;

use crate::setting::Setting;
use line_words::{Answer, Calls, Line, answer_all};
use std::io;

// What the last line `disks` set up.
#[derive(Drop)]
struct Commands {
    setting: Option<Setting>,
}

impl Calls for Commands {
    fn call(&mut self, line: &mut Line, answer: &mut Answer) {
        match line.name() {
            "disks" => {
                self.setting = Setting::of(line);
                answer.text("ok");
            }
            "load" | "counts" | "content" | "source" | "between" | "commit" => {
                reading::call(line, answer);
            }
            _ => match &mut self.setting {
                Some(setting) => setting.call(line, answer),
                None => line.unreadable(),
            },
        }
    }
}

fn main(rt: HostRuntime) -> io::Result<()> {
    answer_all(&rt, &mut Commands { setting: None })
}
