//! The program: its `main` alone. What it does is safe, and its status is that of `run` and at most 8.
#![tactic(auto)]

use conary_cli::start;
use std::process::ExitCode;

fn main(rt: HostRuntime) -> ExitCode {
    ExitCode::from(start(&rt))
}
