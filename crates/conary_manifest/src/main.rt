//! The program `conary-manifest`: it reads its words, and writes the manifest of a directory of the host to standard output. Each call
//! returns, and its status is told in `docs/MANIFESTS.md`; what a directory of the host tells is tested.
#![tactic(auto)]

mod host_dir;
mod host_out;
mod host_owners;
mod said;
mod start;
mod words;

use crate::start::start;
use std::process::ExitCode;

fn main(rt: HostRuntime) -> ExitCode {
    ExitCode::from(start(&rt))
}
