//! Verifications as texts.
ghost use Rattle.std.specs.Prelude.{◌≡◌, ◌++◌, IfOk, OnOk, string_bytes};
ghost use Rattle.cny_report.specs.Verified.{found_text, finding_line, sum_line, verified_text};

use crate::lines::{Line, push_lines};
use std::alloc::{AllocError, Global};
use std::fmt::Write;
use tree_scan::{Finding, Found, Verified};
use update_job::cny_base::{OutOfMemory, Text};

fn push_found(out: &mut String, path: &str, what: Found) -> Result<(), AllocError>
    ensures { OnOk result (string_bytes out.new ≡ string_bytes out.old ++ found_text path.now what) }
{
    match what {
        Found::Missing => write!(out, "missing {path}"),
        Found::Changed => write!(out, "changed {path}"),
        Found::Bytes(count) => write!(out, "changed {path} bytes {count}"),
    }
}

impl Line for Finding {
    ghost line = { finding_line };

    fn push(&self, _: Global, out: &mut String) -> Result<(), OutOfMemory> {
        push_found(out, self.path.text(), self.what)?;
        out.push('\n')?;
        Ok(())
    }
}

fn push_sum(out: &mut String, paths: u64, changed: usize) -> Result<(), AllocError>
    ensures { OnOk result (string_bytes out.new ≡ string_bytes out.old ++ sum_line paths changed) }
{
    write!(out, "verified {paths} paths, {changed} changed\n")
}

/// What a verification found: `missing PATH`, `changed PATH` or `changed PATH bytes D` for each finding, in the order given,
/// and last `verified N paths, M changed`, where M is the number of these lines.
pub fn verified_text(alloc: Global, verified: &Verified) -> Result<Text, OutOfMemory>
    ensures value { IfOk result (λ text. text ≡ verified_text verified.now) }
{
    let findings = verified.lines.get();
    let mut text = String::new(alloc);
    push_lines(alloc, &mut text, "", findings)?;
    push_sum(&mut text, verified.paths, findings.len())?;
    Ok(Text::from_string(text))
}
