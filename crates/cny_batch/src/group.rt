//! The manifests of the groups.
ghost use Rattle.std.specs.Prelude.{◌≡◌, ◌++◌, ◌≤◌, IfOk, OnOk};
ghost use Rattle.cny_batch.specs.Manifests.{all_refs, group_manifest, ref_within, refs_of_hundred, refs_of_ten};

use crate::writing::{push_text, push_version, version_of};
use cny_base::{Bytes, OutOfMemory};
use std::alloc::Global;

// The reference to the package of a number, where there is one.
#[tactic(auto, using(std::proofs::lemmas::List::append_assoc), unfolding(crate::specs::Manifests::ref_within))]
fn push_ref(
    alloc: Global,
    out: &mut Bytes,
    packages: u64,
    round: u64,
    number: u64,
) -> Result<(), OutOfMemory>
    ensures { OnOk result (out.new ≡ out.old ++ ref_within packages round number) }
{
    if number > packages {
        return Ok(());
    }
    let version = version_of(alloc, round)?;
    let text = format!(in alloc; "ref p{number}={version}\n")?;
    push_text(out, text.as_str())
}

// The same, and those of a further digit behind the number.
fn push_ten(
    alloc: Global,
    out: &mut Bytes,
    packages: u64,
    round: u64,
    number: u64,
) -> Result<(), OutOfMemory>
    requires { number ≤ 1000 }
    ensures { OnOk result (out.new ≡ out.old ++ refs_of_ten packages round number) }
{
    push_ref(alloc, out, packages, round, number)?;
    for digit in 0..10 {
        push_ref(alloc, out, packages, round, 10 * number + digit)?;
    }
    Ok(())
}

// The same with two further digits.
fn push_hundred(
    alloc: Global,
    out: &mut Bytes,
    packages: u64,
    round: u64,
    number: u64,
) -> Result<(), OutOfMemory>
    requires { number ≤ 9 }
    ensures { OnOk result (out.new ≡ out.old ++ refs_of_hundred packages round number) }
{
    push_ref(alloc, out, packages, round, number)?;
    for digit in 0..10 {
        push_ten(alloc, out, packages, round, 10 * number + digit)?;
    }
    Ok(())
}

// All references, in the order of their ids, which is that of the digits.
fn push_refs(alloc: Global, out: &mut Bytes, packages: u64, round: u64) -> Result<(), OutOfMemory>
    ensures { OnOk result (out.new ≡ out.old ++ all_refs packages round) }
{
    for number in 1..10 {
        push_hundred(alloc, out, packages, round, number)?;
    }
    Ok(())
}

/// The manifest of the group of so many packages, fewer than 1,000, in a round.
pub fn group_manifest(alloc: Global, packages: u64, round: u64) -> Result<Bytes, OutOfMemory>
    ensures { IfOk result (λ bytes. bytes ≡ group_manifest packages round) }
{
    let mut out = Bytes::from_vec(Vec::new(alloc));
    push_text(&mut out, "manifest 1\ngroup group-demo\n")?;
    push_version(alloc, &mut out, round)?;
    push_refs(alloc, &mut out, packages, round)?;
    push_text(&mut out, "end\n")?;
    Ok(out)
}
