//! The revision after the latest one.
ghost use Rattle.std.specs.Prelude.{◌≡◌, ◌≤◌, ◌+◌, ◌++◌, ◌∷◌, [], ◌↔◌, take, slice_index, IfOk, IfErr, IsErrOf, IsSome, IsTrue, MatchOption};
ghost use Rattle.std.specs.Option.{ForSome, option_copied};
ghost use Rattle.cny_base.specs.declared.refusal.Fault.TheVariants as fault;
ghost use Rattle.cny_base.specs.declared.refusal.Refusal.TheVariants as refusal;
ghost use Rattle.cny_base.specs.declared.refusal.What.TheVariants as what;
ghost use Rattle.cny_base.specs.declared.limits.TheConstants.{COUNT_LIMIT};
ghost use Rattle.cny_version.specs.Made.{filled_up};
ghost use Rattle.cny_version.specs.Next as spec;
ghost use Rattle.cny_version.specs.Next.{latest_count, number_to_raise, with_count};
ghost use Rattle.cny_version.specs.Revision.{is_revision};
ghost use Rattle.cny_version.specs.TooLarge.{TooLargeOrMemory};

use crate::count::Count;
use crate::revision::Revision;
use cny_base::{COUNT_LIMIT, Copies, Fault, OutOfMemory, Refusal, What};
use std::alloc::Global;

/// The revision after the latest one of its branch. It keeps the upstream of the wanted revision
/// and, where that has a build count, its source count. The other count is that of the latest
/// revision, filled up with zeros to depth + 1 numbers, with the last one raised by 1; with no
/// latest revision it is zeros followed by 1. `TooLarge` exactly where the number to be raised is
/// 4,294,967,295.
pub fn next_revision(
    alloc: Global,
    wanted: &Revision,
    depth: u32,
    latest: Option<&Revision>,
) -> Result<Revision, Fault>
    requires depth { depth ≤ 512 }
    requires fits { ForSome latest (λ r. IsTrue (is_revision depth r.now)) }
    requires build { ForSome latest (λ r. IsSome wanted.now.build → IsSome r.now.build) }
    ensures value { IfOk result (λ r. r ≡ spec.next_revision wanted.now depth (option_copied latest.entry)) }
    ensures fits { IsTrue (is_revision depth wanted.now) → IfOk result (λ r. IsTrue (is_revision depth r)) }
    ensures too_large { IsErrOf result (fault.Refused (refusal.TooLarge what.Count COUNT_LIMIT))
        ↔ (number_to_raise depth (latest_count wanted.now (option_copied latest.entry)) ≡ COUNT_LIMIT) }
    ensures fault { IfErr result (TooLargeOrMemory what.Count COUNT_LIMIT) }
{
    let numbers = latest_numbers(wanted, latest);
    let last = number_at(numbers, depth);
    if last == COUNT_LIMIT {
        return Err(Fault::Refused(Refusal::TooLarge {
            what: What::Count,
            size: COUNT_LIMIT as u64,
        }));
    }
    let count = raised(alloc, numbers, depth, last + 1)?;
    Ok(counted(wanted, count)?)
}

// The numbers of the latest count; none where there is no latest revision.
fn latest_numbers<'a>(wanted: &Revision, latest: Option<&'a Revision>) -> &'a [u32]
    requires { ForSome latest (λ r. IsSome wanted.now.build → IsSome r.now.build) }
    ensures { MatchOption (latest_count wanted.now (option_copied latest.entry)) (result.now ≡ []) (λ numbers. result.now ≡ numbers) }
{
    let Some(latest) = latest else {
        return &[];
    };
    if wanted.build.is_none() {
        return latest.source.get();
    }
    match &latest.build {
        Some(build) => build.get(),
        None => &[],
    }
}

// The number at a place; 0 where the count is shorter.
fn number_at(numbers: &[u32], place: u32) -> u32
    ensures { result ≡ slice_index numbers.now place }
{
    numbers.get(place as usize).copied().unwrap_or(0)
}

// The count filled up with zeros, with this number as its last one.
fn raised(alloc: Global, numbers: &[u32], depth: u32, last: u32) -> Result<Count, OutOfMemory>
    ensures { IfOk result (λ count. count ≡ take depth (filled_up depth numbers.now) ++ last ∷ []) }
{
    let mut items = Vec::new(alloc);
    for place in 0..depth {
        items.push(number_at(numbers, place))?;
    }
    items.push(last)?;
    Ok(Count::new(items))
}

// The wanted revision with this count in question.
fn counted(wanted: &Revision, count: Count) -> Result<Revision, OutOfMemory>
    ensures { IfOk result (λ r. r ≡ with_count wanted.now wanted.now.build count) }
{
    let upstream = wanted.upstream.copy()?;
    if wanted.build.is_none() {
        return Ok(Revision {
            upstream,
            source: count,
            build: None,
        });
    }
    Ok(Revision {
        upstream,
        source: wanted.source.copy()?,
        build: Some(count),
    })
}
