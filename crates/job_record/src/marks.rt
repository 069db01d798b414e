//! Fingerprints in a record, read from the front.
ghost use Rattle.std.specs.Prelude.{◌≡◌, ◌∷◌, IfOk, IsErrOf};
ghost use Rattle.job_record.specs.Reading.{IsNoToldFront, IsToldFront};

use crate::fields::read_file;
use local_db::Told;
use local_db::cny_base::{Target, TextFault, next_str};
use local_db::journal_log::read_mode;
use std::alloc::Global;
use tree_scan::Mark;

/// What is told at the front of some bytes, and how many of them it takes.
#[derive(Drop)]
pub(crate) struct ToldFront {
    pub(crate) told: Told,
    pub(crate) size: usize,
}

fn own(mark: Mark, size: usize) -> ToldFront
    ensures { result ≡ record { told = Told.Own mark; size = size } }
{
    ToldFront {
        told: Told::Own(mark),
        size,
    }
}

// A directory's fingerprint, of which these bytes stand behind the letter.
fn dir_front(rest: &[u8]) -> Result<ToldFront, TextFault>
    ensures value { IfOk result (λ found. IsToldFront (100 ∷ rest.now) found.told found.size) }
    ensures bad { IsErrOf result TextFault.Bad → IsNoToldFront (100 ∷ rest.now) }
{
    match read_mode(rest) {
        Some(mode) => Ok(own(Mark::Dir { mode }, 3)),
        None => Err(TextFault::Bad),
    }
}

// A file's fingerprint, of which these bytes stand behind the letter.
fn file_front(rest: &[u8]) -> Result<ToldFront, TextFault>
    ensures value { IfOk result (λ found. IsToldFront (102 ∷ rest.now) found.told found.size) }
    ensures bad { IsErrOf result TextFault.Bad → IsNoToldFront (102 ∷ rest.now) }
{
    let Some(fields) = read_file(rest) else {
        return Err(TextFault::Bad);
    };
    let name = fields.name;
    let mark = Mark::File {
        mode: fields.mode,
        size: u64::from(fields.size),
        name,
    };
    Ok(own(mark, 27))
}

// A link's fingerprint, of which these bytes stand behind the letter.
fn link_front(alloc: Global, rest: &[u8]) -> Result<ToldFront, TextFault>
    ensures value { IfOk result (λ found. IsToldFront (108 ∷ rest.now) found.told found.size) }
    ensures bad { IsErrOf result TextFault.Bad → IsNoToldFront (108 ∷ rest.now) }
{
    let Some(text) = next_str(rest, 0) else {
        return Err(TextFault::Bad);
    };
    let target = Target::read_bytes(alloc, &rest[text.from..text.to])?;
    Ok(own(Mark::Link { target }, text.to + 1))
}

/// What is told at the front of the bytes. `Bad` only where nothing is.
pub(crate) fn told_front(alloc: Global, bytes: &[u8]) -> Result<ToldFront, TextFault>
    ensures value { IfOk result (λ found. IsToldFront bytes.now found.told found.size) }
    ensures bad { IsErrOf result TextFault.Bad → IsNoToldFront bytes.now }
{
    let Some((letter, rest)) = bytes.split_first() else {
        return Err(TextFault::Bad);
    };
    match *letter {
        b'=' => Ok(ToldFront {
            told: Told::Listed,
            size: 1,
        }),
        b'n' => Ok(own(Mark::Nothing, 1)),
        b'd' => dir_front(rest),
        b'f' => file_front(rest),
        b'l' => link_front(alloc, rest),
        _ => Err(TextFault::Bad),
    }
}
