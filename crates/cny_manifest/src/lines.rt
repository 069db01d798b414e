//! Lines and contents at the front of some bytes.
ghost use Rattle.std.specs.Prelude.{◌≡◌, ◌≤◌, length, take};
ghost use Rattle.manifest_troves.specs.cny-base.declared.limits.TheConstants.{CONTENT_LIMIT};
ghost use Rattle.cny_manifest.specs.Lines.{line_room, line_at, content_at};
ghost use Rattle.cny_manifest.specs.Reading.{Gives};

use crate::fault::{ReadError, Unread, fault_at};
use crate::fields::{cut, place_of};

const LINE_ROOM: usize = 2049;

// As many bytes as a line has room for.
#[tactic(auto, using(std::proofs::lemmas::List::take_min))]
fn front_of(bytes: &[u8]) -> &[u8]
    ensures front { result.now ≡ take line_room bytes.now }
    ensures short { length result.now ≤ length bytes.now }
{
    &bytes[..LINE_ROOM.min(bytes.len())]
}

/// The line at the front, and what is behind it.
#[tactic(auto, unfolding(crate::specs::Lines::line_at))]
pub(crate) fn line_of(bytes: &[u8]) -> Result<(&[u8], &[u8]), ReadError>
    ensures { Gives (λ x. (x.0.now, x.1.now)) result (line_at bytes.now) }
{
    match place_of(b'\n', front_of(bytes)) {
        Some(end) => Ok(cut(bytes, end)),
        None => {
            if bytes.len() < LINE_ROOM {
                Err(ReadError::Unread(Unread::At { left: 0 }))
            } else {
                let left = bytes.len();
                Err(ReadError::Unread(Unread::At { left }))
            }
        }
    }
}

/// So many bytes and a line feed, and what is behind them.
#[tactic(auto, unfolding(crate::specs::Lines::content_at))]
pub(crate) fn content_of(size: usize, bytes: &[u8]) -> Result<(&[u8], &[u8]), ReadError>
    requires { size ≤ CONTENT_LIMIT }
    ensures { Gives (λ x. (x.0.now, x.1.now)) result (content_at size bytes.now) }
{
    if bytes.len() < size + 1 {
        return Err(ReadError::Unread(Unread::At { left: 0 }));
    }
    if bytes[size] != b'\n' {
        return Err(fault_at(bytes));
    }
    Ok((&bytes[..size], &bytes[size + 1..]))
}
