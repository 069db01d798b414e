//! Requests to a repository that come in pieces.
use line_words::{Answer, Line};
use repo_index::Catalogue;
use repo_load::cny_base::{Bytes, Fault, Stop};
use repo_load::load;
use repo_serve::Session;
use root_words::{Quiet, disk_of};

// A session, what its replies are, and how many bytes it was given.
struct Served {
    session: Session,
    out: Bytes,
    given: u64,
}

impl Drop for Served {
    fn drop(self) {
        let Served {
            session: _session,
            out: _out,
            given: _,
        } = self;
    }
}

fn feed(
    disk: &mut Quiet,
    catalogue: &Catalogue,
    piece: &[u8],
    served: &mut Served,
    answer: &Answer,
) -> Result<(), Stop> {
    served.given = served.given.saturating_add(piece.len() as u64);
    served
        .session
        .feed(answer.alloc(), disk, catalogue, piece, &mut served.out)
}

// Gives the stream in pieces of so many bytes, up to a stop.
fn feed_all(
    disk: &mut Quiet,
    catalogue: &Catalogue,
    stream: &[u8],
    size: usize,
    served: &mut Served,
    answer: &Answer,
) -> Result<(), Stop> {
    for piece in stream.chunks(size.max(1)) {
        feed(disk, catalogue, piece, served, answer)?;
    }
    Ok(())
}

// Why a call stopped, and want of memory as a word.
fn push_stop(stop: &Stop, answer: &mut Answer) {
    match stop {
        Stop::Memory => answer.field("memory"),
        _ => answer.stopped(stop),
    }
}

impl Served {
    // How a session ends: the replies, or why there are none.
    fn push_end(self, answer: &mut Answer) {
        let Served {
            session,
            mut out,
            given: _,
        } = self;
        match session.end(&mut out) {
            Ok(()) => answer.field_hex(out.get()),
            Err(Fault::Refused(refusal)) => answer.refusal(&refusal),
            Err(Fault::Memory) => answer.field("memory"),
        }
    }
}

// A stop, after how many bytes it came, what one byte more and no byte more are answered, and how the session ends.
fn push_again(
    disk: &mut Quiet,
    catalogue: &Catalogue,
    stop: &Stop,
    mut served: Served,
    answer: &mut Answer,
) {
    push_stop(stop, answer);
    answer.field_number(served.given);
    for piece in [b"\0".as_slice(), b"".as_slice()] {
        match feed(disk, catalogue, piece, &mut served, answer) {
            Ok(()) => answer.field("ok"),
            Err(again) => push_stop(&again, answer),
        }
    }
    served.push_end(answer);
}

/// `serve TREE SIZE STREAM`: the replies of the repository to a stream in pieces of so many bytes. After a stop also how many bytes
/// were given, what two further calls are answered, and how it ends then.
pub fn serve(line: &mut Line, answer: &mut Answer) {
    let size = line.small(1) as usize;
    let stream = line.bytes(2);
    let Some(mut disk) = disk_of(line, 0, 0) else {
        return;
    };
    let Some(catalogue) = answer.given(load(answer.alloc(), &mut disk)) else {
        return;
    };
    let mut served = Served {
        session: Session::new(answer.alloc()),
        out: Bytes::from_vec(Vec::new(answer.alloc())),
        given: 0,
    };
    match feed_all(&mut disk, &catalogue, stream, size, &mut served, answer) {
        Ok(()) => served.push_end(answer),
        Err(stop) => push_again(&mut disk, &catalogue, &stop, served, answer),
    }
}
