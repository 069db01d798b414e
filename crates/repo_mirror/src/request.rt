//! Requests to a repository.
ghost use Rattle.std.specs.Prelude.{◌≡◌, ◌⊎◌, ℕ, List, IfOk, IsErrOf};
ghost use Rattle.change_set.specs.trove-parts.declared.id.TroveId.{TroveId};
ghost use Rattle.change_set.specs.trove-parts.Refs.{AreRefs};
ghost use Rattle.repo_mirror.specs.declared.request.Request.{Request};
ghost use Rattle.repo_mirror.specs.Requests.{ids_bytes, IsItemOf};

use change_set::cny_base::{Name, TextFault};
use change_set::trove_parts::{Refs, are_refs, next_id};
use std::alloc::Global;

/// The most requests of a stream.
pub const REQUESTS_LIMIT: usize = 65_536;

/// `CNYRQ01` and a line feed, with which a stream of requests begins.
pub const REQUEST_MAGIC: &[u8] = b"CNYRQ01\n";

/// The tag of the item at the end of a stream of requests.
pub const REQUEST_END: u8 = 0x7f;

/// The tag of a request for the ids of a name.
pub const NAMED: u8 = 0x70;

/// The tag of a request for a content.
pub const CONTENT: u8 = 0x71;

/// The tag of a request for missing troves.
pub const MISSING: u8 = 0x72;

/// What is asked of a repository.
pub enum Request {
    /// The ids of the troves of this name.
    Named(Name),
    /// The content whose SHA-1 this is.
    Content([u8; 20]),
    /// The troves whose ids are none of these, which strictly rise by name, version text and flavor text.
    Missing(Refs),
}

// Written by hand, so that to let a request go is a single call wherever a function ends early.
impl Drop for Request {
    fn drop(self) {
        match self {
            Request::Named(_name) => {}
            Request::Content(_) => {}
            Request::Missing(_ids) => {}
        }
    }
}

// The ids whose bytes these are, one behind the other, where they strictly rise.
fn read_ids(alloc: Global, bytes: &[u8]) -> Result<Refs, TextFault>
    ensures rising { IfOk result AreRefs }
    ensures value { IfOk result (λ ids. bytes.now ≡ ids_bytes ids) }
    ensures bad { IsErrOf result TextFault.Bad → (ids : List TroveId) → AreRefs ids → bytes.now ≡ ids_bytes ids → ⊥ }
{
    let mut ids = Vec::new(alloc);
    let mut at = 0;
    'ids: while at < bytes.len() {
        let found = next_id(alloc, bytes, at)?;
        ids.push(found.id)?;
        at = found.to;
    }
    if !are_refs(ids.as_slice()) {
        return Err(TextFault::Bad);
    }
    Ok(Refs::new(ids))
}

/// The request whose item has this tag, one of the three, and this value. `Bad` only where it is no request's; want of memory may
/// be answered then instead.
pub fn request_of(alloc: Global, tag: u8, value: &[u8]) -> Result<Request, TextFault>
    requires { (tag ≡ 0x70) ⊎ ((tag ≡ 0x71) ⊎ (tag ≡ 0x72)) }
    ensures found { IfOk result (IsItemOf tag value.now) }
    ensures bad { IsErrOf result TextFault.Bad → (request : Request) → IsItemOf tag value.now request → ⊥ }
{
    if tag == NAMED {
        return Ok(Request::Named(Name::read_bytes(alloc, value)?));
    }
    if tag == CONTENT {
        let name = value.as_array::<20>().ok_or(TextFault::Bad)?;
        return Ok(Request::Content(*name));
    }
    Ok(Request::Missing(read_ids(alloc, value)?))
}
