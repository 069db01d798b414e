//! The next request of a stream.
ghost use Rattle.std.specs.Prelude.{◌≡◌, ◌≢◌, IfErr, IfOk, IsErrOf, MatchOption, None};
ghost use Rattle.cny_stream.specs.Item.{begins_unexpected};
ghost use Rattle.repo_mirror.specs.Requests.{request_tags};
ghost use Rattle.repo_serve.specs.Steps.{IsFault, IsNext, IsOver};

use cny_stream::{Item, next_item};
use repo_load::cny_base::TextFault;
use repo_mirror::{CONTENT, MISSING, NAMED, REQUEST_END, REQUESTS_LIMIT, Request, request_of};
use std::alloc::Global;

/// A request, and where its item ends.
pub(crate) struct Next {
    pub(crate) request: Request,
    pub(crate) to: usize,
}

// Written by hand, so that to let a value go is a single call wherever a function ends early.
impl Drop for Next {
    fn drop(self) {
        let Next {
            request: _request,
            to: _,
        } = self;
    }
}

// The tags that an item may have behind so many requests.
fn tags_behind(number: usize) -> &'static [u8]
    ensures { result.now ≡ request_tags number }
{
    if number < REQUESTS_LIMIT {
        &[NAMED, CONTENT, MISSING, REQUEST_END]
    } else {
        &[REQUEST_END]
    }
}

// Whether the bytes begin with a tag that isn't expected.
fn is_unexpected(bytes: &[u8], tags: &[u8]) -> bool
    ensures { result ≡ begins_unexpected tags.now bytes.now }
{
    match bytes.first() {
        Some(tag) => !tags.contains(tag),
        None => false,
    }
}

/// The request whose item is the next one, behind so many requests; none where no item is whole, or where the end stands there.
/// `Bad` only where the item is at fault at its first byte.
pub(crate) fn next_request(
    alloc: Global,
    bytes: &[u8],
    number: usize,
) -> Result<Option<Next>, TextFault>
    ensures next { IfOk result (λ next. MatchOption next (IsOver number bytes.now) (λ it. IsNext number bytes.now it.request it.to)) }
    ensures bad { IsErrOf result TextFault.Bad → IsFault number bytes.now }
{
    let tags = tags_behind(number);
    if is_unexpected(bytes, tags) {
        return Err(TextFault::Bad);
    }
    let Ok(item) = next_item(bytes, 0, tags) else {
        return Ok(None);
    };
    if item.tag == REQUEST_END {
        return end_of(item);
    }
    let request = request_of(alloc, item.tag, &bytes[item.from..item.to])?;
    Ok(Some(Next {
        request,
        to: item.to,
    }))
}

// No request, where the end has no value.
fn end_of(item: Item) -> Result<Option<Next>, TextFault>
    ensures none { IfOk result (λ next. (next ≡ None) × (item.from ≡ item.to)) }
    ensures bad { IfErr result (λ why. item.from ≢ item.to) }
{
    if item.from != item.to {
        return Err(TextFault::Bad);
    }
    Ok(None)
}
