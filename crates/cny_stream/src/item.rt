//! Items of a stream: a tag of one byte, the length of the value in four bytes, the high byte first, and the value.
ghost use Rattle.std.specs.Prelude.{◌≡◌, ◌≤◌, ◌+◌, ◌++◌, [], List, ℕ, length, take, drop, IsTrue, OnOk, OnErr, IfOk, IfErr, IsOkAnd};
ghost use Rattle.cny_stream.specs.Item.{FitsItem, FitsOpen, IsItemAt, item_bytes, open_head, is_expected, fault_place, value_len};
ghost use Rattle.cny_stream.specs.ItemLaws.{SameItem};

use cny_base::{Bytes, OutOfMemory};

/// The tag of an item, and where its value stands in the bytes: from `from` up to `to`.
#[derive(Clone, Copy)]
pub struct Item {
    pub tag: u8,
    pub from: usize,
    pub to: usize,
}

/// An item that was begun: where it stands in the bytes, and its tag.
#[derive(Clone, Copy)]
pub struct OpenItem {
    pub at: usize,
    pub tag: u8,
}

/// Appends an item; on want of memory `out` is as before. The value is shorter than 2^32 bytes.
pub fn put_item(out: &mut Bytes, tag: u8, value: &[u8]) -> Result<(), OutOfMemory>
    requires { FitsItem value.now }
    ensures ok { OnOk result (out.new ≡ out.old ++ item_bytes tag value.now) }
    ensures err { OnErr result (out.new ≡ out.old) }
{
    let before = out.get().len();
    let [a, b, c, d] = (value.len() as u32).to_be_bytes();
    out.push_slice(&[tag, a, b, c, d])?;
    let put = out.push_slice(value);
    if put.is_err() {
        out.truncate(before);
    }
    put
}

/// Begins an item: appends a head of five bytes whose length isn't known yet. What is appended behind it, up to
/// `close_item`, is the value. On want of memory `out` is as before.
pub fn open_item(out: &mut Bytes, tag: u8) -> Result<OpenItem, OutOfMemory>
    ensures place { IfOk result (λ begun. (begun.at ≡ length out.old) × (begun.tag ≡ tag)) }
    ensures ok { OnOk result (out.new ≡ out.old ++ open_head tag) }
    ensures err { OnErr result (out.new ≡ out.old) }
{
    let at = out.get().len();
    out.push_slice(&[tag, 0, 0, 0, 0])?;
    Ok(OpenItem { at, tag })
}

// Writes the head of an item that was begun, now that its value is there.
fn write_head(out: &mut Bytes, begun: OpenItem)
    requires { FitsOpen begun.at out.old }
    ensures { out.new ≡ take begun.at out.old ++ item_bytes begun.tag (drop (begun.at + 5) out.old) }
{
    let len = out.get().len() - begun.at - 5;
    let [a, b, c, d] = (len as u32).to_be_bytes();
    out.write_at(begun.at, &[begun.tag, a, b, c, d]);
}

/// Ends an item, given how its value was put. Where that was done, the item's length is written into its head, and the
/// answer is `Ok`. Else all from the item on is cut off, so that `out` is as before the item, and the error is answered.
/// Takes no memory.
pub fn close_item(
    out: &mut Bytes,
    begun: OpenItem,
    put: Result<(), OutOfMemory>,
) -> Result<(), OutOfMemory>
    requires { OnOk put (FitsOpen begun.at out.old) }
    ensures ok { OnOk result (out.new ≡ take begun.at out.old ++ item_bytes begun.tag (drop (begun.at + 5) out.old)) }
    // The same, by what was appended to what.
    ensures closed { (front head value : List ℕ) → length front ≡ begun.at → length head ≡ 5
        → out.old ≡ (front ++ head) ++ value → OnOk result (out.new ≡ front ++ item_bytes begun.tag value) }
    ensures err { OnErr result (out.new ≡ take begun.at out.old) }
    ensures same { result ≡ put }
{
    if put.is_err() {
        out.truncate(begun.at);
        return put;
    }
    write_head(out, begun);
    Ok(())
}

// The length of the value of the item at the front.
fn value_len(bytes: &[u8]) -> Option<usize>
    ensures { result ≡ value_len bytes.now }
{
    if bytes.len() < 5 {
        return None;
    }
    let (head, rest) = bytes.split_at(5);
    let len = u32::from_be_bytes([head[1], head[2], head[3], head[4]]) as usize;
    if rest.len() < len {
        return None;
    }
    Some(len)
}

/// The item that begins at `at`, which is at most the length of the bytes. The answer is the place of
/// the fault exactly where no whole item with one of these tags begins there: the item's first byte
/// where that is another tag, else where the bytes end. Takes no memory.
pub fn next_item(bytes: &[u8], at: usize, tags: &[u8]) -> Result<Item, usize>
    requires { at ≤ length bytes.now }
    // What is found is spelled so, under a tag that is expected.
    ensures found { IfOk result (λ item. IsItemAt bytes.now at item.tag item.from item.to) }
    ensures expected { IfOk result (λ item. IsTrue (is_expected tags.now item.tag)) }
    // What is spelled so is found.
    ensures only { (tag : ℕ) (value rest : List ℕ) → IsTrue (is_expected tags.now tag) → FitsItem value
        → drop at bytes.now ≡ item_bytes tag value ++ rest
        → IsOkAnd result (λ item. (item.tag ≡ tag) × (item.from ≡ at + 5) × (item.to ≡ at + 5 + length value)) }
    ensures place { IfErr result (λ place. place ≡ fault_place bytes.now at tags.now) }
{
    let rest = &bytes[at..];
    let Some(tag) = rest.first() else {
        return Err(bytes.len());
    };
    if !tags.contains(tag) {
        return Err(at);
    }
    let Some(len) = value_len(rest) else {
        return Err(bytes.len());
    };
    let from = at + 5;
    Ok(Item {
        tag: *tag,
        from,
        to: from + len,
    })
}

/// Bytes begin with one item at most, and no item is a proper prefix of another.
pub fn one_item()
    ensures unique { (tag tag' : ℕ) (value value' rest rest' : List ℕ) → FitsItem value → FitsItem value'
        → item_bytes tag value ++ rest ≡ item_bytes tag' value' ++ rest' → SameItem tag tag' value value' rest rest' }
    ensures no_prefix { (tag tag' : ℕ) (value value' rest : List ℕ) → FitsItem value → FitsItem value'
        → item_bytes tag value ++ rest ≡ item_bytes tag' value' → rest ≡ [] }
{}
