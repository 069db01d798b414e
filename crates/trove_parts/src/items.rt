//! Lists of items of one tag, whatever their elements are.
ghost use Rattle.std.specs.Prelude.{◌≡◌, ◌↔◌, ◌≤◌, ◌<◌, ◌+◌, ◌++◌, ◌∷◌, [], List, ℕ, IsTrue, All, length, take, drop, Option, IfOk, OnOk, OnErr, IsErrOf};
ghost use Rattle.std.specs.Cmp.{IsTotalOrder};
ghost use Rattle.std.specs.List.Sorted.{IsStrictlySortedBy};
ghost use Rattle.std.specs.Ordering.{is_lt};
ghost use Rattle.std.specs.declared.cmp.Ordering.{Ordering};
ghost use Rattle.cny_stream.specs.Item.{FitsItem, item_bytes};
ghost use Rattle.cny_stream.specs.declared.encoding.Encoding.{Encoding};
ghost use Rattle.trove_parts.specs.Items.{items_bytes, begins_with_tag, IsRisingList, IsWithin, BeginsWithItems, AreItemsAt, IsValueAt, AreOfOneList};

use cny_stream::{Encoding, next_item};
use cny_version::cny_base::{Bytes, OutOfMemory, TextFault};
use std::alloc::Global;

/// An element of a list that a stream holds as items.
pub(crate) trait Element {
    /// What the type and the rules hold of an element.
    ghost is_valid: { Self → Type 0 };

    /// The value of its item in an encoding.
    ghost value: { Encoding → Self → List ℕ };

    /// What has to hold of an element beside its type for its item to be written.
    ghost can_put: { Self → Type 0 };

    /// The order in which the elements of a list strictly rise.
    ghost compare: { Self → Self → Ordering };

    /// The element with this value. `Bad` only where it is that of none.
    fn read(alloc: Global, encoding: Encoding, bytes: &[u8]) -> Result<Self, TextFault>
        ensures value { IfOk result (λ x. bytes.now ≡ value encoding x) }
        ensures ok { IfOk result is_valid }
        ensures bad { IsErrOf result TextFault.Bad → (x : Self) → is_valid x → bytes.now ≡ value encoding x → ⊥ }
        ensures only { IfOk result (λ read. (x : Self) → is_valid x → bytes.now ≡ value encoding x → read ≡ x) };

    /// Appends the item of the element; on want of memory `out` is as before.
    fn put(
        &self,
        alloc: Global,
        encoding: Encoding,
        tag: u8,
        out: &mut Bytes,
    ) -> Result<(), OutOfMemory>
        requires { can_put self.now }
        ensures ok { OnOk result (out.new ≡ out.old ++ item_bytes tag (value encoding self.now)) }
        ensures err { OnErr result (out.new ≡ out.old) }
        ensures valid { OnOk result (is_valid self.now) };

    /// Whether the element is valid.
    fn is_good(&self) -> bool
        ensures { IsTrue result ↔ is_valid self.now };

    /// Whether the element comes before another one.
    fn is_below(&self, later: &Self) -> bool
        ensures { result ≡ is_lt (compare self.now later.now) };

    /// Each value has room in an item.
    fn values_fit()
        ensures { (encoding : Encoding) (x : Self) → is_valid x → FitsItem (value encoding x) };

    /// No two elements have one value, whichever the encodings.
    fn values_differ()
        ensures { (one other : Encoding) (x y : Self) → is_valid x → is_valid y → value one x ≡ value other y → x ≡ y };

    ghost total: { IsTotalOrder compare };
}

/// No bytes begin with the items of two lists.
pub(crate) fn one_list<T: Element>()
    ensures { (one other : Encoding) → AreOfOneList (T.value one) (T.value other) T.is_valid }
{
    T::values_fit();
    T::values_differ();
}

// Whether the elements are valid.
fn are_good<T: Element>(items: &[T]) -> bool
    ensures { IsTrue result ↔ All T.is_valid items.now }
{
    for item in items {
        if !item.is_good() {
            return false;
        }
    }
    true
}

// Whether each element is above the one before it.
fn are_rising<T: Element>(items: &[T]) -> bool
    ensures { IsTrue result ↔ IsStrictlySortedBy T.compare items.now }
{
    items.is_sorted_by(|earlier, later| earlier.is_below(later))
}

/// Whether the elements are valid and strictly rise.
pub(crate) fn are_listed<T: Element>(items: &[T]) -> bool
    ensures { IsTrue result ↔ IsRisingList T.is_valid T.compare items.now }
{
    if !are_good(items) {
        return false;
    }
    are_rising(items)
}

// Appends the items of the elements; on want of memory some of them may be there.
fn push_items<T: Element>(
    alloc: Global,
    encoding: Encoding,
    out: &mut Bytes,
    tag: u8,
    items: &[T],
) -> Result<(), OutOfMemory>
    requires { All T.can_put items.now }
    ensures ok { OnOk result (out.new ≡ out.old ++ items_bytes (T.value encoding) tag items.now) }
    ensures err { OnErr result (take (length out.old) out.new ≡ out.old) }
    ensures valid { OnOk result (All T.is_valid items.now) }
{
    for item in items {
        item.put(alloc, encoding, tag, out)?;
    }
    Ok(())
}

/// Appends the items of the elements; on want of memory `out` is as before.
pub(crate) fn put_items<T: Element>(
    alloc: Global,
    encoding: Encoding,
    out: &mut Bytes,
    tag: u8,
    items: &[T],
) -> Result<(), OutOfMemory>
    requires { All T.can_put items.now }
    ensures ok { OnOk result (out.new ≡ out.old ++ items_bytes (T.value encoding) tag items.now) }
    ensures err { OnErr result (out.new ≡ out.old) }
    ensures valid { OnOk result (All T.is_valid items.now) }
{
    let before = out.get().len();
    let put = push_items(alloc, encoding, out, tag, items);
    if put.is_err() {
        out.truncate(before);
    }
    put
}

/// The element whose item begins at `at`, and the item's end. `Bad` only where none of this tag
/// begins there.
pub(crate) fn take_item<T: Element + Drop>(
    alloc: Global,
    encoding: Encoding,
    bytes: &[u8],
    at: usize,
    tag: u8,
) -> Result<(T, usize), TextFault>
    requires { at ≤ length bytes.now }
    ensures found { IfOk result (λ found. IsValueAt (T.value encoding) bytes.now at tag found.0 found.1) }
    ensures ok { IfOk result (λ found. T.is_valid found.0) }
    ensures goes_on { IfOk result (λ found. at < found.1) }
    ensures bad { IsErrOf result TextFault.Bad → (x : T) (rest : List ℕ) → T.is_valid x
        → drop at bytes.now ≡ item_bytes tag (T.value encoding x) ++ rest → ⊥ }
    ensures only { IfOk result (λ found. (x : T) (rest : List ℕ) → T.is_valid x
        → drop at bytes.now ≡ item_bytes tag (T.value encoding x) ++ rest → (found.0 ≡ x) × (drop found.1 bytes.now ≡ rest)) }
{
    T::values_fit();
    let Ok(item) = next_item(bytes, at, &[tag]) else {
        return Err(TextFault::Bad);
    };
    let element = T::read(alloc, encoding, &bytes[item.from..item.to])?;
    Ok((element, item.to))
}

// Whether the byte at `at`, if there is one, is this tag.
fn begins_with(bytes: &[u8], at: usize, tag: u8) -> bool
    requires { at ≤ length bytes.now }
    ensures { result ≡ begins_with_tag tag (drop at bytes.now) }
{
    match bytes[at..].first() {
        None => false,
        Some(byte) => *byte == tag,
    }
}

// Whether the element is above the last of the others, if there is one.
fn is_next<T: Element>(items: &[T], element: &T) -> bool
    requires { IsStrictlySortedBy T.compare items.now }
    ensures { IsTrue result ↔ IsStrictlySortedBy T.compare (items.now ++ element.now ∷ []) }
{
    match items.last() {
        None => true,
        Some(last) => last.is_below(element),
    }
}

// Whether a list with so many elements may have one more.
fn has_room(limit: Option<usize>, count: usize) -> bool
    ensures { IsTrue result ↔ IsWithin limit (count + 1) }
{
    match limit {
        None => true,
        Some(most) => count < most,
    }
}

/// The elements of all items of this tag that begin at `at`, one behind the other, and their end.
/// `Bad` only where they aren't those of a rising list of valid elements, or are more than the limit, where there is one:
/// then no element past it is read.
pub(crate) fn take_items<T: Element + Drop>(
    alloc: Global,
    encoding: Encoding,
    bytes: &[u8],
    at: usize,
    tag: u8,
    limit: Option<usize>,
) -> Result<(Vec<T>, usize), TextFault>
    requires { at ≤ length bytes.now }
    ensures found { IfOk result (λ found. AreItemsAt (T.value encoding) bytes.now at tag found.0.items found.1) }
    ensures ok { IfOk result (λ found. IsRisingList T.is_valid T.compare found.0.items) }
    ensures few { IfOk result (λ found. IsWithin limit (length found.0.items)) }
    ensures bad { IsErrOf result TextFault.Bad → (xs : List T) (rest : List ℕ) → IsRisingList T.is_valid T.compare xs → IsWithin limit (length xs)
        → BeginsWithItems (T.value encoding) tag (drop at bytes.now) xs rest → ⊥ }
    ensures only { IfOk result (λ found. (xs : List T) (rest : List ℕ) → IsRisingList T.is_valid T.compare xs
        → BeginsWithItems (T.value encoding) tag (drop at bytes.now) xs rest → (found.0.items ≡ xs) × (drop found.1 bytes.now ≡ rest)) }
{
    let mut items: Vec<T> = Vec::new(alloc);
    let mut end = at;
    'items: loop {
        if !begins_with(bytes, end, tag) {
            return Ok((items, end));
        }
        if !has_room(limit, items.len()) {
            return Err(TextFault::Bad);
        }
        let (element, to) = take_item::<T>(alloc, encoding, bytes, end, tag)?;
        if !is_next(items.as_slice(), &element) {
            return Err(TextFault::Bad);
        }
        items.push(element)?;
        end = to;
    }
}
