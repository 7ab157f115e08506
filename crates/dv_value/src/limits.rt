//! How long documents are, and whether they are within the limits.

ghost use Rattle.std.specs.Prelude.{◌≡◌, ◌+◌, ◌≤◌, ◌↔◌, IsTrue, IfSome, length, decimal};
ghost use Rattle.std.specs.Option.{SomeIff};
ghost use Rattle.dv_value.specs.Tree.{fields_of, elements_of};
ghost use Rattle.dv_value.specs.Tree as trees;
ghost use Rattle.dv_value.specs.Spelling.{payload, spelling, levels, IsValue, Fits};
ghost use Rattle.dv_value.specs.View.{tree};

use crate::value::{Document, List, Value};
use itoa::Buffer;

/// The length of the longest document that can be written: a length is an int32.
const LONGEST: usize = 2_147_483_647;

/// The bytes around the elements of a document or an array, around a text, or around the bytes of a binary: the four bytes of a length,
/// and the closing zero or the subtype.
pub const FRAME: usize = 5;

/// The four bytes of a count.
const COUNT: usize = 4;

/// The length of the longest document that is read and stored, in bytes.
pub const MAX_DOCUMENT_LEN: u32 = 16_777_216;

/// How many levels of documents and arrays there may be in what is read and stored.
pub const MAX_LEVELS: u32 = 100;

/// A document of at most this many bytes has at most `MAX_LEVELS` levels: each level has five bytes of its own.
const NEVER_TOO_DEEP: usize = 5 * MAX_LEVELS as usize;

/// The length of the document's encoding in bytes; `None` above 2,147,483,647. Takes no memory.
pub fn size(document: &Document) -> Option<u32>
    ensures { SomeIff result (length (spelling document.now) ≤ 2147483647) (length (spelling document.now)) }
{
    let size = document_size(document)?;
    Some(size as u32)
}

/// Whether the document is within the limits for what is read and stored: 16,777,216 bytes and 100 levels. Takes no memory, and
/// constant time if the length of the encoding is kept.
pub fn fits(document: &Document) -> bool
    ensures { IsTrue result ↔ Fits document.now }
{
    if let Some(size) = document.kept_size() {
        return size <= MAX_DOCUMENT_LEN;
    }
    match counted_size(document) {
        Some(size) => size <= MAX_DOCUMENT_LEN as usize && is_shallow(document, size),
        None => false,
    }
}

/// Whether a document whose encoding has this size has at most 100 levels.
pub(crate) fn is_shallow(document: &Document, size: usize) -> bool
    requires { size ≡ length (spelling document.now) }
    ensures { IsTrue result ↔ (levels (trees.document (fields_of document.now)) ≤ 100) }
{
    size <= NEVER_TOO_DEEP || document_within(document, MAX_LEVELS)
}

/// The sum of two lengths, if a document can be that long.
fn sum(length: usize, more: usize) -> Option<usize>
    ensures { SomeIff result (length + more ≤ 2147483647) (length + more) }
{
    let sum = length.checked_add(more)?;
    if sum <= LONGEST { Some(sum) } else { None }
}

/// How many digits a number has.
pub(crate) fn digits(number: usize) -> usize
    ensures { result ≡ length (decimal number) }
{
    let mut buffer = Buffer::new();
    buffer.format(number).len()
}

/// The length of a binary: a count, the subtype, the bytes.
#[tactic(auto, using(crate::specs::Inner::Spelled::length_binary))]
fn binary_size(subtype: u8, bytes: &[u8]) -> Option<usize>
    ensures size { SomeIff result (length (payload (trees.binary subtype bytes.now)) ≤ 2147483647) (length (payload (trees.binary subtype bytes.now))) }
    ensures valid { IsValue (trees.binary subtype bytes.now) }
{
    sum(bytes.len(), COUNT + subtype.to_le_bytes().len())
}

#[tactic(auto, unfolding(crate::specs::Spelling::payload))]
fn object_id_size(id: [u8; 12]) -> usize
    ensures size { result ≡ length (payload (trees.object_id id)) }
    ensures valid { IsValue (trees.object_id id) }
{
    id.len()
}

/// The length in bytes of a value's encoding, without its type and its name; `None` above 2,147,483,647. A value that has one is
/// valid at each of its levels. Takes no memory.
#[cycle(size)]
pub fn value_size(value: &Value) -> Option<usize>
    ensures size { SomeIff result (length (payload (tree value.now)) ≤ 2147483647) (length (payload (tree value.now))) }
    ensures valid { IfSome result (λ _. IsValue (tree value.now)) }
{
    match value {
        Value::Int32(number) => Some(number.to_le_bytes().len()),
        Value::Int64(number) => Some(number.to_le_bytes().len()),
        Value::Text(text) => sum(text.as_str().len(), FRAME),
        Value::Doc(document) => document_size(document),
        Value::Array(list) => list_size(list),
        Value::Binary { subtype, bytes } => binary_size(*subtype, bytes.as_slice()),
        Value::ObjectId(id) => Some(object_id_size(*id)),
        Value::Bool(_) => Some(1),
        Value::Date(milliseconds) => Some(milliseconds.to_le_bytes().len()),
        Value::Timestamp(time) => Some(time.to_le_bytes().len()),
        Value::Null => Some(0),
        Value::MinKey => Some(0),
        Value::MaxKey => Some(0),
    }
}

/// The length with an element added: a type byte, a name of this many bytes, a zero byte, and the value.
#[cycle(size)]
fn with_element(total: usize, name: usize, value: &Value) -> Option<usize>
    ensures size { SomeIff result (total + (length (payload (tree value.now)) + name + 2) ≤ 2147483647) (total + (length (payload (tree value.now)) + name + 2)) }
    ensures valid { IfSome result (λ _. IsValue (tree value.now)) }
{
    let size = value_size(value)?;
    sum(total, sum(sum(size, name)?, 2)?)
}

/// The same. Also `None` if the levels of the value and those around it are more than 100 together.
pub(crate) fn with_shallow_element(
    total: usize,
    name: usize,
    value: &Value,
    around: u32,
) -> Option<usize>
    requires { around ≤ 100 }
    ensures size { IfSome result (λ size. size ≡ total + (length (payload (tree value.now)) + name + 2)) }
    ensures within { IfSome result (λ size. size ≤ 2147483647) }
    ensures valid { IfSome result (λ _. IsValue (tree value.now)) }
    ensures depth { IfSome result (λ _. levels (tree value.now) + around ≤ 100) }
{
    if !value_within(value, MAX_LEVELS - around) {
        return None;
    }
    with_element(total, name, value)
}

/// The length with one value in place of another one, which was counted. `None` if the new value or the whole has more than
/// 2,147,483,647 bytes, or the new value has more than 99 levels.
pub(crate) fn with_other(total: u32, before: &Value, value: &Value) -> Option<u32>
    requires { length (payload (tree before.now)) ≤ total }
    ensures size { IfSome result (λ size. size + length (payload (tree before.now)) ≡ total + length (payload (tree value.now))) }
    ensures within { IfSome result (λ size. size ≤ 2147483647) }
    ensures valid { IfSome result (λ _. IsValue (tree value.now)) }
    ensures depth { IfSome result (λ _. levels (tree value.now) + 1 ≤ 100) }
{
    if !value_within(value, MAX_LEVELS - 1) {
        return None;
    }
    let less = value_size(before)?;
    let more = value_size(value)?;
    let size = sum(total as usize - less, more)?;
    Some(size as u32)
}

/// As `size`; and a document that has a size is valid at each of its levels. Takes no memory, and constant time if the size is
/// kept.
#[cycle(size)]
pub fn document_size(document: &Document) -> Option<usize>
    ensures size { SomeIff result (length (spelling document.now) ≤ 2147483647) (length (spelling document.now)) }
    ensures valid { IfSome result (λ _. IsValue (trees.document (fields_of document.now))) }
{
    match document.kept_size() {
        Some(size) => Some(size as usize),
        None => counted_size(document),
    }
}

/// The same, computed from the fields.
#[cycle(size)]
/// Not inlined, as `list_size` isn't, so that a level of a value takes only the stack of one of the two.
#[inline(never)]
fn counted_size(document: &Document) -> Option<usize>
    ensures size { SomeIff result (length (spelling document.now) ≤ 2147483647) (length (spelling document.now)) }
    ensures valid { IfSome result (λ _. IsValue (trees.document (fields_of document.now))) }
{
    let mut total = FRAME;
    for place in 0..document.len() {
        let (name, value) = document.field(place);
        total = with_element(total, name.len(), value)?;
    }
    Some(total)
}

#[cycle(size)]
#[inline(never)]
fn list_size(list: &List) -> Option<usize>
    ensures size { SomeIff result (length (payload (trees.array (elements_of list.now))) ≤ 2147483647) (length (payload (trees.array (elements_of list.now)))) }
    ensures valid { IfSome result (λ _. IsValue (trees.array (elements_of list.now))) }
{
    let mut total = FRAME;
    for (place, value) in list.as_slice().iter().enumerate() {
        total = with_element(total, digits(place), value)?;
    }
    Some(total)
}

/// Whether a value has at most this many levels: a document or an array has one more than the deepest value in it, and any other
/// value none. Takes no memory.
#[cycle(within)]
pub fn value_within(value: &Value, limit: u32) -> bool
    ensures { IsTrue result ↔ (levels (tree value.now) ≤ limit) }
{
    match value {
        Value::Doc(document) => document_within(document, limit),
        Value::Array(list) => list_within(list, limit),
        _ => true,
    }
}

#[cycle(within)]
fn document_within(document: &Document, limit: u32) -> bool
    ensures { IsTrue result ↔ (levels (trees.document (fields_of document.now)) ≤ limit) }
{
    if limit == 0 {
        return false;
    }
    for place in 0..document.len() {
        let (_name, value) = document.field(place);
        if !value_within(value, limit - 1) {
            return false;
        }
    }
    true
}

#[cycle(within)]
fn list_within(list: &List, limit: u32) -> bool
    ensures { IsTrue result ↔ (levels (trees.array (elements_of list.now)) ≤ limit) }
{
    if limit == 0 {
        return false;
    }
    for value in list.as_slice() {
        if !value_within(value, limit - 1) {
            return false;
        }
    }
    true
}
