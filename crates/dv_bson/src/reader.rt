//! Documents from bytes.

ghost use Rattle.std.specs.Prelude.{◌≡◌, ℕ, ◌+◌, ◌<◌, ◌≤◌, ◌++◌, ◌⊎◌, true, false, List as Entries, ◌∷◌, [], take, length, map, decimal, IfOk, IfErr, MatchResult, OnOk};
ghost use Rattle.dv_value.specs.Tree.{Field};
ghost use Rattle.dv_value.specs.Names.{AreNamed, with_values};
ghost use Rattle.dv_value.specs.View.{tree};
ghost use Rattle.dv_value.specs.Spelling.{Spells, Fits};
ghost use Rattle.dv_bson.specs.Reading.{EachSpelled, Gives, body_at, closed_by, document_at, first_fault, value_at};
ghost use Rattle.dv_bson.specs.Inner.Parts.{GivesNext, LeavesToRead, field_at, field_in, fields_from, numbered};

use crate::fault::ReadError;
use crate::likeness::{document_like, element_like, value_like};
use crate::reading::{
    behind_index, behind_name, binary_of, boolean_of, date_of, field_name_of, frame_of,
    front_kind_of, int32_of, int64_of, kind_of, object_id_of, outermost_frame_of, text_of,
    timestamp_of,
};
use dv_value::{BsonFault, Document, FRAME, Fields, Kind, List, MAX_LEVELS, NoMemory, Value};
use std::alloc::Global;

/// A value of this type, which is at `at` in the outermost document, with `levels` levels left inside it, and the bytes after it.
/// `like`, if there is one, is a value that has the names that are expected: what is read is the same whatever it is.
#[cycle(reader)]
#[tactic(auto, unfolding(crate::specs::Reading::value_at))]
fn value_of<'a>(
    alloc: Global,
    levels: u32,
    kind: Kind,
    like: Option<&Value>,
    at: usize,
    bytes: &'a [u8],
) -> Result<(Value, &'a [u8]), ReadError>
    requires at { at + length bytes.now < 16777216 }
    requires levels { levels ≤ 100 }
    ensures { Gives (λ x. (tree x.0, x.1.now)) result (value_at (body_at levels) kind at bytes.now) }
{
    match kind {
        Kind::Text => {
            let (text, rest) = text_of(alloc, bytes)?;
            Ok((Value::Text(text), rest))
        }
        Kind::Doc => {
            let frame = frame_of(bytes)?;
            let document = document_of(
                alloc,
                levels,
                document_like(like),
                at + 4,
                frame.elements,
                frame.last,
            )?;
            Ok((Value::Doc(document), frame.rest))
        }
        Kind::Array => {
            let frame = frame_of(bytes)?;
            let list = list_of(
                alloc,
                levels,
                element_like(like),
                at + 4,
                frame.elements,
                frame.last,
            )?;
            Ok((Value::Array(list), frame.rest))
        }
        Kind::Binary => binary_of(alloc, bytes),
        Kind::ObjectId => object_id_of(bytes),
        Kind::Bool => boolean_of(bytes),
        Kind::Date => date_of(bytes),
        Kind::Null => Ok((Value::Null, bytes)),
        Kind::Int32 => int32_of(bytes),
        Kind::Timestamp => timestamp_of(bytes),
        Kind::Int64 => int64_of(bytes),
        Kind::MinKey => Ok((Value::MinKey, bytes)),
        Kind::MaxKey => Ok((Value::MaxKey, bytes)),
    }
}

/// The name and the value of the field at the front, which follows those of `before`, and the bytes after it.
#[cycle(reader)]
#[tactic(auto, unfolding(crate::specs::Inner::Parts::field_at))]
fn field_of<'a>(
    alloc: Global,
    levels: u32,
    like: Option<&Document>,
    at: usize,
    before: &Fields,
    bytes: &'a [u8],
) -> Result<(&'a str, Value, &'a [u8]), ReadError>
    requires at { at + length bytes.now < 16777216 }
    requires levels { levels ≤ 100 }
    ensures { Gives (λ x. ((x.0.now, tree x.1), x.2.now)) result (field_in levels at before.now bytes.now) }
{
    let (kind, behind) = front_kind_of(bytes, at)?;
    let (name, rest) = field_name_of(before, behind)?;
    let like = value_like(like, before.len());
    let at = at + (bytes.len() - rest.len());
    let (value, after) = value_of(alloc, levels, kind, like, at, rest)?;
    Ok((name, value, after))
}

/// The element at the front of the rest of an array, which follows those of `before`, and the bytes after it.
#[cycle(reader)]
#[tactic(auto, unfolding(crate::specs::Inner::Parts::field_at))]
fn element_of<'a>(
    alloc: Global,
    levels: u32,
    like: Option<&Value>,
    at: usize,
    before: &[Value],
    bytes: &'a [u8],
) -> Result<(Value, &'a [u8]), ReadError>
    requires at { at + length bytes.now < 16777216 }
    requires levels { levels ≤ 100 }
    ensures { Gives (λ x. ((decimal (length before.now), tree x.0), x.1.now)) result
        (field_at (body_at levels) true at (numbered 0 (map tree before.now)) bytes.now) }
{
    let (kind, behind) = front_kind_of(bytes, at)?;
    let rest = behind_index(before.len(), behind)?;
    let like = before.last().or(like);
    let at = at + (bytes.len() - rest.len());
    value_of(alloc, levels, kind, like, at, rest)
}

/// Checks that a document is closed where its elements end, by a zero as its last byte. Another last byte is treated as the type
/// byte of an element that lacks its name.
pub(crate) fn closed(last: u8, at: usize) -> Result<(), ReadError>
    ensures { (seen : Entries Field) → Gives (λ _. seen) result (closed_by last at seen) }
{
    if last == 0 {
        return Ok(());
    }
    kind_of(last, at)?;
    Err(ReadError::Fault(BsonFault::BadLength))
}

/// For how many fields room is made before the first is read, if the elements have `len` bytes: for as many as a document of that
/// length often has, so that fields are seldom moved, and for at most 12.
pub(crate) fn first_room(len: usize) -> usize
    ensures { result ≤ 12 }
{
    if len == 0 { 0 } else { (len / 20).clamp(4, 12) }
}

/// The value of the field at the front, which follows those of `before`, and the bytes after it, if the field has the name that
/// `like` has at its place.
#[cycle(reader)]
fn value_like_next<'a>(
    alloc: Global,
    levels: u32,
    like: &Document,
    at: usize,
    before: &[Value],
    bytes: &'a [u8],
) -> Result<Option<(Value, &'a [u8])>, ReadError>
    requires at { at + length bytes.now < 16777216 }
    requires levels { levels ≤ 100 }
    requires named { AreNamed like.now }
    ensures { GivesNext like.now (length before.now) (λ x. (tree x.0, x.1.now)) result (field_in levels at (with_values like.now (map tree before.now)) bytes.now) }
{
    let Some((name, value)) = like.entry(before.len()) else {
        return Ok(None);
    };
    let (kind, behind) = front_kind_of(bytes, at)?;
    let Some(rest) = behind_name(name, behind) else {
        return Ok(None);
    };
    let at = at + (bytes.len() - rest.len());
    let (value, after) = value_of(alloc, levels, kind, Some(value), at, rest)?;
    Ok(Some((value, after)))
}

/// The first fields of a document.
#[derive(Drop)]
struct Begun<'a> {
    fields: Fields,
    /// Where the next element is.
    at: usize,
    /// The bytes of the elements after these fields.
    rest: &'a [u8],
}

/// Reads the first of a document's fields, as far as they have the names of `like`, in its order.
#[cycle(reader)]
fn begin_like<'a>(
    alloc: Global,
    levels: u32,
    like: &Document,
    mut at: usize,
    elements: &'a [u8],
) -> Result<Begun<'a>, ReadError>
    requires at { at + length elements.now < 16777216 }
    requires levels { levels ≤ 100 }
    ensures left { (last : ℕ) → LeavesToRead (λ begun. fields_from levels begun.at begun.fields begun.rest.now last) result
        (fields_from levels at [] elements.now last) }
    ensures at { IfOk result (λ begun. begun.at + length begun.rest.now ≡ at + length elements.now) }
{
    let mut values = Vec::with_capacity(alloc, like.len())?;
    let mut rest = elements;
    'fields: while !rest.is_empty() {
        let Some((value, after)) = value_like_next(alloc, levels, like, at, &values, rest)? else {
            break;
        };
        values.push(value)?;
        at += rest.len() - after.len();
        rest = after;
    }
    let fields = Fields::like(like, values)?;
    Ok(Begun { fields, at, rest })
}

/// The same, or no fields if there is no `like`.
#[cycle(reader)]
fn begin<'a>(
    alloc: Global,
    levels: u32,
    like: Option<&Document>,
    at: usize,
    elements: &'a [u8],
) -> Result<Begun<'a>, ReadError>
    requires at { at + length elements.now < 16777216 }
    requires levels { levels ≤ 100 }
    ensures left { (last : ℕ) → LeavesToRead (λ begun. fields_from levels begun.at begun.fields begun.rest.now last) result
        (fields_from levels at [] elements.now last) }
    ensures at { IfOk result (λ begun. begun.at + length begun.rest.now ≡ at + length elements.now) }
{
    if let Some(like) = like {
        return begin_like(alloc, levels, like, at, elements);
    }
    Ok(Begun {
        fields: Fields::with_room(alloc, first_room(elements.len()))?,
        at,
        rest: elements,
    })
}

/// The document with these elements, the first of them at `at` in the outermost document, with `levels` levels left, its own
/// included.
#[cycle(reader)]
fn document_of(
    alloc: Global,
    levels: u32,
    like: Option<&Document>,
    at: usize,
    elements: &[u8],
    last: u8,
) -> Result<Document, ReadError>
    requires at { at + length elements.now < 16777216 }
    requires levels { levels ≤ 100 }
    ensures { Gives (λ document. document) result (body_at levels false at elements.now last) }
{
    if levels == 0 {
        return Err(ReadError::Fault(BsonFault::TooDeep));
    }
    let Begun {
        mut fields,
        mut at,
        mut rest,
    } = begin(alloc, levels - 1, like, at, elements)?;
    'elements: while !rest.is_empty() {
        let (name, value, after) = field_of(alloc, levels - 1, like, at, &fields, rest)?;
        fields.add(name, value)?;
        at += rest.len() - after.len();
        rest = after;
    }
    closed(last, at)?;
    Ok(Document::of(alloc, fields, (elements.len() + FRAME) as u32)?)
}

/// Adds an element after the others. `left` bytes were left before it was read, and `behind` bytes follow it.
fn add_element(
    values: &mut Vec<Value>,
    value: Value,
    left: usize,
    behind: usize,
) -> Result<(), NoMemory>
    requires { behind < left }
    ensures { OnOk result (values.new.items ≡ values.old.items ++ value ∷ []) }
{
    if values.is_empty() {
        values.reserve_exact(room_behind(left, behind))?;
    }
    values.push(value)?;
    Ok(())
}

/// For how many elements room is made with the first one: for as many as there are if all are as long as this, so that elements are
/// seldom moved, and for at most 12. `left` bytes were left before it was read, and `behind` bytes follow it.
fn room_behind(left: usize, behind: usize) -> usize
    requires { behind < left }
    ensures { result ≤ 12 }
{
    (left / (left - behind)).min(12)
}

/// The array with these elements, the first of them at `at` in the outermost document, with `levels` levels left, its own included.
#[cycle(reader)]
fn list_of(
    alloc: Global,
    levels: u32,
    like: Option<&Value>,
    mut at: usize,
    elements: &[u8],
    last: u8,
) -> Result<List, ReadError>
    requires at { at + length elements.now < 16777216 }
    requires levels { levels ≤ 100 }
    ensures { Gives (λ list. numbered 0 list) result (body_at levels true at elements.now last) }
{
    if levels == 0 {
        return Err(ReadError::Fault(BsonFault::TooDeep));
    }
    let mut values = Vec::new(alloc);
    let mut rest = elements;
    'elements: while !rest.is_empty() {
        let (value, after) = element_of(alloc, levels - 1, like, at, &values, rest)?;
        add_element(&mut values, value, rest.len(), after.len())?;
        at += rest.len() - after.len();
        rest = after;
    }
    closed(last, at)?;
    values.shrink_to_fit();
    Ok(List::of(values))
}

/// The document at the front, and its length. `like`, if there is one, is a document that has the names that are expected.
fn outermost_of(
    alloc: Global,
    like: Option<&Document>,
    bytes: &[u8],
) -> Result<(Document, usize), ReadError>
    ensures { Gives (λ x. (x.0, x.1)) result (document_at bytes.now) }
{
    let (frame, len) = outermost_frame_of(bytes)?;
    let document = document_of(alloc, MAX_LEVELS, like, 4, frame.elements, frame.last)?;
    Ok((document, len))
}

/// Reads the document that the bytes begin with, in the encoding of BSON 1.1 ("Specification Version 1.1", bsonspec.org), and
/// returns it with its length in bytes. What follows is unread.
///
/// A document of at most 16,777,216 bytes and 100 levels is read, a document or an array being one level more than what it holds.
/// What is read holds the standard's types string, document, array, binary, ObjectId, boolean, UTC datetime, null, int32,
/// timestamp, int64, min key and max key; names are distinct, and texts and names are UTF-8. Otherwise the first fault from the
/// left is returned:
///
/// - `Truncated`: there are fewer than four bytes, or fewer than the document's length says;
/// - `TooLarge`: the document's length is over 16,777,216;
/// - `TooDeep`: a document or an array is at level 101;
/// - `BadLength`: a length or a count is too small or leads out of the document around it, a name or a value doesn't end in its
///   document, or a closing zero is missing or out of place;
/// - `RefusedType`: a type byte is of another type, with its place in `bytes`;
/// - `BadUtf8`, `BadBool`: a name or a text isn't UTF-8, a boolean is neither 0 nor 1;
/// - `RepeatedName`, `BadArrayName`: an earlier field of the document has the name, an element of an array isn't named by its
///   index;
/// - `NoMemory`: memory ran out, at any time.
pub fn read_document(alloc: Global, bytes: &[u8]) -> Result<(Document, usize), BsonFault>
    // The bytes begin with the encoding of what is read, which fits.
    ensures found { IfOk result (λ read. (read.1 ≤ length bytes.now) × Spells read.0 (take read.1 bytes.now) × Fits read.0) }
    // If the bytes begin with the encoding of a document that fits, it is read, unless memory runs out.
    ensures only { EachSpelled bytes.now (λ d spelled. MatchResult result (λ read. (read.0 ≡ d) × (read.1 ≡ length spelled)) (λ e. e ≡ BsonFault.NoMemory)) }
    // Which document, or which fault it is.
    ensures exact { IfOk result (λ read. document_at bytes.now ≡ Ok (read.0, read.1)) }
    ensures refused { IfErr result (λ e. (e ≡ BsonFault.NoMemory) ⊎ (first_fault bytes.now ≡ Some e)) }
{
    Ok(outermost_of(alloc, None, bytes)?)
}

/// Reads as `read_document` does, with the same limits and the same faults. Fields that have the names of `like`, in its order,
/// share its names, and so do documents inside it. That saves time and memory if many documents of one shape are read. What is read
/// is the same whatever `like` is.
pub fn read_document_like(
    alloc: Global,
    bytes: &[u8],
    like: &Document,
) -> Result<(Document, usize), BsonFault>
    // The bytes begin with the encoding of what is read, which fits.
    ensures found { IfOk result (λ read. (read.1 ≤ length bytes.now) × Spells read.0 (take read.1 bytes.now) × Fits read.0) }
    // If the bytes begin with the encoding of a document that fits, it is read, unless memory runs out.
    ensures only { EachSpelled bytes.now (λ d spelled. MatchResult result (λ read. (read.0 ≡ d) × (read.1 ≡ length spelled)) (λ e. e ≡ BsonFault.NoMemory)) }
    // Which document, or which fault it is.
    ensures exact { IfOk result (λ read. document_at bytes.now ≡ Ok (read.0, read.1)) }
    ensures refused { IfErr result (λ e. (e ≡ BsonFault.NoMemory) ⊎ (first_fault bytes.now ≡ Some e)) }
{
    Ok(outermost_of(alloc, Some(like), bytes)?)
}
