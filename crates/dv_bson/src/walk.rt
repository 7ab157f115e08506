//! Documents that are checked without being made.

ghost use Rattle.std.specs.Prelude.{◌≡◌, ℕ, ◌+◌, ◌<◌, ◌≤◌, ◌⊎◌, Ok, Some, true, false, List as Entries, take, length, map, IfOk, IfErr, MatchResult};
ghost use Rattle.dv_value.specs.Tree.{Field};
ghost use Rattle.dv_value.specs.View.{tree};
ghost use Rattle.dv_value.specs.Spelling.{Spells, Fits};
ghost use Rattle.dv_bson.specs.Reading.{EachSpelled, body_at, document_at, first_fault, value_at};
ghost use Rattle.dv_bson.specs.Inner.Parts.{EndsAs, GivesPart, Passes, field_at, field_in};

use crate::fault::ReadError;
use crate::reader::{closed, first_room};
use crate::reading::{
    behind_index, boolean_of, counted_binary_of, counted_text_of, date_of, frame_of, front_kind_of,
    int32_of, int64_of, new_name_of, object_id_of, outermost_frame_of, timestamp_of,
};
use dv_value::{BsonFault, Kind, MAX_LEVELS, Names, Value};
use std::alloc::Global;

/// The bytes after a value that takes no memory.
fn behind<'a>(value: Result<(Value, &'a [u8]), ReadError>) -> Result<&'a [u8], ReadError>
    ensures { EndsAs (λ x. (tree x.0, x.1.now)) value.entry (λ rest. rest.now) result }
{
    let (_value, rest) = value?;
    Ok(rest)
}

/// The bytes after a value of this type, which is at `at` in the outermost document, with `levels` levels left inside it.
#[cycle(walk)]
#[tactic(auto, unfolding(crate::specs::Reading::value_at))]
fn behind_value(
    alloc: Global,
    levels: u32,
    kind: Kind,
    at: usize,
    bytes: &[u8],
) -> Result<&[u8], ReadError>
    requires { at + length bytes.now < 16777216 }
    ensures { GivesPart (λ rest. rest.now) (λ x. x.1) result (value_at (body_at levels) kind at bytes.now) }
{
    match kind {
        Kind::Text => {
            let (_text, rest) = counted_text_of(bytes)?;
            Ok(rest)
        }
        Kind::Doc => {
            let frame = frame_of(bytes)?;
            walk_document(alloc, levels, at + 4, frame.elements, frame.last)?;
            Ok(frame.rest)
        }
        Kind::Array => {
            let frame = frame_of(bytes)?;
            walk_list(alloc, levels, at + 4, frame.elements, frame.last)?;
            Ok(frame.rest)
        }
        Kind::Binary => {
            let (_subtype, _bytes, rest) = counted_binary_of(bytes)?;
            Ok(rest)
        }
        Kind::ObjectId => behind(object_id_of(bytes)),
        Kind::Bool => behind(boolean_of(bytes)),
        Kind::Date => behind(date_of(bytes)),
        Kind::Null => Ok(bytes),
        Kind::Int32 => behind(int32_of(bytes)),
        Kind::Timestamp => behind(timestamp_of(bytes)),
        Kind::Int64 => behind(int64_of(bytes)),
        Kind::MinKey => Ok(bytes),
        Kind::MaxKey => Ok(bytes),
    }
}

/// The name of the field at the front, which follows those with these names, and the bytes after the field.
#[cycle(walk)]
fn behind_field<'a>(
    alloc: Global,
    levels: u32,
    at: usize,
    names: &Names,
    bytes: &'a [u8],
) -> Result<(&'a str, &'a [u8]), ReadError>
    requires { at + length bytes.now < 16777216 }
    ensures { (seen : Entries Field) → map (λ f. f.0) seen ≡ names.now
        → GivesPart {Z = Entries ℕ × Entries ℕ} (λ x. (x.0.now, x.1.now)) (λ made. (made.0.0, made.1)) result (field_in levels at seen bytes.now) }
{
    let (kind, behind) = front_kind_of(bytes, at)?;
    let (name, rest) = new_name_of(names, behind)?;
    let at = at + (bytes.len() - rest.len());
    let after = behind_value(alloc, levels, kind, at, rest)?;
    Ok((name, after))
}

/// The bytes after the element at the front of the rest of an array, at this place of the array.
#[cycle(walk)]
fn behind_element(
    alloc: Global,
    levels: u32,
    at: usize,
    place: usize,
    bytes: &[u8],
) -> Result<&[u8], ReadError>
    requires { at + length bytes.now < 16777216 }
    ensures { (seen : Entries Field) → length seen ≡ place
        → GivesPart (λ rest. rest.now) (λ made. made.1) result (field_at (body_at levels) true at seen bytes.now) }
{
    let (kind, behind) = front_kind_of(bytes, at)?;
    let rest = behind_index(place, behind)?;
    let at = at + (bytes.len() - rest.len());
    behind_value(alloc, levels, kind, at, rest)
}

/// Checks the elements of a document, the first of them at `at` in the outermost document, with `levels` levels left, its own
/// included.
#[cycle(walk)]
fn walk_document(
    alloc: Global,
    levels: u32,
    mut at: usize,
    elements: &[u8],
    last: u8,
) -> Result<(), ReadError>
    requires { at + length elements.now < 16777216 }
    ensures { Passes result (body_at levels false at elements.now last) }
{
    if levels == 0 {
        return Err(ReadError::Fault(BsonFault::TooDeep));
    }
    let mut names = Names::with_room(alloc, first_room(elements.len()))?;
    let mut rest = elements;
    'elements: while !rest.is_empty() {
        let (name, after) = behind_field(alloc, levels - 1, at, &names, rest)?;
        names.add(name)?;
        at += rest.len() - after.len();
        rest = after;
    }
    closed(last, at)
}

/// As `walk_document`, for the elements of an array.
#[cycle(walk)]
fn walk_list(
    alloc: Global,
    levels: u32,
    mut at: usize,
    elements: &[u8],
    last: u8,
) -> Result<(), ReadError>
    requires { at + length elements.now < 16777216 }
    ensures { Passes result (body_at levels true at elements.now last) }
{
    if levels == 0 {
        return Err(ReadError::Fault(BsonFault::TooDeep));
    }
    let mut place = 0;
    let mut rest = elements;
    'elements: while !rest.is_empty() {
        let after = behind_element(alloc, levels - 1, at, place, rest)?;
        place += 1;
        at += rest.len() - after.len();
        rest = after;
    }
    closed(last, at)
}

/// The length of the document at the front.
fn outermost_len(alloc: Global, bytes: &[u8]) -> Result<usize, ReadError>
    ensures { GivesPart (λ len. len) (λ read. read.1) result (document_at bytes.now) }
{
    let (frame, len) = outermost_frame_of(bytes)?;
    walk_document(alloc, MAX_LEVELS, 4, frame.elements, frame.last)?;
    Ok(len)
}

/// Checks the document that the bytes begin with, and returns its length in bytes: as `read_document`, with the same limits and the
/// same faults, but no document is made. Memory is taken only for the names of the fields.
pub fn check_document(alloc: Global, bytes: &[u8]) -> Result<usize, BsonFault>
    // What passes is the encoding of a document that fits.
    ensures found { IfOk result (λ len. (d : Entries Field) × (len ≤ length bytes.now) × Spells d (take len bytes.now) × Fits d) }
    // If the bytes begin with the encoding of a document that fits, it passes, unless memory runs out.
    ensures only { EachSpelled bytes.now (λ d spelled. MatchResult result (λ len. len ≡ length spelled) (λ e. e ≡ BsonFault.NoMemory)) }
    // The length of the document that would be read, or which fault it is.
    ensures exact { IfOk result (λ len. (d : Entries Field) × (document_at bytes.now ≡ Ok (d, len))) }
    ensures refused { IfErr result (λ e. (e ≡ BsonFault.NoMemory) ⊎ (first_fault bytes.now ≡ Some e)) }
{
    Ok(outermost_len(alloc, bytes)?)
}
