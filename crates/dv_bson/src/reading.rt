//! What is at the start of bytes: a count, a type, a name, a text, a number, or the frame of a document.

ghost use Rattle.std.specs.Prelude.{◌≡◌, ◌≤◌, ◌<◌, ◌+◌, ◌==◌, ◌||◌, Ok, List as Entries, nat_lt, true, false, length, drop, map, decimal, position, MatchResult, IfSome, IfOk};
ghost use Rattle.std.specs.Option.{option_map};
ghost use Rattle.std.specs.Int.{w32, w64, from_le_bytes};
ghost use Rattle.std.specs.Str.{is_utf8};
ghost use Rattle.dv_value.specs.Tree.{Field, int32, int64, binary, object_id, date, timestamp};
ghost use Rattle.dv_value.specs.Names.{has_name, has_zero};
ghost use Rattle.dv_value.specs.View.{tree};
ghost use Rattle.dv_bson.specs.Reading.{Gives, count_at, kind_of_byte, kind_at, cut_at_zero, name_at, text_at, frame_of, frame_at, boolean_at, first_bytes, signed_at, binary_at};
ghost use Rattle.dv_bson.specs.Inner.Parts.{front_kind_at, any_name_at, outermost_frame_at};

use crate::fault::ReadError;
use dv_value::{BsonFault, Bytes, Fields, Kind, MAX_DOCUMENT_LEN, Names, Str, Value};
use itoa::Buffer;
use std::alloc::Global;

/// The smallest length of a document: its length and the closing zero.
pub(crate) const MIN_DOCUMENT_LEN: usize = 5;

/// A document inside other bytes, as its length frames it.
#[derive(Clone, Copy)]
pub(crate) struct Frame<'a> {
    /// The bytes of its elements.
    pub(crate) elements: &'a [u8],
    /// Its last byte.
    pub(crate) last: u8,
    /// The bytes after it.
    pub(crate) rest: &'a [u8],
}

/// The count that a little-endian int32 gives, and the bytes after it; `None` if fewer than four bytes are left. A negative count
/// is returned as 0, since both are too small wherever such a count is read.
#[tactic(auto, unfolding(crate::specs::Reading::count_at))]
pub(crate) fn count_of(bytes: &[u8]) -> Option<(usize, &[u8])>
    ensures count { option_map (λ x. x.0) result ≡ count_at bytes.now }
    ensures rest { IfSome result (λ x. x.1.now ≡ drop 4 bytes.now) }
{
    let (front, rest) = bytes.split_first_chunk::<4>()?;
    let count = u32::from_le_bytes(*front);
    if count < 0x8000_0000 {
        Some((count as usize, rest))
    } else {
        Some((0, rest))
    }
}

/// The type that the byte before a name stands for (BSON 1.1, "element"), if it is supported.
#[tactic(auto, unfolding(crate::specs::Reading::kind_of_byte))]
fn kind_of_byte(byte: u8) -> Option<Kind>
    ensures { result ≡ kind_of_byte byte }
{
    match byte {
        0x02 => Some(Kind::Text),
        0x03 => Some(Kind::Doc),
        0x04 => Some(Kind::Array),
        0x05 => Some(Kind::Binary),
        0x07 => Some(Kind::ObjectId),
        0x08 => Some(Kind::Bool),
        0x09 => Some(Kind::Date),
        0x0A => Some(Kind::Null),
        0x10 => Some(Kind::Int32),
        0x11 => Some(Kind::Timestamp),
        0x12 => Some(Kind::Int64),
        0x7F => Some(Kind::MaxKey),
        0xFF => Some(Kind::MinKey),
        _ => None,
    }
}

/// The type that a type byte stands for. The byte is at `at` in the outermost document.
#[tactic(auto, unfolding(crate::specs::Reading::kind_at))]
pub(crate) fn kind_of(byte: u8, at: usize) -> Result<Kind, ReadError>
    ensures { Gives (λ kind. kind) result (kind_at byte at) }
{
    if byte == 0 {
        return Err(ReadError::Fault(BsonFault::BadLength));
    }
    match kind_of_byte(byte) {
        Some(kind) => Ok(kind),
        None => Err(ReadError::Fault(BsonFault::RefusedType { byte, at })),
    }
}

/// The type of the element at the front, which is at `at` in the outermost document, and the bytes after its type byte.
#[tactic(auto, unfolding(crate::specs::Inner::Parts::front_kind_at))]
pub(crate) fn front_kind_of(bytes: &[u8], at: usize) -> Result<(Kind, &[u8]), ReadError>
    ensures { Gives (λ x. (x.0, x.1.now)) result (front_kind_at at bytes.now) }
{
    let Some((byte, rest)) = bytes.split_first() else {
        return Err(ReadError::Fault(BsonFault::BadLength));
    };
    Ok((kind_of(*byte, at)?, rest))
}

/// The bytes as a text; refused with `BadUtf8`.
fn utf8_of(bytes: &[u8]) -> Result<&str, ReadError>
    ensures { MatchResult result (λ text. (text.now ≡ bytes.now) × (is_utf8 bytes.now ≡ true))
        (λ e. (e ≡ ReadError.Fault BsonFault.BadUtf8) × (is_utf8 bytes.now ≡ false)) }
{
    match str::from_utf8(bytes) {
        Ok(text) => Ok(text),
        Err(_) => Err(ReadError::Fault(BsonFault::BadUtf8)),
    }
}

/// The place of the first zero.
fn first_zero_in(bytes: &[u8]) -> Option<usize>
    ensures { result ≡ position (λ byte. byte == 0) bytes.now }
{
    bytes.iter().position(|byte| *byte == 0)
}

/// The bytes before the first zero, and those after it.
fn cut_of(bytes: &[u8]) -> Option<(&[u8], &[u8])>
    ensures { option_map (λ cut. (cut.0.now, cut.1.now)) result ≡ cut_at_zero bytes.now }
{
    let end = first_zero_in(bytes)?;
    Some((&bytes[..end], &bytes[end + 1..]))
}

/// The place of the first byte that is zero or not ASCII.
fn ascii_end_in(bytes: &[u8]) -> Option<usize>
    ensures { result ≡ position (λ byte. byte == 0 || nat_lt 127 byte) bytes.now }
{
    bytes.iter().position(|byte| *byte == 0 || 127 < *byte)
}

/// A name, and the bytes after its closing zero, if the name is ASCII, as most are: then each byte is read only once to find its
/// end and that it is UTF-8.
fn ascii_name_of(bytes: &[u8]) -> Option<(&str, &[u8])>
    ensures { IfSome result (λ x. any_name_at bytes.now ≡ Ok (x.0.now, x.1.now)) }
{
    let end = ascii_end_in(bytes)?;
    if bytes[end] != 0 {
        return None;
    }
    let name = unsafe { str::from_utf8_unchecked(&bytes[..end]) };
    Some((name, &bytes[end + 1..]))
}

/// A name, and the bytes after its closing zero.
#[tactic(auto, unfolding(crate::specs::Inner::Parts::any_name_at))]
fn name_of(bytes: &[u8]) -> Result<(&str, &[u8]), ReadError>
    ensures { Gives (λ x. (x.0.now, x.1.now)) result (any_name_at bytes.now) }
{
    if let Some(found) = ascii_name_of(bytes) {
        return Ok(found);
    }
    let Some((name, rest)) = cut_of(bytes) else {
        return Err(ReadError::Fault(BsonFault::BadLength));
    };
    Ok((utf8_of(name)?, rest))
}

/// The bytes after this name and its closing zero, if these are at the front. The name is known to be a text without a zero, and no
/// field before it has this name.
#[inline]
pub(crate) fn behind_name<'a>(name: &str, bytes: &'a [u8]) -> Option<&'a [u8]>
    ensures { IfSome result (λ rest. (seen : Entries Field) → has_name name.now seen ≡ false → has_zero name.now ≡ false → name_at false seen bytes.now ≡ Ok (name.now, rest.now)) }
{
    let end = name.len();
    if bytes.len() <= end || bytes[end] != 0 || &bytes[..end] != name.as_bytes() {
        return None;
    }
    Some(&bytes[end + 1..])
}

/// The name of a field that follows those of `before`, and the bytes after its closing zero.
#[tactic(auto, using(crate::proofs::Fronts::no_name))]
pub(crate) fn field_name_of<'a>(
    before: &Fields,
    bytes: &'a [u8],
) -> Result<(&'a str, &'a [u8]), ReadError>
    ensures { Gives (λ x. (x.0.now, x.1.now)) result (name_at false before.now bytes.now) }
{
    let (name, rest) = name_of(bytes)?;
    if before.has(name) {
        return Err(ReadError::Fault(BsonFault::RepeatedName));
    }
    Ok((name, rest))
}

/// The name of a field that follows those with these names, and the bytes after its closing zero.
#[tactic(auto, using(crate::proofs::Fronts::no_name))]
pub(crate) fn new_name_of<'a>(
    names: &Names,
    bytes: &'a [u8],
) -> Result<(&'a str, &'a [u8]), ReadError>
    ensures { (seen : Entries Field) → map (λ f. f.0) seen ≡ names.now → Gives (λ x. (x.0.now, x.1.now)) result (name_at false seen bytes.now) }
{
    let (name, rest) = name_of(bytes)?;
    if names.has(name) {
        return Err(ReadError::Fault(BsonFault::RepeatedName));
    }
    Ok((name, rest))
}

/// The bytes after the name of an array's element at this place. The name has to be the place as a decimal number.
#[tactic(auto, using(crate::proofs::Fronts::no_name))]
pub(crate) fn behind_index(place: usize, bytes: &[u8]) -> Result<&[u8], ReadError>
    ensures { (seen : Entries Field) → length seen ≡ place → Gives (λ rest. (decimal place, rest.now)) result (name_at true seen bytes.now) }
{
    // Most arrays are short.
    if let Some(rest) = behind_digit(place, bytes) {
        return Ok(rest);
    }
    let (name, rest) = name_of(bytes)?;
    if name == Buffer::new().format(place) {
        Ok(rest)
    } else {
        Err(ReadError::Fault(BsonFault::BadArrayName))
    }
}

/// The same if the place has one digit and the name is that digit.
fn behind_digit(place: usize, bytes: &[u8]) -> Option<&[u8]>
    ensures { IfSome result (λ rest. (seen : Entries Field) → length seen ≡ place → name_at true seen bytes.now ≡ Ok (decimal place, rest.now)) }
{
    let [digit, zero, rest @ ..] = bytes else {
        return None;
    };
    if place < 10 && *digit == 48 + place as u8 && *zero == 0 {
        Some(rest)
    } else {
        None
    }
}

/// A text without a copy, and the bytes after it. It is encoded as a count of its bytes and the closing zero, its bytes, the zero.
#[tactic(auto, unfolding(crate::specs::Reading::text_at))]
pub(crate) fn counted_text_of(bytes: &[u8]) -> Result<(&str, &[u8]), ReadError>
    ensures { Gives (λ x. (x.0.now, x.1.now)) result (text_at bytes.now) }
{
    let Some((count, counted)) = count_of(bytes) else {
        return Err(ReadError::Fault(BsonFault::BadLength));
    };
    if count < 1 || counted.len() < count || counted[count - 1] != 0 {
        return Err(ReadError::Fault(BsonFault::BadLength));
    }
    let text = utf8_of(&counted[..count - 1])?;
    Ok((text, &counted[count..]))
}

/// A copy of a text, and the bytes after it.
pub(crate) fn text_of(alloc: Global, bytes: &[u8]) -> Result<(Str, &[u8]), ReadError>
    ensures { Gives (λ x. (x.0, x.1.now)) result (text_at bytes.now) }
{
    let (text, rest) = counted_text_of(bytes)?;
    Ok((Str::of(String::from_str(alloc, text)?), rest))
}

/// The document of `len` bytes at the front.
pub(crate) fn framed(len: usize, bytes: &[u8]) -> Frame<'_>
    requires least { MIN_DOCUMENT_LEN ≤ len }
    requires most { len ≤ length bytes.now }
    ensures { record { elements = result.elements.now; last = result.last; rest = result.rest.now } ≡ frame_of len bytes.now }
{
    let (document, rest) = bytes.split_at(len);
    Frame {
        elements: &document[4..len - 1],
        last: document[len - 1],
        rest,
    }
}

/// The document at the front, as its length frames it.
#[tactic(auto, unfolding(crate::specs::Reading::frame_at))]
pub(crate) fn frame_of(bytes: &[u8]) -> Result<Frame<'_>, ReadError>
    ensures { Gives (λ frame. record { elements = frame.elements.now; last = frame.last; rest = frame.rest.now }) result (frame_at bytes.now) }
{
    match count_of(bytes) {
        Some((len, _)) if MIN_DOCUMENT_LEN <= len && len <= bytes.len() => Ok(framed(len, bytes)),
        _ => Err(ReadError::Fault(BsonFault::BadLength)),
    }
}

/// The outermost document at the front, as its length frames it, and its length.
#[tactic(auto, unfolding(crate::specs::Inner::Parts::outermost_frame_at))]
pub(crate) fn outermost_frame_of(bytes: &[u8]) -> Result<(Frame<'_>, usize), ReadError>
    ensures frame { Gives (λ x. (record { elements = x.0.elements.now; last = x.0.last; rest = x.0.rest.now }, x.1)) result (outermost_frame_at bytes.now) }
    ensures short { IfOk result (λ x. 4 + length x.0.elements.now < 16777216) }
{
    let Some((len, _)) = count_of(bytes) else {
        return Err(ReadError::Fault(BsonFault::Truncated));
    };
    if len < MIN_DOCUMENT_LEN {
        return Err(ReadError::Fault(BsonFault::BadLength));
    }
    if len > MAX_DOCUMENT_LEN as usize {
        return Err(ReadError::Fault(BsonFault::TooLarge));
    }
    if bytes.len() < len {
        return Err(ReadError::Fault(BsonFault::Truncated));
    }
    Ok((framed(len, bytes), len))
}

/// A boolean, and the bytes after it.
pub(crate) fn boolean_of(bytes: &[u8]) -> Result<(Value, &[u8]), ReadError>
    ensures { Gives (λ x. (tree x.0, x.1.now)) result (boolean_at bytes.now) }
{
    match bytes {
        [0, rest @ ..] => Ok((Value::Bool(false), rest)),
        [1, rest @ ..] => Ok((Value::Bool(true), rest)),
        [_, ..] => Err(ReadError::Fault(BsonFault::BadBool)),
        [] => Err(ReadError::Fault(BsonFault::BadLength)),
    }
}

/// A little-endian int32, and the bytes after it.
pub(crate) fn int32_of(bytes: &[u8]) -> Result<(Value, &[u8]), ReadError>
    ensures { Gives (λ x. (tree x.0, x.1.now)) result (signed_at w32 int32 bytes.now) }
{
    let Some((front, rest)) = bytes.split_first_chunk::<4>() else {
        return Err(ReadError::Fault(BsonFault::BadLength));
    };
    Ok((Value::Int32(i32::from_le_bytes(*front)), rest))
}

/// A little-endian int64, and the bytes after it.
pub(crate) fn int64_of(bytes: &[u8]) -> Result<(Value, &[u8]), ReadError>
    ensures { Gives (λ x. (tree x.0, x.1.now)) result (signed_at w64 int64 bytes.now) }
{
    let Some((front, rest)) = bytes.split_first_chunk::<8>() else {
        return Err(ReadError::Fault(BsonFault::BadLength));
    };
    Ok((Value::Int64(i64::from_le_bytes(*front)), rest))
}

/// A little-endian int64 as a time, and the bytes after it.
pub(crate) fn date_of(bytes: &[u8]) -> Result<(Value, &[u8]), ReadError>
    ensures { Gives (λ x. (tree x.0, x.1.now)) result (signed_at w64 date bytes.now) }
{
    let Some((front, rest)) = bytes.split_first_chunk::<8>() else {
        return Err(ReadError::Fault(BsonFault::BadLength));
    };
    Ok((Value::Date(i64::from_le_bytes(*front)), rest))
}

/// A little-endian timestamp, and the bytes after it.
pub(crate) fn timestamp_of(bytes: &[u8]) -> Result<(Value, &[u8]), ReadError>
    ensures { Gives (λ x. (tree x.0, x.1.now)) result (first_bytes 8 (λ front. timestamp (from_le_bytes w64 front)) bytes.now) }
{
    let Some((front, rest)) = bytes.split_first_chunk::<8>() else {
        return Err(ReadError::Fault(BsonFault::BadLength));
    };
    Ok((Value::Timestamp(u64::from_le_bytes(*front)), rest))
}

/// An ObjectId, and the bytes after it.
pub(crate) fn object_id_of(bytes: &[u8]) -> Result<(Value, &[u8]), ReadError>
    ensures { Gives (λ x. (tree x.0, x.1.now)) result (first_bytes 12 object_id bytes.now) }
{
    let Some((front, rest)) = bytes.split_first_chunk::<12>() else {
        return Err(ReadError::Fault(BsonFault::BadLength));
    };
    Ok((Value::ObjectId(*front), rest))
}

/// A binary's subtype, its own bytes without a copy, and the bytes after it. It is encoded as a count of its bytes, the subtype,
/// its bytes.
#[tactic(auto, unfolding(crate::specs::Reading::binary_at))]
pub(crate) fn counted_binary_of(bytes: &[u8]) -> Result<(u8, &[u8], &[u8]), ReadError>
    ensures { Gives (λ x. (binary x.0 x.1.now, x.2.now)) result (binary_at bytes.now) }
{
    let Some((front, behind)) = bytes.split_first_chunk::<4>() else {
        return Err(ReadError::Fault(BsonFault::BadLength));
    };
    let Some((subtype, counted)) = behind.split_first() else {
        return Err(ReadError::Fault(BsonFault::BadLength));
    };
    let count = u32::from_le_bytes(*front);
    if 0x7FFF_FFFF < count || counted.len() < count as usize {
        return Err(ReadError::Fault(BsonFault::BadLength));
    }
    let (own, rest) = counted.split_at(count as usize);
    Ok((*subtype, own, rest))
}

/// A binary, and the bytes after it.
pub(crate) fn binary_of(alloc: Global, bytes: &[u8]) -> Result<(Value, &[u8]), ReadError>
    ensures { Gives (λ x. (tree x.0, x.1.now)) result (binary_at bytes.now) }
{
    let (subtype, own, rest) = counted_binary_of(bytes)?;
    let bytes = Bytes::of(Vec::from_slice(alloc, own)?);
    Ok((Value::Binary { subtype, bytes }, rest))
}
