//! The sections of a message (MongoDB manual, "MongoDB Wire Protocol", OP_MSG).

ghost use Rattle.std.specs.Prelude.{◌≡◌, ◌∷◌, [], ◌==◌, ◌+◌, ◌≤◌, Some, length, map, option_map, position, IfOk, IfSome};
ghost use Rattle.dv_bson.specs.Reading as bson;
ghost use Rattle.dv_message.specs.Sections as wire;
ghost use Rattle.dv_message.specs.Inner.SectionsView.{FoundAs, section_seen, sections_seen};

use crate::fault::CloseFault;
use crate::framed::{Framed, frame_at};
use dv_value::NoMemory;
use std::alloc::Global;
use std::collections::BTreeSet;
use std::slice;

/// A section, by its kind.
#[derive(Drop)]
pub enum Section<'a> {
    /// Kind 0: the bytes of the document that is the message's body.
    Body(&'a [u8]),
    /// Kind 1: a name, and the documents under it.
    Named {
        name: &'a str,
        documents: Framed<'a>,
    },
}

/// The sections of a message, in the order of their bytes.
#[derive(Drop)]
pub enum Sections<'a> {
    /// A body alone, as most messages have it.
    One(Section<'a>),
    /// Any sections.
    Several(Vec<Section<'a>>),
}

impl<'a> Sections<'a> {
    ghost use Rattle.dv_message.specs.Inner.SectionsView.{section_seen, sections_seen};

    /// The sections as a slice.
    pub fn as_slice(&self) -> &[Section<'a>]
        ensures { map section_seen result.now ≡ sections_seen self.now }
    {
        match self {
            Sections::One(section) => slice::from_ref(section),
            Sections::Several(sections) => sections.as_slice(),
        }
    }
}

/// The sections of a message of which the bytes consist. `BadSection` if they are not valid: a section of another kind, a size, a
/// name or a document's length that doesn't fit, not exactly one body, two lists under one name. `NoMemory` when memory runs out; a
/// body alone takes no memory.
pub(crate) fn sections_in(alloc: Global, bytes: &[u8]) -> Result<Sections<'_>, CloseFault>
    ensures { FoundAs sections_seen result (wire.sections_in bytes.now) }
{
    match body_alone(bytes) {
        Some(body) => Ok(Sections::One(Section::Body(body))),
        None => several_in(alloc, bytes),
    }
}

/// The body, if the bytes are one body and nothing else.
fn body_alone(bytes: &[u8]) -> Option<&[u8]>
    ensures { IfSome result (λ body. wire.sections_in bytes.now ≡ Some (wire.body body.now ∷ [])) }
{
    let [kind, behind @ ..] = bytes else {
        return None;
    };
    if *kind != 0 {
        return None;
    }
    let (body, following) = frame_at(behind)?;
    if following.is_empty() {
        Some(body)
    } else {
        None
    }
}

/// As `sections_in`, for any bytes.
#[tactic(auto, unfolding(crate::specs::Sections::sections_in))]
fn several_in(alloc: Global, bytes: &[u8]) -> Result<Sections<'_>, CloseFault>
    ensures { FoundAs sections_seen result (wire.sections_in bytes.now) }
{
    let sections = row_of_sections(alloc, bytes)?;
    if body_count(&sections) == 1 && are_apart(alloc, &sections)? {
        Ok(Sections::Several(sections))
    } else {
        Err(CloseFault::BadSection)
    }
}

/// The sections, one after the other, of which the bytes consist.
fn row_of_sections(alloc: Global, bytes: &[u8]) -> Result<Vec<Section<'_>>, CloseFault>
    ensures { FoundAs (λ sections. map section_seen sections.items) result (wire.each_in wire.section_at bytes.now) }
{
    let mut sections = Vec::new(alloc);
    let mut rest = bytes;
    'sections: while !rest.is_empty() {
        let Some((section, following)) = section_at(rest) else {
            return Err(CloseFault::BadSection);
        };
        sections.push(section)?;
        rest = following;
    }
    Ok(sections)
}

/// The section at the front of the bytes, and what follows it.
#[tactic(auto, unfolding(crate::specs::Sections::section_at))]
fn section_at(bytes: &[u8]) -> Option<(Section<'_>, &[u8])>
    ensures { option_map (λ found. (section_seen found.0, found.1.now)) result ≡ wire.section_at bytes.now }
{
    let [kind, behind @ ..] = bytes else {
        return None;
    };
    let (frame, following) = frame_at(behind)?;
    let section = section_of(*kind, frame)?;
    Some((section, following))
}

/// The section of this kind with these framed bytes.
fn section_of(kind: u8, frame: &[u8]) -> Option<Section<'_>>
    requires { 4 ≤ length frame.now }
    ensures { option_map section_seen result ≡ wire.section_of kind frame.now }
{
    match kind {
        0 => Some(Section::Body(frame)),
        1 => named_in(&frame[4..]),
        _ => None,
    }
}

/// The name that ends with the first zero, and the documents after it.
fn named_in(bytes: &[u8]) -> Option<Section<'_>>
    ensures { option_map section_seen result ≡ wire.section_named (bson.cut_at_zero bytes.now) }
{
    let (name, behind) = cut_at_zero(bytes)?;
    let documents = Framed::of(behind)?;
    match str::from_utf8(name) {
        Ok(name) => Some(Section::Named { name, documents }),
        Err(_) => None,
    }
}

/// The bytes before the first zero, and those after it.
pub(crate) fn cut_at_zero(bytes: &[u8]) -> Option<(&[u8], &[u8])>
    ensures { option_map (λ parts. (parts.0.now, parts.1.now)) result ≡ bson.cut_at_zero bytes.now }
{
    let end = first_zero_in(bytes)?;
    Some((&bytes[..end], &bytes[end + 1..]))
}

/// The place of the first zero.
fn first_zero_in(bytes: &[u8]) -> Option<usize>
    ensures { result ≡ position (λ byte. byte == 0) bytes.now }
{
    bytes.iter().position(|byte| *byte == 0)
}

/// How many are bodies.
fn body_count(sections: &[Section<'_>]) -> usize
    ensures { result ≡ wire.body_count (map section_seen sections.now) }
{
    let mut count = 0;
    'sections: for section in sections {
        match section {
            Section::Body(_) => count += 1,
            Section::Named { .. } => {}
        }
    }
    count
}

/// Whether no two have the same name.
fn are_apart(alloc: Global, sections: &[Section<'_>]) -> Result<bool, NoMemory>
    ensures { IfOk result (λ apart. apart ≡ wire.are_distinct (wire.names_among (map section_seen sections.now))) }
{
    let mut names = BTreeSet::new(alloc);
    'sections: for section in sections {
        match section {
            Section::Body(_) => {}
            Section::Named { name, .. } => {
                if !names.insert(*name)? {
                    return Ok(false);
                }
            }
        }
    }
    Ok(true)
}

/// The little-endian number in the four bytes after the first `place`.
pub(crate) fn number_behind(place: usize, bytes: &[u8]) -> u32
    requires { place + 4 ≤ length bytes.now }
    ensures { result ≡ wire.number_after place bytes.now }
{
    let (_, behind) = bytes.split_at(place);
    let (number, _) = behind.split_at(4);
    u32::from_le_bytes([number[0], number[1], number[2], number[3]])
}
