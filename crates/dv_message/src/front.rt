//! The front of a stream: an OP_MSG message with the standard message header (MongoDB manual, "MongoDB Wire Protocol").

ghost use Rattle.std.specs.Prelude.{◌≡◌, ◌<◌, ◌⊎◌, length};
ghost use Rattle.dv_message.specs.Message as wire;
ghost use Rattle.dv_message.specs.Inner.View.{front_seen};

use crate::fault::CloseFault;
use crate::sections::{Sections, number_behind, sections_in};
use std::alloc::Global;

/// The operation code of OP_MSG.
pub(crate) const OP_MSG: u32 = 2013;

/// The bytes of the header, the flags, a kind byte and the smallest document.
const SHORTEST_MESSAGE: usize = 26;

const LONGEST_MESSAGE: usize = 48_000_000;

/// What a message asks.
#[derive(Drop)]
pub struct Message<'a> {
    pub request_id: u32,
    /// Whether no reply is to be sent.
    pub more_to_come: bool,
    pub sections: Sections<'a>,
}

/// What is at the front of a stream.
#[derive(Drop)]
pub enum Front<'a> {
    /// Less than a message.
    Unfinished,
    /// A fault that the bytes show already, or that memory ran out while the sections were read.
    Closing(CloseFault),
    /// A message, and the bytes that follow it.
    Whole {
        message: Message<'a>,
        rest: &'a [u8],
    },
}

/// Reads the front of a stream. A message's length is known from its fourth byte on, its code from the sixteenth, its flags from
/// the twentieth, its sections from its last. If memory runs out while the sections are read, that is a closing fault.
#[tactic(auto, unfolding(crate::specs::Message::stream_front))]
pub fn front_of(alloc: Global, bytes: &[u8]) -> Front<'_>
    ensures { (front_seen result ≡ wire.stream_front bytes.now) ⊎ (result ≡ Front.Closing CloseFault.NoMemory) }
{
    if bytes.len() < 4 {
        return Front::Unfinished;
    }
    let length = number_behind(0, bytes) as usize;
    if length < SHORTEST_MESSAGE || LONGEST_MESSAGE < length {
        return Front::Closing(CloseFault::BadLength);
    }
    if bytes.len() < 16 {
        return Front::Unfinished;
    }
    if number_behind(12, bytes) != OP_MSG {
        return Front::Closing(CloseFault::BadOpCode);
    }
    if bytes.len() < 20 {
        return Front::Unfinished;
    }
    let flags = number_behind(16, bytes);
    if has_checksum(flags) {
        return Front::Closing(CloseFault::Checksum);
    }
    if has_unknown_flag(flags) {
        return Front::Closing(CloseFault::BadFlag);
    }
    if bytes.len() < length {
        return Front::Unfinished;
    }
    let (whole, rest) = bytes.split_at(length);
    let (_, sections) = whole.split_at(20);
    match sections_in(alloc, sections) {
        Ok(sections) => Front::Whole {
            message: Message {
                request_id: number_behind(4, bytes),
                more_to_come: has_more_to_come(flags),
                sections,
            },
            rest,
        },
        Err(fault) => Front::Closing(fault),
    }
}

/// How many bytes of a piece belong to the message that the bytes `kept` before it begin, or that the piece begins if none are
/// kept. So they complete at most one message. If the bytes that begin the message are fewer than the four that hold its length,
/// only the bytes up to the fourth are counted. At least 1, and at most all bytes of the piece.
pub fn front_length(kept: &[u8], piece: &[u8]) -> usize
    requires { 0 < length piece.now }
    ensures { result ≡ wire.front_length kept.now piece.now }
{
    let begun = if kept.is_empty() { piece } else { kept };
    let shown = shown_length(begun);
    shown.saturating_sub(kept.len()).max(1).min(piece.len())
}

/// The length of the message that these bytes begin, which its first four bytes hold; 4 if there are fewer.
fn shown_length(bytes: &[u8]) -> usize
    ensures { result ≡ wire.shown_length bytes.now }
{
    if bytes.len() < 4 {
        4
    } else {
        number_behind(0, bytes) as usize
    }
}

/// Bit 0, checksumPresent.
fn has_checksum(flags: u32) -> bool
    ensures { result ≡ wire.has_checksum flags }
{
    flags & 1 == 1
}

/// Bit 1, moreToCome.
fn has_more_to_come(flags: u32) -> bool
    ensures { result ≡ wire.has_more_to_come flags }
{
    flags >> 1 & 1 == 1
}

/// Bits 2 to 15, which are unknown.
fn has_unknown_flag(flags: u32) -> bool
    ensures { result ≡ wire.has_unknown_flag flags }
{
    flags >> 2 & 0x3fff != 0
}
