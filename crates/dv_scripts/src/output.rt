//! What is written for a line of a script.

ghost use Rattle.std.specs.Prelude.{◌≡◌, ◌<◌, ◌++◌, List, ℕ, take, drop, string_bytes, IfOk, OnOk};
ghost use Rattle.dv_scripts.specs.Output.{AreReplies, closed_line, end_line, fed_text, first_length, reply_line};

use dv_wire::{CloseFault, Fed};
use std::alloc::{AllocError, Global};

/// The line of an end: the session's number in the script and how many bytes of an unfinished message are dropped.
pub(crate) fn end_text(alloc: Global, number: u32, unfinished: usize) -> Result<String, AllocError>
    ensures { IfOk result (λ text. string_bytes text ≡ end_line number unfinished) }
{
    format!(in alloc; "{number} end {unfinished}\n")
}

/// The lines of what a session answered to a piece of its bytes: one for each of the replies, which come one after the other, and
/// then, if it is closed, one with the fault's number.
pub(crate) fn fed_text(
    alloc: Global,
    number: u32,
    replies: &[u8],
    fed: Fed,
) -> Result<String, AllocError>
    ensures { IfOk result (λ text. (all : List (List ℕ)) × AreReplies all replies.now × (string_bytes text ≡ fed_text number all fed)) }
{
    let mut text = String::new(alloc);
    let mut rest = replies;
    'replies: while !rest.is_empty() {
        let (reply, others) = first_reply(rest);
        push_reply(alloc, number, reply, &mut text)?;
        rest = others;
    }
    if let Fed::Closed(fault) = fed {
        push_closed(number, fault, &mut text)?;
    }
    Ok(text)
}

fn push_reply(alloc: Global, number: u32, reply: &[u8], text: &mut String) -> Result<(), AllocError>
    ensures { OnOk result (string_bytes text.new ≡ string_bytes text.old ++ reply_line number reply.now) }
{
    let digits = hex::encode(alloc, reply)?;
    write!(text, "{number} {digits}\n")
}

fn push_closed(number: u32, fault: CloseFault, text: &mut String) -> Result<(), AllocError>
    ensures { OnOk result (string_bytes text.new ≡ string_bytes text.old ++ closed_line number fault) }
{
    let fault = fault.number();
    write!(text, "{number} closed {fault}\n")
}

/// The first reply and the others.
fn first_reply(replies: &[u8]) -> (&[u8], &[u8])
    ensures first { result.0.now ≡ take (first_length replies.now) replies.now }
    ensures others { result.1.now ≡ drop (first_length replies.now) replies.now }
{
    replies.split_at(first_length(replies))
}

/// The length of the first reply, which its first four bytes give, the lowest byte first.
#[tactic(auto, unfolding(crate::specs::Output::first_length))]
fn first_length(replies: &[u8]) -> usize
    ensures { result ≡ first_length replies.now }
{
    match replies.first_chunk::<4>() {
        Some(bytes) => {
            let told = u32::from_le_bytes(*bytes) as usize;
            if 4 <= told && told <= replies.len() {
                told
            } else {
                replies.len()
            }
        }
        None => replies.len(),
    }
}
