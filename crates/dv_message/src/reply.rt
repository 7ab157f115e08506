//! Replies: their bytes.

ghost use Rattle.std.specs.Prelude.{◌≡◌, ◌+◌, ◌-◌, ◌^◌, ◌<◌, ◌≤◌, ℕ, List, ◌∷◌, [], ◌++◌, length, take, drop, OnOk, OnErr};
ghost use Rattle.std.specs.Int.{w32, to_le_bytes};
ghost use Rattle.dv_value.specs.Spelling.{spelling};
ghost use Rattle.dv_message.specs.Message.{message_spelling};
ghost use Rattle.dv_message.specs.Inner.View.{unmeasured};

use crate::front::OP_MSG;
use dv_bson::write_document;
use dv_value::{Document, NoMemory};
use std::alloc::AllocError;

/// Appends a message with this body as the reply to a request. Fails with `NoMemory` when memory runs out, and if the reply would have
/// over 2,147,483,647 bytes; then nothing is appended.
pub fn append_reply(request_id: u32, reply: &Document, out: &mut Vec<u8>) -> Result<(), NoMemory>
    ensures ok { OnOk result (out.new.items ≡ out.old.items ++ message_spelling 0 request_id 0 (0 ∷ spelling reply.now)) }
    ensures err { OnErr result (out.new.items ≡ out.old.items) }
{
    let start = out.len();
    let appended = append_unmeasured(request_id, reply, out);
    match appended {
        Ok(()) => put_length(out, start),
        Err(_) => out.truncate(start),
    }
    appended
}

/// Appends the same with 0 as the message's length. If memory runs out a part of it may be appended.
fn append_unmeasured(request_id: u32, reply: &Document, out: &mut Vec<u8>) -> Result<(), NoMemory>
    ensures ok { OnOk result (out.new.items ≡ out.old.items ++ unmeasured request_id (0 ∷ spelling reply.now)) }
    ensures within { OnOk result (length (spelling reply.now) + 21 < 2 ^ 32) }
    ensures err { OnErr result ((part : List ℕ) × (out.new.items ≡ out.old.items ++ part)) }
{
    out.extend_from_slice(&header(request_id))?;
    match write_document(reply, out) {
        Ok(()) => Ok(()),
        Err(_) => Err(AllocError),
    }
}

/// The bytes before a reply's body: the header, with 0 as its length, the flags and the kind of the section.
pub(crate) fn header(request_id: u32) -> [u8; 21]
    ensures { result ≡ unmeasured request_id (0 ∷ []) }
{
    let id = request_id.to_le_bytes();
    let code = OP_MSG.to_le_bytes();
    [
        0, 0, 0, 0, 0, 0, 0, 0, id[0], id[1], id[2], id[3], code[0], code[1], code[2], code[3], 0,
        0, 0, 0, 0,
    ]
}

/// Puts the length of the message, which goes from `start` to the end of the bytes, into its first four bytes.
pub(crate) fn put_length(out: &mut [u8], start: usize)
    requires room { start + 4 ≤ length out.old }
    requires fits { length out.old < start + 2 ^ 32 }
    ensures { out.new ≡ take start out.old ++ (to_le_bytes w32 (length out.old - start) ++ drop (start + 4) out.old) }
{
    let measured = ((out.len() - start) as u32).to_le_bytes();
    out[start..start + 4].copy_from_slice(&measured);
}
