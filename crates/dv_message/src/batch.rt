//! Replies with a batch of rows: their bytes, without a document of the reply.

ghost use Rattle.std.specs.Prelude.{◌≡◌, ◌+◌, ◌^◌, ◌<◌, ◌≤◌, ℕ, List, ◌∷◌, [], ◌++◌, length, take, drop, map, decimal, vec_len, OnOk, OnErr};
ghost use Rattle.std.specs.Int.{w32, w64, to_le_bytes};
ghost use Rattle.dv_value.specs.Spelling.{framed, spelling};
ghost use Rattle.dv_command.specs.Replies.{batch_reply, document_of};
ghost use Rattle.dv_message.specs.Inner.Batches.{batch_spelling, cursor_spelling, id_spelling, row_spelling, rows_spelling};
ghost use Rattle.dv_message.specs.Message.{message_spelling};
ghost use Rattle.dv_message.specs.Inner.View.{unmeasured};

use crate::reply::{header, put_length};
use dv_bson::write_document;
use dv_value::{Document, NoMemory};
use itoa::Buffer;
use std::alloc::AllocError;

/// The most bytes of a document.
const LONGEST_DOCUMENT: usize = 2_147_483_647;

/// The bytes that are reserved at once for a reply. One with more or larger rows takes more as it is written.
const ROOM: usize = 256;

/// Appends a message whose body is the reply with a batch of rows, as the reply to the request `request_id`: the rows under `name`, the
/// id of the cursor that has the other rows (0 if none has), and `namespace`. Fails with `NoMemory` when memory runs out, and if the
/// reply or a row would have over 2,147,483,647 bytes; then nothing is appended.
pub fn append_batch(
    request_id: u32,
    name: &str,
    namespace: &str,
    id: u64,
    rows: &[Document],
    out: &mut Vec<u8>,
) -> Result<(), NoMemory>
    ensures ok { OnOk result (out.new.items ≡ out.old.items
        ++ message_spelling 0 request_id 0 (0 ∷ spelling (batch_reply name.now namespace.now id (map document_of rows.now)))) }
    ensures err { OnErr result (out.new.items ≡ out.old.items) }
{
    let start = out.len();
    // If there is no memory for this, the parts take what they need.
    let _ = out.reserve(ROOM);
    let appended = append_unmeasured(request_id, name, namespace, id, rows, out);
    match appended {
        Ok(()) => put_length(out, start),
        Err(_) => out.truncate(start),
    }
    appended
}

/// Appends the same with 0 as the message's length. If memory runs out a part of it may be appended; this also holds for the
/// functions below, unless they say otherwise.
fn append_unmeasured(
    request_id: u32,
    name: &str,
    namespace: &str,
    id: u64,
    rows: &[Document],
    out: &mut Vec<u8>,
) -> Result<(), NoMemory>
    ensures ok { OnOk result (out.new.items ≡ out.old.items ++ unmeasured request_id (0 ∷ batch_spelling name.now namespace.now id rows.now)) }
    ensures within { OnOk result (length (batch_spelling name.now namespace.now id rows.now) + 21 < 2 ^ 32) }
    ensures err { OnErr result ((part : List ℕ) × (out.new.items ≡ out.old.items ++ part)) }
{
    out.extend_from_slice(&header(request_id))?;
    append_reply_with(name, namespace, id, rows, out)?;
    Ok(())
}

/// Appends the reply's document.
fn append_reply_with(
    name: &str,
    namespace: &str,
    id: u64,
    rows: &[Document],
    out: &mut Vec<u8>,
) -> Result<(), NoMemory>
    ensures ok { OnOk result (out.new.items ≡ out.old.items ++ batch_spelling name.now namespace.now id rows.now) }
    ensures within { OnOk result (length (batch_spelling name.now namespace.now id rows.now) + 21 < 2 ^ 32) }
    ensures err { OnErr result ((part : List ℕ) × (out.new.items ≡ out.old.items ++ part)) }
{
    let start = out.len();
    out.extend_from_slice(b"\0\0\0\0\x03cursor\0")?;
    append_cursor(name, namespace, id, rows, out)?;
    out.extend_from_slice(b"\x10ok\0\x01\0\0\0")?;
    close(out, start)?;
    Ok(())
}

/// Appends the document of the cursor.
fn append_cursor(
    name: &str,
    namespace: &str,
    id: u64,
    rows: &[Document],
    out: &mut Vec<u8>,
) -> Result<(), NoMemory>
    ensures ok { OnOk result (out.new.items ≡ out.old.items ++ cursor_spelling name.now namespace.now id rows.now) }
    ensures err { OnErr result ((part : List ℕ) × (out.new.items ≡ out.old.items ++ part)) }
{
    let start = out.len();
    append_three(b"\0\0\0\0\x04", name.as_bytes(), b"\0", out)?;
    append_array(rows, out)?;
    append_id(id, namespace, out)?;
    close(out, start)?;
    Ok(())
}

/// Appends the array of the rows.
fn append_array(rows: &[Document], out: &mut Vec<u8>) -> Result<(), NoMemory>
    ensures ok { OnOk result (out.new.items ≡ out.old.items ++ framed (rows_spelling 0 rows.now)) }
    ensures err { OnErr result ((part : List ℕ) × (out.new.items ≡ out.old.items ++ part)) }
{
    let start = out.len();
    out.extend_from_slice(b"\0\0\0\0")?;
    append_rows(rows, out)?;
    close(out, start)?;
    Ok(())
}

/// Appends the rows as the elements of an array.
fn append_rows(rows: &[Document], out: &mut Vec<u8>) -> Result<(), NoMemory>
    ensures ok { OnOk result (out.new.items ≡ out.old.items ++ rows_spelling 0 rows.now) }
    ensures err { OnErr result ((part : List ℕ) × (out.new.items ≡ out.old.items ++ part)) }
{
    'rows: for (place, row) in rows.iter().enumerate() {
        append_row(place, row, out)?;
    }
    Ok(())
}

/// Appends a row after the number of its place.
fn append_row(place: usize, row: &Document, out: &mut Vec<u8>) -> Result<(), NoMemory>
    ensures ok { OnOk result (out.new.items ≡ out.old.items ++ row_spelling place row.now) }
    ensures err { OnErr result ((part : List ℕ) × (out.new.items ≡ out.old.items ++ part)) }
{
    append_number(place, out)?;
    match write_document(row, out) {
        Ok(()) => Ok(()),
        Err(_) => Err(AllocError),
    }
}

/// Appends what comes before a document in an array: its type and the number of its place.
fn append_number(place: usize, out: &mut Vec<u8>) -> Result<(), NoMemory>
    ensures ok { OnOk result (out.new.items ≡ out.old.items ++ ((3 ∷ [] ++ decimal place) ++ 0 ∷ [])) }
    ensures err { OnErr result ((part : List ℕ) × (out.new.items ≡ out.old.items ++ part)) }
{
    // Most replies have few rows.
    if place < 10 {
        out.extend_from_slice(&[3, 48 + place as u8, 0])?;
        return Ok(());
    }
    let mut number = Buffer::new();
    append_three(b"\x03", number.format(place).as_bytes(), b"\0", out)
}

/// Appends what follows a cursor's rows: its id and its namespace.
fn append_id(id: u64, namespace: &str, out: &mut Vec<u8>) -> Result<(), NoMemory>
    ensures ok { OnOk result (out.new.items ≡ out.old.items ++ id_spelling id namespace.now) }
    ensures err { OnErr result ((part : List ℕ) × (out.new.items ≡ out.old.items ++ part)) }
{
    if namespace.len() >= LONGEST_DOCUMENT {
        return Err(AllocError);
    }
    let front = id_front(id, namespace.len() as u32 + 1);
    append_three(&front, namespace.as_bytes(), b"\0", out)
}

/// The field of a cursor's id, and the field of its namespace up to the text, which has `count` bytes with its closing zero.
fn id_front(id: u64, count: u32) -> [u8; 20]
    ensures { result ≡ 18 ∷ 105 ∷ 100 ∷ 0 ∷ (to_le_bytes w64 id ++ 2 ∷ 110 ∷ 115 ∷ 0 ∷ to_le_bytes w32 count) }
{
    let id = id.to_le_bytes();
    let count = count.to_le_bytes();
    [
        18, b'i', b'd', 0, id[0], id[1], id[2], id[3], id[4], id[5], id[6], id[7], 2, b'n', b's',
        0, count[0], count[1], count[2], count[3],
    ]
}

/// Appends three parts one after the other.
fn append_three(
    first: &[u8],
    second: &[u8],
    third: &[u8],
    out: &mut Vec<u8>,
) -> Result<(), NoMemory>
    ensures ok { OnOk result (out.new.items ≡ out.old.items ++ ((first.now ++ second.now) ++ third.now)) }
    ensures err { OnErr result ((part : List ℕ) × (out.new.items ≡ out.old.items ++ part)) }
{
    out.extend_from_slice(first)?;
    out.extend_from_slice(second)?;
    out.extend_from_slice(third)?;
    Ok(())
}

/// Ends the document that begins at `start`, where four bytes are left for its length. Fails if the length would be over
/// 2,147,483,647 bytes, and when memory runs out; then nothing is changed.
fn close(out: &mut Vec<u8>, start: usize) -> Result<(), NoMemory>
    requires { start + 4 ≤ vec_len out.old }
    ensures ok { OnOk result (out.new.items ≡ take start out.old.items ++ framed (drop (start + 4) out.old.items)) }
    ensures within { OnOk result (vec_len out.new ≤ start + 2147483647) }
    ensures err { OnErr result (out.new.items ≡ out.old.items) }
{
    if out.len() - start >= LONGEST_DOCUMENT {
        return Err(AllocError);
    }
    out.extend_from_slice(b"\0")?;
    put_length(out, start);
    Ok(())
}
