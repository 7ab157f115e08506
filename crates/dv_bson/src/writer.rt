//! Documents as bytes.

ghost use Rattle.std.specs.Prelude.{◌≡◌, ℕ, ◌+◌, ◌<◌, ◌≤◌, ◌↔◌, ◌⊎◌, ◌++◌, List as Entries, length, OnOk, IfErr, OnErr, IsErrOf};
ghost use Rattle.dv_value.specs.Tree.{elements_of};
ghost use Rattle.dv_value.specs.Tree as trees;
ghost use Rattle.dv_value.specs.Spelling.{payload, spelling, framed, counted, tagged, element_spelling, kind_of, Spells};
ghost use Rattle.dv_value.specs.View.{tree};
ghost use Rattle.dv_bson.specs.Inner.Writing.{IsPut};

use dv_value::{BsonFault, Document, List, Value, document_size};
use itoa::Buffer;

/// Appends the encoding of the document (BSON 1.1, "document"). Refused with `TooLarge` if that is longer than 2,147,483,647 bytes,
/// and with `NoMemory`; then nothing is appended.
pub fn write_document(document: &Document, out: &mut Vec<u8>) -> Result<(), BsonFault>
    ensures ok { OnOk result (out.new.items ≡ out.old.items ++ spelling document.now) }
    ensures spelled { OnOk result (Spells document.now (spelling document.now)) }
    ensures too_large { IsErrOf result BsonFault.TooLarge ↔ (2147483647 < length (spelling document.now)) }
    ensures other { IfErr result (λ e. (e ≡ BsonFault.TooLarge) ⊎ (e ≡ BsonFault.NoMemory)) }
    ensures err { OnErr result (out.new.items ≡ out.old.items) }
{
    let Some(size) = document_size(document) else {
        return Err(BsonFault::TooLarge);
    };
    let start = out.len();
    // All room is made first, so that nothing can fail while the parts are put there.
    out.resize(start + size, 0)?;
    put_document(document, out.as_mut_slice(), start);
    Ok(())
}

/// Puts the bytes over those at `at`. Returns where they end, as all functions below do for what they put.
#[inline]
fn put(bytes: &[u8], out: &mut [u8], at: usize) -> usize
    requires { at + length bytes.now ≤ length out.old }
    ensures { IsPut at bytes.now out.old out.new result }
{
    let end = at + bytes.len();
    out[at..end].copy_from_slice(bytes);
    end
}

/// Ends the document that starts at `start`, where four bytes are left for its length, and whose elements end at `at`.
fn close(out: &mut [u8], start: usize, at: usize) -> usize
    requires { (start + 4 ≤ at) × (at + 1 ≤ length out.old) × (at + 1 ≤ start + 2147483647) }
    ensures { (elements first : Entries ℕ) → IsPut (start + 4) elements first out.old at → IsPut start (framed elements) first out.new result }
{
    let end = put(&[0], out, at);
    let length = (end - start) as u32;
    put(&length.to_le_bytes(), out, start);
    end
}

fn put_text(text: &str, out: &mut [u8], at: usize) -> usize
    requires within { at + length (counted text.now) ≤ length out.old }
    requires short { length (counted text.now) ≤ 2147483647 }
    ensures { IsPut at (counted text.now) out.old out.new result }
{
    let count = text.len() as u32 + 1;
    let at = put(&count.to_le_bytes(), out, at);
    let at = put(text.as_bytes(), out, at);
    put(&[0], out, at)
}

fn put_binary(subtype: u8, bytes: &[u8], out: &mut [u8], at: usize) -> usize
    requires within { at + length (tagged subtype bytes.now) ≤ length out.old }
    requires short { length (tagged subtype bytes.now) ≤ 2147483647 }
    ensures { IsPut at (tagged subtype bytes.now) out.old out.new result }
{
    let count = bytes.len() as u32;
    let at = put(&count.to_le_bytes(), out, at);
    let at = put(&[subtype], out, at);
    put(bytes, out, at)
}

#[cycle(writer)]
fn put_value(value: &Value, out: &mut [u8], at: usize) -> usize
    requires within { at + length (payload (tree value.now)) ≤ length out.old }
    requires short { length (payload (tree value.now)) ≤ 2147483647 }
    ensures { IsPut at (payload (tree value.now)) out.old out.new result }
{
    match value {
        Value::Int32(number) => put(&number.to_le_bytes(), out, at),
        Value::Int64(number) => put(&number.to_le_bytes(), out, at),
        Value::Text(text) => put_text(text.as_str(), out, at),
        Value::Doc(document) => put_document(document, out, at),
        Value::Array(list) => put_list(list, out, at),
        Value::Binary { subtype, bytes } => put_binary(*subtype, bytes.as_slice(), out, at),
        Value::ObjectId(id) => put(id, out, at),
        Value::Bool(boolean) => put(&[*boolean as u8], out, at),
        Value::Date(milliseconds) => put(&milliseconds.to_le_bytes(), out, at),
        Value::Timestamp(time) => put(&time.to_le_bytes(), out, at),
        Value::Null => at,
        Value::MinKey => at,
        Value::MaxKey => at,
    }
}

/// A value, after its type byte and its name.
#[cycle(writer)]
fn put_element(name: &str, value: &Value, out: &mut [u8], at: usize) -> usize
    requires within { at + length (element_spelling (kind_of (tree value.now)) name.now (payload (tree value.now))) ≤ length out.old }
    requires short { length (payload (tree value.now)) ≤ 2147483647 }
    ensures { IsPut at (element_spelling (kind_of (tree value.now)) name.now (payload (tree value.now))) out.old out.new result }
{
    let at = put(&[value.kind().byte()], out, at);
    let at = put(name.as_bytes(), out, at);
    let at = put(&[0], out, at);
    put_value(value, out, at)
}

#[cycle(writer)]
fn put_document(document: &Document, out: &mut [u8], start: usize) -> usize
    requires within { start + length (spelling document.now) ≤ length out.old }
    requires short { length (spelling document.now) ≤ 2147483647 }
    ensures { IsPut start (spelling document.now) out.old out.new result }
{
    let mut at = start + 4;
    for place in 0..document.len() {
        let (name, value) = document.field(place);
        at = put_element(name, value, out, at);
    }
    close(out, start, at)
}

#[cycle(writer)]
fn put_list(list: &List, out: &mut [u8], start: usize) -> usize
    requires within { start + length (payload (trees.array (elements_of list.now))) ≤ length out.old }
    requires short { length (payload (trees.array (elements_of list.now))) ≤ 2147483647 }
    ensures { IsPut start (payload (trees.array (elements_of list.now))) out.old out.new result }
{
    let mut at = start + 4;
    for (place, value) in list.as_slice().iter().enumerate() {
        let mut name = Buffer::new();
        at = put_element(name.format(place), value, out, at);
    }
    close(out, start, at)
}
