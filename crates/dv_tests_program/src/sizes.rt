//! Commands at their limits, which no script has.

use crate::commands::told;
use crate::empty;
use dv_command::DocumentList;
use dv_command::replies::cut_error;
use dv_core::Store;
use dv_testing::spelled::{add, bytes_of};
use dv_value::{Document, Str, Value};
use std::alloc::Global;
use std::test::Fail;

/// `{insert: "c", $db: "t"}`.
const INSERT: &[u8] = b"\x1e\0\0\0\x02insert\0\x02\0\0\0c\0\x02$db\0\x02\0\0\0t\0\0";

/// `{find: "c", $db: "t"}`.
const FIND: &[u8] = b"\x1c\0\0\0\x02find\0\x02\0\0\0c\0\x02$db\0\x02\0\0\0t\0\0";

/// The bytes of the reply to an insert of these documents.
fn inserted(alloc: Global, store: &mut Store, documents: Vec<Document>) -> Result<Vec<u8>, Fail> {
    let name = Str::of(String::from_str(alloc, "documents")?);
    let mut lists = Vec::new(alloc);
    lists.push(DocumentList { name, documents })?;
    told(alloc, store, INSERT, lists)
}

/// The document `{_id: id, t: text}`, where the text is the letter "a" so many times. It has 22 bytes more than the text.
fn long(alloc: Global, id: i32, length: usize) -> Result<Document, Fail> {
    let mut document = Document::new(alloc);
    let text = Str::of("a".repeat(alloc, length)?);
    add(&mut document, "_id", Value::Int32(id))?;
    add(&mut document, "t", Value::Text(text))?;
    Ok(document)
}

/// The bytes of the reply to an insert of such a document.
fn stored(alloc: Global, store: &mut Store, id: i32, length: usize) -> Result<Vec<u8>, Fail> {
    let mut documents = Vec::new(alloc);
    documents.push(long(alloc, id, length)?)?;
    inserted(alloc, store, documents)
}

/// `{n: 1, ok: 1}`.
const INSERTED: &[u8] = b"\x14\0\0\0\x10n\0\x01\0\0\0\x10ok\0\x01\0\0\0\0";

/// `{n: 0, writeErrors: [{index: 0, code: 901, errmsg: "TooLarge"}], ok: 1}`.
const TOO_LARGE: &[u8] =
    b"X\0\0\0\x10n\0\0\0\0\0\x04writeErrors\07\0\0\0\x030\0/\0\0\0\x10index\0\0\0\0\0\x10code\0\x85\x03\0\0\x02errmsg\0\x09\0\0\0TooLarge\0\0\0\x10ok\0\x01\0\0\0\0";

/// The same with the code 2, "BadValue".
const NOT_STORED: &[u8] =
    b"X\0\0\0\x10n\0\0\0\0\0\x04writeErrors\07\0\0\0\x030\0/\0\0\0\x10index\0\0\0\0\0\x10code\0\x02\0\0\0\x02errmsg\0\x09\0\0\0BadValue\0\0\0\x10ok\0\x01\0\0\0\0";

/// `{ok: 0, errmsg: "LimitReached", code: 903, codeName: "LimitReached"}`.
const LIMIT_REACHED: &[u8] =
    b"K\0\0\0\x10ok\0\0\0\0\0\x02errmsg\0\x0d\0\0\0LimitReached\0\x10code\0\x87\x03\0\0\x02codeName\0\x0d\0\0\0LimitReached\0\0";

/// The bytes of the replies to inserts of a document of 16,777,216 bytes and of one of one byte more.
fn largest(alloc: Global) -> Result<(Vec<u8>, Vec<u8>), Fail> {
    let mut store = empty::store(alloc);
    let largest = stored(alloc, &mut store, 1, 16_777_194)?;
    let larger = stored(alloc, &mut store, 2, 16_777_195)?;
    Ok((largest, larger))
}

/// No message has so long a document, but a command may be made without a message.
#[test]
fn a_document_has_at_most_16_mebibytes(rt: HostRuntime) -> Result<(), Fail> {
    let (largest, larger) = largest(rt.alloc())?;
    assert_eq!(rt; largest.as_slice(), INSERTED);
    assert_eq!(rt; larger.as_slice(), TOO_LARGE);
    Ok(())
}

/// How many bytes a find's reply has after an insert of such a document.
fn grown(alloc: Global, store: &mut Store, id: i32, length: usize) -> Result<usize, Fail> {
    stored(alloc, store, id, length)?;
    Ok(told(alloc, store, FIND, Vec::new(alloc))?.len())
}

/// How many bytes it has after the first of two documents, after both, which together have as many bytes as a batch may have, and
/// after a third, which is returned with the next batch.
fn batches(alloc: Global) -> Result<(usize, usize, usize), Fail> {
    let mut store = empty::store(alloc);
    let first = grown(alloc, &mut store, 1, 16_777_150)?;
    let both = grown(alloc, &mut store, 2, 22)?;
    Ok((first, both, grown(alloc, &mut store, 3, 0)?))
}

#[test]
fn a_batch_has_at_most_16_mebibytes_of_documents(rt: HostRuntime) -> Result<(), Fail> {
    let (first, both, three) = batches(rt.alloc())?;
    assert_eq!(rt; first, 16_777_242);
    assert_eq!(rt; both, 16_777_289);
    assert_eq!(rt; three, 16_777_289);
    Ok(())
}

/// The bytes of the reply to an insert of so many empty documents. They have no `_id`: the first one ends the command.
fn unstored(alloc: Global, count: usize) -> Result<Vec<u8>, Fail> {
    let mut documents = Vec::new(alloc);
    for _ in 0..count {
        documents.push(Document::new(alloc))?;
    }
    inserted(alloc, &mut empty::store(alloc), documents)
}

#[test]
fn a_command_has_at_most_100000_statements(rt: HostRuntime) -> Result<(), Fail> {
    let alloc = rt.alloc();
    assert_eq!(rt; unstored(alloc, 100_000)?.as_slice(), NOT_STORED);
    assert_eq!(rt; unstored(alloc, 100_001)?.as_slice(), LIMIT_REACHED);
    Ok(())
}

/// `{index: 3, code: 900, errmsg: "WantOfMemory", done: 5}`.
const CUT: &[u8] =
    b"=\0\0\0\x10index\0\x03\0\0\0\x10code\0\x84\x03\0\0\x02errmsg\0\x0d\0\0\0WantOfMemory\0\x10done\0\x05\0\0\0\0";

/// Memory never runs out here, so no statement is cut.
#[test]
fn a_cut_statement_tells_what_is_done(rt: HostRuntime) -> Result<(), Fail> {
    let alloc = rt.alloc();
    let error = cut_error(alloc, 3, 5)?;
    assert_eq!(rt; bytes_of(alloc, &error)?.as_slice(), CUT);
    Ok(())
}
