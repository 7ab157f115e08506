//! Documents as tests write them, by their bytes. The text next to these is in the notation of `tools/client/notation.py`.

use dv_bson::{read_document, write_document};
use dv_value::{Document, List, Value};
use std::alloc::Global;
use std::test::Fail;

/// The document whose encoding the bytes begin with, or the failure of a test.
pub fn document(alloc: Global, bytes: &[u8]) -> Result<Document, Fail> {
    let (document, _) = read_document(alloc, bytes)?;
    Ok(document)
}

/// The encoding of a document.
pub fn bytes_of(alloc: Global, document: &Document) -> Result<Vec<u8>, Fail> {
    let mut bytes = Vec::new(alloc);
    write_document(document, &mut bytes)?;
    Ok(bytes)
}

/// The array under the name `p`, or the failure of a test.
pub fn array_in(document: &Document) -> Result<&List, Fail> {
    match document.get("p") {
        Some(Value::Array(list)) => Ok(list),
        _ => Err(Fail::from("an array")),
    }
}

/// Puts a field of this name after the others. There is no contract, so that a test that makes documents is proved in less time.
pub fn add(document: &mut Document, name: &str, value: Value) -> Result<(), Fail> {
    Ok(document.push(name, value)?)
}
