//! That another library agrees, and which types there are.

mod shown;
mod vectors;

use self::vectors::VECTORS;
use dv_bson::read_document;
use dv_testing::spelled::bytes_of;
use dv_value::BsonFault;
use std::alloc::Global;
use std::test::Fail;

/// Whether another library's bytes are read as the document that it encoded, and this is written as the same bytes.
fn agrees(alloc: Global, bytes: &[u8], text: &str) -> Result<bool, Fail> {
    let (document, _) = read_document(alloc, bytes)?;
    let mut shown = String::new(alloc);
    shown::show(&mut shown, &document)?;
    let written = bytes_of(alloc, &document)?;
    Ok(shown.as_str() == text && written.as_slice() == bytes)
}

/// The documents, in a function of their own, so that no other proof spells all of them out.
fn documents() -> &'static [(&'static [u8], &'static str)] {
    &VECTORS
}

#[test]
fn agrees_with_another_library(rt: HostRuntime) -> Result<(), Fail> {
    for (bytes, text) in documents() {
        assert!(rt; agrees(rt.alloc(), bytes, text)?, "{text}");
    }
    Ok(())
}

/// The type bytes that BSON 1.1 has, except those of types that are refused.
const TYPES: &[u8] = b"\x02\x03\x04\x05\x07\x08\x09\x0a\x10\x11\x12\x7f\xff";

/// Whether a field of this type is refused because of its type.
fn is_refused(alloc: Global, byte: u8) -> bool {
    let document = [8, 0, 0, 0, byte, b'a', 0, 0];
    let refused = BsonFault::RefusedType { byte, at: 4 };
    matches!(read_document(alloc, &document), Err(fault) if fault == refused)
}

#[test]
fn refuses_every_other_type(rt: HostRuntime) {
    for byte in 1..=255 {
        assert_eq!(rt; is_refused(rt.alloc(), byte), !TYPES.contains(&byte));
    }
}
