//! Files of documents that are loaded.

use crate::empty;
use dv_core::Store;
use dv_load::load_file;
use dv_streams::CountedReader;
use dv_words::fault::DocdFault;
use std::alloc::Global;
use std::test::Fail;

/// `{_id: 1}` twice.
const TWO: &[u8] = b"\x0e\0\0\0\x10_id\0\x01\0\0\0\0\x0e\0\0\0\x10_id\0\x01\0\0\0\0";

/// The result of loading a file under the name `f`.
fn loaded(alloc: Global, store: &mut Store, namespace: &str, file: &[u8]) -> Result<String, Fail> {
    match load_file(alloc, store, namespace, &mut CountedReader::of(file)) {
        Ok(()) => Ok(String::from_str(alloc, "ok")?),
        Err(fault) => {
            let fault = DocdFault::of_load(String::from_str(alloc, "f")?, fault);
            Ok(format!(in alloc; "{fault}")?)
        }
    }
}

/// Files that are loaded one after the other into one store, and the results. Documents before a fault stay in the store, and later
/// ones with their `_id` are refused. The last file but one is a document without `_id`, and the last one is loaded under a name
/// without a database.
const LOADED: &[(&str, &[u8], &str)] = &[
    ("t.c", b"", "ok"),
    (
        "t.c",
        b"\x0e\0\0\0\x10_id\0\x01\0\0\0",
        "f: document 1 at byte 0: Truncated",
    ),
    (
        "t.c",
        b"\x0e\0\0\0\x10_id\0\x01\0\0\0\0\x0e\0",
        "f: document 2 at byte 14: Truncated",
    ),
    ("t.c", TWO, "f: document 1 at byte 0: DuplicateKey"),
    ("t.d", TWO, "f: document 2 at byte 14: DuplicateKey"),
    ("t.c", b"\x05\0\0\0\0", "f: document 1 at byte 0: BadValue"),
    (".c", TWO, "f: document 1 at byte 0: BadValue"),
];

#[test]
fn loads_documents(rt: HostRuntime) -> Result<(), Fail> {
    let mut store = empty::store(rt.alloc());
    for (namespace, file, told) in LOADED {
        let found = loaded(rt.alloc(), &mut store, namespace, file)?;
        assert_eq!(rt; found.as_str(), *told, "{namespace} {file:?}");
    }
    Ok(())
}
