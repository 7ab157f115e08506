//! What a store keeps of its views.

use crate::commands::told;
use crate::empty;
use dv_core::Store;
use dv_testing::spelled::bytes_of;
use std::alloc::Global;
use std::test::Fail;

/// `{create: "v", viewOn: "c", pipeline: [{$match: {a: 5}}], $db: "t"}`.
const CREATE: &[u8] =
    b"W\0\0\0\x02create\0\x02\0\0\0v\0\x02viewOn\0\x02\0\0\0c\0\x04pipeline\0!\0\0\0\x030\0\x19\0\0\0\x03$match\0\x0c\0\0\0\x10a\0\x05\0\0\0\0\0\0\x02$db\0\x02\0\0\0t\0\0";

/// `{insert: "c", documents: [{_id: 1, a: 5}, {_id: 2, a: 6}, {_id: 3, a: 5}], $db: "t"}`.
const INSERT: &[u8] =
    b"v\0\0\0\x02insert\0\x02\0\0\0c\0\x04documents\0M\0\0\0\x030\0\x15\0\0\0\x10_id\0\x01\0\0\0\x10a\0\x05\0\0\0\0\x031\0\x15\0\0\0\x10_id\0\x02\0\0\0\x10a\0\x06\0\0\0\0\x032\0\x15\0\0\0\x10_id\0\x03\0\0\0\x10a\0\x05\0\0\0\0\0\x02$db\0\x02\0\0\0t\0\0";

/// `{delete: "c", deletes: [{q: {_id: 1}, limit: 1}], $db: "t"}`.
const DELETE: &[u8] =
    b"P\0\0\0\x02delete\0\x02\0\0\0c\0\x04deletes\0)\0\0\0\x030\0!\0\0\0\x03q\0\x0e\0\0\0\x10_id\0\x01\0\0\0\0\x10limit\0\x01\0\0\0\0\0\x02$db\0\x02\0\0\0t\0\0";

/// `{_id: 1, a: 5}` and `{_id: 3, a: 5}`.
const TWO: &[u8] =
    b"\x15\0\0\0\x10_id\0\x01\0\0\0\x10a\0\x05\0\0\0\0\x15\0\0\0\x10_id\0\x03\0\0\0\x10a\0\x05\0\0\0\0";

/// `{_id: 3, a: 5}`.
const ONE: &[u8] = b"\x15\0\0\0\x10_id\0\x03\0\0\0\x10a\0\x05\0\0\0\0";

/// The bytes of the rows that the store keeps of the view, one after the other.
fn kept(alloc: Global, store: &Store) -> Result<Vec<u8>, Fail> {
    let Some(rows) = store.stored_rows("t.v") else {
        return Err(Fail::from("no view, or a stale one"));
    };
    let mut bytes = Vec::new(alloc);
    for row in rows {
        bytes.append(&mut bytes_of(alloc, row)?)?;
    }
    Ok(bytes)
}

/// The same after these commands.
fn kept_behind(alloc: Global, commands: &[&[u8]]) -> Result<Vec<u8>, Fail> {
    let mut store = empty::store(alloc);
    for body in commands {
        told(alloc, &mut store, body, Vec::new(alloc))?;
    }
    kept(alloc, &store)
}

#[test]
fn a_store_keeps_the_rows_of_its_views(rt: HostRuntime) -> Result<(), Fail> {
    let alloc = rt.alloc();
    assert_eq!(rt; kept_behind(alloc, &[CREATE])?.as_slice(), b"".as_slice());
    assert_eq!(rt; kept_behind(alloc, &[CREATE, INSERT])?.as_slice(), TWO);
    assert_eq!(rt;
        kept_behind(alloc, &[CREATE, INSERT, DELETE])?.as_slice(),
        ONE
    );
    assert!(rt; empty::store(alloc).stored_rows("t.v").is_none());
    Ok(())
}
