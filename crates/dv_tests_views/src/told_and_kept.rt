//! Views of a registry that receives changes without the row that was there: that they stay live. No clause says so, since memory
//! may run out.

use crate::turns::{gone, put};
use dv_change::Change;
use dv_pipe::{Pipeline, Sources};
use dv_testing::spelled::{array_in, document};
use dv_views::{Registry, ViewState};
use std::alloc::Global;
use std::mem::ManuallyDrop;
use std::test::Fail;

/// The view `t.v` of the stages over `t.c`, which has no document yet. Nothing drops it, so that a test's proof is short.
fn registry(alloc: Global, stages: &[u8]) -> Result<ManuallyDrop<Registry>, Fail> {
    let stages = document(alloc, stages)?;
    let pipeline = Pipeline::parse(alloc, array_in(&stages)?.as_slice())?;
    let mut views = ManuallyDrop::new(Registry::new(alloc));
    views.create("t.v", "t.c", pipeline, &Sources::new(alloc))?;
    Ok(views)
}

/// Passes the changes to the views. There is no contract, so that a test's proof is short.
fn tell(views: &mut Registry, namespace: &str, changes: &[Change]) {
    views.apply(namespace, changes);
}

/// The state of a view of the documents with `{a: 7}` after changes of `t.c`, and what it has counted.
fn behind(alloc: Global, changes: &[Change]) -> Result<(Option<ViewState>, Option<u64>), Fail> {
    // {p: [{$match: {a: 7}}]}
    let mut views = registry(
        alloc,
        b")\0\0\0\x04p\0!\0\0\0\x030\0\x19\0\0\0\x03$match\0\x0c\0\0\0\x10a\0\x07\0\0\0\0\0\0\0",
    )?;
    tell(&mut views, "t.c", changes);
    Ok((views.state("t.v"), views.ticks("t.v")))
}

/// `{_id: 1, a: 7}`, `{_id: 1, a: 8}` and `{_id: 2, a: 7}`.
const FOUND: [&[u8]; 3] = [
    b"\x15\0\0\0\x10_id\0\x01\0\0\0\x10a\0\x07\0\0\0\0",
    b"\x15\0\0\0\x10_id\0\x01\0\0\0\x10a\0\x08\0\0\0\0",
    b"\x15\0\0\0\x10_id\0\x02\0\0\0\x10a\0\x07\0\0\0\0",
];

/// That a row no longer matches is returned as a removal only if it is known that the row matched before.
#[test]
fn a_view_stays_live_behind_documents_that_are_put_and_gone(rt: HostRuntime) -> Result<(), Fail> {
    let alloc = rt.alloc();
    let mut changes = Vec::new(alloc);
    changes.push(put(alloc, 1, FOUND[0])?)?;
    changes.push(put(alloc, 2, FOUND[2])?)?;
    changes.push(put(alloc, 1, FOUND[1])?)?;
    changes.push(gone(alloc, 1)?)?;
    let found = behind(alloc, changes.as_slice())?;
    assert_eq!(rt; found, (Some(ViewState::Live), Some(7)));
    Ok(())
}
