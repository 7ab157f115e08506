//! Updates at their limits, which no script has.

use dv_testing::spelled::{add, document};
use dv_update::{Update, UpdateFault};
use dv_value::{Document, Value};
use std::alloc::Global;
use std::test::Fail;

/// `{_id: 1}`.
const ONE: &[u8] = b"\x0e\0\0\0\x10_id\0\x01\0\0\0\0";

/// `{path: 1}`, where the path has 100,000 names.
fn far(alloc: Global) -> Result<Document, Fail> {
    let mut path = "a.".repeat(alloc, 99_999)?;
    path.push_str("a")?;
    let mut paths = Document::new(alloc);
    add(&mut paths, path.as_str(), Value::Int32(1))?;
    Ok(paths)
}

/// The number of the fault with which an update with this operator on such a path is refused, or 0 if it isn't.
fn fault_of(alloc: Global, operator: &str) -> Result<u8, Fail> {
    let mut update = Document::new(alloc);
    add(&mut update, operator, Value::Doc(far(alloc)?))?;
    let made = Update::parse(alloc, &update)?.apply(alloc, &document(alloc, ONE)?);
    Ok(made.err().map_or(0, |fault| fault.number()))
}

#[test]
fn a_path_of_100000_names_makes_nothing(rt: HostRuntime) -> Result<(), Fail> {
    let alloc = rt.alloc();
    assert_eq!(rt; fault_of(alloc, "$set")?, UpdateFault::TooDeep.number());
    assert_eq!(rt; fault_of(alloc, "$push")?, UpdateFault::TooDeep.number());
    assert_eq!(rt; fault_of(alloc, "$unset")?, 0);
    Ok(())
}
