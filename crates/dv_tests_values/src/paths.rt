//! The candidates of a path, listed.

use dv_path::{Candidate, Path, leaves, whole};
use dv_testing::spelled::document;
use dv_value::Value;
use std::test::Fail;

/// `{a: [{b: 1}, {b: 2}, {}]}`.
const FOUND: &[u8] =
    b"3\0\0\0\x04a\0+\0\0\0\x030\0\x0c\0\0\0\x10b\0\x01\0\0\0\0\x031\0\x0c\0\0\0\x10b\0\x02\0\0\0\0\x032\0\x05\0\0\0\0\0\0";

/// A candidate's number, and -1 for a missing one.
fn number(candidate: &Candidate<'_>) -> i32 {
    match candidate {
        Candidate::Found(Value::Int32(number)) => *number,
        Candidate::Found(_) => 0,
        Candidate::Missing => -1,
    }
}

#[test]
fn candidates_are_listed(rt: HostRuntime) -> Result<(), Fail> {
    let alloc = rt.alloc();
    let document = document(alloc, FOUND)?;
    let path = Path::parse(alloc, "a.b")?;
    let found: Vec<i32> = whole(alloc, &document, &path)?
        .iter()
        .map(number)
        .collect(alloc)?;
    assert_eq!(rt; found.as_slice(), [1, 2, -1].as_slice());
    Ok(())
}

/// `{a: [1, 2]}`.
const ARRAY: &[u8] = b"\x1b\0\0\0\x04a\0\x13\0\0\0\x100\0\x01\0\0\0\x101\0\x02\0\0\0\0\0";

#[test]
fn leaves_are_listed(rt: HostRuntime) -> Result<(), Fail> {
    let alloc = rt.alloc();
    let document = document(alloc, ARRAY)?;
    let path = Path::parse(alloc, "a")?;
    let found: Vec<i32> = leaves(alloc, &document, &path)?
        .iter()
        .map(number)
        .collect(alloc)?;
    assert_eq!(rt; found.as_slice(), [0, 1, 2].as_slice());
    Ok(())
}
