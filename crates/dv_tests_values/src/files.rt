//! Files of documents that are checked.

use dv_files::check::{CheckFault, check};
use dv_streams::{CountedReader, CountedWriter};
use dv_testing::fakes::{FailingReader, FailingWriter};
use dv_words::fault::DocdFault;
use std::alloc::Global;
use std::test::Fail;

/// `{_id: 1}` twice.
const TWO: &[u8] = b"\x0e\0\0\0\x10_id\0\x01\0\0\0\0\x0e\0\0\0\x10_id\0\x01\0\0\0\0";

/// What a check writes, or why it doesn't, for a file under the name `f`.
fn checked(alloc: Global, file: &[u8]) -> Result<String, Fail> {
    let mut written = Vec::new(alloc);
    let mut writer = CountedWriter::of(&mut written);
    match check(alloc, &mut CountedReader::of(file), &mut writer) {
        Ok(()) => Ok(String::from_utf8(written)?),
        Err(fault) => {
            let fault = DocdFault::of_check(String::from_str(alloc, "f")?, fault);
            Ok(format!(in alloc; "{fault}")?)
        }
    }
}

/// Files, and what a check reports for them. The first document's length is checked before its end, and its end before its closing
/// zero.
const CHECKED: &[(&[u8], &str)] = &[
    (b"", "ok 0\n"),
    (TWO, "ok 2\n"),
    (
        b"\x0e\0\0\0\x10_id\0\x01\0\0\0",
        "f: document 1 at byte 0: Truncated",
    ),
    (
        b"\x05\0\0\0\0\x06\0\0\0\0",
        "f: document 2 at byte 5: Truncated",
    ),
    (b"\x05\0\0\0\0\x05", "f: document 2 at byte 5: Truncated"),
    (b"\x04\0\0\0", "f: document 1 at byte 0: BadLength"),
    (b"\x04\0\0\0\0", "f: document 1 at byte 0: BadLength"),
    (b"\xff\xff\xff\xff\0", "f: document 1 at byte 0: BadLength"),
    (b"\x01\0\0\x01\0", "f: document 1 at byte 0: TooLarge"),
    (b"\0\0\0\x01\0", "f: document 1 at byte 0: Truncated"),
    (b"\x05\0\0\0\x08", "f: document 1 at byte 0: BadLength"),
    (b"\x06\0\0\0\0\0", "f: document 1 at byte 0: BadLength"),
    (
        b"\x0a\0\0\0\x08a\0\x01\0\0",
        "f: document 1 at byte 0: BadLength",
    ),
];

#[test]
fn counts_documents(rt: HostRuntime) -> Result<(), Fail> {
    for (file, told) in CHECKED {
        assert_eq!(rt; checked(rt.alloc(), file)?.as_str(), *told, "{file:?}");
    }
    Ok(())
}

/// The result of a check of the two documents, if the calls of its reader and its writer with these numbers fail.
fn checked_over(alloc: Global, read: usize, written: usize) -> Result<(), CheckFault> {
    let mut reader = CountedReader::of(FailingReader::failing(TWO, read));
    let mut writer = CountedWriter::of(FailingWriter::failing(alloc, written));
    check(alloc, &mut reader, &mut writer)
}

#[test]
fn tells_streams_that_fail(rt: HostRuntime) {
    // One read for each of 28 bytes, and one that reports the end.
    for failing in 1..=29 {
        assert_eq!(rt; checked_over(rt.alloc(), failing, 0), Err(CheckFault::Read));
    }
    // One write for each of the five bytes of `ok 2`, and a flush.
    for failing in 1..=6 {
        assert_eq!(rt;
            checked_over(rt.alloc(), 0, failing),
            Err(CheckFault::Write)
        );
    }
    assert_eq!(rt; checked_over(rt.alloc(), 30, 7), Ok(()));
}
