//! Scripts whose reader or writer fails, or gives and takes one byte at a call.

use crate::empty;
use dv_scripts::script::{ScriptFault, script};
use dv_streams::{CountedReader, CountedWriter};
use dv_testing::fakes::{FailingReader, FailingWriter};
use std::alloc::Global;
use std::test::Fail;

/// What a script writes and how it ends. Each read returns one byte, and the read with this number fails.
fn ran(alloc: Global, text: &str, failing: usize) -> Result<String, Fail> {
    let mut hub = empty::hub(alloc);
    let mut reader = CountedReader::of(FailingReader::failing(text.as_bytes(), failing));
    let mut written = Vec::new(alloc);
    let done = script(
        alloc,
        &mut hub,
        &mut reader,
        &mut CountedWriter::of(&mut written),
    );
    let mut told = String::from_utf8(written)?;
    write!(told, "{done:?}")?;
    Ok(told)
}

/// Scripts, the number of the read that fails (0 if none does), and what they write and how they end. A CR belongs to its line.
const SCRIPTS: &[(&str, usize, &str)] = &[
    ("", 0, "Ok(())"),
    ("# nothing\n\n", 0, "Ok(())"),
    ("0 end", 0, "0 end 0\nOk(())"),
    (
        "0 end\n\n1 0\n2 end\n",
        0,
        "0 end 0\nErr(BadLine { line: 3 })",
    ),
    ("0 end\n0 end\r\n", 0, "0 end 0\nErr(BadLine { line: 2 })"),
    ("# 0 end\r\n300 end\n", 0, "300 end 0\nOk(())"),
    ("0 end\n1 en", 11, "0 end 0\nErr(Read)"),
];

#[test]
fn runs_scripts(rt: HostRuntime) -> Result<(), Fail> {
    for (text, failing, told) in SCRIPTS {
        assert_eq!(rt;
            ran(rt.alloc(), text, *failing)?.as_str(),
            *told,
            "{text:?}"
        );
    }
    Ok(())
}

/// How a script ends if the call of its writer with this number fails.
fn ended(alloc: Global, failing: usize) -> Result<(), ScriptFault> {
    let mut hub = empty::hub(alloc);
    let mut reader = CountedReader::of(b"0 end\n".as_slice());
    let mut writer = CountedWriter::of(FailingWriter::failing(alloc, failing));
    script(alloc, &mut hub, &mut reader, &mut writer)
}

#[test]
fn tells_a_writer_that_fails(rt: HostRuntime) {
    // A flush, a write for each of eight bytes, a flush before the next read, and one at the end.
    for failing in 1..=11 {
        assert_eq!(rt; ended(rt.alloc(), failing), Err(ScriptFault::Write));
    }
    assert_eq!(rt; ended(rt.alloc(), 12), Ok(()));
}

#[test]
fn tells_a_hub_that_opens_nothing(rt: HostRuntime) {
    let mut hub = empty::hub(rt.alloc());
    for _ in 0..1000 {
        assert!(rt; hub.open().is_ok());
    }
    let mut reader = CountedReader::of(b"0 end\n".as_slice());
    let mut writer = CountedWriter::of(Vec::new(rt.alloc()));
    let done = script(rt.alloc(), &mut hub, &mut reader, &mut writer);
    assert_eq!(rt; done, Err(ScriptFault::Sessions));
}
