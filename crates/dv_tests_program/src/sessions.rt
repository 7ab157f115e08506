//! Sessions over readers and writers.

use crate::empty;
use dv_streams::{CountedReader, CountedWriter};
use dv_testing::fakes::{FailingReader, FailingWriter};
use dv_testing::messages::{FIND, FOUND, INSERT, INSERTED, PING, PONG};
use dv_wire::{Fed, Hub, SessionId, run};
use std::alloc::Global;
use std::test::Fail;

/// The outcome of a session of the hub over these bytes. Each read returns one byte, and the read with this number fails.
fn told(
    alloc: Global,
    hub: &mut Hub,
    bytes: &[u8],
    read: usize,
    narrow: &mut FailingWriter,
) -> Result<String, Fail> {
    let mut reader = CountedReader::of(FailingReader::failing(bytes, read));
    match run(alloc, hub, &mut reader, &mut CountedWriter::of(narrow)) {
        Ok(done) => {
            Ok(format!(in alloc; "{} {} {}", done.messages, done.replies, done.unfinished)?)
        }
        Err(fault) => Ok(format!(in alloc; "{fault:?}")?),
    }
}

/// The outcome of a session over these bytes, and what the writer took. Each read returns one byte and each write takes one, and
/// the calls with these numbers fail.
fn session(
    alloc: Global,
    bytes: &[u8],
    read: usize,
    write: usize,
) -> Result<(String, Vec<u8>), Fail> {
    let mut hub = empty::hub(alloc);
    let mut narrow = FailingWriter::failing(alloc, write);
    let told = told(alloc, &mut hub, bytes, read, &mut narrow)?;
    Ok((told, narrow.taken))
}

#[test]
fn has_sessions(rt: HostRuntime) -> Result<(), Fail> {
    let rows = [
        (b"".as_slice(), "0 0 0", b"".as_slice()),
        (PING, "1 1 0", PONG),
        (&PING[..46], "0 0 46", b""),
    ];
    for (bytes, want, replies) in rows {
        let (told, taken) = session(rt.alloc(), bytes, 0, 0)?;
        assert_eq!(rt; told.as_str(), want);
        assert_eq!(rt; taken.as_slice(), replies);
    }
    Ok(())
}

#[test]
fn tells_failures_of_sessions(rt: HostRuntime) -> Result<(), Fail> {
    // One read for each of the 47 bytes, and one that reports the end; one write for each of the 34 bytes.
    for failing in 1..=48 {
        let (told, taken) = session(rt.alloc(), PING, failing, 0)?;
        let answered = if failing == 48 { PONG } else { b"" };
        assert_eq!(rt; told.as_str(), "Read");
        assert_eq!(rt; taken.as_slice(), answered);
    }
    for failing in 1..=34usize {
        let (told, taken) = session(rt.alloc(), PING, 0, failing)?;
        assert_eq!(rt; told.as_str(), "Write");
        assert_eq!(rt; taken.as_slice(), &PONG[..failing - 1]);
    }
    Ok(())
}

/// What another session finds after an insert whose reply this writer doesn't take, and what the hub then returns for bytes of the
/// first session.
fn found_behind(alloc: Global, narrow: &mut FailingWriter) -> Result<(Vec<u8>, Fed), Fail> {
    let mut hub = empty::hub(alloc);
    let told = told(alloc, &mut hub, INSERT, 0, narrow)?;
    if told.as_str() != "Write" {
        return Err(Fail::from("a write fault"));
    }
    let mut found = Vec::new(alloc);
    let fed = hub.feed(SessionId { number: 0 }, FIND, &mut found);
    let other = hub.open()?;
    hub.feed(other, FIND, &mut found);
    Ok((found, fed))
}

#[test]
fn what_is_not_told_is_done(rt: HostRuntime) -> Result<(), Fail> {
    let alloc = rt.alloc();
    let rows = [
        (FailingWriter::failing(alloc, 11), &INSERTED[..10]),
        (FailingWriter::full(alloc), b""),
    ];
    for (mut narrow, taken) in rows {
        let (found, fed) = found_behind(alloc, &mut narrow)?;
        assert_eq!(rt; narrow.taken.as_slice(), taken);
        assert_eq!(rt; found.as_slice(), FOUND);
        assert_eq!(rt; fed, Fed::Unknown);
    }
    Ok(())
}
