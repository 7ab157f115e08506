//! The system's readers and writers, as sessions have them.

ghost use Rattle.std.specs.Prelude.{◌≡◌, Ok, length, IfOk, IsErr, OnErr};
ghost use Rattle.dv_streams.specs.Failures.{failures_behind};

use crate::stream::{ByteIn, ByteOut, Failed};
use std::alloc::{AllocError, Global};
use std::fmt::Display;
use std::io;
use std::io::{Read, Write};

/// The most bytes that one read takes.
const PIECE: usize = 65_536;

/// Room for one read's bytes, 65,536 of them. Fails with `AllocError` when memory runs out.
pub fn piece(alloc: Global) -> Result<Vec<u8>, AllocError>
    ensures { IfOk result (λ piece. length piece.items ≡ 65536) }
{
    room(alloc, PIECE)
}

/// Room for so many bytes. Apart, and of any size, so that no proof spells all of them out.
fn room(alloc: Global, size: usize) -> Result<Vec<u8>, AllocError>
    ensures { IfOk result (λ room. length room.items ≡ size) }
{
    vec![in alloc; 0u8; size]
}

/// The result of what was tried. If it failed, that is counted.
pub fn counted<T>(tried: io::Result<T>, failures: &mut u64) -> Result<T, Failed>
    ensures done { IfOk result (λ done. tried ≡ Ok done) }
    ensures failed { OnErr result (IsErr tried) }
    ensures failures { failures.new ≡ failures_behind result failures.old }
{
    match tried {
        Ok(done) => Ok(done),
        Err(_) => {
            *failures = failures.wrapping_add(1);
            Err(Failed)
        }
    }
}

/// What text is written to, and flushed.
pub trait TextOut: ByteOut {
    ghost use Rattle.std.specs.Prelude.{◌≡◌, ℕ, IfSome, OnErr, OnOk};
    ghost use Rattle.std.specs.Io.KnownBytes.{Appends, Keeps};
    ghost use Rattle.dv_streams.specs.Stream.{MoreBy};
    ghost use Rattle.dv_streams.specs.Failures.{failures_behind};

    // The number of flushes that succeeded, as 64 bits count it.
    ghost flushes: { Self → ℕ };

    /// Writes a text, all of it. `write!` calls this. Fails if the writer does.
    fn write_fmt<D: Display>(&mut self, text: D) -> Result<(), Failed>
    where
        D: Drop,
        ensures all { OnOk result (IfSome (D.output text) (Appends (Self.contents self.old) (Self.contents self.new))) }
        ensures failures { Self.failures self.new ≡ failures_behind result (Self.failures self.old) }
        ensures unflushed { flushes self.new ≡ flushes self.old };

    /// Flushes what was written. Fails if the writer does.
    fn flush(&mut self) -> Result<(), Failed>
        ensures kept { Keeps (Self.contents self.old) (Self.contents self.new) }
        ensures failures { Self.failures self.new ≡ failures_behind result (Self.failures self.old) }
        ensures flushed { OnOk result (MoreBy 1 (flushes self.old) (flushes self.new)) }
        ensures unflushed { OnErr result (flushes self.new ≡ flushes self.old) };
}

/// A reader that counts its reads and its failures.
#[derive(Drop)]
pub struct CountedReader<R: Read> {
    reader: R,
    reads: u64,
    failures: u64,
}

impl<R: Read> CountedReader<R> {
    /// A reader that wasn't read yet.
    pub fn of(reader: R) -> Self
        ensures { result ≡ record { reader = reader; reads = 0; failures = 0 } }
    {
        CountedReader {
            reader,
            reads: 0,
            failures: 0,
        }
    }
}

impl<R: Read> ByteIn for CountedReader<R> {
    ghost remaining = { λ s. R.remaining s.reader };

    ghost failures = { λ s. s.failures };

    ghost reads = { λ s. s.reads };

    fn take(&mut self, piece: &mut [u8]) -> Result<usize, Failed> {
        self.reads = self.reads.wrapping_add(1);
        counted(self.reader.read(piece), &mut self.failures)
    }
}

/// A writer that counts its flushes and its failures.
#[derive(Drop)]
pub struct CountedWriter<W: Write> {
    writer: W,
    flushes: u64,
    failures: u64,
}

impl<W: Write> CountedWriter<W> {
    /// A writer that was given nothing yet.
    pub fn of(writer: W) -> Self
        ensures { result ≡ record { writer = writer; flushes = 0; failures = 0 } }
    {
        CountedWriter {
            writer,
            flushes: 0,
            failures: 0,
        }
    }
}

impl<W: Write> ByteOut for CountedWriter<W> {
    ghost contents = { λ s. W.contents s.writer };

    ghost failures = { λ s. s.failures };

    fn give(&mut self, bytes: &[u8]) -> Result<usize, Failed> {
        let given = self.writer.write(bytes).map_err(|_| Failed);
        if matches!(given, Ok(0) | Err(_)) {
            self.failures = self.failures.wrapping_add(1);
        }
        given
    }
}

impl<W: Write> TextOut for CountedWriter<W> {
    ghost flushes = { λ s. s.flushes };

    fn write_fmt<D: Display>(&mut self, text: D) -> Result<(), Failed>
    where
        D: Drop,
    {
        counted(self.writer.write_fmt(text), &mut self.failures)
    }

    fn flush(&mut self) -> Result<(), Failed> {
        counted(self.writer.flush(), &mut self.failures)?;
        self.flushes = self.flushes.wrapping_add(1);
        Ok(())
    }
}
