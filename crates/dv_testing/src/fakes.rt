//! Readers and writers that take one byte at a call, and fail.

use std::alloc::Global;
use std::io;
use std::io::{ErrorKind, Read, Write};

/// Returns its bytes one at a read, and fails at one of its calls.
#[derive(Drop)]
pub struct FailingReader<'a> {
    bytes: &'a [u8],
    calls: usize,
    failing: usize,
}

impl<'a> FailingReader<'a> {
    /// A reader of these bytes whose call of this number fails, from 1; none does if it is 0.
    pub fn failing(bytes: &'a [u8], failing: usize) -> Self {
        FailingReader {
            bytes,
            calls: 0,
            failing,
        }
    }
}

impl Read for FailingReader<'_> {
    fn read(&mut self, buf: &mut [u8]) -> io::Result<usize> {
        self.calls = self.calls.saturating_add(1);
        if self.calls == self.failing {
            return Err(io::Error::from(ErrorKind::Other));
        }
        let (Some((first, others)), Some(place)) = (self.bytes.split_first(), buf.first_mut())
        else {
            return Ok(0);
        };
        *place = *first;
        self.bytes = others;
        Ok(1)
    }
}

/// Takes one byte at a call, and fails at one of its calls; or takes none at any.
#[derive(Drop)]
pub struct FailingWriter {
    /// What it has taken.
    pub taken: Vec<u8>,
    calls: usize,
    failing: usize,
    is_full: bool,
}

impl FailingWriter {
    /// A writer whose call of this number fails, from 1; none does if it is 0.
    pub fn failing(alloc: Global, failing: usize) -> Self {
        FailingWriter {
            taken: Vec::new(alloc),
            calls: 0,
            failing,
            is_full: false,
        }
    }

    /// A writer that takes no byte.
    pub fn full(alloc: Global) -> Self {
        FailingWriter {
            taken: Vec::new(alloc),
            calls: 0,
            failing: 0,
            is_full: true,
        }
    }

    fn is_failing(&mut self) -> bool {
        self.calls = self.calls.saturating_add(1);
        self.calls == self.failing
    }
}

impl Write for FailingWriter {
    fn write(&mut self, buf: &[u8]) -> io::Result<usize> {
        if self.is_failing() {
            return Err(io::Error::from(ErrorKind::Other));
        }
        match buf.first() {
            Some(byte) if !self.is_full => {
                self.taken
                    .push(*byte)
                    .map_err(|_| io::Error::from(ErrorKind::OutOfMemory))?;
                Ok(1)
            }
            _ => Ok(0),
        }
    }

    fn flush(&mut self) -> io::Result<()> {
        if self.is_failing() {
            return Err(io::Error::from(ErrorKind::Other));
        }
        Ok(())
    }
}
