//! The one session of standard input.

use crate::ending::{of_close, of_run};
use dv_streams::{CountedReader, CountedWriter};
use dv_wire::Hub;
use dv_words::fault::DocdFault;
use std::io;

/// Runs one session of standard input's bytes, as `run` of `dv_wire` does, and writes the replies to standard output. Fails with
/// `Closed` if the session was closed, otherwise with why it ended before the end of input.
pub fn run_session<R: Input + Print + AllocGlobal>(rt: &R, hub: &mut Hub) -> Result<(), DocdFault> {
    let mut reader = CountedReader::of(rt.reader());
    let mut writer = CountedWriter::of(io::writer(rt));
    match dv_wire::run(rt.alloc(), hub, &mut reader, &mut writer)
        .map_err(of_run)?
        .closing
    {
        Some(fault) => Err(of_close(fault)),
        None => Ok(()),
    }
}
