//! The script on standard input.

use crate::script;
use dv_streams::{CountedReader, CountedWriter};
use dv_wire::Hub;
use dv_words::fault::DocdFault;
use std::io;
use std::io::BufWriter;

/// Runs the script on standard input, as `script` does, and writes to standard output. Fails with `NoMemory` if there is no memory
/// for the writer's buffer, otherwise with the fault of the script.
pub fn run_script<R: Input + Print + AllocGlobal>(rt: &R, hub: &mut Hub) -> Result<(), DocdFault> {
    let alloc = rt.alloc();
    let writer = BufWriter::new(alloc, io::writer(rt)).map_err(|_| DocdFault::NoMemory)?;
    script::script(
        alloc,
        hub,
        &mut CountedReader::of(rt.reader()),
        &mut CountedWriter::of(writer),
    )?;
    Ok(())
}
