//! Files by their names: those that are loaded, and one that is checked.

use crate::load::load_file_telling;
use crate::progress::TerminalLine;
use dv_core::Store;
use dv_files::check;
use dv_streams::{CountedReader, CountedWriter};
use dv_words::fault::DocdFault;
use dv_words::words::Load;
use std::io::{BufWriter, IsTerminal};
use std::rt::Files;
use std::{fs, io};

/// Loads the documents of these files, in their order. Fails with `CannotRead` if a file can't be opened or not be read to its end,
/// and else with the fault of the first load that has one; what was loaded before it stays. If standard error is a terminal, it
/// shows how far a long load is.
pub fn load_all<R, E>(
    rt: &R,
    standard_error: &E,
    store: &mut Store,
    loads: Vec<Load>,
) -> Result<(), DocdFault>
where
    R: Files + AllocGlobal,
    E: Eprint + IsTerminal,
{
    let alloc = rt.alloc();
    for Load { namespace, file } in loads {
        let mut reader = match fs::open(rt, &file) {
            Ok(reader) => CountedReader::of(reader),
            Err(_) => return Err(DocdFault::CannotRead { file }),
        };
        let mut line = TerminalLine::of(standard_error, file.as_str());
        let told = load_file_telling(alloc, store, &namespace, &mut reader, &mut line);
        line.end();
        told.map_err(|fault| DocdFault::of_load(file, fault))?;
    }
    Ok(())
}

/// Writes how many documents a file holds to standard output, as `check` does. Fails with `CannotRead` if it can't be opened or not
/// be read to its end, with `NoMemory` if there is no memory for the writer's buffer, and else with the fault of the check.
pub fn check_file<R: Files + Print + AllocGlobal>(rt: &R, file: String) -> Result<(), DocdFault> {
    let alloc = rt.alloc();
    let writer = BufWriter::new(alloc, io::writer(rt)).map_err(|_| DocdFault::NoMemory)?;
    let mut writer = CountedWriter::of(writer);
    let mut reader = match fs::open(rt, &file) {
        Ok(reader) => CountedReader::of(reader),
        Err(_) => return Err(DocdFault::CannotRead { file }),
    };
    check::check(alloc, &mut reader, &mut writer).map_err(|fault| DocdFault::of_check(file, fault))
}
