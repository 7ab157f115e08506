//! What the program does by its words, on its standard streams, its files and its ports.

use dv_load::{check_file, load_all};
use dv_scripts::run_script;
use dv_serving::{listen_at, run_session, serve_at};
use dv_wire::{Hub, Store};
use dv_words::fault::DocdFault;
use dv_words::words;
use dv_words::words::{Job, Load};
use std::env;
use std::io::{ErrorKind, IsTerminal};
use std::mem::ManuallyDrop;
use std::net::{Net, TcpListener, TcpStream};
use std::rt::{Env, Files};

/// Does what the program's words ask for, on its standard streams, its files and its ports. The fault is why it ends without
/// having done all.
pub fn docd<R, E>(rt: &R, standard_error: &E) -> Result<(), DocdFault>
where
    R: Env + Files + Input + Print + Net<Listener = TcpListener, Stream = TcpStream> + AllocGlobal,
    E: Eprint + IsTerminal,
{
    let alloc = rt.alloc();
    let words = env::args(rt).map_err(|error| match error.kind() {
        ErrorKind::OutOfMemory => DocdFault::NoMemory,
        _ => DocdFault::Usage,
    })?;
    let words: Vec<String> = words.collect(alloc)?;
    match words::words(alloc, words.as_slice())? {
        Job::Run { hex, loads } => {
            let mut hub = hub_with(rt, standard_error, loads)?;
            if hex {
                run_script(rt, &mut hub)
            } else {
                run_session(rt, &mut hub)
            }
        }
        Job::Check { file } => check_file(rt, file),
        Job::Serve { port, connections } => {
            let mut hub = hub_with(rt, standard_error, Vec::new(alloc))?;
            serve_at(rt, &mut hub, port, connections)
        }
        Job::Listen {
            port,
            connections,
            loads,
        } => {
            let mut hub = hub_with(rt, standard_error, loads)?;
            listen_at(rt, &mut hub, port, connections)
        }
    }
}

/// A hub over a store with the documents of these files. Fails as `load_all` does. Nothing drops the hub: the program ends right
/// after it, and then the system frees all memory at once.
fn hub_with<R, E>(
    rt: &R,
    standard_error: &E,
    loads: Vec<Load>,
) -> Result<ManuallyDrop<Hub>, DocdFault>
where
    R: Files + AllocGlobal,
    E: Eprint + IsTerminal,
{
    let alloc = rt.alloc();
    let mut store = ManuallyDrop::new(Store::new(alloc));
    load_all(rt, standard_error, &mut store, loads)?;
    let hub = Hub::new(alloc, ManuallyDrop::into_inner(store));
    Ok(ManuallyDrop::new(hub))
}
