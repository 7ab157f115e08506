//! The program's arguments.

ghost use Rattle.std.specs.Prelude.{◌≡◌, Err, Some, None, IfOk, string_bytes};
ghost use Rattle.dv_words.specs.Inner.Words.{load_in};

use crate::fault::DocdFault;
use clap::{Arg, ArgAction, ArgMatches, Command, value_parser};
use std::alloc::{AllocError, Global};

/// What the program is asked to do.
#[derive(Debug, Drop)]
pub enum Job {
    /// To take one session's bytes, or with `hex` a script, from standard input, after these loads in order.
    Run {
        hex: bool,
        loads: Vec<Load>,
    },
    /// To report how many documents a file holds.
    Check {
        file: String,
    },
    /// To serve this many connections, one after the other, at a port of this machine.
    Serve {
        port: u16,
        connections: u32,
    },
    /// To serve connections, many of them at once, at a port of this machine, after these loads in order: this many, or without
    /// end.
    Listen {
        port: u16,
        connections: Option<u32>,
        loads: Vec<Load>,
    },
}

/// A file whose documents are inserted under a namespace.
#[derive(Debug, Drop)]
pub struct Load {
    pub namespace: String,
    pub file: String,
}

/// What the arguments ask for. The first is the program's name, and the others have one of these forms:
///
/// - `run [--hex] [--load DB.COLL=FILE]..`;
/// - `check FILE`;
/// - `serve --port P --connections N`, with P from 1 to 65535 and N from 0 to 1000000;
/// - `listen --port P [--connections N] [--load DB.COLL=FILE]..`, with the same P and N.
///
/// Options may come in any order. Fails with `Usage` for any other arguments, including a call for help, and for a load without `=`
/// or without a dot before its first `=`; and with `NoMemory` when memory runs out.
pub fn words(alloc: Global, words: &[String]) -> Result<Job, DocdFault> {
    let matches = docd(alloc)?.try_get_matches_from(words)?;
    match matches.subcommand() {
        Some(("run", run)) => Ok(Job::Run {
            hex: run.get_flag("hex"),
            loads: loads(alloc, run)?,
        }),
        Some(("check", check)) => match check.get_str("file") {
            Some(file) => Ok(Job::Check {
                file: String::from_str(alloc, file)?,
            }),
            None => Err(DocdFault::Usage),
        },
        Some(("serve", serve)) => match (serve.get_one("port"), serve.get_one("connections")) {
            (Some(port), Some(connections)) => Ok(Job::Serve { port, connections }),
            _ => Err(DocdFault::Usage),
        },
        Some(("listen", listen)) => match listen.get_one("port") {
            Some(port) => Ok(Job::Listen {
                port,
                connections: listen.get_one("connections"),
                loads: loads(alloc, listen)?,
            }),
            None => Err(DocdFault::Usage),
        },
        _ => Err(DocdFault::Usage),
    }
}

/// The forms that the arguments may have.
fn docd<'a>(alloc: Global) -> Result<Command<'a>, AllocError> {
    Command::new(alloc, "docd")
        .subcommand(run(alloc)?)?
        .subcommand(check(alloc)?)?
        .subcommand(serve(alloc)?)?
        .subcommand(listen(alloc)?)
}

fn run<'a>(alloc: Global) -> Result<Command<'a>, AllocError> {
    let hex = Arg::new(alloc, "hex")
        .long("hex")
        .action(ArgAction::SetTrue);
    Command::new(alloc, "run")
        .arg(hex)?
        .arg(load_argument(alloc))
}

fn check<'a>(alloc: Global) -> Result<Command<'a>, AllocError> {
    let file = Arg::new(alloc, "file").required(true);
    Command::new(alloc, "check").arg(file)
}

fn serve<'a>(alloc: Global) -> Result<Command<'a>, AllocError> {
    Command::new(alloc, "serve")
        .arg(port_argument(alloc))?
        .arg(connections_argument(alloc).required(true))
}

fn listen<'a>(alloc: Global) -> Result<Command<'a>, AllocError> {
    Command::new(alloc, "listen")
        .arg(port_argument(alloc))?
        .arg(connections_argument(alloc))?
        .arg(load_argument(alloc))
}

fn port_argument<'a>(alloc: Global) -> Arg<'a> {
    Arg::new(alloc, "port")
        .long("port")
        .required(true)
        .value_parser(value_parser!(u16).range(1..))
}

fn connections_argument<'a>(alloc: Global) -> Arg<'a> {
    Arg::new(alloc, "connections")
        .long("connections")
        .value_parser(value_parser!(u32).range(0..=1_000_000))
}

fn load_argument<'a>(alloc: Global) -> Arg<'a> {
    Arg::new(alloc, "load")
        .long("load")
        .action(ArgAction::Append)
}

/// The loads that are given, in order.
fn loads(alloc: Global, given: &ArgMatches<'_>) -> Result<Vec<Load>, DocdFault> {
    let mut loads = Vec::new(alloc);
    for text in given.get_strs("load").unwrap_or_default() {
        loads
            .push(load_of(alloc, text)?)
            .map_err(|_| DocdFault::NoMemory)?;
    }
    Ok(loads)
}

/// What a load's text says: the namespace before its first `=`, which has a dot, and the file after it.
fn load_of(alloc: Global, text: &str) -> Result<Load, DocdFault>
    ensures found { IfOk result (λ load. load_in text.now ≡ Some (string_bytes load.namespace, string_bytes load.file)) }
    ensures refused { result ≡ Err DocdFault.Usage → load_in text.now ≡ None }
{
    match text.split_once('=') {
        Some((namespace, file)) if namespace.as_bytes().contains(&b'.') => Ok(Load {
            namespace: String::from_str(alloc, namespace)?,
            file: String::from_str(alloc, file)?,
        }),
        _ => Err(DocdFault::Usage),
    }
}
