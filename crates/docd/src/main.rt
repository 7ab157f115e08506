//! The program `docd`: a document database that takes its clients' messages from standard input or from connections, and
//! loads and checks files of documents.
#![tactic(auto)]

mod program;

use dv_words::fault::status;
use program::docd;
use std::process::ExitCode;

fn main(rt: HostRuntime) -> ExitCode {
    match docd(&rt, &rt.stderr()) {
        Ok(()) => ExitCode::SUCCESS,
        Err(fault) => {
            // If standard error fails too, only the exit status shows the fault.
            let _ = eprintln!(rt; "docd: {fault}");
            ExitCode::from(status(&fault))
        }
    }
}
