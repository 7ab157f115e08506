//! The program's arguments, and the texts of its faults.

use dv_value::BsonFault;
use dv_words::fault::{DocdFault, ScriptFault, status};
use dv_words::words::{Job, Load, words};
use std::alloc::Global;
use std::test::Fail;

/// The result for these arguments, without the program's name: the job, or the fault and its status.
fn asked(alloc: Global, line: &str) -> Result<String, Fail> {
    let mut all = Vec::new(alloc);
    all.push(String::from_str(alloc, "docd")?)?;
    for word in line.split(' ') {
        all.push(String::from_str(alloc, word)?)?;
    }
    match words(alloc, all.as_slice()) {
        Ok(job) => told(alloc, &job),
        Err(fault) => said(alloc, &fault),
    }
}

/// The status and the text of a fault.
fn said(alloc: Global, fault: &DocdFault) -> Result<String, Fail> {
    let status = status(fault);
    Ok(format!(in alloc; "{status} {fault}")?)
}

/// A job as text.
fn told(alloc: Global, job: &Job) -> Result<String, Fail> {
    let mut text = String::new(alloc);
    match job {
        Job::Run { hex, loads } => {
            write!(text, "run {hex}")?;
            add_loads(&mut text, loads.as_slice())?;
        }
        Job::Check { file } => write!(text, "check {file}")?,
        Job::Serve { port, connections } => write!(text, "serve {connections} at {port}")?,
        Job::Listen {
            port,
            connections,
            loads,
        } => {
            match connections {
                Some(connections) => write!(text, "listen to {connections} at {port}")?,
                None => write!(text, "listen at {port}")?,
            }
            add_loads(&mut text, loads.as_slice())?;
        }
    }
    Ok(text)
}

/// Appends loads to a job's text.
fn add_loads(text: &mut String, loads: &[Load]) -> Result<(), Fail> {
    for load in loads {
        write!(text, " {} < {}", load.namespace, load.file)?;
    }
    Ok(())
}

/// Arguments, and the result for them.
const ASKED: &[(&str, &str)] = &[
    ("run", "run false"),
    ("run --hex", "run true"),
    ("run --load t.c=f", "run false t.c < f"),
    (
        "run --load t.c=a=b --hex --load=.=",
        "run true t.c < a=b . < ",
    ),
    ("check f", "check f"),
    ("check a=b", "check a=b"),
    ("serve --port 1 --connections 0", "serve 0 at 1"),
    (
        "serve --connections 1000000 --port 65535",
        "serve 1000000 at 65535",
    ),
    ("listen --port 1", "listen at 1"),
    (
        "listen --port 65535 --connections 0",
        "listen to 0 at 65535",
    ),
    (
        "listen --load t.c=f --connections 1000000 --port 9 --load t.d=g",
        "listen to 1000000 at 9 t.c < f t.d < g",
    ),
    ("", "2 usage"),
    ("--hex", "2 usage"),
    ("--help", "2 usage"),
    ("help", "2 usage"),
    ("run --hex --hex", "2 usage"),
    ("run --hex x", "2 usage"),
    ("run --help", "2 usage"),
    ("run --load", "2 usage"),
    ("run --load t.c", "2 usage"),
    ("run --load tc=f", "2 usage"),
    ("run --load tc=f.g", "2 usage"),
    ("check", "2 usage"),
    ("check f g", "2 usage"),
    ("check --hex f", "2 usage"),
    ("serve", "2 usage"),
    ("serve --port 1", "2 usage"),
    ("serve --connections 1", "2 usage"),
    ("serve --port 0 --connections 1", "2 usage"),
    ("serve --port 65536 --connections 1", "2 usage"),
    ("serve --port x --connections 1", "2 usage"),
    ("serve --port 1 --connections -1", "2 usage"),
    ("serve --port 1 --connections 1000001", "2 usage"),
    ("serve --port 1 --port 1 --connections 1", "2 usage"),
    ("listen", "2 usage"),
    ("listen --connections 1", "2 usage"),
    ("listen --port 0", "2 usage"),
    ("listen --port 65536", "2 usage"),
    ("listen --port 1 --connections 1000001", "2 usage"),
    ("listen --port 1 --port 1", "2 usage"),
    ("listen --port 1 --load tc=f", "2 usage"),
    ("listen --port 1 --hex", "2 usage"),
    ("stop", "2 usage"),
];

#[test]
fn takes_its_forms_of_words_alone(rt: HostRuntime) -> Result<(), Fail> {
    for (line, want) in ASKED {
        assert_eq!(rt; asked(rt.alloc(), line)?.as_str(), *want, "{line:?}");
    }
    Ok(())
}

#[test]
fn tells_faults_of_files(rt: HostRuntime) -> Result<(), Fail> {
    let alloc = rt.alloc();
    let file = String::from_str(alloc, "a b")?;
    let text = said(alloc, &DocdFault::CannotRead { file })?;
    assert_eq!(rt; text.as_str(), "1 a b: cannot read");
    let file = String::from_str(alloc, "f")?;
    let text = said(alloc, &DocdFault::TooLarge { file })?;
    assert_eq!(rt; text.as_str(), "1 f: too large");
    let fault = DocdFault::Document {
        file: String::from_str(alloc, "f")?,
        number: 2,
        at: 14,
        fault: BsonFault::RefusedType { byte: 1, at: 4 },
    };
    assert_eq!(rt;
        said(alloc, &fault)?.as_str(),
        "1 f: document 2 at byte 14: RefusedType 0x01 at 4"
    );
    Ok(())
}

#[test]
fn tells_other_faults(rt: HostRuntime) -> Result<(), Fail> {
    let rows = [
        (DocdFault::Usage, "2 usage"),
        (DocdFault::Closed(5), "1 closed 5"),
        (DocdFault::Serve, "1 cannot serve"),
        (DocdFault::Read, "1 read failed"),
        (DocdFault::Write, "1 write failed"),
        (DocdFault::NoMemory, "1 no memory"),
        (DocdFault::Sessions, "1 too many sessions"),
        (
            DocdFault::Script(ScriptFault::BadLine { line: 12 }),
            "1 line 12: bad line",
        ),
        (DocdFault::Script(ScriptFault::Read), "1 read failed"),
        (DocdFault::Script(ScriptFault::Write), "1 write failed"),
        (DocdFault::Script(ScriptFault::NoMemory), "1 no memory"),
        (
            DocdFault::Script(ScriptFault::Sessions),
            "1 too many sessions",
        ),
    ];
    for (fault, want) in &rows {
        assert_eq!(rt; said(rt.alloc(), fault)?.as_str(), *want);
    }
    Ok(())
}
