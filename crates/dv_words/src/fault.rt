//! Why the program ends before all is done.

ghost use Rattle.std.specs.Prelude.{◌≡◌, ◌≢◌};
ghost use Rattle.dv_words.specs.Faults.{NamesCode, TellsLoad, fault_of_check};

use clap::Error as WordFault;
use clap::error::ErrorKind;
use dv_files::check::CheckFault;
use dv_files::fault::LoadFault;
use dv_value::BsonFault;
use std::alloc::AllocError;
use thiserror::Error;

/// Why the program ends before all is done. Its text is what standard error shows.
#[derive(Debug, Drop, Error)]
pub enum DocdFault {
    /// The arguments have none of the program's forms.
    #[error("usage")]
    Usage,
    /// A file can't be opened or read to its end.
    #[error("{file}: cannot read")]
    CannotRead {
        file: String,
    },
    /// A file has more than 1,073,741,824 bytes.
    #[error("{file}: too large")]
    TooLarge {
        file: String,
    },
    /// A document in a file has a fault. The document has this number, counted from 1, and begins at this byte, counted from 0.
    #[error("{file}: document {number} at byte {at}: {fault}")]
    Document {
        file: String,
        number: usize,
        at: usize,
        fault: BsonFault,
    },
    /// A document in a file is refused under a namespace, and `why` is the reason.
    #[error("{file}: document {number} at byte {at}: {why}")]
    Refused {
        file: String,
        number: usize,
        at: usize,
        why: &'static str,
    },
    /// The only session was closed, with the fault of this number.
    #[error("closed {0}")]
    Closed(u8),
    /// The port isn't available, or no connection could be accepted.
    #[error("cannot serve")]
    Serve,
    /// Standard input failed, or took too many reads.
    #[error("read failed")]
    Read,
    /// Standard output takes no more.
    #[error("write failed")]
    Write,
    /// Memory ran out.
    #[error("no memory")]
    NoMemory,
    /// The hub opens no further session.
    #[error("too many sessions")]
    Sessions,
    /// The script ended before its last line.
    #[error(transparent)]
    Script(#[from] ScriptFault),
}

impl DocdFault {
    /// The program's fault for this fault of a check.
    pub fn of_check(file: String, fault: CheckFault) -> DocdFault
        ensures { result ≡ fault_of_check file fault }
    {
        match fault {
            CheckFault::Read => DocdFault::CannotRead { file },
            CheckFault::Write => DocdFault::Write,
            CheckFault::Document { number, at, fault } => DocdFault::Document {
                file,
                number,
                at,
                fault,
            },
            CheckFault::TooLarge => DocdFault::TooLarge { file },
            CheckFault::NoMemory => DocdFault::NoMemory,
        }
    }

    /// Why a file is not loaded.
    pub fn of_load(file: String, fault: LoadFault) -> DocdFault
        ensures { TellsLoad file fault result }
    {
        match fault {
            LoadFault::Read => DocdFault::CannotRead { file },
            LoadFault::TooLarge => DocdFault::TooLarge { file },
            LoadFault::Document { number, at, fault } => DocdFault::Document {
                file,
                number,
                at,
                fault,
            },
            LoadFault::Refused { number, at, code } => DocdFault::Refused {
                file,
                number,
                at,
                why: why_refused(code),
            },
            LoadFault::NoMemory => DocdFault::NoMemory,
        }
    }
}

/// The name of a code with which a document is refused.
fn why_refused(code: i32) -> &'static str
    ensures { NamesCode code result.now }
{
    match code {
        2 => "BadValue",
        901 => "TooLarge",
        902 => "OnView",
        11000 => "DuplicateKey",
        _ => "Refused",
    }
}

impl From<AllocError> for DocdFault {
    ghost use Rattle.dv_words.specs.declared.fault.DocdFault.TheVariants.{NoMemory};

    ghost from_gives = { λ _ e. e ≡ NoMemory };

    fn from(_e: AllocError) -> DocdFault {
        DocdFault::NoMemory
    }
}

impl From<WordFault> for DocdFault {
    fn from(fault: WordFault) -> DocdFault {
        match fault.kind() {
            ErrorKind::OutOfMemory => DocdFault::NoMemory,
            _ => DocdFault::Usage,
        }
    }
}

/// The exit status of a fault: 2 for arguments that have none of the program's forms, otherwise 1.
pub fn status(fault: &DocdFault) -> u8
    ensures usage { fault.now ≡ DocdFault.Usage → result ≡ 2 }
    ensures other { fault.now ≢ DocdFault.Usage → result ≡ 1 }
{
    match fault {
        DocdFault::Usage => 2,
        _ => 1,
    }
}

/// Why a script ends before its last line.
#[derive(Clone, Copy, Debug, PartialEq, Eq, Error)]
pub enum ScriptFault {
    /// A line has none of the forms, or is too long. Lines are counted from 1, skipped ones included.
    #[error("line {line}: bad line")]
    BadLine { line: u64 },
    /// The reader failed.
    #[error("read failed")]
    Read,
    /// The script didn't end within 4,294,967,296 reads.
    #[error("read failed")]
    TooManyReads,
    /// The writer failed.
    #[error("write failed")]
    Write,
    /// Memory ran out.
    #[error("no memory")]
    NoMemory,
    /// The hub opens no further session.
    #[error("too many sessions")]
    Sessions,
}

impl From<AllocError> for ScriptFault {
    ghost use Rattle.dv_words.specs.declared.fault.ScriptFault.TheVariants.{NoMemory};

    ghost from_gives = { λ _ e. e ≡ NoMemory };

    fn from(_e: AllocError) -> ScriptFault {
        ScriptFault::NoMemory
    }
}
