//! Why a session is closed.

ghost use Rattle.std.specs.Prelude.{◌≡◌};
ghost use Rattle.dv_message.specs.declared.fault.CloseFault.TheVariants.{NoMemory};

use std::alloc::{AllocError, AllocFailed};

/// What closes a session.
#[derive(Clone, Copy, Debug, PartialEq, Eq)]
pub enum CloseFault {
    /// A message's length is under 26 or over 48,000,000 bytes.
    BadLength,
    /// The operation code isn't that of OP_MSG, 2013.
    BadOpCode,
    /// One of the flag bits 2 to 15 is set.
    BadFlag,
    /// The flag checksumPresent is set.
    Checksum,
    /// The sections are not valid, or are not one body and lists with distinct names.
    BadSection,
    /// Memory ran out for a session's bytes, for a reply, or for a command whose reply moreToCome leaves out.
    NoMemory,
}

impl CloseFault {
    ghost use Rattle.dv_message.specs.Fault.{close_number};

    /// The fault's number, from 1 to 6 in the order in which the faults are declared.
    pub fn number(&self) -> u8
        ensures { result ≡ close_number self.now }
    {
        match self {
            CloseFault::BadLength => 1,
            CloseFault::BadOpCode => 2,
            CloseFault::BadFlag => 3,
            CloseFault::Checksum => 4,
            CloseFault::BadSection => 5,
            CloseFault::NoMemory => 6,
        }
    }
}

impl From<AllocError> for CloseFault {
    ghost from_gives = { λ _ fault. fault ≡ NoMemory };

    fn from(_e: AllocError) -> CloseFault {
        CloseFault::NoMemory
    }
}

impl<T: Drop> From<AllocFailed<T>> for CloseFault {
    ghost from_gives = { λ _ fault. fault ≡ NoMemory };

    fn from(_e: AllocFailed<T>) -> CloseFault {
        CloseFault::NoMemory
    }
}
