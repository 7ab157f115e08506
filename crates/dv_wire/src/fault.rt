//! Why no session is opened, or one over a reader and a writer ends.

ghost use Rattle.std.specs.Prelude.{◌≡◌};
ghost use Rattle.dv_wire.specs.declared.fault.HubFault.TheVariants as hub_faults;
ghost use Rattle.dv_wire.specs.declared.fault.RunFault.TheVariants as run_faults;

use std::alloc::{AllocError, AllocFailed};

/// Why no session is opened.
#[derive(Clone, Copy, Debug, PartialEq, Eq)]
pub enum HubFault {
    /// As many sessions as are allowed are opened and not ended, or no number is left.
    TooManySessions,
    /// Memory ran out.
    NoMemory,
}

impl HubFault {
    ghost use Rattle.dv_wire.specs.Fault.{hub_number};

    /// The fault's number: 1 TooManySessions, 2 NoMemory.
    pub fn number(&self) -> u8
        ensures { result ≡ hub_number self.now }
    {
        match self {
            HubFault::TooManySessions => 1,
            HubFault::NoMemory => 2,
        }
    }
}

/// Why a whole session over a reader and a writer ends before the end of input, except for a closing fault.
#[derive(Clone, Copy, Debug, PartialEq, Eq)]
pub enum RunFault {
    /// The reader failed.
    Read,
    /// The writer failed, or took no byte.
    Write,
    /// As many reads as are allowed were made.
    TooManyReads,
    /// No session is opened, or memory ran out for what is read.
    Hub(HubFault),
}

impl RunFault {
    ghost use Rattle.dv_wire.specs.Fault.{run_number};

    /// The fault's number: 1 Read, 2 Write, 3 TooManyReads, 4 Hub.
    pub fn number(&self) -> u8
        ensures { result ≡ run_number self.now }
    {
        match self {
            RunFault::Read => 1,
            RunFault::Write => 2,
            RunFault::TooManyReads => 3,
            RunFault::Hub(_) => 4,
        }
    }
}

impl<T: Drop> From<AllocFailed<T>> for HubFault {
    ghost from_gives = { λ _ fault. fault ≡ hub_faults.NoMemory };

    fn from(_e: AllocFailed<T>) -> HubFault {
        HubFault::NoMemory
    }
}

impl From<HubFault> for RunFault {
    ghost from_gives = { λ fault e. e ≡ run_faults.Hub fault };

    fn from(fault: HubFault) -> RunFault {
        RunFault::Hub(fault)
    }
}

impl From<AllocError> for RunFault {
    ghost from_gives = { λ _ e. e ≡ run_faults.Hub hub_faults.NoMemory };

    fn from(_e: AllocError) -> RunFault {
        RunFault::Hub(HubFault::NoMemory)
    }
}
