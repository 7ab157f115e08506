//! Why a document is not inserted.

ghost use Rattle.std.specs.Prelude.{◌≡◌};
ghost use Rattle.dv_coll.specs.declared.fault.InsertFault.TheVariants.{NoMemory};

use std::alloc::{AllocError, AllocFailed};
use std::error::Error;
use std::fmt;

/// Why a document is not inserted. Its text is its name.
#[derive(Clone, Copy, Debug, PartialEq, Eq)]
pub enum InsertFault {
    /// A document of the collection has an equal `_id`.
    Duplicate,
    /// Memory ran out.
    NoMemory,
}

impl InsertFault {
    ghost use Rattle.dv_coll.specs.Inner.Fault.{fault_number};

    /// The fault's number, from 1 in the order in which the faults are declared.
    pub fn number(&self) -> u8
        ensures { result ≡ fault_number self.now }
    {
        match self {
            InsertFault::Duplicate => 1,
            InsertFault::NoMemory => 2,
        }
    }
}

impl fmt::Display for InsertFault {
    ghost use Rattle.std.specs.Prelude.{Some};
    ghost use Rattle.dv_coll.specs.Inner.Fault.{fault_text};

    ghost output = { λ f. Some (fault_text f) };

    fn fmt<W: fmt::Write>(&self, f: &mut fmt::Formatter<W>) -> fmt::Result {
        match *self {
            InsertFault::Duplicate => write!(f, "Duplicate"),
            InsertFault::NoMemory => write!(f, "NoMemory"),
        }
    }
}

impl Error for InsertFault {}

impl From<AllocError> for InsertFault {
    ghost from_gives = { λ _ e. e ≡ NoMemory };

    fn from(_e: AllocError) -> InsertFault {
        InsertFault::NoMemory
    }
}

impl<T: Drop> From<AllocFailed<T>> for InsertFault {
    ghost from_gives = { λ _ e. e ≡ NoMemory };

    fn from(_e: AllocFailed<T>) -> InsertFault {
        InsertFault::NoMemory
    }
}
