//! Why a text is no path, or a value can't be put where a path leads.

ghost use Rattle.std.specs.Prelude.{◌≡◌};
ghost use Rattle.dv_candidates.specs.declared.fault.PathFault.TheVariants.{NoMemory};

use std::alloc::{AllocError, AllocFailed};
use std::error::Error;
use std::fmt;

/// Why a text is no path, or why a value can't be put at a path. Its text is its name.
#[derive(Clone, Copy, Debug, PartialEq, Eq)]
pub enum PathFault {
    /// A component that is empty or holds a zero byte.
    EmptyComponent,
    /// The path leads through a value that is neither a document nor an array, or through an array by a component that is
    /// no whole number.
    NotViable,
    /// The path leads beyond the end of an array, past index 100,000.
    IndexTooLarge,
    /// Memory ran out.
    NoMemory,
}

impl PathFault {
    ghost use Rattle.dv_candidates.specs.Fault.{path_fault_number};

    /// The fault's number, from 1 in the order in which the faults are declared.
    pub fn number(&self) -> u8
        ensures { result ≡ path_fault_number self.now }
    {
        match self {
            PathFault::EmptyComponent => 1,
            PathFault::NotViable => 2,
            PathFault::IndexTooLarge => 3,
            PathFault::NoMemory => 4,
        }
    }
}

impl fmt::Display for PathFault {
    ghost use Rattle.std.specs.Prelude.{Some};
    ghost use Rattle.dv_candidates.specs.Fault.{path_fault_text};

    ghost output = { λ f. Some (path_fault_text f) };

    fn fmt<W: fmt::Write>(&self, f: &mut fmt::Formatter<W>) -> fmt::Result {
        match *self {
            PathFault::EmptyComponent => write!(f, "EmptyComponent"),
            PathFault::NotViable => write!(f, "NotViable"),
            PathFault::IndexTooLarge => write!(f, "IndexTooLarge"),
            PathFault::NoMemory => write!(f, "NoMemory"),
        }
    }
}

impl Error for PathFault {}

impl From<AllocError> for PathFault {
    ghost from_gives = { λ _ e. e ≡ NoMemory };

    fn from(_e: AllocError) -> PathFault {
        PathFault::NoMemory
    }
}

impl<T: Drop> From<AllocFailed<T>> for PathFault {
    ghost from_gives = { λ _ e. e ≡ NoMemory };

    fn from(_e: AllocFailed<T>) -> PathFault {
        PathFault::NoMemory
    }
}
