//! Why a document is no filter.

ghost use Rattle.std.specs.Prelude.{◌≡◌};
ghost use Rattle.dv_match.specs.declared.fault.FilterFault.TheVariants.{NoMemory};

use dv_candidates::PathFault;
use std::alloc::{AllocError, AllocFailed};
use std::error::Error;
use std::fmt;

/// Why a document is no filter. Its text is its name.
#[derive(Clone, Copy, Debug, PartialEq, Eq)]
pub enum FilterFault {
    /// A name that begins with `$` and is no operator at this place, or another name among operators.
    UnknownOperator,
    /// A value that the operator before it doesn't take.
    BadOperand,
    /// `$and`, `$or` or `$nor` of an empty array.
    EmptyList,
    /// A name that is no path: a component is empty or holds a zero byte.
    BadPath,
    /// Memory ran out.
    NoMemory,
}

impl FilterFault {
    ghost use Rattle.dv_match.specs.Fault.{filter_fault_number};

    /// The fault's number, from 1 in the order in which the faults are declared.
    pub fn number(&self) -> u8
        ensures { result ≡ filter_fault_number self.now }
    {
        match self {
            FilterFault::UnknownOperator => 1,
            FilterFault::BadOperand => 2,
            FilterFault::EmptyList => 3,
            FilterFault::BadPath => 4,
            FilterFault::NoMemory => 5,
        }
    }
}

impl fmt::Display for FilterFault {
    ghost use Rattle.std.specs.Prelude.{Some};
    ghost use Rattle.dv_match.specs.Fault.{filter_fault_text};

    ghost output = { λ f. Some (filter_fault_text f) };

    fn fmt<W: fmt::Write>(&self, f: &mut fmt::Formatter<W>) -> fmt::Result {
        match *self {
            FilterFault::UnknownOperator => write!(f, "UnknownOperator"),
            FilterFault::BadOperand => write!(f, "BadOperand"),
            FilterFault::EmptyList => write!(f, "EmptyList"),
            FilterFault::BadPath => write!(f, "BadPath"),
            FilterFault::NoMemory => write!(f, "NoMemory"),
        }
    }
}

impl Error for FilterFault {}

impl From<AllocError> for FilterFault {
    ghost from_gives = { λ _ e. e ≡ NoMemory };

    fn from(_e: AllocError) -> FilterFault {
        FilterFault::NoMemory
    }
}

impl<T: Drop> From<AllocFailed<T>> for FilterFault {
    ghost from_gives = { λ _ e. e ≡ NoMemory };

    fn from(_e: AllocFailed<T>) -> FilterFault {
        FilterFault::NoMemory
    }
}

impl From<PathFault> for FilterFault {
    ghost use Rattle.dv_match.specs.Inner.PathFault.{of_path};

    ghost from_gives = { λ fault e. e ≡ of_path fault };

    fn from(fault: PathFault) -> FilterFault {
        match fault {
            PathFault::NoMemory => FilterFault::NoMemory,
            _ => FilterFault::BadPath,
        }
    }
}
