//! Why a document is no update, or can't be updated.

ghost use Rattle.std.specs.Prelude.{◌≡◌};
ghost use Rattle.dv_update.specs.declared.fault.UpdateFault.TheVariants.{NoMemory};

use dv_candidates::PathFault;
use dv_match::FilterFault;
use std::alloc::{AllocError, AllocFailed};
use std::error::Error;
use std::fmt;

/// Why a document is no update, or can't be updated. Its text is its name.
#[derive(Clone, Copy, Debug, PartialEq, Eq)]
pub enum UpdateFault {
    /// A name that begins with `$` and is no operator, or a name without `$` among operators; `$push` of a document whose first
    /// name begins with `$` and that isn't only `$each`.
    UnknownOperator,
    /// Two paths of which one equals or begins the other.
    Conflict,
    /// A path leads through a value that is neither a document nor an array, through an array by a component that is no
    /// whole number, or beyond an array's end past index 100,000.
    NotViable,
    /// `$inc` by, or of, a value that is no number.
    NotNumber,
    /// A sum that doesn't fit 64 bits.
    Overflow,
    /// `$push` or `$pull` of a value that is no array.
    NotArray,
    /// The result doesn't begin with the `_id` that the document had, in the same encoding.
    IdChanged,
    /// The result has more than 16,777,216 bytes.
    TooLarge,
    /// The result has more than 100 levels.
    TooDeep,
    /// Memory ran out.
    NoMemory,
    /// A path with a component that is empty, holds a zero byte or begins with `$`; a replacement with a top-level name
    /// that begins with `$`, or a name with a dot at any level.
    BadName,
    /// An operator's operand that is no document; `$each` of a value that is no array; `$pull` with a document that is no
    /// condition.
    BadOperand,
}

impl UpdateFault {
    ghost use Rattle.dv_update.specs.Fault.{fault_number};

    /// The fault's number, from 1 in the order in which the faults are declared.
    pub fn number(&self) -> u8
        ensures { result ≡ fault_number self.now }
    {
        match self {
            UpdateFault::UnknownOperator => 1,
            UpdateFault::Conflict => 2,
            UpdateFault::NotViable => 3,
            UpdateFault::NotNumber => 4,
            UpdateFault::Overflow => 5,
            UpdateFault::NotArray => 6,
            UpdateFault::IdChanged => 7,
            UpdateFault::TooLarge => 8,
            UpdateFault::TooDeep => 9,
            UpdateFault::NoMemory => 10,
            UpdateFault::BadName => 11,
            UpdateFault::BadOperand => 12,
        }
    }
}

impl fmt::Display for UpdateFault {
    ghost use Rattle.std.specs.Prelude.{Some};
    ghost use Rattle.dv_update.specs.Fault.{fault_text};

    ghost output = { λ f. Some (fault_text f) };

    fn fmt<W: fmt::Write>(&self, f: &mut fmt::Formatter<W>) -> fmt::Result {
        match *self {
            UpdateFault::UnknownOperator => write!(f, "UnknownOperator"),
            UpdateFault::Conflict => write!(f, "Conflict"),
            UpdateFault::NotViable => write!(f, "NotViable"),
            UpdateFault::NotNumber => write!(f, "NotNumber"),
            UpdateFault::Overflow => write!(f, "Overflow"),
            UpdateFault::NotArray => write!(f, "NotArray"),
            UpdateFault::IdChanged => write!(f, "IdChanged"),
            UpdateFault::TooLarge => write!(f, "TooLarge"),
            UpdateFault::TooDeep => write!(f, "TooDeep"),
            UpdateFault::NoMemory => write!(f, "NoMemory"),
            UpdateFault::BadName => write!(f, "BadName"),
            UpdateFault::BadOperand => write!(f, "BadOperand"),
        }
    }
}

impl Error for UpdateFault {}

impl From<AllocError> for UpdateFault {
    ghost from_gives = { λ _ e. e ≡ NoMemory };

    fn from(_e: AllocError) -> UpdateFault {
        UpdateFault::NoMemory
    }
}

impl<T: Drop> From<AllocFailed<T>> for UpdateFault {
    ghost from_gives = { λ _ e. e ≡ NoMemory };

    fn from(_e: AllocFailed<T>) -> UpdateFault {
        UpdateFault::NoMemory
    }
}

impl From<PathFault> for UpdateFault {
    ghost use Rattle.dv_update.specs.OtherFaults.{of_path};

    ghost from_gives = { λ fault e. e ≡ of_path fault };

    fn from(fault: PathFault) -> UpdateFault {
        match fault {
            PathFault::EmptyComponent => UpdateFault::BadName,
            PathFault::NotViable => UpdateFault::NotViable,
            PathFault::IndexTooLarge => UpdateFault::NotViable,
            PathFault::NoMemory => UpdateFault::NoMemory,
        }
    }
}

impl From<FilterFault> for UpdateFault {
    ghost use Rattle.dv_update.specs.OtherFaults.{of_filter};

    ghost from_gives = { λ fault e. e ≡ of_filter fault };

    fn from(fault: FilterFault) -> UpdateFault {
        match fault {
            FilterFault::NoMemory => UpdateFault::NoMemory,
            _ => UpdateFault::BadOperand,
        }
    }
}
